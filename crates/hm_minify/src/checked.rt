//! Loads a text and a certificate, and checks them.
ghost use Rattle.std.specs.Io.{StartsWith};
ghost use Rattle.std.specs.Prelude as prelude;
ghost use Rattle.std.specs.Prelude.{◌≡◌, ◌≢◌, ◌⊎◌, ◌≤◌, ◌-◌, IfOk, IsTrue, Err, false, true, bytes_eq, string_bytes};
ghost use Rattle.hm_input.specs.Pages.{IsRefusedAs};
ghost use Rattle.hm_cert.specs.Certificate.{AreRows};
ghost use Rattle.hm_input.specs.Trees.{Outcome};
ghost use Rattle.hm_elements.specs.Settled.{Settled};
ghost use Rattle.hm_store.specs.Causes.{Rose};
ghost use Rattle.hm_store.specs.Contents.{Sees, Tells};
ghost use Rattle.hm_input.specs.Frames as frames;
ghost use Rattle.hm_input.specs.Frames.{unframed};
ghost use Rattle.hm_minify.specs.Endings as spec;
ghost use Rattle.hm_minify.specs.Lines as lines;

use crate::Status;
use crate::ended::{RunEnd, Stop, says};
use crate::lines::{bad_line_line, too_long_line, why_line, yes_line};
use hm_base::{CERTIFICATE_LIMIT, Format, OUTPUT_LIMIT, OutOfMemory, Refused, Rule, SpellRules};
use hm_cert::{Certificate, CertificateFault, put_head};
use hm_check::{Verdict, Why, check_settled};
use hm_input::{Input, front, read_fragment};
use hm_order::minify_tree;
use hm_refs::Table;
use hm_refs::laws::every_table;
use hm_store::{Store, load, load_over, load_with_prefix};
use std::alloc::Global;

/// The ending with the line for a verdict.
fn say<'w>(alloc: Global, found: Verdict) -> Result<RunEnd<'w>, Stop>
    ensures ended { IfOk result (λ ended. ended ≡ spec.verdict_ending found) }
    ensures memory { result ≢ Err Stop.Store }
{
    match found {
        Verdict::Yes { length } => Ok(says(alloc, Status::Done, yes_line(alloc, length)?)),
        Verdict::No { why } => Ok(says(alloc, Status::No, why_line(alloc, why)?)),
    }
}

/// Checks a text and a certificate, and gives the ending with the line for the verdict.
fn find<'w>(
    alloc: Global,
    input: &Input,
    rules: SpellRules,
    out: &[u8],
    certificate: &Certificate,
) -> Result<RunEnd<'w>, Stop>
    requires rows { AreRows certificate.now.prices }
    requires settled { Settled input.now.tree }
    ensures ended { IfOk result (λ ended. ended ≡ spec.found_ending false rules input.now.table.entries input.now.tree out.now certificate.now) }
    ensures memory { result ≢ Err Stop.Store }
{
    say(
        alloc,
        check_settled(alloc, &input.table, &input.tree, out, certificate, rules)?,
    )
}

/// Whether a certificate starts as a sparse one by these rules does.
fn begins_sparse(alloc: Global, rules: SpellRules, cert: &[u8]) -> bool {
    let mut head = Vec::new(alloc);
    put_head(&mut head, Format::Sparse, rules).is_ok() && cert.starts_with(head.as_slice())
}

/// Whether the bytes are equal.
fn same_bytes(left: &[u8], right: &[u8]) -> bool
    ensures { IsTrue result → left.now ≡ right.now }
{
    left == right
}

/// Writes the tree by these rules, and compares the sparse certificate of that with `cert`. If they are equal and both
/// text and certificate are within their limits, gives the text and true: a check of both would say yes, and they
/// needn't be read. Else gives no text and false.
fn rewritten(alloc: Global, input: &Input, rules: SpellRules, cert: &[u8]) -> (Vec<u8>, bool)
    requires page { rules.frame ≡ false }
    requires settled { Settled input.now.tree }
    ensures { IsTrue result.1 → spec.checked_ending rules input.now.table.entries input.now.tree result.0.items cert.now ≡ spec.says Status.Done (lines.yes_line (prelude.length result.0.items)) }
{
    every_table(&input.table);
    if cert.len() > CERTIFICATE_LIMIT as usize || !begins_sparse(alloc, rules, cert) {
        return (Vec::new(alloc), false);
    }
    match minify_tree(alloc, &input.tree, &input.table, rules, Format::Sparse) {
        Ok(minified) => {
            let is_within = minified.out.len() <= OUTPUT_LIMIT as usize;
            let is_same = same_bytes(minified.certificate.as_slice(), cert);
            (minified.out, is_within & is_same)
        }
        Err(OutOfMemory) => (Vec::new(alloc), false),
    }
}

/// Checks a text and the bytes of a certificate. If they are what is written of the tree, they aren't read.
fn check_bytes<'w>(
    alloc: Global,
    input: &Input,
    rules: SpellRules,
    out: &[u8],
    cert: &[u8],
    is_known: bool,
) -> Result<RunEnd<'w>, Stop>
    requires page { rules.frame ≡ false }
    requires settled { Settled input.now.tree }
    requires known { IsTrue is_known → spec.checked_ending rules input.now.table.entries input.now.tree out.now cert.now ≡ spec.says Status.Done (lines.yes_line (prelude.length out.now)) }
    ensures ended { IfOk result (λ ended. ended ≡ spec.checked_ending rules input.now.table.entries input.now.tree out.now cert.now) }
    ensures memory { result ≢ Err Stop.Store }
{
    if is_known {
        return Ok(says(alloc, Status::Done, yes_line(alloc, out.len() as u64)?));
    }
    match Certificate::read(alloc, cert) {
        Ok(certificate) => find(alloc, input, rules, out, &certificate),
        Err(CertificateFault::TooLong) => Ok(says(alloc, Status::No, too_long_line(alloc)?)),
        Err(CertificateFault::BadLine { line }) => {
            Ok(says(alloc, Status::No, bad_line_line(alloc, line)?))
        }
        Err(CertificateFault::OutOfMemory) => Err(Stop::OutOfMemory),
    }
}

/// Loads a certificate and then a text, and checks them. Of a file above its limit at most one byte more than the limit
/// is loaded. The text is loaded into the memory of the one that is expected.
fn check_page<'w, S: Store>(
    alloc: Global,
    store: &mut S,
    input: &Input,
    rules: SpellRules,
    out: &str,
    cert: &str,
) -> Result<RunEnd<'w>, Stop>
    requires page { rules.frame ≡ false }
    requires apart { bytes_eq out.now cert.now ≡ false }
    requires settled { Settled input.now.tree }
    ensures ended { IfOk result (λ ended. Sees (S.files store.old) (λ seen. ended ≡ spec.check_ending rules input.now.table.entries input.now.tree (seen out.now) (seen cert.now))) }
    ensures answers { IfOk result (λ ended. spec.is_fault ended.status ≡ false) }
    ensures same { S.files store.new ≡ S.files store.old }
    ensures writing { S.is_writing store.new ≡ S.is_writing store.old }
    ensures later { S.faults store.old ≤ S.faults store.new }
    ensures store { result ≡ Err Stop.Store → Rose (S.faults store.old) (S.faults store.new)
        ⊎ Tells (S.files store.old) (λ seen. spec.check_ending rules input.now.table.entries input.now.tree (seen out.now) (seen cert.now) ≡ spec.store_fault) }
{
    let lines = load(alloc, store, cert, CERTIFICATE_LIMIT)?;
    let (mut text, is_written) = rewritten(alloc, input, rules, lines.as_slice());
    let is_expected = load_over(store, out, &mut text, OUTPUT_LIMIT)?;
    check_bytes(
        alloc,
        input,
        rules,
        text.as_slice(),
        lines.as_slice(),
        is_written & is_expected,
    )
}

/// The most bytes of a fragment that is checked: with `front()` before it, it is as long as a text may be.
fn fragment_limit() -> u32
    ensures { result ≡ spec.fragment_limit }
{
    OUTPUT_LIMIT - front().len() as u32
}

/// The length of a text in bytes, without `front()`.
fn without_front(length: u64) -> u64
    ensures { result ≡ length - prelude.length frames.front }
{
    length.saturating_sub(front().len() as u64)
}

/// Whether the verdict is that the rules differ.
fn rules_differ(found: &Verdict) -> bool
    ensures { result ≡ spec.rules_differ found.now }
{
    match *found {
        Verdict::No {
            why: Why::RulesDiffer,
        } => true,
        _ => false,
    }
}

/// The line for a refused fragment.
fn say_refused<'w>(alloc: Global, rule: Rule, at: u32) -> Result<RunEnd<'w>, Stop>
    ensures ended { IfOk result (λ ended. ended ≡ spec.says Status.No (lines.why_line (Why.OutRefused rule at))) }
    ensures memory { result ≢ Err Stop.Store }
{
    say(
        alloc,
        Verdict::No {
            why: Why::OutRefused { rule, at },
        },
    )
}

/// The line for a refused fragment, whatever the check found.
fn say_no_fragment<'w>(alloc: Global, refused: Refused) -> Result<RunEnd<'w>, Stop>
    ensures ended { IfOk result (λ ended. (found : Verdict) (o : Outcome) → IsRefusedAs o refused → ended ≡ spec.fragment_ending found o) }
    ensures memory { result ≢ Err Stop.Store }
{
    match refused {
        Refused::Page { rule, at } => say_refused(alloc, rule, at),
        Refused::OutOfMemory => Err(Stop::OutOfMemory),
    }
}

/// The line for the verdict on a fragment with `front()` before it, in bytes of the fragment. If it isn't a fragment,
/// the line says that it is refused.
fn say_fragment<'w>(
    alloc: Global,
    found: Verdict,
    page: Vec<u8>,
    table: &Table,
) -> Result<RunEnd<'w>, Stop>
    requires front { StartsWith page.items frames.front }
    ensures ended { IfOk result (λ ended. ended ≡ spec.fragment_ending found (spec.out_fragment table.now.entries (unframed page.items))) }
    ensures memory { result ≢ Err Stop.Store }
{
    if page.len() > OUTPUT_LIMIT as usize {
        return say_refused(alloc, Rule::TooLong, fragment_limit());
    }
    match read_fragment(alloc, page, table) {
        Ok(_tree) => match found {
            Verdict::Yes { length } => say(
                alloc,
                Verdict::Yes {
                    length: without_front(length),
                },
            ),
            Verdict::No { why } => say(alloc, Verdict::No { why }),
        },
        Err(refused) => say_no_fragment(alloc, refused),
    }
}

/// Checks a fragment with `front()` before it and a certificate. If the rules differ, the line says that, also for a
/// refused fragment.
fn find_fragment<'w>(
    alloc: Global,
    input: &Input,
    rules: SpellRules,
    page: Vec<u8>,
    certificate: &Certificate,
) -> Result<RunEnd<'w>, Stop>
    requires rows { AreRows certificate.now.prices }
    requires settled { Settled input.now.tree }
    requires front { StartsWith page.items frames.front }
    ensures ended { IfOk result (λ ended. ended ≡ spec.found_ending true rules input.now.table.entries input.now.tree (unframed page.items) certificate.now) }
    ensures memory { result ≢ Err Stop.Store }
{
    let found = check_settled(
        alloc,
        &input.table,
        &input.tree,
        page.as_slice(),
        certificate,
        rules,
    )?;
    if rules_differ(&found) {
        say(alloc, found)
    } else {
        say_fragment(alloc, found, page, &input.table)
    }
}

/// Checks a fragment with `front()` before it and the bytes of a certificate.
fn check_fragment_bytes<'w>(
    alloc: Global,
    input: &Input,
    rules: SpellRules,
    page: Vec<u8>,
    cert: &[u8],
) -> Result<RunEnd<'w>, Stop>
    requires fragment { rules.frame ≡ true }
    requires settled { Settled input.now.tree }
    requires front { StartsWith page.items frames.front }
    ensures ended { IfOk result (λ ended. ended ≡ spec.checked_ending rules input.now.table.entries input.now.tree (unframed page.items) cert.now) }
    ensures memory { result ≢ Err Stop.Store }
{
    match Certificate::read(alloc, cert) {
        Ok(certificate) => find_fragment(alloc, input, rules, page, &certificate),
        Err(CertificateFault::TooLong) => Ok(says(alloc, Status::No, too_long_line(alloc)?)),
        Err(CertificateFault::BadLine { line }) => {
            Ok(says(alloc, Status::No, bad_line_line(alloc, line)?))
        }
        Err(CertificateFault::OutOfMemory) => Err(Stop::OutOfMemory),
    }
}

/// Loads a certificate, and then a fragment with `front()` before it, and checks them.
fn check_fragment<'w, S: Store>(
    alloc: Global,
    store: &mut S,
    input: &Input,
    rules: SpellRules,
    out: &str,
    cert: &str,
) -> Result<RunEnd<'w>, Stop>
    requires fragment { rules.frame ≡ true }
    requires apart { bytes_eq out.now cert.now ≡ false }
    requires settled { Settled input.now.tree }
    ensures ended { IfOk result (λ ended. Sees (S.files store.old) (λ seen. ended ≡ spec.check_ending rules input.now.table.entries input.now.tree (seen out.now) (seen cert.now))) }
    ensures answers { IfOk result (λ ended. spec.is_fault ended.status ≡ false) }
    ensures same { S.files store.new ≡ S.files store.old }
    ensures writing { S.is_writing store.new ≡ S.is_writing store.old }
    ensures later { S.faults store.old ≤ S.faults store.new }
    ensures store { result ≡ Err Stop.Store → Rose (S.faults store.old) (S.faults store.new)
        ⊎ Tells (S.files store.old) (λ seen. spec.check_ending rules input.now.table.entries input.now.tree (seen out.now) (seen cert.now) ≡ spec.store_fault) }
{
    let lines = load(alloc, store, cert, CERTIFICATE_LIMIT)?;
    let page = load_with_prefix(alloc, store, out, front(), fragment_limit())?;
    check_fragment_bytes(alloc, input, rules, page, lines.as_slice())
}

/// Loads a certificate and then a text, or a fragment if the rules say so, and checks them.
pub fn check_files<'w, S: Store>(
    alloc: Global,
    store: &mut S,
    input: &Input,
    rules: SpellRules,
    out: &str,
    cert: &str,
) -> Result<RunEnd<'w>, Stop>
    requires apart { bytes_eq out.now cert.now ≡ false }
    requires settled { Settled input.now.tree }
    ensures ended { IfOk result (λ ended. Sees (S.files store.old) (λ seen. ended ≡ spec.check_ending rules input.now.table.entries input.now.tree (seen out.now) (seen cert.now))) }
    ensures answers { IfOk result (λ ended. spec.is_fault ended.status ≡ false) }
    ensures same { S.files store.new ≡ S.files store.old }
    ensures writing { S.is_writing store.new ≡ S.is_writing store.old }
    ensures later { S.faults store.old ≤ S.faults store.new }
    ensures store { result ≡ Err Stop.Store → Rose (S.faults store.old) (S.faults store.new)
        ⊎ Tells (S.files store.old) (λ seen. spec.check_ending rules input.now.table.entries input.now.tree (seen out.now) (seen cert.now) ≡ spec.store_fault) }
{
    if rules.frame {
        check_fragment(alloc, store, input, rules, out, cert)
    } else {
        check_page(alloc, store, input, rules, out, cert)
    }
}
