//! Writes the shortest text of a tree and checks it in memory.
ghost use Rattle.std.specs.Prelude.{◌≡◌, ◌≢◌, IfOk, Err, false};
ghost use Rattle.hm_cert.specs.Certificate.{AreRows};
ghost use Rattle.hm_elements.specs.Settled.{Settled};
ghost use Rattle.hm_order.specs.Minified.{IsMinifiedBy};
ghost use Rattle.hm_order.specs.Shortest.{certified_rows};
ghost use Rattle.hm_minify.specs.Endings as spec;

use crate::Status;
use crate::ended::{RunEnd, Stop, says};
use crate::lines::measured_line;
use crate::work::format_of;
use hm_base::OUTPUT_LIMIT;
use hm_cert::{Certificate, CertificateFault};
use hm_check::{Verdict, check};
use hm_input::Input;
use hm_order::{Minified, minify_tree};
use hm_refs::laws::every_table;
use hm_words::Writing;
use std::alloc::Global;

/// Checks what was written of a tree. The check says yes: no other verdict is possible. Fails with `OutOfMemory` if a
/// text or a certificate is above the limits of a check.
fn check_minified(
    alloc: Global,
    input: &Input,
    writing: Writing,
    minified: &Minified,
) -> Result<(), Stop>
    requires settled { Settled input.now.tree }
    requires minified { IsMinifiedBy input.now.table.entries writing.rules (spec.format_of writing.sparse) input.now.tree minified.now }
    requires readable { AreRows (certified_rows input.now.table.entries writing.rules (spec.format_of writing.sparse) input.now.tree) }
    ensures memory { result ≢ Err Stop.Store }
{
    every_table(&input.table);
    if minified.out.len() > OUTPUT_LIMIT as usize {
        return Err(Stop::OutOfMemory);
    }
    let certificate = match Certificate::read(alloc, minified.certificate.as_slice()) {
        Ok(certificate) => certificate,
        Err(CertificateFault::BadLine { line: _ }) => unreachable!(),
        Err(CertificateFault::TooLong | CertificateFault::OutOfMemory) => return Err(
            Stop::OutOfMemory,
        ),
    };
    match check(
        alloc,
        &input.table,
        &input.tree,
        minified.out.as_slice(),
        &certificate,
        writing.rules,
    )? {
        Verdict::Yes { length: _ } => Ok(()),
        Verdict::No { why: _ } => unreachable!(),
    }
}

/// Writes the shortest text of an input's tree, and checks it. No file is written.
pub fn measure<'w>(alloc: Global, input: &Input, writing: Writing) -> Result<RunEnd<'w>, Stop>
    requires settled { Settled input.now.tree }
    ensures ended { IfOk result (λ ended. ended ≡ spec.measured_ending input.now.bytes writing input.now.table.entries input.now.tree) }
    ensures readable { IfOk result (λ _. AreRows (certified_rows input.now.table.entries writing.rules (spec.format_of writing.sparse) input.now.tree)) }
    ensures answers { IfOk result (λ ended. spec.is_fault ended.status ≡ false) }
    ensures memory { result ≢ Err Stop.Store }
{
    let minified = minify_tree(
        alloc,
        &input.tree,
        &input.table,
        writing.rules,
        format_of(writing.sparse),
    )?;
    check_minified(alloc, input, writing, &minified)?;
    Ok(says(
        alloc,
        Status::Done,
        measured_line(alloc, input.bytes, minified.out.len(), minified.layers)?,
    ))
}
