//! Makes in memory what a request ends with.
ghost use Rattle.std.specs.Prelude.{◌≡◌, ◌≢◌, ◌⊎◌, ◌≤◌, ◌++◌, ◌∷◌, [], drop, length, IfOk, Err, true, false};
ghost use Rattle.hm_cert.specs.Certificate.{AreRows};
ghost use Rattle.hm_elements.specs.Settled.{Settled};
ghost use Rattle.hm_order.specs.Minified.{IsMinifiedBy};
ghost use Rattle.hm_order.specs.Shortest.{certified_rows};
ghost use Rattle.hm_store.specs.Causes.{Rose};
ghost use Rattle.hm_store.specs.Contents.{Sees, Tells};
ghost use Rattle.hm_dump.specs.Dump.{dump_of};
ghost use Rattle.hm_json_tree.specs.Texts.{json_text};
ghost use Rattle.hm_words.specs.Answers.{origin_of, request_of, work_of};
ghost use Rattle.hm_words.specs.Words as request;
ghost use Rattle.hm_minify.specs.Endings as spec;
ghost use Rattle.hm_minify.specs.Stops.{IsSaidWithout};
ghost use Rattle.hm_minify.specs.Wanted.{input_of};

use crate::Status;
use crate::checked::check_files;
use crate::ended::{Output, Printed, RunEnd, Stop, says, says_lines, shows, tells_json};
use crate::lines::{json_line, length_line, refused_line, table_line};
use crate::measured::measure;
use crate::wanted::wanted;
use hm_base::{Format, OutOfMemory};
use hm_dump::Shown;
use hm_input::{Found, Input, InputFault, front, load_explained, load_input};
use hm_json_tree::JsonShown;
use hm_location::{explained_page, settled_line};
use hm_order::{Minified, minify_tree};
use hm_store::Store;
use hm_tree::Tree;
use hm_words::{Asked, Origin, Work, Writing};
use std::alloc::Global;

/// The format of a certificate that is written.
pub fn format_of(sparse: bool) -> Format
    ensures { result ≡ spec.format_of sparse }
{
    if sparse {
        Format::Sparse
    } else {
        Format::Compact
    }
}

/// The index of the first byte that is written: after `front()` for a fragment, else 0.
fn begin_of(frame: bool, text: &[u8]) -> usize
    ensures inside { result ≤ length text.now }
    ensures part { drop result text.now ≡ spec.written_part frame text.now }
{
    if frame {
        front().len().min(text.len())
    } else {
        0
    }
}

/// The shortest text of an input's tree, with its certificate.
fn write_shortest(alloc: Global, input: &Input, writing: Writing) -> Result<Minified, OutOfMemory>
    requires settled { Settled input.now.tree }
    ensures made { IfOk result (IsMinifiedBy input.now.table.entries writing.rules (spec.format_of writing.sparse) input.now.tree) }
    ensures readable { IfOk result (λ _. AreRows (certified_rows input.now.table.entries writing.rules (spec.format_of writing.sparse) input.now.tree)) }
{
    minify_tree(
        alloc,
        &input.tree,
        &input.table,
        writing.rules,
        format_of(writing.sparse),
    )
}

/// The ending that writes the shortest text of an input's tree and its certificate.
fn minify<'w>(
    alloc: Global,
    input: &Input,
    writing: Writing,
    out: &'w str,
    cert: &'w str,
) -> Result<RunEnd<'w>, Stop>
    requires settled { Settled input.now.tree }
    ensures ended { IfOk result (λ ended. ended ≡ spec.minified_ending writing out.now cert.now input.now.table.entries input.now.tree) }
    ensures readable { IfOk result (λ _. AreRows (certified_rows input.now.table.entries writing.rules (spec.format_of writing.sparse) input.now.tree)) }
    ensures memory { result ≢ Err Stop.Store }
{
    let minified = write_shortest(alloc, input, writing)?;
    let from = begin_of(writing.rules.frame, minified.out.as_slice());
    let line = length_line(alloc, minified.out.len() - from)?;
    let mut outputs = Vec::new(alloc);
    outputs.push(Output {
        name: out,
        bytes: minified.out,
        from,
    })?;
    outputs.push(Output {
        name: cert,
        bytes: minified.certificate,
        from: 0,
    })?;
    Ok(RunEnd {
        status: Status::Done,
        said: Printed::Line { line },
        outputs,
    })
}

/// The ending that prints the lines of a tree.
fn show<'w>(alloc: Global, tree: Tree) -> Result<RunEnd<'w>, Stop>
    ensures ended { IfOk result (λ ended. ended ≡ spec.says Status.Done (dump_of tree)) }
    ensures memory { result ≢ Err Stop.Store }
{
    Ok(shows(alloc, Status::Done, Shown::of(alloc, tree)?))
}

/// The tree is printed as JSON.
fn tell_json<'w>(alloc: Global, tree: Tree) -> Result<RunEnd<'w>, Stop>
    ensures ended { IfOk result (λ ended. ended ≡ spec.says Status.Done (json_text tree ++ 10 ∷ [])) }
    ensures memory { result ≢ Err Stop.Store }
{
    Ok(tells_json(alloc, Status::Done, JsonShown::of(alloc, tree)?))
}

/// The name of a page's file. It is empty for a page that `measure` makes.
fn page_name<'w>(origin: &Origin<'w>) -> &'w str
    ensures { result.now ≡ spec.page_name (origin_of origin.now) }
{
    match *origin {
        Origin::PageAt { table: _, page } => page,
        Origin::FragmentAt { table: _, page } => page,
        Origin::JsonAt { table: _, page } => page,
        Origin::Made {
            table: _,
            number: _,
            size: _,
        } => "",
    }
}

/// Finds the length of the shortest text of a page's tree, and gives the ending that prints it. No file is written.
fn settle<'w>(
    alloc: Global,
    input: &Input,
    writing: Writing,
    name: &str,
) -> Result<RunEnd<'w>, Stop>
    requires settled { Settled input.now.tree }
    ensures ended { IfOk result (λ ended. ended ≡ spec.settled_ending name.now input.now.bytes writing input.now.table.entries input.now.tree) }
    ensures readable { IfOk result (λ _. AreRows (certified_rows input.now.table.entries writing.rules (spec.format_of writing.sparse) input.now.tree)) }
    ensures memory { result ≢ Err Stop.Store }
{
    let minified = write_shortest(alloc, input, writing)?;
    Ok(says(
        alloc,
        Status::Done,
        settled_line(alloc, name, input.bytes, minified.out.len())?,
    ))
}

/// The ending of a request with this tree. The tree is freed, except if it is printed. A check reads two further files.
fn answer<'w, S: Store>(
    alloc: Global,
    asked: &Asked<'w>,
    input: Input,
    store: &mut S,
) -> Result<RunEnd<'w>, Stop>
    requires settled { Settled input.tree }
    requires apart { request.is_apart (origin_of asked.now.origin) (work_of asked.now.work) ≡ true }
    ensures ended { IfOk result (λ ended. Sees (S.files store.old) (λ seen. ended ≡ spec.tree_ending (spec.page_name (origin_of asked.now.origin)) (work_of asked.now.work) asked.now.writing seen input.bytes input.table.entries input.tree)) }
    ensures readable { IfOk result (λ _. spec.IsReadableTree (work_of asked.now.work) asked.now.writing input.table.entries input.tree) }
    ensures answers { IfOk result (λ ended. spec.is_fault ended.status ≡ false) }
    ensures same { S.files store.new ≡ S.files store.old }
    ensures writing { S.is_writing store.new ≡ S.is_writing store.old }
    ensures later { S.faults store.old ≤ S.faults store.new }
    ensures store { result ≡ Err Stop.Store → Rose (S.faults store.old) (S.faults store.new)
        ⊎ Tells (S.files store.old) (λ seen. spec.tree_ending (spec.page_name (origin_of asked.now.origin)) (work_of asked.now.work) asked.now.writing seen input.bytes input.table.entries input.tree ≡ spec.store_fault) }
{
    match asked.work {
        Work::Minify { out, cert } => minify(alloc, &input, asked.writing, out, cert),
        Work::Check { out, cert } => {
            check_files(alloc, store, &input, asked.writing.rules, out, cert)
        }
        Work::Show => show(alloc, input.tree),
        Work::TellJson => tell_json(alloc, input.tree),
        Work::Explain => settle(alloc, &input, asked.writing, page_name(&asked.origin)),
        Work::Measure => measure(alloc, &input, asked.writing),
    }
}

/// The ending of a request without a tree, by why there is none.
fn without_tree<'w>(alloc: Global, unread: InputFault) -> Result<RunEnd<'w>, Stop>
    ensures said { IfOk result (IsSaidWithout unread) }
    ensures answers { IfOk result (λ ended. spec.is_fault ended.status ≡ false) }
    ensures store { result ≡ Err Stop.Store → unread ≡ InputFault.Store }
{
    match unread {
        InputFault::Table { fault } => {
            Ok(says(alloc, Status::TableRefused, table_line(alloc, &fault)?))
        }
        InputFault::Page { rule, at } => {
            Ok(says(alloc, Status::PageRefused, refused_line(alloc, rule, at)?))
        }
        InputFault::Json { fault } => Ok(says(
            alloc,
            Status::JsonRefused,
            json_line(alloc, fault)?,
        )),
        InputFault::Store => Err(Stop::Store),
        InputFault::OutOfMemory => Err(Stop::OutOfMemory),
    }
}

/// The ending of a request that isn't `explain`.
fn work_plain<'w, S: Store>(
    alloc: Global,
    asked: &Asked<'w>,
    store: &mut S,
) -> Result<RunEnd<'w>, Stop>
    requires apart { request.is_apart (origin_of asked.now.origin) (work_of asked.now.work) ≡ true }
    requires plain { spec.is_explained (origin_of asked.now.origin) (work_of asked.now.work) ≡ false }
    ensures ended { IfOk result (λ ended. Sees (S.files store.old) (λ seen. (ended ≡ spec.asked_ending (request_of asked.now) seen)
        × spec.IsReadable (request_of asked.now) (input_of (request_of asked.now) seen))) }
    ensures answers { IfOk result (λ ended. spec.is_fault ended.status ≡ false) }
    ensures same { S.files store.new ≡ S.files store.old }
    ensures writing { S.is_writing store.new ≡ S.is_writing store.old }
    ensures later { S.faults store.old ≤ S.faults store.new }
    ensures store { result ≡ Err Stop.Store → Rose (S.faults store.old) (S.faults store.new) ⊎ Tells (S.files store.old) (λ seen. spec.asked_ending (request_of asked.now) seen ≡ spec.store_fault) }
{
    match load_input(alloc, store, &asked.origin, &asked.options) {
        Ok(input) => answer(alloc, asked, wanted(alloc, input, asked)?, store),
        Err(unread) => without_tree(alloc, unread),
    }
}

/// The ending of a request to explain the page of this name.
fn work_explained<'w, S: Store>(
    alloc: Global,
    asked: &Asked<'w>,
    store: &mut S,
    table: &str,
    page: &str,
) -> Result<RunEnd<'w>, Stop>
    requires apart { request.is_apart (origin_of asked.now.origin) (work_of asked.now.work) ≡ true }
    requires origin { origin_of asked.now.origin ≡ request.page_at table.now page.now }
    requires work { work_of asked.now.work ≡ request.explains }
    ensures ended { IfOk result (λ ended. Sees (S.files store.old) (λ seen. (ended ≡ spec.asked_ending (request_of asked.now) seen)
        × spec.IsReadable (request_of asked.now) (input_of (request_of asked.now) seen))) }
    ensures answers { IfOk result (λ ended. spec.is_fault ended.status ≡ false) }
    ensures same { S.files store.new ≡ S.files store.old }
    ensures writing { S.is_writing store.new ≡ S.is_writing store.old }
    ensures later { S.faults store.old ≤ S.faults store.new }
    ensures store { result ≡ Err Stop.Store → Rose (S.faults store.old) (S.faults store.new) ⊎ Tells (S.files store.old) (λ seen. spec.asked_ending (request_of asked.now) seen ≡ spec.store_fault) }
{
    match load_explained(alloc, store, table, page, &asked.options) {
        Ok(Found::Tree { input }) => answer(alloc, asked, wanted(alloc, input, asked)?, store),
        Ok(
            Found::Refused {
                page: bytes,
                rule,
                at,
            },
        ) => {
            let lines = explained_page(alloc, page, bytes.as_slice(), rule, at)?;
            Ok(says_lines(alloc, Status::PageRefused, lines))
        }
        Err(unread) => without_tree(alloc, unread),
    }
}

/// The ending of a request. Files are read, and none is written yet.
pub fn work<'w, S: Store>(
    alloc: Global,
    asked: &Asked<'w>,
    store: &mut S,
) -> Result<RunEnd<'w>, Stop>
    requires apart { request.is_apart (origin_of asked.now.origin) (work_of asked.now.work) ≡ true }
    ensures ended { IfOk result (λ ended. Sees (S.files store.old) (λ seen. (ended ≡ spec.asked_ending (request_of asked.now) seen)
        × spec.IsReadable (request_of asked.now) (input_of (request_of asked.now) seen))) }
    ensures answers { IfOk result (λ ended. spec.is_fault ended.status ≡ false) }
    ensures same { S.files store.new ≡ S.files store.old }
    ensures writing { S.is_writing store.new ≡ S.is_writing store.old }
    ensures later { S.faults store.old ≤ S.faults store.new }
    ensures store { result ≡ Err Stop.Store → Rose (S.faults store.old) (S.faults store.new) ⊎ Tells (S.files store.old) (λ seen. spec.asked_ending (request_of asked.now) seen ≡ spec.store_fault) }
{
    match (asked.work, asked.origin) {
        (Work::Explain, Origin::PageAt { table, page }) => {
            work_explained(alloc, asked, store, table, page)
        }
        _ => work_plain(alloc, asked, store),
    }
}
