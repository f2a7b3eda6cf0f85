//! What is read from a store: a table, a page, a fragment, a tree as JSON. Also the tree of a page that `measure`
//! makes.
ghost use Rattle.std.specs.Io.{StartsWith};
ghost use Rattle.std.specs.Prelude.{length, ◌≡◌, ◌≢◌, ◌⊎◌, ◌≤◌, ℕ, List, Option, IfOk, IfErr, OnOk, Ok, Err, false};
ghost use Rattle.hm_base.specs.Faults.{HasText, IsRefusedBy};
ghost use Rattle.hm_base.specs.Source.{source_of};
ghost use Rattle.hm_elements.specs.Settled.{Settled};
ghost use Rattle.hm_fragment.specs.Trees.{built, tree_of_source};
ghost use Rattle.hm_fragment.specs.Fragments.{fragment_tree};
ghost use Rattle.hm_fragment.specs.Frames as frames;
ghost use Rattle.hm_fragment.specs.Frames.{unframed};
ghost use Rattle.hm_measure_page.specs.Pages.{page as made_page};
ghost use Rattle.hm_page_loading.specs.Pages.{IsPageTree, IsRefusedAs};
ghost use Rattle.hm_store.specs.Causes.{Rose};
ghost use Rattle.hm_store.specs.Files.{FileMap, IsMissing};
ghost use Rattle.hm_words.specs.Words.{is_table_word};
ghost use Rattle.hm_input.specs.Loads.{IsFragmentOf, IsPageText, IsTableOf, IsTreeOf, IsRefusedJson, IsWalkOf, NoFragment, NoFragmentIn, NoPage, NoTable, NoTextIn, NoTreeOf, NoWalk};

use crate::InputFault;
use hm_base::{OUTPUT_LIMIT, PAGE_LIMIT, Refused, Rule, SourceText, TABLE_LIMIT, TextFault};
use hm_fragment::{front, read_fragment};
use hm_html_names::html_table;
use hm_json_tree::{JSON_LIMIT, JsonFault, read_tree};
use hm_measure_page::page_of;
use hm_page_loading::{load_page, parse};
use hm_refs::{Table, TableFault};
use hm_store::{Store, load, load_with_prefix};
use hm_tree::Tree;
use std::alloc::Global;

/// The error for a table with this fault.
fn unread_table(fault: TableFault) -> InputFault
    ensures other { result ≢ InputFault.Store }
    ensures reason { (told : Option FileMap) (name : List ℕ) → (fault ≢ TableFault.OutOfMemory → IsTableOf told name (Err fault)) → NoTable told name result }
{
    match fault {
        TableFault::OutOfMemory => InputFault::OutOfMemory,
        fault => InputFault::Table { fault },
    }
}

/// Loads the table of that name: `none` is the one without names, `html` that of the HTML Standard, and neither is a
/// file.
pub fn load_table<S: Store>(alloc: Global, store: &mut S, name: &str) -> Result<Table, InputFault>
    ensures same { S.files store.new ≡ S.files store.old }
    ensures writing { S.is_writing store.new ≡ S.is_writing store.old }
    ensures ok { IfOk result (λ table. IsTableOf (S.files store.old) name.now (Ok table.entries)) }
    ensures err { IfErr result (NoTable (S.files store.old) name.now) }
    ensures later { S.faults store.old ≤ S.faults store.new }
    ensures store { result ≡ Err InputFault.Store → Rose (S.faults store.old) (S.faults store.new) ⊎ (is_table_word name.now ≡ false) × IsMissing (S.files store.old) name.now }
{
    if name == "none" {
        let table = Table::empty(alloc)?;
        return Ok(table);
    }
    if name == "html" {
        let table = html_table(alloc)?;
        return Ok(table);
    }
    let bytes = load(alloc, store, name, TABLE_LIMIT)?;
    match Table::read(alloc, bytes.as_slice()) {
        Ok(table) => Ok(table),
        Err(fault) => Err(unread_table(fault)),
    }
}

/// The text of a page's bytes. A page may be as long as the limit.
fn read_page(alloc: Global, bytes: Vec<u8>) -> Result<SourceText, TextFault>
    ensures read { IfOk result (λ text. text ≡ source_of bytes.items) }
    ensures sound { OnOk result (HasText PAGE_LIMIT bytes.items) }
    ensures refused { IfErr result (λ fault. IsRefusedBy fault PAGE_LIMIT bytes.items) }
{
    SourceText::take(alloc, bytes, PAGE_LIMIT)
}

/// The text of a page and its size in bytes, or why it is refused.
fn text_of(alloc: Global, page: Vec<u8>) -> Result<(SourceText, usize), InputFault>
    ensures ok { IfOk result (λ read. IsPageText page.items read.0 read.1) }
    ensures err { IfErr result (NoTextIn page.items) }
{
    let bytes = page.len();
    match read_page(alloc, page) {
        Ok(text) => Ok((text, bytes)),
        Err(fault) => Err(InputFault::from(fault.refusal(PAGE_LIMIT))),
    }
}

/// The text of the page with `size` blocks that `measure` makes from a number, and its size in bytes.
fn make_text(alloc: Global, number: u32, size: u32) -> Result<(SourceText, usize), InputFault>
    ensures ok { IfOk result (λ read. IsPageText (made_page number size) read.0 read.1) }
    ensures err { IfErr result (NoTextIn (made_page number size)) }
{
    let page = page_of(alloc, number, size)?;
    text_of(alloc, page.into_bytes())
}

/// The tree of a page's text. The text's memory is freed.
#[inline(always)]
fn text_tree(alloc: Global, text: SourceText, table: &Table) -> Result<Tree, Refused>
    ensures built { IfOk result (λ tree. tree_of_source table.now.entries text ≡ built tree) }
    ensures settled { IfOk result (λ tree. Settled tree) }
    ensures refused { IfErr result (IsRefusedAs (tree_of_source table.now.entries text)) }
{
    let parsed = parse(alloc, &text, table);
    text.release();
    parsed
}

/// The tree of the page with `size` blocks that `measure` makes from a number, and the page's size in bytes.
pub fn make_tree(
    alloc: Global,
    number: u32,
    size: u32,
    table: &Table,
) -> Result<(Tree, usize), InputFault>
    ensures ok { IfOk result (λ read. IsTreeOf (made_page number size) table.now.entries read.0 read.1) }
    ensures settled { IfOk result (λ read. Settled read.0) }
    ensures err { IfErr result (NoTreeOf (made_page number size) table.now.entries) }
    ensures other { result ≢ Err InputFault.Store }
{
    match make_text(alloc, number, size) {
        Ok((text, bytes)) => match text_tree(alloc, text, table) {
            Ok(tree) => Ok((tree, bytes)),
            Err(refused) => Err(InputFault::from(refused)),
        },
        Err(unread) => Err(unread),
    }
}

/// Loads the tree of the page of that name, and the page's size in bytes.
pub fn load_page_tree<S: Store>(
    alloc: Global,
    store: &mut S,
    name: &str,
    table: &Table,
) -> Result<(Tree, usize), InputFault>
    ensures same { S.files store.new ≡ S.files store.old }
    ensures writing { S.is_writing store.new ≡ S.is_writing store.old }
    ensures ok { IfOk result (λ read. IsPageTree (S.files store.old) name.now table.now.entries read.0 read.1) }
    ensures settled { IfOk result (λ read. Settled read.0) }
    ensures err { IfErr result (NoPage (S.files store.old) name.now table.now.entries) }
    ensures later { S.faults store.old ≤ S.faults store.new }
    ensures store { result ≡ Err InputFault.Store → Rose (S.faults store.old) (S.faults store.new) ⊎ IsMissing (S.files store.old) name.now }
{
    match load_page(alloc, store, name, table) {
        Ok(read) => Ok(read),
        Err(fault) => Err(InputFault::from(fault)),
    }
}

/// The tree of a fragment from a page with `front()` before it, or why it is refused.
fn fragment_tree_of(alloc: Global, page: Vec<u8>, table: &Table) -> Result<Tree, InputFault>
    requires front { StartsWith page.items frames.front }
    requires short { length page.items ≤ OUTPUT_LIMIT }
    ensures ok { IfOk result (λ tree. fragment_tree table.now.entries (unframed page.items) ≡ built tree) }
    ensures settled { IfOk result (λ tree. Settled tree) }
    ensures err { IfErr result (NoFragmentIn table.now.entries (unframed page.items)) }
{
    let tree = read_fragment(alloc, page, table)?;
    Ok(tree)
}

/// Loads the tree of the fragment of that name, and the fragment's size in bytes.
pub fn load_fragment<S: Store>(
    alloc: Global,
    store: &mut S,
    name: &str,
    table: &Table,
) -> Result<(Tree, usize), InputFault>
    ensures same { S.files store.new ≡ S.files store.old }
    ensures writing { S.is_writing store.new ≡ S.is_writing store.old }
    ensures ok { IfOk result (λ read. IsFragmentOf (S.files store.old) name.now table.now.entries read.0 read.1) }
    ensures settled { IfOk result (λ read. Settled read.0) }
    ensures err { IfErr result (NoFragment (S.files store.old) name.now table.now.entries) }
    ensures later { S.faults store.old ≤ S.faults store.new }
    ensures store { result ≡ Err InputFault.Store → Rose (S.faults store.old) (S.faults store.new) ⊎ IsMissing (S.files store.old) name.now }
{
    let page = load_with_prefix(alloc, store, name, front(), PAGE_LIMIT)?;
    let bytes = page.len() - front().len();
    if bytes > PAGE_LIMIT as usize {
        return Err(InputFault::Page {
            rule: Rule::TooLong,
            at: PAGE_LIMIT,
        });
    }
    let tree = fragment_tree_of(alloc, page, table)?;
    Ok((tree, bytes))
}

/// The error for JSON with this fault.
fn unread_json(fault: JsonFault) -> InputFault
    ensures other { result ≢ InputFault.Store }
    ensures reason { (told : Option FileMap) (name : List ℕ) → (fault ≢ JsonFault.OutOfMemory → IsRefusedJson told name fault) → NoWalk told name result }
{
    match fault {
        JsonFault::OutOfMemory => InputFault::OutOfMemory,
        fault => InputFault::Json { fault },
    }
}

/// Loads the tree from the JSON file of that name, and the size of the JSON in bytes.
pub fn load_json<S: Store>(
    alloc: Global,
    store: &mut S,
    name: &str,
) -> Result<(Tree, usize), InputFault>
    ensures same { S.files store.new ≡ S.files store.old }
    ensures writing { S.is_writing store.new ≡ S.is_writing store.old }
    ensures ok { IfOk result (λ read. IsWalkOf (S.files store.old) name.now read.0 read.1) }
    ensures settled { IfOk result (λ read. Settled read.0) }
    ensures err { IfErr result (NoWalk (S.files store.old) name.now) }
    ensures later { S.faults store.old ≤ S.faults store.new }
    ensures store { result ≡ Err InputFault.Store → Rose (S.faults store.old) (S.faults store.new) ⊎ IsMissing (S.files store.old) name.now }
{
    let json = load(alloc, store, name, JSON_LIMIT)?;
    let bytes = json.len();
    match read_tree(alloc, json.as_slice()) {
        Ok(tree) => Ok((tree, bytes)),
        Err(fault) => Err(unread_json(fault)),
    }
}
