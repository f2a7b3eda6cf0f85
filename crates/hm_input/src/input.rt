//! A table of names and the tree that was read with it, after the rewrites.
ghost use Rattle.std.specs.Prelude.{◌≡◌, ◌⊎◌, ◌≤◌, IfOk, IfErr, Err, true};
ghost use Rattle.hm_elements.specs.Settled.{Settled};
ghost use Rattle.hm_store.specs.Causes.{Rose};
ghost use Rattle.hm_store.specs.Contents.{Tells};
ghost use Rattle.hm_words.specs.Answers.{origin_of};
ghost use Rattle.hm_words.specs.Words.{is_origin_apart};
ghost use Rattle.hm_input.specs.Inputs as inputs;
ghost use Rattle.hm_input.specs.Inputs.{IsInput, origin_input, missing};
ghost use Rattle.hm_input.specs.Loads as loads;
ghost use Rattle.hm_input.specs.Loads.{IsOriginMissing, IsOriginRead, IsOriginTree, NoInput, NoOriginRead};

use crate::InputFault;
use crate::loads::{load_fragment, load_json, load_page_tree, load_table, make_tree};
use hm_base::{OutOfMemory, TreeOptions};
use hm_options::rewrite;
use hm_refs::Table;
use hm_store::Store;
use hm_tree::Tree;
use hm_words::Origin;
use std::alloc::Global;

/// A table of names, and a tree that was read with it.
#[derive(Drop)]
pub struct Input {
    /// The size of the page, or of the JSON, in bytes.
    pub bytes: usize,
    pub table: Table,
    pub tree: Tree,
}

/// The name of an origin's table.
fn table_of<'w>(origin: &Origin<'w>) -> &'w str
    ensures { result.now ≡ loads.table_of (origin_of origin.now) }
{
    match *origin {
        Origin::PageAt { table, .. }
        | Origin::FragmentAt { table, .. }
        | Origin::JsonAt { table, .. }
        | Origin::Made { table, .. } => table,
    }
}

/// The tree that an origin gives with the names of its table, and the size of its page, or of its JSON, in bytes.
fn load_origin<S: Store>(
    alloc: Global,
    store: &mut S,
    origin: &Origin<'_>,
    table: &Table,
) -> Result<(Tree, usize), InputFault>
    ensures ok { IfOk result (λ read. IsOriginRead (S.files store.old) (origin_of origin.now) table.now.entries read.0 read.1) }
    ensures settled { IfOk result (λ read. Settled read.0) }
    ensures err { IfErr result (NoOriginRead (S.files store.old) (origin_of origin.now) table.now.entries) }
    ensures same { S.files store.new ≡ S.files store.old }
    ensures writing { S.is_writing store.new ≡ S.is_writing store.old }
    ensures later { S.faults store.old ≤ S.faults store.new }
    ensures store { result ≡ Err InputFault.Store → Rose (S.faults store.old) (S.faults store.new) ⊎ IsOriginMissing (S.files store.old) (origin_of origin.now) }
{
    match *origin {
        Origin::PageAt { page, .. } => load_page_tree(alloc, store, page, table),
        Origin::FragmentAt { page, .. } => load_fragment(alloc, store, page, table),
        Origin::JsonAt { page, .. } => load_json(alloc, store, page),
        Origin::Made { number, size, .. } => make_tree(alloc, number, size, table),
    }
}

/// The same tree after the rewrites of the request.
#[inline(always)]
fn load_rewritten<S: Store>(
    alloc: Global,
    store: &mut S,
    origin: &Origin<'_>,
    table: &Table,
    options: &TreeOptions,
) -> Result<(Tree, usize), InputFault>
    ensures ok { IfOk result (λ read. IsOriginTree (S.files store.old) (origin_of origin.now) table.now.entries options.now read.0 read.1) }
    ensures settled { IfOk result (λ read. Settled read.0) }
    ensures err { IfErr result (NoOriginRead (S.files store.old) (origin_of origin.now) table.now.entries) }
    ensures same { S.files store.new ≡ S.files store.old }
    ensures writing { S.is_writing store.new ≡ S.is_writing store.old }
    ensures later { S.faults store.old ≤ S.faults store.new }
    ensures store { result ≡ Err InputFault.Store → Rose (S.faults store.old) (S.faults store.new) ⊎ IsOriginMissing (S.files store.old) (origin_of origin.now) }
{
    match load_origin(alloc, store, origin, table) {
        Ok((read, bytes)) => match rewrite(alloc, read, options) {
            Ok(tree) => Ok((tree, bytes)),
            Err(OutOfMemory) => Err(InputFault::OutOfMemory),
        },
        Err(unread) => Err(unread),
    }
}

/// What the files of an origin give: a table and a tree after the rewrites of the request. The table is loaded first,
/// and the tables `none` and `html` are no files. The tree of a page is built while the page is read.
pub fn load_input<S: Store>(
    alloc: Global,
    store: &mut S,
    origin: &Origin<'_>,
    options: &TreeOptions,
) -> Result<Input, InputFault>
    requires apart { is_origin_apart (origin_of origin.now) ≡ true }
    ensures ok { IfOk result (λ input. IsInput (S.files store.old) (origin_of origin.now) options.now (inputs.tree input.bytes input.table.entries input.tree)) }
    ensures settled { IfOk result (λ input. Settled input.tree) }
    ensures err { IfErr result (NoInput (S.files store.old) (origin_of origin.now) options.now) }
    ensures same { S.files store.new ≡ S.files store.old }
    ensures writing { S.is_writing store.new ≡ S.is_writing store.old }
    ensures later { S.faults store.old ≤ S.faults store.new }
    ensures store { result ≡ Err InputFault.Store → Rose (S.faults store.old) (S.faults store.new)
        ⊎ Tells (S.files store.old) (λ seen. origin_input (origin_of origin.now) options.now seen ≡ missing) }
{
    match load_table(alloc, store, table_of(origin)) {
        Ok(table) => match load_rewritten(alloc, store, origin, &table, options) {
            Ok((tree, bytes)) => Ok(Input { bytes, table, tree }),
            Err(unread) => Err(unread),
        },
        Err(unread) => Err(unread),
    }
}
