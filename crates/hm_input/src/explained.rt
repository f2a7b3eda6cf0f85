//! Loads a page that is to be explained.
ghost use Rattle.std.specs.Prelude.{◌≡◌, ◌⊎◌, ◌≤◌, IfOk, IfErr, Err, true};
ghost use Rattle.hm_page_loading.specs.Pages.{IsRefusedAs};
ghost use Rattle.hm_fragment.specs.Trees.{built};
ghost use Rattle.hm_elements.specs.Settled.{Settled};
ghost use Rattle.hm_store.specs.Causes.{Rose};
ghost use Rattle.hm_store.specs.Contents.{Tells};
ghost use Rattle.hm_words.specs.Words.{page_at, is_origin_apart};
ghost use Rattle.hm_input.specs.Explaining.{IsFound, IsRefusalFound};
ghost use Rattle.hm_input.specs.Inputs.{missing, origin_input, page_outcome};
ghost use Rattle.hm_input.specs.Loads.{NoTable};

use crate::loads::load_table;
use crate::{Input, InputFault};
use hm_base::{PAGE_LIMIT, Refused, Rule, SourceText, TreeOptions};
use hm_options::rewrite;
use hm_page_loading::parse;
use hm_refs::Table;
use hm_store::{Store, load};
use hm_tree::Tree;
use std::alloc::Global;

/// What was found of a page: its tree with a table, or why it is refused.
#[derive(Drop)]
pub enum Found {
    Tree { input: Input },
    /// The page is refused, at byte `at` of it. If it is too long, `page` has one byte more than the limit.
    Refused { page: Vec<u8>, rule: Rule, at: u32 },
}

/// Reads the tree of a page, or finds why it is refused. Its bytes are freed.
fn parse_page(alloc: Global, page: Vec<u8>, table: &Table) -> Result<Tree, Refused>
    ensures built { IfOk result (λ tree. page_outcome table.now.entries page.items ≡ built tree) }
    ensures settled { IfOk result (λ tree. Settled tree) }
    ensures refused { IfErr result (IsRefusedAs (page_outcome table.now.entries page.items)) }
{
    match SourceText::take(alloc, page, PAGE_LIMIT) {
        Ok(text) => parse(alloc, &text, table),
        Err(fault) => Err(fault.refusal(PAGE_LIMIT)),
    }
}

/// The answer for a page that is refused, with the bytes of it that are kept.
fn refused_found(page: Vec<u8>, refused: Refused) -> Result<Found, InputFault>
    ensures ok { IfOk result (IsRefusalFound page.items refused) }
    ensures err { IfErr result (λ unread. unread ≡ InputFault.OutOfMemory) }
{
    match refused {
        Refused::Page { rule, at } => Ok(Found::Refused { page, rule, at }),
        Refused::OutOfMemory => Err(InputFault::OutOfMemory),
    }
}

/// Loads a table and then a page, each once, and keeps the page if it is refused. The tables `none` and `html` are no
/// files.
pub fn load_explained<S: Store>(
    alloc: Global,
    store: &mut S,
    table: &str,
    page: &str,
    options: &TreeOptions,
) -> Result<Found, InputFault>
    requires apart { is_origin_apart (page_at table.now page.now) ≡ true }
    ensures ok { IfOk result (IsFound (S.files store.old) table.now page.now options.now) }
    ensures err { IfErr result (NoTable (S.files store.old) table.now) }
    ensures same { S.files store.new ≡ S.files store.old }
    ensures writing { S.is_writing store.new ≡ S.is_writing store.old }
    ensures later { S.faults store.old ≤ S.faults store.new }
    ensures store { result ≡ Err InputFault.Store → Rose (S.faults store.old) (S.faults store.new)
        ⊎ Tells (S.files store.old) (λ seen. origin_input (page_at table.now page.now) options.now seen ≡ missing) }
{
    let table = load_table(alloc, store, table)?;
    let page = load(alloc, store, page, PAGE_LIMIT)?;
    let bytes = page.len();
    let Ok(kept) = Vec::from_slice(alloc, page.as_slice()) else {
        return Err(InputFault::OutOfMemory);
    };
    match parse_page(alloc, page, &table) {
        Ok(parsed) => {
            let tree = rewrite(alloc, parsed, options)?;
            Ok(Found::Tree {
                input: Input { bytes, table, tree },
            })
        }
        Err(refused) => refused_found(kept, refused),
    }
}
