//! Loads a page from a store.
ghost use Rattle.std.specs.Prelude.{◌≡◌, ◌≤◌, ◌<◌, ◌^◌, ◌⊎◌, [], IfOk, IfErr, OnOk, Err, true, length};
ghost use Rattle.hm_elements.specs.Settled.{Settled};
ghost use Rattle.hm_store.specs.Causes.{Rose};
ghost use Rattle.hm_store.specs.Files.{IsMissing};
ghost use Rattle.hm_page_loading.specs.Loading.{IsTaken, TakesNext};
ghost use Rattle.hm_page_loading.specs.Pages.{IsPageTree, NoPageTree};
ghost use Rattle.hm_page_loading.specs.Spacing.{HasTaken};

use crate::PageLoadFault;
use crate::spaced::SpacedBuilder;
use hm_base::{OutOfMemory, PAGE_LIMIT};
use hm_refs::Table;
use hm_store::{Failed, LoadFault, Store};
use hm_tree::Tree;
use std::alloc::Global;

/// The most bytes that one pull reads.
const PIECE: usize = 65_536;

/// Reads the next bytes of the open file, at most `left` of them, and gives them to the builder. Returns how many there
/// were. `piece` is the buffer for one pull.
fn pull_more<'t, S: Store>(
    store: &mut S,
    piece: &mut [u8],
    left: usize,
    builder: &mut SpacedBuilder<'t>,
) -> Result<usize, LoadFault>
    requires piece { 0 < length piece.old }
    requires left { 0 < left }
    requires reading { S.is_reading store.old ≡ true }
    ensures same { S.files store.new ≡ S.files store.old }
    ensures reading { S.is_reading store.new ≡ true }
    ensures writing { S.is_writing store.new ≡ S.is_writing store.old }
    ensures target { S.target store.new ≡ S.target store.old }
    ensures piece { length piece.new ≡ length piece.old }
    ensures names { builder.new.feeding.names ≡ builder.old.feeding.names }
    ensures limit { builder.new.feeding.pieces.limit ≡ builder.old.feeding.pieces.limit }
    ensures within { IfOk result (λ n. n ≤ left) }
    ensures taken { IfOk result (λ n. TakesNext builder.old (S.rest store.old) n builder.new (S.rest store.new)) }
    ensures later { S.faults store.old ≤ S.faults store.new }
    ensures failed { result ≡ Err LoadFault.Store → Rose (S.faults store.old) (S.faults store.new) }
    ensures steady { OnOk result (S.faults store.new ≡ S.faults store.old) }
{
    let most = left.min(piece.len());
    match store.pull(&mut piece[..most]) {
        Ok(count) => match builder.take(&piece[..count]) {
            Ok(()) => Ok(count),
            Err(OutOfMemory) => Err(LoadFault::OutOfMemory),
        },
        Err(Failed) => Err(LoadFault::Store),
    }
}

/// Gives the bytes of the open file to the builder, up to `limit + 1` of them. Returns how many there were.
fn pull_all<'t, S: Store>(
    store: &mut S,
    limit: u32,
    builder: &mut SpacedBuilder<'t>,
) -> Result<usize, LoadFault>
    requires reading { S.is_reading store.old ≡ true }
    requires begun { HasTaken builder.old [] }
    ensures same { S.files store.new ≡ S.files store.old }
    ensures writing { S.is_writing store.new ≡ S.is_writing store.old }
    ensures target { S.target store.new ≡ S.target store.old }
    ensures names { builder.new.feeding.names ≡ builder.old.feeding.names }
    ensures limit { builder.new.feeding.pieces.limit ≡ builder.old.feeding.pieces.limit }
    ensures taken { IfOk result (IsTaken builder.new (S.rest store.old) limit) }
    ensures later { S.faults store.old ≤ S.faults store.new }
    ensures failed { result ≡ Err LoadFault.Store → Rose (S.faults store.old) (S.faults store.new) }
    ensures steady { OnOk result (S.faults store.new ≡ S.faults store.old) }
{
    let mut piece = [0u8; PIECE];
    let most = limit as usize + 1;
    let mut bytes = 0;
    while bytes < most {
        let count = pull_more(store, &mut piece, most - bytes, builder)?;
        if count == 0 {
            break;
        }
        bytes += count;
    }
    Ok(bytes)
}

/// The tree of the page of that name, and how many bytes the page has.
///
/// The tree is built while the bytes are read. They are read to the end of the page, or up to the limit of a page, even
/// after a token is refused, since a page that is too long, isn't UTF-8 or has a zero byte is refused for that instead.
pub fn load_page<S: Store>(
    alloc: Global,
    store: &mut S,
    name: &str,
    table: &Table,
) -> Result<(Tree, usize), PageLoadFault>
    ensures ok { IfOk result (λ read. IsPageTree (S.files store.old) name.now table.now.entries read.0 read.1) }
    ensures settled { IfOk result (λ read. Settled read.0) }
    ensures err { IfErr result (NoPageTree (S.files store.old) name.now table.now.entries) }

    // Only what is being read changes.
    ensures same { S.files store.new ≡ S.files store.old }
    ensures writing { S.is_writing store.new ≡ S.is_writing store.old }
    ensures target { S.target store.new ≡ S.target store.old }

    // The causes are a failed call and a missing file. If a tree is returned, no call has failed.
    ensures steady { OnOk result (S.faults store.new ≡ S.faults store.old) }
    ensures later { S.faults store.old ≤ S.faults store.new }
    ensures store { result ≡ Err PageLoadFault.Store
        → Rose (S.faults store.old) (S.faults store.new) ⊎ IsMissing (S.files store.old) name.now }
    ensures missing { IsMissing (S.files store.old) name.now → result ≡ Err PageLoadFault.Store }
{
    match store.open_in(name) {
        Ok(true) => {}
        Ok(false) | Err(Failed) => return Err(PageLoadFault::Store),
    }
    let mut builder = SpacedBuilder::new(alloc, table, PAGE_LIMIT)?;
    let bytes = pull_all(store, PAGE_LIMIT, &mut builder)?;
    let tree = builder.end()?;
    Ok((tree, bytes))
}
