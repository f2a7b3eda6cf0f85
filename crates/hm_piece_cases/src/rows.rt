//! How many elements are open after each piece of a page.
use crate::kept;
use hm_base::PAGE_LIMIT;
use hm_page_loading::PageParser;
use hm_refs::Table;
use std::alloc::Global;
use std::io;

/// Whether this many elements are open after each piece.
fn has_depths(alloc: Global, table: &Table, pieces: &[&[u8]], depths: &[u32]) -> io::Result<bool> {
    let mut builder = kept(PageParser::new(alloc, table, PAGE_LIMIT))?;
    let mut wanted = depths.iter();
    for piece in pieces {
        kept(builder.feed(piece))?;
        if wanted.next() != Some(&builder.depth()) {
            return Ok(false);
        }
    }
    Ok(wanted.next().is_none())
}

/// How many rows have other numbers of open elements.
pub fn count_differing(alloc: Global, table: &Table) -> io::Result<u32> {
    let mut differ: u32 = 0;
    let rows: [(&[&[u8]], &[u32]); 6] = [
        (&[b"<!doctype html><b><i>", b"</i", b">"], &[4, 4, 3]),
        (&[b"<!doctype html><ti"], &[0]),
        (&[b"<!doctype html><b></i>"], &[0]),
        (
            &[b"<!doctype html", b"><b><i>", b"a &am", b"p; b"],
            &[0, 4, 4, 4],
        ),
        (
            &[b"<!doctype html><b>\r", b"\n", b"</", b"b><i><u>"],
            &[3, 3, 3, 4],
        ),
        (
            &[b"<!doctype html><b>", b"</", b"i>", b"<u>"],
            &[3, 3, 0, 0],
        ),
    ];
    for (pieces, depths) in rows {
        if !has_depths(alloc, table, pieces, depths)? {
            differ = differ.saturating_add(1);
        }
    }
    Ok(differ)
}
