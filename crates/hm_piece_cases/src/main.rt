//! Pages in pieces: however a page is cut, its tree or its refusal has to be that of the whole page. Prints each page
//! that differs, and how many there are.
//!
//! The pages are those of `measure`, as they are made and with one byte of them changed, and rows with how many
//! elements are open after each piece.
#![tactic(auto)]

mod pieces;
mod rows;

use hm_base::OutOfMemory;
use hm_html_names::html_table;
use hm_measure_page::page_of;
use hm_refs::Table;
use pieces::{agrees_in_pieces, agrees_in_two};
use std::alloc::Global;
use std::io::{self, ErrorKind};

/// How many pages are made from numbers.
const MADE_PAGES: u32 = 200;

/// How many of these are cut in two at each byte.
const CUT_IN_TWO: u32 = 20;

/// How many bytes of each page are changed, one at a time.
const CHANGES: u32 = 12;

/// What a byte is changed to: bytes that start or end something, and two that no page may have.
const CHANGED_TO: &[u8] = b"<>&/!-\"'= \r\n;a\x00\xff";

/// The answer, with lack of memory as an I/O error.
pub fn kept<T>(answer: Result<T, OutOfMemory>) -> io::Result<T> {
    match answer {
        Ok(value) => Ok(value),
        Err(OutOfMemory) => Err(io::Error::from(ErrorKind::OutOfMemory)),
    }
}

/// How many pages were cut, and how many of them differ.
#[derive(Drop)]
struct Counts {
    pages: u32,
    differ: u32,
}

impl Counts {
    /// Counts one more page.
    fn take(&mut self, agrees: bool) {
        self.pages = self.pages.saturating_add(1);
        if !agrees {
            self.differ = self.differ.saturating_add(1);
        }
    }
}

/// Cuts a page into pieces, and then the page with one byte changed, for several bytes.
fn cut_page(alloc: Global, table: &Table, page: &mut [u8], number: u32, counts: &mut Counts) {
    counts.take(agrees_in_pieces(alloc, table, page));
    let mut chance = number;
    for _change in 0..CHANGES {
        chance = pieces::next(chance);
        let at = (chance >> 8) as usize % page.len().max(1);
        let to = (chance >> 4) as usize % CHANGED_TO.len();
        if let (Some(byte), Some(other)) = (page.get_mut(at), CHANGED_TO.get(to)) {
            let before = *byte;
            *byte = *other;
            counts.take(agrees_in_pieces(alloc, table, page));
            if let Some(byte) = page.get_mut(at) {
                *byte = before;
            }
        }
    }
}

/// Compares all pages and rows, and prints the counts.
fn main(rt: HostRuntime) -> io::Result<()> {
    let alloc = rt.alloc();
    let table = kept(html_table(alloc))?;
    let mut counts = Counts {
        pages: 0,
        differ: 0,
    };
    for number in 0..MADE_PAGES {
        let page = kept(page_of(alloc, number, number % 8))?;
        let mut bytes = Vec::from_slice(alloc, page.as_bytes())?;
        cut_page(alloc, &table, bytes.as_mut_slice(), number, &mut counts);
        if number < CUT_IN_TWO {
            counts.take(agrees_in_two(alloc, &table, bytes.as_slice()));
        }
    }
    let (pages, differ) = (counts.pages, counts.differ);
    println!(rt; "{pages} pages in pieces, {differ} differ")?;
    let differ = rows::count_differing(alloc, &table)?;
    println!(rt; "rows of open elements: {differ} differ")
}
