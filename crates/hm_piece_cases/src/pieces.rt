//! Compares a page in pieces with the whole page.
ghost use Rattle.std.specs.Prelude.{◌≤◌};

use hm_base::{OutOfMemory, PAGE_LIMIT, Refused, SourceText};
use hm_page_loading::{PageParser, parse};
use hm_refs::Table;
use hm_tree::Tree;
use std::alloc::Global;

/// How a page is cut. No page has more pieces than bytes and one more.
#[derive(Clone, Copy)]
enum Cutting {
    /// Into single bytes.
    Bytes,
    /// Once, before this byte.
    Once(usize),
    /// Into pieces of 1 to 64 bytes, by the numbers of a sequence.
    Chance,
}

/// The number after this one in the sequence of a linear congruential generator.
pub fn next(chance: u32) -> u32 {
    chance.wrapping_mul(1_664_525).wrapping_add(1_013_904_223)
}

/// The length of the next piece in bytes, if `left` bytes are left.
fn size_of(cutting: Cutting, is_first: bool, chance: u32, left: usize) -> usize
    ensures { result ≤ left }
{
    let size = match cutting {
        Cutting::Bytes => 1,
        Cutting::Once(cut) if is_first => cut,
        Cutting::Once(_) => left,
        Cutting::Chance => 1 + (chance >> 26) as usize,
    };
    size.min(left)
}

/// What a page gives as a whole.
fn of_whole(alloc: Global, table: &Table, page: &[u8]) -> Result<Tree, Refused> {
    match SourceText::read(alloc, page, PAGE_LIMIT) {
        Ok(text) => parse(alloc, &text, table),
        Err(fault) => Err(fault.refusal(PAGE_LIMIT)),
    }
}

/// What a page gives in pieces.
fn of_pieces(alloc: Global, table: &Table, page: &[u8], cutting: Cutting) -> Result<Tree, Refused> {
    let mut builder = match PageParser::new(alloc, table, PAGE_LIMIT) {
        Ok(builder) => builder,
        Err(OutOfMemory) => return Err(Refused::OutOfMemory),
    };
    let mut chance = 1;
    let mut left = page;
    for piece in 0..=page.len() {
        if left.is_empty() {
            break;
        }
        let size = size_of(cutting, piece == 0, chance, left.len());
        if let Err(OutOfMemory) = builder.feed(&left[..size]) {
            return Err(Refused::OutOfMemory);
        }
        left = &left[size..];
        chance = next(chance);
    }
    builder.end()
}

/// Whether two answers are equal. Lack of memory equals no answer.
fn are_same(one: &Result<Tree, Refused>, other: &Result<Tree, Refused>) -> bool {
    match (one, other) {
        (Ok(one), Ok(other)) => one.same(other),
        (
            Err(Refused::Page { rule, at }),
            Err(
                Refused::Page {
                    rule: other_rule,
                    at: other_at,
                },
            ),
        ) => rule == other_rule && at == other_at,
        _ => false,
    }
}

/// Whether a page gives the same in single bytes, and in pieces by chance, as the whole.
pub fn agrees_in_pieces(alloc: Global, table: &Table, page: &[u8]) -> bool {
    let whole = of_whole(alloc, table, page);
    for cutting in [Cutting::Bytes, Cutting::Chance] {
        if !are_same(&whole, &of_pieces(alloc, table, page, cutting)) {
            return false;
        }
    }
    true
}

/// Whether a page gives the same cut in two, at each byte, as the whole.
pub fn agrees_in_two(alloc: Global, table: &Table, page: &[u8]) -> bool {
    let whole = of_whole(alloc, table, page);
    for cut in 0..page.len() {
        if !are_same(&whole, &of_pieces(alloc, table, page, Cutting::Once(cut))) {
            return false;
        }
    }
    true
}
