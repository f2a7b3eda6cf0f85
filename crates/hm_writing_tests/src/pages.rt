//! The pages of `measure`.
use crate::rows::{cut, expect, is_value};
use hm_measure_page::page_of;
use std::alloc::Global;

/// Whether the page of number 0 and size 1 is this text.
fn is_page(alloc: Global, wanted: &str) -> bool {
    match page_of(alloc, 0, 1) {
        Ok(page) => page.as_str() == wanted,
        Err(_) => false,
    }
}

/// The page of one block.
#[test]
fn one_block(rt: HostRuntime) {
    let wanted = "<!doctype html><title>0</title>\n<p>Item 1 &amp; more</p>\n";
    expect(&rt, is_page(rt.alloc(), wanted), wanted);
}

/// In each line the number and the size of a page, and its length in bytes, which comes from a second program that was
/// written from the same rules.
const LENGTHS: &str = "\
    0 1 ⇒ 57\n\
    0 2 ⇒ 82\n\
    1 3 ⇒ 134\n\
    7 10 ⇒ 340\n\
    42 12 ⇒ 402\n\
    1000 100 ⇒ 2978\n\
    65536 33 ⇒ 1028\n\
    2147483647 50 ⇒ 1558\n\
    2147483648 50 ⇒ 1475\n\
    4294967295 20000 ⇒ 635295\n";

/// Whether the page of a number and a size has this length.
fn has_length(alloc: Global, number: u32, size: u32, wanted: &str) -> bool {
    match page_of(alloc, number, size) {
        Ok(page) => is_value(wanted, &page.len()),
        Err(_) => false,
    }
}

/// Whether the page in a line has the length there.
fn is_line(alloc: Global, line: &str) -> bool {
    let (number, rest) = cut(line, " ");
    let (size, wanted) = cut(rest, " ⇒ ");
    match (number.parse::<u32>(), size.parse::<u32>()) {
        (Ok(number), Ok(size)) => has_length(alloc, number, size, wanted),
        _ => false,
    }
}

/// Pages have their lengths.
#[test]
fn lengths(rt: HostRuntime) {
    for line in LENGTHS.lines() {
        expect(&rt, is_line(rt.alloc(), line), line);
    }
}
