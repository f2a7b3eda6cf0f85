//! The text of a page: its limit, its faults, and the place of each byte.
use crate::printed::{after, after_value, is_value};
use crate::rows::expect;
use hm_base::{SourceText, TextFault};
use std::alloc::Global;
use std::process::Abort;

/// The length of a page's text in bytes. At most 4,194,304 bytes are read.
fn length_of(alloc: Global, page: &[u8]) -> Result<usize, TextFault> {
    match SourceText::read(alloc, page, 4_194_304) {
        Ok(text) => Ok(text.text().len()),
        Err(fault) => Err(fault),
    }
}

/// Whether a page is too long, but not without its first byte.
fn is_over_limit(alloc: Global, page: &[u8]) -> bool {
    match page.get(1..) {
        Some(most) => {
            is_value("Ok(4194304)", &length_of(alloc, most))
                && is_value("Err(TooLong)", &length_of(alloc, page))
        }
        None => false,
    }
}

/// A page may be as long as the limit.
#[test]
fn limit(rt: HostRuntime) {
    let page = vec![in rt.alloc(); b'a'; 4_194_305].expect(&rt, "memory");
    expect(&rt, is_over_limit(rt.alloc(), page.as_slice()), "the limit");
}

/// Whether a page has this fault. At most 100 bytes are read.
fn has_fault(alloc: Global, page: &[u8], wanted: &str) -> bool {
    match SourceText::read(alloc, page, 100) {
        Ok(_text) => false,
        Err(fault) => is_value(wanted, &fault),
    }
}

/// Asserts the fault of a page.
fn expect_fault(rt: &impl Abort, alloc: Global, page: &[u8], wanted: &str) {
    expect(rt, has_fault(alloc, page, wanted), wanted);
}

/// Pages that are no text have their faults.
#[test]
fn faults(rt: HostRuntime) {
    let alloc = rt.alloc();
    expect_fault(&rt, alloc, b"<!doctype html>\xFF", "NotUtf8 { at: 15 }");
    expect_fault(&rt, alloc, b"<!doctype html>\x00", "Nul { at: 15 }");
    expect_fault(&rt, alloc, b"a\x00\xFF", "Nul { at: 1 }");
    expect_fault(&rt, alloc, b"a\xC3(\x00", "NotUtf8 { at: 1 }");
    expect_fault(&rt, alloc, b"\xEF\xBB\xBF\xE2\x82", "NotUtf8 { at: 3 }");
}

/// Whether a text of at most 99 bytes is this one, and the places of its bytes and of its end are these, with a space before
/// each.
fn is_text(text: &SourceText, wanted: &str, places: &str) -> bool {
    let mut rest = places;
    for index in 0..100u32 {
        if index as usize <= text.text().len() {
            rest = after_value(after(rest, " "), &text.place_of(index));
        }
    }
    text.text() == wanted && rest.is_empty()
}

/// As `is_text`, for the text of a page.
fn has_text(alloc: Global, page: &[u8], wanted: &str, places: &str) -> bool {
    match SourceText::read(alloc, page, 100) {
        Ok(text) => is_text(&text, wanted, places),
        Err(_) => false,
    }
}

/// A page with line ends of each kind.
const PAGE: &[u8] = b"\xEF\xBB\xBFa\r\nb\rc\r\r\n\xC3\xA9\n";

/// Places in the text are those in the page, also after line ends.
#[test]
fn places(rt: HostRuntime) {
    let places = " 3 4 6 7 8 9 10 12 13 14 15";
    let wanted = "a\nb\nc\n\n\u{e9}\n";
    expect(&rt, has_text(rt.alloc(), PAGE, wanted, places), "the page");
    let empty = b"\xEF\xBB\xBF";
    expect(&rt, has_text(rt.alloc(), empty, "", " 3"), "an empty text");
}

/// The place of the end of a text.
fn end_of(text: &SourceText) -> u32 {
    text.place_of(text.text().len() as u32)
}

/// Whether two texts are the same, with the same end.
fn is_same(one: &SourceText, other: &SourceText) -> bool {
    one.text() == other.text() && end_of(one) == end_of(other)
}

/// Whether the text of a page of at most five bytes is this one, if the page's memory is handed over.
fn is_given(alloc: Global, page: &[u8], read: &SourceText) -> bool {
    match Vec::from_slice(alloc, page) {
        Ok(bytes) => match SourceText::take(alloc, bytes, 5) {
            Ok(taken) => is_same(&taken, read),
            Err(_) => false,
        },
        Err(_) => false,
    }
}

/// Whether the text of a page of at most five bytes is the same if the page's memory is handed over.
fn is_taken(alloc: Global, page: &[u8]) -> bool {
    match SourceText::read(alloc, page, 5) {
        Ok(read) => is_given(alloc, page, &read),
        Err(_) => false,
    }
}

/// The text is the same if the page's memory is handed over.
#[test]
fn taken(rt: HostRuntime) {
    let alloc = rt.alloc();
    expect(&rt, is_taken(alloc, b""), "no byte");
    expect(&rt, is_taken(alloc, b"a\n"), "a line");
    expect(&rt, is_taken(alloc, b"a\r\nb\r"), "two lines");
    expect(&rt, is_taken(alloc, b"\xEF\xBB\xBFa"), "a mark");
    expect(&rt, is_taken(alloc, b"\xEF\xAC\x81"), "a ligature");
}
