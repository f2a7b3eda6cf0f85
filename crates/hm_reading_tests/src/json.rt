//! Trees from JSON and to it: rows, hostile bytes, and what is put.

use crate::printed::{are_those_of, is_shown};
use crate::rows::{cut, expect};
use hm_json_tree::{JsonShown, read_tree, write_tree};
use hm_store::MemSink;
use std::alloc::{AllocError, Global};
use std::fmt::Write;

/// The start of a page's array, and its events up to the body.
const FRONT: &str =
    "[[\"doctype\",\"plain\"],[\"start\",\"html\",[]],[\"start\",\"head\",[]],[\"end\"],[\"start\",\"body\",[]],";

/// The last events of a page, and the end of its array.
const BACK: &str = ",[\"end\"],[\"end\"]]";

/// A page of an element with an attribute, two texts and a void element.
const PAGE: &str =
    "[[\"doctype\",\"plain\"],[\"start\",\"html\",[]],[\"start\",\"head\",[]],[\"end\"],[\"start\",\"body\",[]],[\"start\",\"p\",[[\"id\",\"x\"]]],[\"text\",\"a\"],[\"start\",\"br\",[]],[\"end\"],[\"text\",\"b\"],[\"end\"],[\"end\"],[\"end\"]]";

/// Whether reading the bytes gives this: `ok`, or the printed fault.
fn is_outcome(alloc: Global, bytes: &[u8], wanted: &str) -> bool {
    match read_tree(alloc, bytes) {
        Ok(_tree) => wanted == "ok",
        Err(fault) => is_shown(wanted, &fault),
    }
}

/// Whether reading a page with these items in its body gives this.
fn is_body(alloc: Global, items: &str, wanted: &str) -> bool {
    match format!(in alloc; "{FRONT}{items}{BACK}") {
        Ok(page) => is_outcome(alloc, page.as_bytes(), wanted),
        Err(_) => false,
    }
}

/// The items of a body before ` ⇒ ` in each line, and after it the result of reading their page.
const BODIES: &str = "\
    [\"start\",\"p\",[[\"id\",\"x\"]]],[\"text\",\"a\"],[\"start\",\"br\",[]],[\"end\"],[\"text\",\"b\"],[\"end\"] ⇒ ok\n\
    [\"comment\",\"c\"] ⇒ ok\n\
    [\"start\",\"li\",[]],[\"text\",\"a\"],[\"end\"] ⇒ NotSettled event 5 point 3\n\
    [\"start\",\"p\",[]],[\"start\",\"div\",[]],[\"end\"],[\"end\"] ⇒ NotSettled event 6 point 3\n\
    [\"start\",\"a\",[]],[\"start\",\"b\",[]],[\"start\",\"a\",[]],[\"end\"],[\"end\"],[\"end\"] ⇒ NotSettled event 7 point 3\n\
    [\"start\",\"p\",[]],[\"start\",\"p\",[]],[\"end\"],[\"end\"] ⇒ NotSettled event 6 point 3\n\
    [\"start\",\"P\",[]],[\"end\"] ⇒ NotSettled event 5 point 3\n\
    [\"start\",\"body\",[]],[\"end\"] ⇒ NotSettled event 5 point 2\n\
    [\"doctype\",\"plain\"] ⇒ NotSettled event 5 point 1\n\
    [\"start\",\"svg\",[]],[\"start\",\"path\",[]],[\"end\"],[\"end\"] ⇒ ok\n\
    [\"start\",\"svg\",[]],[\"start\",\"div\",[]],[\"end\"],[\"end\"] ⇒ NotSettled event 6 point 4\n\
    [\"start\",\"svg\",[]],[\"start\",\"title\",[]],[\"start\",\"g\",[]],[\"end\"],[\"end\"],[\"end\"] ⇒ NotSettled event 7 point 4\n\
    [\"start\",\"br\",[]],[\"text\",\"a\"],[\"end\"] ⇒ NotSettled event 6 point 5\n\
    [\"start\",\"br\",[]],[\"start\",\"svg\",[]],[\"end\"],[\"end\"] ⇒ NotSettled event 6 point 4\n\
    [\"text\",\"a\"],[\"text\",\"b\"] ⇒ NotSettled event 6 point 6\n\
    [\"text\",\"\"] ⇒ NotSettled event 5 point 6\n\
    [\"text\",\"a\\u0000\"] ⇒ NotSettled event 5 point 6\n\
    [\"start\",\"p\",[[\"a\",\"\\u0000\"]]],[\"end\"] ⇒ NotSettled event 5 point 6\n\
    [\"start\",\"ul\",[]],[\"text\",\"a\"],[\"end\"] ⇒ ok\n\
    [\"start\",\"table\",[]],[\"text\",\"a\"],[\"end\"] ⇒ NotSettled event 6 point 6\n\
    [\"start\",\"table\",[]],[\"text\",\" \"],[\"end\"] ⇒ ok\n\
    [\"start\",\"title\",[]],[\"comment\",\"c\"],[\"end\"] ⇒ NotSettled event 5 point 3\n\
    [\"start\",\"script\",[]],[\"text\",\"a<b\"],[\"end\"] ⇒ ok\n\
    [\"start\",\"script\",[]],[\"text\",\"</script>\"],[\"end\"] ⇒ NotSettled event 6 point 7\n\
    [\"start\",\"script\",[]],[\"text\",\"<!--<script></script>\"],[\"end\"] ⇒ ok\n\
    [\"start\",\"script\",[]],[\"text\",\"<!--<script></script>-->\"],[\"end\"] ⇒ ok\n\
    [\"start\",\"style\",[]],[\"text\",\"a\\r\"],[\"end\"] ⇒ NotSettled event 6 point 7\n\
    [\"start\",\"style\",[]],[\"text\",\"</STYLE \"],[\"end\"] ⇒ NotSettled event 6 point 7\n\
    [\"start\",\"style\",[]],[\"text\",\"</styl\"],[\"end\"] ⇒ ok\n\
    [\"comment\",\"a\\r\"] ⇒ NotSettled event 5 point 8\n\
    [\"comment\",\">\"] ⇒ NotSettled event 5 point 8\n\
    [\"comment\",\"->a\"] ⇒ NotSettled event 5 point 8\n\
    [\"comment\",\"a-->b\"] ⇒ NotSettled event 5 point 8\n\
    [\"comment\",\"a--!>b\"] ⇒ NotSettled event 5 point 8\n\
    [\"comment\",\"a--\"] ⇒ ok\n\
    [\"start\",\"p\",[[\"a\",\"1\"],[\"a\",\"2\"]]],[\"end\"] ⇒ NotSettled event 5 point 9\n\
    [\"start\",\"p\",[[\"A\",\"1\"]]],[\"end\"] ⇒ NotSettled event 5 point 9\n\
    [\"start\",\"p\",[[\"\",\"1\"]]],[\"end\"] ⇒ NotSettled event 5 point 9\n\
    [\"start\",\"p\",[[\"=\",\"1\"]]],[\"end\"] ⇒ NotSettled event 5 point 9\n\
    [\"text\",\"a\"],[\"text\"] ⇒ BadEvent event 6\n\
    [\"text\",1] ⇒ BadEvent event 5\n\
    [\"start\",\"p\"] ⇒ BadEvent event 5\n\
    [\"start\",\"p\",[[\"a\"]]],[\"end\"] ⇒ BadEvent event 5\n\
    [\"start\",\"p\",[[\"a\",\"b\",\"c\"]]],[\"end\"] ⇒ BadEvent event 5\n\
    [\"start\",\"p\",[1]],[\"end\"] ⇒ BadEvent event 5\n\
    [\"start\",1,[]],[\"end\"] ⇒ BadEvent event 5\n\
    [\"end\",1] ⇒ BadEvent event 5\n\
    [\"note\",\"a\"] ⇒ BadEvent event 5\n\
    [] ⇒ BadEvent event 5\n\
    {} ⇒ BadEvent event 5\n\
    [[\"text\"],\"a\"] ⇒ BadEvent event 5\n\
    [\"comment\",\"a\",1] ⇒ BadEvent event 5\n\
    [\"doctype\",\"plain\",1] ⇒ BadEvent event 5\n\
    [\"start\",\"p\",[[\"a\",\"1\"],[\"a\",\"2\"]]],[\"end\"],[\"text\",\"a\"],[\"text\",\"b\"] ⇒ NotSettled event 5 point 9\n";

/// Whether reading the page in a line gives the result there.
fn is_body_line(alloc: Global, line: &str) -> bool {
    let (items, wanted) = cut(line, " ⇒ ");
    is_body(alloc, items, wanted)
}

/// Bodies are read, or refused with their fault.
#[test]
fn bodies_are_read_or_refused(rt: HostRuntime) {
    for line in BODIES.lines() {
        expect(&rt, is_body_line(rt.alloc(), line), line);
    }
}

/// A whole text before ` ⇒ ` in each line, and after it the result of reading it.
const WHOLES: &str = "\
    [] ⇒ NotSettled event 0 point 1\n\
    {} ⇒ NotArray\n\
    null ⇒ NotArray\n\
    \"a\" ⇒ NotArray\n\
    [1] ⇒ BadEvent event 0\n\
    [1e999] ⇒ NotJson\n\
    [[]] ⇒ BadEvent event 0\n\
    [[\"end\"]] ⇒ BadEvent event 0\n\
    [[\"doctype\",\"x\"]] ⇒ BadEvent event 0\n\
    [[\"doctype\"]] ⇒ BadEvent event 0\n\
    [[\"doctype\",\"plain\"]] ⇒ NotSettled event 1 point 1\n\
    [[\"doctype\",\"legacy\"]] ⇒ NotSettled event 1 point 1\n\
    [[\"doctype\",\"plain\"],[\"start\",\"html\",[]]] ⇒ Open open 1\n\
    [[\"doctype\",\"plain\"],[\"start\",\"html\",[]],[\"end\"]] ⇒ NotSettled event 2 point 2\n\
    [[\"doctype\",\"plain\"],[\"start\",\"html\",[]],[\"start\",\"head\",[]],[\"end\"],[\"end\"]] ⇒ NotSettled event 4 point 2\n\
    [[\"start\",\"html\",[]],[\"start\",\"head\",[]],[\"end\"],[\"start\",\"body\",[]],[\"end\"],[\"end\"]] ⇒ NotSettled event 0 point 1\n\
    [[\"doctype\",\"plain\"],[\"start\",\"p\",[]],[\"end\"]] ⇒ NotSettled event 1 point 1\n\
    [[\"doctype\",\"plain\"],[\"doctype\",\"plain\"]] ⇒ NotSettled event 1 point 1\n\
    [[\"text\",\"a\"]] ⇒ NotSettled event 0 point 1\n\
    [[\"doctype\",\"plain\"],[\"start\",\"html\",[[\"a\",\"1\"],[\"a\",\"2\"]]],[\"start\",\"p\",[[\"b\",\"1\"],[\"b\",\"2\"]]],[\"end\"],[\"end\"]] ⇒ NotSettled event 1 point 9\n\
    [[\"doctype\",\"plain\"],[\"start\",\"html\",[]],[\"start\",\"body\",[]],[\"end\"],[\"end\"]] ⇒ NotSettled event 2 point 2\n\
    [[\"doctype\",\"plain\"],[\"start\",\"html\",[]],[\"text\",\" \"],[\"start\",\"head\",[]],[\"end\"],[\"start\",\"body\",[]],[\"end\"],[\"end\"]] ⇒ NotSettled event 2 point 2\n\
    [[\"doctype\",\"plain\"],[\"start\",\"html\",[]],[\"start\",\"head\",[]],[\"end\"],[\"text\",\"a\"],[\"start\",\"body\",[]],[\"end\"],[\"end\"]] ⇒ NotSettled event 4 point 2\n\
    [[\"doctype\",\"plain\"],[\"start\",\"html\",[]],[\"start\",\"head\",[]],[\"end\"],[\"text\",\" \"],[\"start\",\"body\",[]],[\"end\"],[\"end\"]] ⇒ ok\n\
    [[\"text\",\"a\"],[\"text\"]] ⇒ BadEvent event 1\n\
    [[\"start\",\"p\",[]],[\"start\",\"p\",[]]] ⇒ Open open 2\n\
    [[\"start\",\"p\",[]],[\"end\"],[\"end\"]] ⇒ BadEvent event 2\n\
    [[\"text\",\"\\ud800\"]] ⇒ NotJson\n\
    [[\"text\",\"a\"],] ⇒ NotJson\n\
    [[\"text\",\"a\"]] [] ⇒ NotJson\n\
    \u{FEFF}[] ⇒ NotJson\n\
    [{\"a\":1,\"a\":2}] ⇒ BadEvent event 0\n";

/// Whether reading the text in a line gives the result there.
fn is_whole(alloc: Global, line: &str) -> bool {
    let (text, wanted) = cut(line, " ⇒ ");
    is_outcome(alloc, text.as_bytes(), wanted)
}

/// Whole texts are read, or refused with their fault.
#[test]
fn wholes_are_read_or_refused(rt: HostRuntime) {
    for line in WHOLES.lines() {
        expect(&rt, is_whole(rt.alloc(), line), line);
    }
    expect(&rt, is_outcome(rt.alloc(), b"", "NotJson"), "no text");
}

/// A `div`, `more` others, each in the one before, and all their ends, as the items of a body.
fn nested(alloc: Global, more: usize) -> Result<String, AllocError> {
    let starts = ",[\"start\",\"div\",[]]".repeat(alloc, more)?;
    let ends = ",[\"end\"]".repeat(alloc, more)?;
    format!(in alloc; "[\"start\",\"div\",[]]{starts},[\"end\"]{ends}")
}

/// Whether reading a page of a `div` and `more` others in it gives this.
fn is_nested(alloc: Global, more: usize, wanted: &str) -> bool {
    match nested(alloc, more) {
        Ok(items) => is_body(alloc, items.as_str(), wanted),
        Err(_) => false,
    }
}

/// Appends pairs of attributes from number 1 up to `count`.
fn push_pairs(items: &mut String, count: u32) -> Result<(), AllocError> {
    for i in 1..count {
        write!(items, ",[\"a{i}\",\"\"]")?;
    }
    items.push_str("]],[\"end\"]")
}

/// Whether reading a page of an element with `count` attributes gives this.
fn is_attributed(alloc: Global, count: u32, wanted: &str) -> bool {
    match String::from_str(alloc, "[\"start\",\"p\",[[\"a0\",\"\"]") {
        Ok(mut items) => {
            let is_pushed = push_pairs(&mut items, count).is_ok();
            is_pushed & is_body(alloc, items.as_str(), wanted)
        }
        Err(_) => false,
    }
}

/// `count` arrays, each in the one before.
fn arrays(alloc: Global, count: usize) -> Result<String, AllocError> {
    let ends = "]".repeat(alloc, count)?;
    let mut text = "[".repeat(alloc, count)?;
    text.push_str(ends.as_str())?;
    Ok(text)
}

/// Whether reading `count` arrays gives this.
fn is_array(alloc: Global, count: usize, wanted: &str) -> bool {
    match arrays(alloc, count) {
        Ok(text) => is_outcome(alloc, text.as_bytes(), wanted),
        Err(_) => false,
    }
}

/// Elements, attributes and arrays have limits.
#[test]
fn there_are_limits(rt: HostRuntime) {
    let alloc = rt.alloc();
    expect(&rt, is_nested(alloc, 509, "ok"), "510 deep");
    let wanted = "NotSettled event 515 point 10";
    expect(&rt, is_nested(alloc, 510, wanted), "511 deep");
    expect(&rt, is_attributed(alloc, 256, "ok"), "256 pairs");
    let wanted = "NotSettled event 5 point 9";
    expect(&rt, is_attributed(alloc, 257, wanted), "257 pairs");
    expect(&rt, is_array(alloc, 127, "BadEvent event 0"), "127 arrays");
    expect(&rt, is_array(alloc, 128, "NotJson"), "128 arrays");
}

/// JSON that is cut off is no JSON.
#[test]
fn what_is_cut_off_is_no_json(rt: HostRuntime) {
    let bytes = PAGE.as_bytes();
    for cut in 0..bytes.len() {
        let found = is_outcome(rt.alloc(), &bytes[..cut], "NotJson");
        expect(&rt, found, "a cut");
    }
    expect(&rt, is_outcome(rt.alloc(), bytes, "ok"), "no cut");
}

/// A page with spaces and escapes.
const SPACED: &str =
    " [[\"doctype\" ,\n\"plain\"] ,\n[\"start\" ,\n\"html\" ,\n[]] ,\n[\"start\" ,\n\"head\" ,\n[]] ,\n[\"end\"] ,\n[\"start\" ,\n\"body\" ,\n[]] ,\n[\"start\" ,\n\"p\" ,\n[[\"a\\u00e9\" ,\n\"\\\"\\\\\\/\\b\\f\\n\\r\\t\\u0001\\u001f\\u007f\"]]] ,\n[\"text\" ,\n\"\\u20ac \\ud83d\\ude00\"] ,\n[\"end\"] ,\n[\"end\"] ,\n[\"end\"]]";

/// The compact JSON of its tree.
const COMPACT: &str =
    "[[\"doctype\",\"plain\"],[\"start\",\"html\",[]],[\"start\",\"head\",[]],[\"end\"],[\"start\",\"body\",[]],[\"start\",\"p\",[[\"aé\",\"\\\"\\\\/\\b\\f\\n\\r\\t\\u0001\\u001f\u{7f}\"]]],[\"text\",\"€ 😀\"],[\"end\"],[\"end\"],[\"end\"]]";

/// Whether the tree of a text is written as this JSON.
fn is_written(alloc: Global, text: &str, wanted: &str) -> bool {
    match read_tree(alloc, text.as_bytes()) {
        Ok(tree) => match write_tree(alloc, &tree) {
            Ok(written) => written.as_slice() == wanted.as_bytes(),
            Err(_) => false,
        },
        Err(_) => false,
    }
}

/// Spaces and escapes are written compactly.
#[test]
fn what_is_read_is_written_compactly(rt: HostRuntime) {
    expect(&rt, is_written(rt.alloc(), PAGE, PAGE), PAGE);
    expect(&rt, is_written(rt.alloc(), SPACED, COMPACT), SPACED);
}

/// Puts the tree of [`PAGE`] to a sink, and gives whether that succeeded; None if there is no tree or no memory.
fn put_page(alloc: Global, sink: &mut MemSink) -> Option<bool> {
    let tree = read_tree(alloc, PAGE.as_bytes()).ok()?;
    let shown = JsonShown::of(alloc, tree).ok()?;
    Some(shown.put(sink).is_ok())
}

/// Whether a put of [`PAGE`] ends so, and these two texts are put, if this call on the sink fails.
fn is_put(alloc: Global, call: u32, ok: bool, one: &str, other: &str) -> bool {
    let mut sink = MemSink::new(alloc);
    let is_listed = sink.fail(call).is_ok();
    let is_put = put_page(alloc, &mut sink).unwrap_or(!ok) == ok;
    is_listed & is_put & are_those_of(sink.bytes(), one, other, "")
}

/// JSON is put with a line feed after it.
#[test]
fn json_is_put_with_a_line_feed(rt: HostRuntime) {
    expect(&rt, is_put(rt.alloc(), 1, false, "", ""), "the first call");
    expect(&rt, is_put(rt.alloc(), 9, true, PAGE, "\n"), "no call");
}
