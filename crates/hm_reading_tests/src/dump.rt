//! The lines of a tree, written to a sink in several puts.

use crate::printed::are_those_of;
use crate::rows::expect;
use hm_dump::Shown;
use hm_json_tree::read_tree;
use hm_store::MemSink;
use std::alloc::Global;
use std::process::Abort;
use std::test::Fail;

/// The events of a page up to its text.
const FRONT: &str =
    "[[\"doctype\",\"plain\"],[\"start\",\"html\",[]],[\"start\",\"head\",[]],[\"end\"],[\"start\",\"body\",[]],[\"start\",\"p\",[]],[\"text\",\"";

/// A TAB at the end of the text, and the events after it.
const BACK: &str = "\\t\"],[\"end\"],[\"end\"],[\"end\"]]";

/// The lines up to the text.
const LINES: &str =
    "doctype\nelement html\n  element head\n  element body\n    element p\n      text \"";

/// Puts the lines of a tree as JSON to a sink, and gives whether that succeeded; None if there is no tree or no memory.
fn put_lines(alloc: Global, page: &str, sink: &mut MemSink) -> Option<bool> {
    let tree = read_tree(alloc, page.as_bytes()).ok()?;
    let shown = Shown::of(alloc, tree).ok()?;
    Some(shown.put(sink).is_ok())
}

/// Whether a put of a page's lines ends so, and these three texts are put, if this call on the sink fails.
fn is_put(alloc: Global, page: &str, call: u32, ok: bool, texts: (&str, &str, &str)) -> bool {
    let mut sink = MemSink::new(alloc);
    let is_listed = sink.fail(call).is_ok();
    let is_put = put_lines(alloc, page, &mut sink).unwrap_or(!ok) == ok;
    is_listed & is_put & are_those_of(sink.bytes(), texts.0, texts.1, texts.2)
}

/// Asserts what is put of a page's lines with a long text if each call on the sink fails in turn, and if none does.
fn expect_lines(rt: &impl Abort, alloc: Global, page: &str, text: &str) {
    expect(rt, is_put(alloc, page, 1, false, ("", "", "")), "1");
    expect(rt, is_put(alloc, page, 2, false, (LINES, "", "")), "2");
    expect(rt, is_put(alloc, page, 3, false, (LINES, text, "")), "3");
    let texts = (LINES, text, "\\t\"\n");
    expect(rt, is_put(alloc, page, 4, true, texts), "4");
}

/// Lines with a text of more bytes than the buffer takes are put in three calls: what is before the text, the text, and
/// what follows it.
#[test]
fn a_long_text_is_put_by_itself(rt: HostRuntime) -> Result<(), Fail> {
    let text = "0123456789".repeat(rt.alloc(), 9000)?;
    let page = format!(in rt.alloc(); "{FRONT}{text}{BACK}")?;
    expect_lines(&rt, rt.alloc(), page.as_str(), text.as_str());
    Ok(())
}
