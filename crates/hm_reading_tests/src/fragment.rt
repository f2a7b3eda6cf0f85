//! Fragments: their trees, and the rules and places of refusals.

use crate::printed::{are_those_of, is_value};
use crate::rows::{cut, expect};
use hm_base::Refused;
use hm_fragment::{front, read_fragment};
use hm_json_tree::write_tree;
use hm_refs::Table;
use hm_tree::Tree;
use std::alloc::Global;
use std::process::Abort;
use std::test::Fail;

/// Reads a fragment, with `front()` before it.
fn read(alloc: Global, table: &Table, fragment: &[u8]) -> Result<Tree, Refused> {
    if fragment.len() > 100 {
        return Err(Refused::OutOfMemory);
    }
    let mut page = Vec::new(alloc);
    if page.extend_from_slice(front()).is_err() || page.extend_from_slice(fragment).is_err() {
        return Err(Refused::OutOfMemory);
    }
    read_fragment(alloc, page, table)
}

/// The events of a page up to the content of its body.
const FRONT: &str =
    "[[\"doctype\",\"plain\"],[\"start\",\"html\",[]],[\"start\",\"head\",[]],[\"end\"],[\"start\",\"body\",[]],";

/// The last events of a page.
const BACK: &str = "[\"end\"],[\"end\"]]";

/// Whether a tree is that of a page with these events in its body.
fn is_written(alloc: Global, tree: &Tree, inside: &str) -> bool {
    match write_tree(alloc, tree) {
        Ok(written) => are_those_of(written.as_slice(), FRONT, inside, BACK),
        Err(_) => false,
    }
}

/// Whether this is the result for a fragment: the events in its body, or the rule and the place of its refusal.
fn is_read(alloc: Global, table: &Table, fragment: &[u8], wanted: &str) -> bool {
    match read(alloc, table, fragment) {
        Ok(tree) => is_written(alloc, &tree, wanted),
        Err(Refused::Page { rule, at }) => is_value(wanted, &(rule, at)),
        Err(Refused::OutOfMemory) => false,
    }
}

/// A fragment before ` ⇒ ` in each line, and after it the events in its body.
const TREES: &str = "\
    \x20⇒ \n\
    \x20x ⇒ [\"text\",\" x\"],\n\
    <p>a</p><p>b ⇒ [\"start\",\"p\",[]],[\"text\",\"a\"],[\"end\"],[\"start\",\"p\",[]],[\"text\",\"b\"],[\"end\"],\n\
    &#xFEFF;x ⇒ [\"text\",\"\u{FEFF}x\"],\n\
    \u{FEFF}x ⇒ [\"text\",\"\u{FEFF}x\"],\n\
    a</ ⇒ [\"text\",\"a</\"],\n\
    a<!--</body>-->b ⇒ [\"text\",\"a\"],[\"comment\",\"</body>\"],[\"text\",\"b\"],\n\
    <p title=\"</body>\"> ⇒ [\"start\",\"p\",[[\"title\",\"</body>\"]]],[\"end\"],\n";

/// As `TREES`, with the first token that closes body, if the page isn't refused.
const CLOSES_BODY: &str = "\
    a</body> ⇒ (FrameEnd, 1)\n\
    a</html> ⇒ (FrameEnd, 1)\n\
    </body></html> ⇒ (FrameEnd, 0)\n\
    a</body><!--c--> ⇒ (FrameEnd, 1)\n\
    a</body> </html>  ⇒ (FrameEnd, 1)\n\
    <p>a</html x=y> ⇒ (FrameEnd, 4)\n\
    a</body>b ⇒ (AfterBody, 8)\n\
    </BODY >x ⇒ (AfterBody, 8)\n\
    a</body></p> ⇒ (AfterBody, 8)\n\
    </html></body> ⇒ (AfterBody, 7)\n";

/// As `TREES`, with the refusal of the page.
const REFUSED: &str = "\
    a\0 ⇒ (Nul, 1)\n\
    <li>x ⇒ (WrongParent, 0)\n\
    <title>x ⇒ (WrongParent, 0)\n\
    </p> ⇒ (StrayEnd, 0)\n\
    <table>x ⇒ (TextHere, 7)\n\
    <b> ⇒ (Unclosed, 3)\n\
    <body> ⇒ (SecondRoot, 0)\n\
    <!doctype html> ⇒ (SecondDoctype, 0)\n\
    a</body ⇒ (Cut, 1)\n\
    <svg></body> ⇒ (NotCurrent, 5)\n\
    <textarea></body> ⇒ (Cut, 10)\n";

/// Whether the fragment in a line has the result there.
fn is_line(alloc: Global, table: &Table, line: &str) -> bool {
    let (fragment, wanted) = cut(line, " ⇒ ");
    is_read(alloc, table, fragment.as_bytes(), wanted)
}

/// Asserts the result of each line.
fn expect_lines(rt: &impl Abort, alloc: Global, table: &Table, lines: &str) {
    for line in lines.lines() {
        expect(rt, is_line(alloc, table, line), line);
    }
}

/// Asserts the result for a fragment.
fn expect_read(rt: &impl Abort, alloc: Global, table: &Table, fragment: &[u8], wanted: &str) {
    expect(rt, is_read(alloc, table, fragment, wanted), wanted);
}

/// Asserts the results for fragments with line ends, and for bytes that are no text.
fn expect_others(rt: &impl Abort, alloc: Global, table: &Table) {
    expect_read(rt, alloc, table, b"a\r\nb", "[\"text\",\"a\\nb\"],");
    expect_read(
        rt,
        alloc,
        table,
        b"<pre>\r\n</pre></body>",
        "(FrameEnd, 13)",
    );
    expect_read(rt, alloc, table, b"\r\n\r\n</html>", "(FrameEnd, 4)");
    expect_read(rt, alloc, table, b"\xFF", "(NotUtf8, 0)");
    expect_read(rt, alloc, table, b"a\xFF", "(NotUtf8, 1)");
    expect_read(rt, alloc, table, b"\r\n\0", "(Nul, 2)");
    expect_read(rt, alloc, table, b"\r\n</p>", "(StrayEnd, 2)");
}

/// Fragments have trees or refusals. Refusals count bytes of the fragment.
#[test]
fn fragments_have_trees_or_refusals(rt: HostRuntime) -> Result<(), Fail> {
    let table = Table::empty(rt.alloc())?;
    expect_lines(&rt, rt.alloc(), &table, TREES);
    expect_lines(&rt, rt.alloc(), &table, CLOSES_BODY);
    expect_lines(&rt, rt.alloc(), &table, REFUSED);
    expect_others(&rt, rt.alloc(), &table);
    Ok(())
}
