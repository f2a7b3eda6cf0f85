//! Tags, after the HTML Standard (#tag-open-state to #tag-name-state and #before-attribute-name-state to
//! #self-closing-start-tag-state).

use crate::printed::{after, after_attributes, is_value};
use crate::rows::{cut, expect};
use hm_refs::Table;
use hm_scan::{begins_tag, scan_tag};
use hm_tree::{Attrs, ScanFault, Token};
use std::alloc::Global;
use std::process::Abort;
use std::test::Fail;

/// A table with `&copy`.
const NAMES: &str = "{\"&copy\":{\"codepoints\":[169]},\"&copy;\":{\"codepoints\":[169]}}";

/// The rest of the expected text after a start tag: its name, its attributes, and ` /` if a `/` is before the `>`.
fn after_start<'w>(wanted: &'w str, name: &str, attrs: &Attrs, slash: bool) -> &'w str {
    let rest = after_attributes(after(wanted, name), attrs);
    after(rest, if slash { " /" } else { "" })
}

/// The rest of the expected text after a tag. An end tag is `/` and its name.
fn text_after_tag<'w>(wanted: &'w str, token: &Token) -> &'w str {
    match token {
        Token::StartTag { name, attrs, slash } => {
            after_start(wanted, name.text.as_str(), attrs, *slash)
        }
        Token::EndTag { name } => after(after(wanted, "/"), name.text.as_str()),
        _ => "?",
    }
}

/// Whether an answer is as expected: the tag and, after a space, the place after the tag, or its fault.
fn is_answer(wanted: &str, answer: Result<(Token, u32), ScanFault>) -> bool {
    match answer {
        Ok((token, place)) => is_value(after(text_after_tag(wanted, &token), " "), &place),
        Err(fault) => is_value(wanted, &fault),
    }
}

/// Whether this is read at the start of a text: its tag and the place after it, its fault, or `no tag`.
fn is_tag(alloc: Global, table: &Table, text: &str, wanted: &str) -> bool {
    if text.len() < 1000 && begins_tag(text, 0) {
        is_answer(wanted, scan_tag(alloc, text, 0, table))
    } else {
        wanted == "no tag"
    }
}

/// A text before ` ⇒ ` in each line, and after it what is read at its start: the name of a tag, with `/` before it if
/// it is an end tag, its attributes, `/` if it is before the `>`, and the place after the tag.
const TAGS: &str = "\
    <a/b=c//>d ⇒ a b=[c//] 9\n\
    <a b=\"c\"d/> ⇒ a b=[c] d=[] / 11\n\
    <A B=1 b=2> ⇒ a b=[1] 11\n\
    <a/ > ⇒ a 5\n\
    <a b=>> ⇒ a b=[] 6\n\
    <a b='>'> ⇒ a b=[>] 9\n\
    <é> ⇒ no tag\n\
    <aé> ⇒ BadName\n\
    <a é=É> ⇒ a é=[É] 9\n\
    </a b=c> ⇒ /a 8\n\
    </A/>x ⇒ /a 5\n\
    </> ⇒ no tag\n\
    <a =x> ⇒ BadName\n\
    <b \"x> ⇒ BadName\n\
    </b \"x> ⇒ BadName\n\
    <a\"b> ⇒ BadName\n\
    <a b'=c> ⇒ BadName\n\
    <a <b> ⇒ BadName\n\
    <b \"x ⇒ Cut\n\
    <a ⇒ Cut\n\
    <a b ⇒ Cut\n\
    <a b= ⇒ Cut\n\
    <a b=c ⇒ Cut\n\
    <a b='c\"> ⇒ Cut\n\
    </a ⇒ Cut\n\
    <a b=&copy=> ⇒ a b=[&copy=] 12\n\
    <a b='&copy;='> ⇒ a b=[©=] 15\n\
    <a b=&copyx> ⇒ a b=[&copyx] 12\n\
    <a b=&copy> ⇒ a b=[©] 11\n\
    <a b=&#65> ⇒ a b=[A] 10\n\
    <a b=\"&#x80;&#;&#65x\"> ⇒ a b=[€&#;Ax] 22\n";

/// Whether the text in a line has the tag there.
fn is_line(alloc: Global, table: &Table, line: &str) -> bool {
    let (text, wanted) = cut(line, " ⇒ ");
    is_tag(alloc, table, text, wanted)
}

/// Asserts each line, and what is read of a tag of two lines.
fn expect_tags(rt: &impl Abort, alloc: Global, table: &Table) {
    for line in TAGS.lines() {
        expect(rt, is_line(alloc, table, line), line);
    }
    let text = "<a\nb = 'c' d = >";
    expect(rt, is_tag(alloc, table, text, "a b=[c] d=[] 16"), text);
}

/// Tags have their names, attributes and places, or their faults.
#[test]
fn tags(rt: HostRuntime) -> Result<(), Fail> {
    let table = Table::read(rt.alloc(), NAMES.as_bytes())?;
    expect_tags(&rt, rt.alloc(), &table);
    Ok(())
}

/// Whether this is read of a start tag in which an attribute is written `count` times.
fn is_repeated(alloc: Global, table: &Table, count: usize, wanted: &str) -> bool {
    match " a".repeat(alloc, count) {
        Ok(attributes) => is_tag_with(alloc, table, attributes.as_str(), wanted),
        Err(_) => false,
    }
}

/// Whether this is read of a start tag with these attributes.
fn is_tag_with(alloc: Global, table: &Table, attributes: &str, wanted: &str) -> bool {
    match format!(in alloc; "<p{attributes}>") {
        Ok(text) => is_tag(alloc, table, text.as_str(), wanted),
        Err(_) => false,
    }
}

/// A start tag may have at most 256 attributes.
#[test]
fn at_most_256_attributes_are_written(rt: HostRuntime) -> Result<(), Fail> {
    let table = Table::empty(rt.alloc())?;
    expect_limit(&rt, rt.alloc(), &table);
    Ok(())
}

/// Asserts how many attributes may be written.
fn expect_limit(rt: &impl Abort, alloc: Global, table: &Table) {
    let most = is_repeated(alloc, table, 256, "p a=[] 515");
    let more = is_repeated(alloc, table, 257, "TooManyAttributes");
    expect(rt, most, "256 attributes");
    expect(rt, more, "257 attributes");
}
