//! Trees that are made call by call, attributes, and tags with their places.
#![tactic(auto, using(hm_tree::proofs::RoomLemmas::room))]

ghost use Rattle.std.specs.Prelude.{◌≡◌, ◌+◌, ◌^◌, ◌<◌, ◌≤◌, [], length, true, false, IfOk, OnOk};
ghost use Rattle.hm_base.specs.Walks.{attributes_size, path_after, walk_size};
ghost use Rattle.hm_tree.specs.Trees.{last_agrees};

use crate::printed::{after, after_value};
use crate::rows::{cut, expect};
use hm_base::{OutOfMemory, OwnedText};
use hm_tree::{Attrs, EventView, Lexeme, Maker, Placed, ScanFault, Spanned, Tag, Token, Tree};
use std::alloc::{AllocError, AllocFailed, Global};
use std::process::Abort;
use std::test::Fail;

/// No attribute if the text is empty, else the one that it writes as `name=value`.
fn attributes(alloc: Global, text: &str) -> Result<Attrs, OutOfMemory>
    ensures { IfOk result (λ attrs. attributes_size attrs ≤ 200) }
{
    let mut attrs = Attrs::new(alloc);
    if !text.is_empty() {
        let (name, value) = cut(text, "=");
        if name.len() > 100 || value.len() > 100 {
            return Err(OutOfMemory);
        }
        attrs.put(name, value)?;
    }
    Ok(attrs)
}

/// Starts the element of a name, with the attribute after a space, if any.
fn start(alloc: Global, maker: &mut Maker, call: &str) -> Result<(), OutOfMemory>
    requires events { length maker.old + length (path_after [] maker.old) + 2 < 2 ^ 29 }
    requires bytes { walk_size maker.old + 300 < 2 ^ 29 }
    ensures events { OnOk result (length maker.new + length (path_after [] maker.new) ≤ length maker.old + length (path_after [] maker.old) + 2) }
    ensures bytes { OnOk result (walk_size maker.new ≤ walk_size maker.old + 300) }
    ensures plain { OnOk result (last_agrees maker.new false ≡ true) }
{
    let (name, attribute) = call.split_once(' ').unwrap_or((call, ""));
    if name.len() > 100 {
        return Err(OutOfMemory);
    }
    maker.start(name, false, attributes(alloc, attribute)?)
}

/// Adds a text.
fn text(maker: &mut Maker, text: &str) -> Result<(), OutOfMemory>
    requires events { length maker.old + length (path_after [] maker.old) + 2 < 2 ^ 29 }
    requires bytes { walk_size maker.old + 300 < 2 ^ 29 }
    requires plain { last_agrees maker.old false ≡ true }
    ensures events { OnOk result (length maker.new + length (path_after [] maker.new) ≤ length maker.old + length (path_after [] maker.old) + 2) }
    ensures bytes { OnOk result (walk_size maker.new ≤ walk_size maker.old + 300) }
    ensures plain { OnOk result (last_agrees maker.new false ≡ true) }
{
    if text.len() > 100 {
        return Err(OutOfMemory);
    }
    maker.text(text, false)
}

/// Adds a comment.
fn comment(maker: &mut Maker, text: &str) -> Result<(), OutOfMemory>
    requires events { length maker.old + length (path_after [] maker.old) + 2 < 2 ^ 29 }
    requires bytes { walk_size maker.old + 300 < 2 ^ 29 }
    ensures events { OnOk result (length maker.new + length (path_after [] maker.new) ≤ length maker.old + length (path_after [] maker.old) + 2) }
    ensures bytes { OnOk result (walk_size maker.new ≤ walk_size maker.old + 300) }
    ensures plain { OnOk result (last_agrees maker.new false ≡ true) }
{
    if text.len() > 100 {
        return Err(OutOfMemory);
    }
    maker.comment(text)
}

/// Adds a doctype.
fn doctype(maker: &mut Maker, legacy: bool) -> Result<(), OutOfMemory>
    requires events { length maker.old + length (path_after [] maker.old) + 2 < 2 ^ 29 }
    requires bytes { walk_size maker.old + 300 < 2 ^ 29 }
    ensures events { OnOk result (length maker.new + length (path_after [] maker.new) ≤ length maker.old + length (path_after [] maker.old) + 2) }
    ensures bytes { OnOk result (walk_size maker.new ≤ walk_size maker.old + 300) }
    ensures plain { OnOk result (last_agrees maker.new false ≡ true) }
{
    maker.doctype(legacy)
}

/// Ends the innermost element.
fn end(maker: &mut Maker) -> Result<(), OutOfMemory>
    ensures events { OnOk result (length maker.new + length (path_after [] maker.new) ≤ length maker.old + length (path_after [] maker.old) + 2) }
    ensures bytes { OnOk result (walk_size maker.new ≤ walk_size maker.old + 300) }
    ensures plain { OnOk result (last_agrees maker.new false ≡ true) }
{
    if maker.depth() == 0 {
        return Err(OutOfMemory);
    }
    maker.end()
}

/// Makes a call: `start` with the name of an element and maybe an attribute, `text`, `comment`, `doctype` or `end`.
fn take(alloc: Global, maker: &mut Maker, call: &str) -> Result<(), OutOfMemory>
    requires events { length maker.old + length (path_after [] maker.old) + 2 < 2 ^ 29 }
    requires bytes { walk_size maker.old + 300 < 2 ^ 29 }
    requires plain { last_agrees maker.old false ≡ true }
    ensures events { OnOk result (length maker.new + length (path_after [] maker.new) ≤ length maker.old + length (path_after [] maker.old) + 2) }
    ensures bytes { OnOk result (walk_size maker.new ≤ walk_size maker.old + 300) }
    ensures plain { OnOk result (last_agrees maker.new false ≡ true) }
{
    let (kind, rest) = cut(call, " ");
    match kind {
        "start" => start(alloc, maker, rest),
        "text" => text(maker, rest),
        "comment" => comment(maker, rest),
        "doctype" => doctype(maker, false),
        "end" => end(maker),
        _ => Err(OutOfMemory),
    }
}

/// The tree of at most 50 calls, each followed by a bar.
fn made(alloc: Global, calls: &str) -> Result<Tree, OutOfMemory> {
    let mut maker = Tree::maker(alloc);
    let mut left = calls;
    for count in 0..50u32 {
        if !left.is_empty() {
            let (call, rest) = cut(left, "|");
            take(alloc, &mut maker, call)?;
            left = rest;
        }
    }
    if maker.depth() > 0 || !left.is_empty() {
        return Err(OutOfMemory);
    }
    Ok(maker.finish())
}

/// `<p id=x>a<br>b` as a page.
const PAGE: &str =
    "doctype|start html|start head|end|start body|start p id=x|text a|start br|end|text b|end|end|end|";

/// The name or the text of an event, and whether it is an end.
fn shown<'t>(event: EventView<'t>) -> (&'t str, bool) {
    match event {
        EventView::Doctype { .. } => ("", false),
        EventView::Start { name, .. } => (name, false),
        EventView::Text { text, .. } => (text, false),
        EventView::Comment { text } => (text, false),
        EventView::End { name, .. } => (name, true),
    }
}

/// The events of the page, one in each line: the name or the text, whether it is an end, and its parent.
const EVENTS: &str = "\
    (\"\", false, None)\n\
    (\"html\", false, None)\n\
    (\"head\", false, Some(1))\n\
    (\"head\", true, Some(2))\n\
    (\"body\", false, Some(1))\n\
    (\"p\", false, Some(4))\n\
    (\"a\", false, Some(5))\n\
    (\"br\", false, Some(5))\n\
    (\"br\", true, Some(7))\n\
    (\"b\", false, Some(5))\n\
    (\"p\", true, Some(5))\n\
    (\"body\", true, Some(4))\n\
    (\"html\", true, Some(1))\n";

/// Whether these are the events of a tree.
fn has_events(tree: &Tree, wanted: &str) -> bool {
    let mut rest = wanted;
    for i in 0..tree.len() {
        let (text, is_end) = shown(tree.event(i));
        rest = after(after_value(rest, &(text, is_end, tree.parent(i))), "\n");
    }
    rest.is_empty()
}

/// A page has its events.
#[test]
fn a_page(rt: HostRuntime) -> Result<(), Fail> {
    let tree = made(rt.alloc(), PAGE)?;
    expect(&rt, has_events(&tree, EVENTS), PAGE);
    Ok(())
}

/// An element with a text.
const ONE: &str = "start p|text a|end|";

/// The same element, whose text is added in parts, some of them empty.
const IN_PARTS: &str = "start p|text |text a|text |end|";

/// The element with the text `ab`, added in two parts.
const JOINED: &str = "start p|text a|text b|end|";

/// The element with an attribute.
const NAMED: &str = "start p id=x|text a|end|";

/// The element with a comment after it.
const LONGER: &str = "start p|text a|end|comment a|";

/// Whether the trees of these calls first differ at this event, or are equal if there is none.
fn differ_at(alloc: Global, one: &str, other: &str, place: Option<u32>) -> bool {
    match made(alloc, one) {
        Ok(one) => differs_at(alloc, &one, other, place),
        Err(_) => false,
    }
}

/// As `differ_at`, for a tree and that of these calls.
fn differs_at(alloc: Global, one: &Tree, other: &str, place: Option<u32>) -> bool {
    match made(alloc, other) {
        Ok(other) => one.first_other(&other) == place && one.same(&other) == place.is_none(),
        Err(_) => false,
    }
}

/// Trees differ first at the event listed.
#[test]
fn first_differences(rt: HostRuntime) {
    let alloc = rt.alloc();
    expect(&rt, differ_at(alloc, ONE, IN_PARTS, None), IN_PARTS);
    expect(&rt, differ_at(alloc, ONE, JOINED, Some(1)), JOINED);
    expect(&rt, differ_at(alloc, ONE, NAMED, Some(0)), NAMED);
    expect(&rt, differ_at(alloc, ONE, LONGER, Some(3)), LONGER);
    expect(&rt, differ_at(alloc, LONGER, ONE, Some(3)), ONE);
}

/// Adds an attribute, and gives whether it was added. A fourth fails with `OutOfMemory`.
fn add(alloc: Global, attrs: &mut Attrs, name: &str, value: &str) -> Result<bool, OutOfMemory> {
    if attrs.len() > 2 {
        return Err(OutOfMemory);
    }
    let name = String::from_str(alloc, name)?;
    let value = String::from_str(alloc, value)?;
    attrs.add(name, value)
}

/// Asserts that a name is added once, and that nothing is left once all attributes are removed.
fn expect_once(rt: &impl Abort, alloc: Global, attrs: &mut Attrs) {
    expect(rt, add(alloc, attrs, "id", "x") == Ok(true), "id=x");
    expect(rt, add(alloc, attrs, "class", "") == Ok(true), "class=");
    expect(rt, add(alloc, attrs, "id", "y") == Ok(false), "id=y");
    assert!(rt; attrs.len() == 2);
    expect(rt, attrs.at(0) == ("id", "x"), "0");
    expect(rt, attrs.at(1) == ("class", ""), "1");
    attrs.clear();
    expect(rt, attrs.len() == 0, "none");
}

/// A name is added once.
#[test]
fn a_name_once(rt: HostRuntime) {
    let mut attrs = Attrs::new(rt.alloc());
    expect_once(&rt, rt.alloc(), &mut attrs);
}

/// A tag `<br/>` in the bytes from 3 to 8. Its name and attributes are written into `tag`.
fn placed_tag(alloc: Global, tag: &mut Tag) -> Result<Placed, AllocError> {
    let name = OwnedText {
        text: String::from_str(alloc, "br")?,
    };
    let token = Token::StartTag {
        name,
        attrs: Attrs::new(alloc),
        slash: true,
    };
    Ok(Placed {
        lexeme: Lexeme::of(token, tag),
        from: 3,
        to: 8,
    })
}

/// Whether a token is a start tag that closes at once.
fn is_closed_tag(token: &Token) -> bool {
    matches!(token, Token::StartTag { slash: true, .. })
}

/// Whether it is such a token, in the bytes from 3 to 8.
fn is_spanned(spanned: Spanned) -> bool {
    spanned.from == 3 && spanned.to == 8 && is_closed_tag(&spanned.token)
}

/// Whether the placed token is, with its tag, such a token.
fn is_placed(placed: Placed, tag: Tag) -> bool {
    is_spanned(placed.spanned(tag))
}

/// Asserts the name of a tag, and that the placed token is, with it, such a token.
fn expect_placed(rt: &impl Abort, placed: Placed, tag: Tag) {
    assert!(rt; tag.name.as_str() == "br");
    assert!(rt; is_placed(placed, tag));
}

/// A token has its place.
#[test]
fn a_tag_in_its_place(rt: HostRuntime) {
    let mut tag = Tag::new(rt.alloc());
    match placed_tag(rt.alloc(), &mut tag) {
        Ok(placed) => expect_placed(&rt, placed, tag),
        Err(_) => assert!(rt; false, "memory"),
    }
}

/// `OutOfMemory` converts to each fault.
#[test]
fn want_of_memory_is_a_fault(rt: HostRuntime) {
    assert!(rt; ScanFault::from(OutOfMemory) == ScanFault::OutOfMemory);
    assert!(rt; ScanFault::from(AllocError) == ScanFault::OutOfMemory);
    assert!(rt; ScanFault::from(AllocFailed { value: 1u8 }) == ScanFault::OutOfMemory);
}
