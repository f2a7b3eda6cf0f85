//! The parts of events, and which tags may be omitted.
#![tactic(auto, using(hm_tree::proofs::RoomLemmas::room))]

ghost use Rattle.std.specs.Prelude.{◌≡◌, ◌+◌, ◌^◌, ◌<◌, ◌≤◌, length, [], false, true, IfOk, OnOk};
ghost use Rattle.hm_base.specs.Walks.{attributes_size, path_after, walk_size};
ghost use Rattle.hm_tree.specs.Trees.{last_agrees};

use crate::made::{TIGHT_RULES as RULES, attributes};
use crate::rows::{after, after_value, cut, expect};
use hm_base::OutOfMemory;
use hm_event_parts::{Part, find_parts};
use hm_tree::{Attrs, Maker, Tree};
use std::alloc::Global;
use std::process::Abort;

/// No attribute if the text is empty, else the one that it writes as `name=value`.
fn attributes_of(alloc: Global, text: &str) -> Result<Attrs, OutOfMemory>
    ensures { IfOk result (λ attrs. attributes_size attrs ≤ 200) }
{
    let (name, value) = cut(text, "=");
    if text.is_empty() {
        Ok(Attrs::new(alloc))
    } else if name.len() > 100 || value.len() > 100 {
        Err(OutOfMemory)
    } else {
        attributes(alloc, name, value)
    }
}

/// Starts the element of a name, with the attribute after a space, if any.
fn start(alloc: Global, maker: &mut Maker, call: &str, foreign: bool) -> Result<(), OutOfMemory>
    requires events { length maker.old + length (path_after [] maker.old) + 2 < 2 ^ 29 }
    requires bytes { walk_size maker.old + 300 < 2 ^ 29 }
    ensures events { OnOk result (length maker.new + length (path_after [] maker.new) ≤ length maker.old + length (path_after [] maker.old) + 2) }
    ensures bytes { OnOk result (walk_size maker.new ≤ walk_size maker.old + 300) }
    ensures plain { OnOk result (last_agrees maker.new false ≡ true) }
{
    let (name, attribute) = call.split_once(' ').unwrap_or((call, ""));
    if name.len() > 100 {
        return Err(OutOfMemory);
    }
    maker.start(name, foreign, attributes_of(alloc, attribute)?)
}

/// Adds a text.
fn text(maker: &mut Maker, text: &str) -> Result<(), OutOfMemory>
    requires events { length maker.old + length (path_after [] maker.old) + 2 < 2 ^ 29 }
    requires bytes { walk_size maker.old + 300 < 2 ^ 29 }
    requires plain { last_agrees maker.old false ≡ true }
    ensures events { OnOk result (length maker.new + length (path_after [] maker.new) ≤ length maker.old + length (path_after [] maker.old) + 2) }
    ensures bytes { OnOk result (walk_size maker.new ≤ walk_size maker.old + 300) }
    ensures plain { OnOk result (last_agrees maker.new false ≡ true) }
{
    if text.len() > 100 {
        return Err(OutOfMemory);
    }
    maker.text(text, false)
}

/// Ends the innermost element.
fn end(maker: &mut Maker) -> Result<(), OutOfMemory>
    ensures events { OnOk result (length maker.new + length (path_after [] maker.new) ≤ length maker.old + length (path_after [] maker.old) + 2) }
    ensures bytes { OnOk result (walk_size maker.new ≤ walk_size maker.old + 300) }
    ensures plain { OnOk result (last_agrees maker.new false ≡ true) }
{
    if maker.depth() == 0 {
        return Err(OutOfMemory);
    }
    maker.end()
}

/// Makes a call: `start` or `svg`, the start of an element of HTML or SVG, with its name and maybe an attribute;
/// `text`; `end`.
fn take(alloc: Global, maker: &mut Maker, call: &str) -> Result<(), OutOfMemory>
    requires events { length maker.old + length (path_after [] maker.old) + 2 < 2 ^ 29 }
    requires bytes { walk_size maker.old + 300 < 2 ^ 29 }
    requires plain { last_agrees maker.old false ≡ true }
    ensures events { OnOk result (length maker.new + length (path_after [] maker.new) ≤ length maker.old + length (path_after [] maker.old) + 2) }
    ensures bytes { OnOk result (walk_size maker.new ≤ walk_size maker.old + 300) }
    ensures plain { OnOk result (last_agrees maker.new false ≡ true) }
{
    let (kind, rest) = cut(call, " ");
    match kind {
        "start" => start(alloc, maker, rest, false),
        "svg" => start(alloc, maker, rest, true),
        "text" => text(maker, rest),
        "end" => end(maker),
        _ => Err(OutOfMemory),
    }
}

/// The tree of at most 50 calls, each followed by a bar.
fn made(alloc: Global, calls: &str) -> Result<Tree, OutOfMemory> {
    let mut maker = Tree::maker(alloc);
    let mut left = calls;
    for count in 0..50u32 {
        if !left.is_empty() {
            let (call, rest) = cut(left, "|");
            take(alloc, &mut maker, call)?;
            left = rest;
        }
    }
    if maker.depth() > 0 || !left.is_empty() {
        return Err(OutOfMemory);
    }
    Ok(maker.finish())
}

/// The rest of the expected text after these parts, one in each line.
fn after_parts<'w>(wanted: &'w str, parts: &[Part<'_>]) -> &'w str {
    let mut rest = wanted;
    for part in parts {
        rest = after(after_value(rest, part), "\n");
    }
    rest
}

/// Whether the events of a tree have these parts, in their order.
fn has_parts(alloc: Global, tree: &Tree, wanted: &str) -> bool {
    let mut parts = Vec::new(alloc);
    let mut rest = wanted;
    for i in 0..tree.len() {
        match find_parts(tree, RULES, i, &mut parts) {
            Ok(()) => rest = after_parts(rest, &parts),
            Err(OutOfMemory) => rest = "?",
        }
    }
    rest.is_empty()
}

/// As `has_parts`, for the tree of these calls.
fn has_made_parts(alloc: Global, calls: &str, wanted: &str) -> bool {
    match made(alloc, calls) {
        Ok(tree) => has_parts(alloc, &tree, wanted),
        Err(OutOfMemory) => false,
    }
}

/// `<div id=x><pre>`, two line feeds, `a<br></pre><p hidden></div>`.
const TEXTS_AND_ATTRIBUTES: &str =
    "start div id=x|start pre|text \na|start br|end|end|start p hidden=|end|end|";

/// The parts of its events.
const TEXTS_AND_ATTRIBUTES_PARTS: &str = "\
    One { unit: TagName { len: 3 }, own: \"div\" }\n\
    Opening { name: \"id\", value: \"x\" }\n\
    Chars { kind: Value, text: \"x\" }\n\
    One { unit: AttributeEnd, own: \"\" }\n\
    One { unit: TagClose { closes: false }, own: \"\" }\n\
    One { unit: StartTag { len: 3, omits: false, required_after_omission: false, closes: false }, own: \"pre\" }\n\
    One { unit: Fixed { len: 1 }, own: \"\\n\" }\n\
    Chars { kind: Text, text: \"\\na\" }\n\
    One { unit: StartTag { len: 2, omits: false, required_after_omission: false, closes: false }, own: \"br\" }\n\
    One { unit: EndTag { len: 3, omits: false, notes_omission: false }, own: \"pre\" }\n\
    One { unit: TagName { len: 1 }, own: \"p\" }\n\
    One { unit: BareAttribute { len: 6 }, own: \"hidden\" }\n\
    One { unit: TagClose { closes: false }, own: \"\" }\n\
    One { unit: EndTag { len: 1, omits: true, notes_omission: false }, own: \"p\" }\n\
    One { unit: EndTag { len: 3, omits: false, notes_omission: false }, own: \"div\" }\n";

/// Two sections of a table, the first one empty: both end tags may be omitted, and then the second start tag may not.
const SECTIONS: &str = "start table|start thead|end|start tbody|start tr|end|end|end|";

/// The parts of its events.
const SECTIONS_PARTS: &str = "\
    One { unit: StartTag { len: 5, omits: false, required_after_omission: false, closes: false }, own: \"table\" }\n\
    One { unit: StartTag { len: 5, omits: false, required_after_omission: false, closes: false }, own: \"thead\" }\n\
    One { unit: EndTag { len: 5, omits: true, notes_omission: true }, own: \"thead\" }\n\
    One { unit: StartTag { len: 5, omits: true, required_after_omission: true, closes: false }, own: \"tbody\" }\n\
    One { unit: StartTag { len: 2, omits: false, required_after_omission: false, closes: false }, own: \"tr\" }\n\
    One { unit: EndTag { len: 2, omits: true, notes_omission: false }, own: \"tr\" }\n\
    One { unit: EndTag { len: 5, omits: true, notes_omission: true }, own: \"tbody\" }\n\
    One { unit: EndTag { len: 5, omits: false, notes_omission: false }, own: \"table\" }\n";

/// `<table><thead><tr><td>a</td></tr></thead><tbody><tr><td>b</td></tr></tbody></table>`: the start tag of the second
/// section may be omitted, but not if the end tag of the first one is.
const SECOND_SECTION: &str =
    "start table|start thead|start tr|start td|text a|end|end|end|start tbody|start tr|start td|text b|end|end|end|end|";

/// The parts of its events.
const SECOND_SECTION_PARTS: &str = "\
    One { unit: StartTag { len: 5, omits: false, required_after_omission: false, closes: false }, own: \"table\" }\n\
    One { unit: StartTag { len: 5, omits: false, required_after_omission: false, closes: false }, own: \"thead\" }\n\
    One { unit: StartTag { len: 2, omits: false, required_after_omission: false, closes: false }, own: \"tr\" }\n\
    One { unit: StartTag { len: 2, omits: false, required_after_omission: false, closes: false }, own: \"td\" }\n\
    Chars { kind: Text, text: \"a\" }\n\
    One { unit: EndTag { len: 2, omits: true, notes_omission: false }, own: \"td\" }\n\
    One { unit: EndTag { len: 2, omits: true, notes_omission: false }, own: \"tr\" }\n\
    One { unit: EndTag { len: 5, omits: true, notes_omission: true }, own: \"thead\" }\n\
    One { unit: StartTag { len: 5, omits: true, required_after_omission: true, closes: false }, own: \"tbody\" }\n\
    One { unit: StartTag { len: 2, omits: false, required_after_omission: false, closes: false }, own: \"tr\" }\n\
    One { unit: StartTag { len: 2, omits: false, required_after_omission: false, closes: false }, own: \"td\" }\n\
    Chars { kind: Text, text: \"b\" }\n\
    One { unit: EndTag { len: 2, omits: true, notes_omission: false }, own: \"td\" }\n\
    One { unit: EndTag { len: 2, omits: true, notes_omission: false }, own: \"tr\" }\n\
    One { unit: EndTag { len: 5, omits: true, notes_omission: true }, own: \"tbody\" }\n\
    One { unit: EndTag { len: 5, omits: false, notes_omission: false }, own: \"table\" }\n";

/// `<table><caption>x</caption><script></script><tr><td>y</td></tr></table>`: a script after a caption keeps its end tag.
const CAPTION_BEFORE_A_SCRIPT: &str =
    "start table|start caption|text x|end|start script|end|start tbody|start tr|start td|text y|end|end|end|end|";

/// The parts of its events.
const CAPTION_BEFORE_A_SCRIPT_PARTS: &str = "\
    One { unit: StartTag { len: 5, omits: false, required_after_omission: false, closes: false }, own: \"table\" }\n\
    One { unit: StartTag { len: 7, omits: false, required_after_omission: false, closes: false }, own: \"caption\" }\n\
    Chars { kind: Text, text: \"x\" }\n\
    One { unit: EndTag { len: 7, omits: false, notes_omission: false }, own: \"caption\" }\n\
    One { unit: StartTag { len: 6, omits: false, required_after_omission: false, closes: false }, own: \"script\" }\n\
    One { unit: EndTag { len: 6, omits: false, notes_omission: false }, own: \"script\" }\n\
    One { unit: StartTag { len: 5, omits: true, required_after_omission: false, closes: false }, own: \"tbody\" }\n\
    One { unit: StartTag { len: 2, omits: false, required_after_omission: false, closes: false }, own: \"tr\" }\n\
    One { unit: StartTag { len: 2, omits: false, required_after_omission: false, closes: false }, own: \"td\" }\n\
    Chars { kind: Text, text: \"y\" }\n\
    One { unit: EndTag { len: 2, omits: true, notes_omission: false }, own: \"td\" }\n\
    One { unit: EndTag { len: 2, omits: true, notes_omission: false }, own: \"tr\" }\n\
    One { unit: EndTag { len: 5, omits: true, notes_omission: true }, own: \"tbody\" }\n\
    One { unit: EndTag { len: 5, omits: false, notes_omission: false }, own: \"table\" }\n";

/// `<span><p>x</p></span>`: a paragraph keeps its end tag in an element that may hold no other one after it.
const PARAGRAPH_IN_A_SPAN: &str = "start span|start p|text x|end|end|";

/// The parts of its events.
const PARAGRAPH_IN_A_SPAN_PARTS: &str = "\
    One { unit: StartTag { len: 4, omits: false, required_after_omission: false, closes: false }, own: \"span\" }\n\
    One { unit: StartTag { len: 1, omits: false, required_after_omission: false, closes: false }, own: \"p\" }\n\
    Chars { kind: Text, text: \"x\" }\n\
    One { unit: EndTag { len: 1, omits: false, notes_omission: false }, own: \"p\" }\n\
    One { unit: EndTag { len: 4, omits: false, notes_omission: false }, own: \"span\" }\n";

/// `<html><head></head><body><div><p>x</p></div><p>y</p></body></html>`: the end tags of both paragraphs may be
/// omitted.
const PARAGRAPHS: &str =
    "start html|start head|end|start body|start div|start p|text x|end|end|start p|text y|end|end|end|";

/// The parts of its events.
const PARAGRAPHS_PARTS: &str = "\
    One { unit: StartTag { len: 4, omits: true, required_after_omission: false, closes: false }, own: \"html\" }\n\
    One { unit: StartTag { len: 4, omits: true, required_after_omission: false, closes: false }, own: \"head\" }\n\
    One { unit: EndTag { len: 4, omits: true, notes_omission: false }, own: \"head\" }\n\
    One { unit: StartTag { len: 4, omits: true, required_after_omission: false, closes: false }, own: \"body\" }\n\
    One { unit: StartTag { len: 3, omits: false, required_after_omission: false, closes: false }, own: \"div\" }\n\
    One { unit: StartTag { len: 1, omits: false, required_after_omission: false, closes: false }, own: \"p\" }\n\
    Chars { kind: Text, text: \"x\" }\n\
    One { unit: EndTag { len: 1, omits: true, notes_omission: false }, own: \"p\" }\n\
    One { unit: EndTag { len: 3, omits: false, notes_omission: false }, own: \"div\" }\n\
    One { unit: StartTag { len: 1, omits: false, required_after_omission: false, closes: false }, own: \"p\" }\n\
    Chars { kind: Text, text: \"y\" }\n\
    One { unit: EndTag { len: 1, omits: true, notes_omission: false }, own: \"p\" }\n\
    One { unit: EndTag { len: 4, omits: true, notes_omission: false }, own: \"body\" }\n\
    One { unit: EndTag { len: 4, omits: true, notes_omission: false }, own: \"html\" }\n";

/// `<svg><path></path>a</svg><title>b</title>`: an element of SVG without content may close itself.
const SVG: &str = "svg svg|svg path|end|text a|end|start title|text b|end|";

/// The parts of its events.
const SVG_PARTS: &str = "\
    One { unit: StartTag { len: 3, omits: false, required_after_omission: false, closes: false }, own: \"svg\" }\n\
    One { unit: StartTag { len: 4, omits: false, required_after_omission: false, closes: true }, own: \"path\" }\n\
    One { unit: EndTag { len: 4, omits: false, notes_omission: false }, own: \"path\" }\n\
    Chars { kind: Foreign, text: \"a\" }\n\
    One { unit: EndTag { len: 3, omits: false, notes_omission: false }, own: \"svg\" }\n\
    One { unit: StartTag { len: 5, omits: false, required_after_omission: false, closes: false }, own: \"title\" }\n\
    Chars { kind: Rcdata, text: \"b\" }\n\
    One { unit: EndTag { len: 5, omits: false, notes_omission: false }, own: \"title\" }\n";

/// Asserts the parts of the events of the tree of these calls.
fn expect_parts(rt: &impl Abort, alloc: Global, calls: &str, wanted: &str) {
    expect(rt, has_made_parts(alloc, calls, wanted), calls);
}

/// Trees have their parts.
#[test]
fn parts_of_events(rt: HostRuntime) {
    let alloc = rt.alloc();
    expect_parts(&rt, alloc, TEXTS_AND_ATTRIBUTES, TEXTS_AND_ATTRIBUTES_PARTS);
    expect_parts(&rt, alloc, SECTIONS, SECTIONS_PARTS);
    expect_parts(&rt, alloc, SECOND_SECTION, SECOND_SECTION_PARTS);
    expect_parts(
        &rt,
        alloc,
        CAPTION_BEFORE_A_SCRIPT,
        CAPTION_BEFORE_A_SCRIPT_PARTS,
    );
    expect_parts(&rt, alloc, PARAGRAPH_IN_A_SPAN, PARAGRAPH_IN_A_SPAN_PARTS);
    expect_parts(&rt, alloc, PARAGRAPHS, PARAGRAPHS_PARTS);
    expect_parts(&rt, alloc, SVG, SVG_PARTS);
}
