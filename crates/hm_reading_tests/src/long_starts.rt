//! Starts with long names and with many attributes, at the limits of a byte: how they are made, shown and changed.
#![tactic(auto, using(hm_tree::proofs::RoomLemmas::room))]

ghost use Rattle.std.specs.Prelude.{◌+◌, ◌^◌, ◌<◌, ◌≤◌, ℕ, [], length, IfOk, OnOk};
ghost use Rattle.hm_base.specs.Walks.{attributes_size, path_after, walk_size};
ghost use Rattle.hm_tree.specs.Edits.{HasAttribute};

use hm_base::OutOfMemory;
use hm_tree::{Attrs, Editor, EventView, Maker, Tree};
use std::alloc::{AllocError, Global};
use std::process::Abort;

/// The name of attribute `i`.
fn numbered(alloc: Global, i: u32) -> Result<String, AllocError> {
    format!(in alloc; "a{i}")
}

/// Adds an attribute whose value is its name.
fn put(attrs: &mut Attrs, name: &str) -> Result<(), OutOfMemory>
    requires { length attrs.old < 1000 }
    ensures count { OnOk result (length attrs.new ≤ length attrs.old + 1) }
    ensures size { OnOk result (attributes_size attrs.new ≤ attributes_size attrs.old + 20) }
{
    if name.len() > 10 {
        return Err(OutOfMemory);
    }
    attrs.put(name, name)?;
    Ok(())
}

/// Adds attribute `i`.
fn add(alloc: Global, attrs: &mut Attrs, i: u32) -> Result<(), OutOfMemory>
    requires { length attrs.old < 1000 }
    ensures count { OnOk result (length attrs.new ≤ length attrs.old + 1) }
    ensures size { OnOk result (attributes_size attrs.new ≤ attributes_size attrs.old + 20) }
{
    let name = numbered(alloc, i)?;
    put(attrs, name.as_str())
}

/// `count` attributes.
fn attributes(alloc: Global, count: u32) -> Result<Attrs, OutOfMemory>
    requires { count < 1000 }
    ensures { IfOk result (λ attrs. attributes_size attrs ≤ 20000) }
{
    let mut attrs = Attrs::new(alloc);
    for i in 0..count {
        add(alloc, &mut attrs, i)?;
    }
    Ok(attrs)
}

/// A name of `len` bytes.
fn long_name(alloc: Global, len: u32) -> Result<String, OutOfMemory> {
    let mut name = String::new(alloc);
    for _ in 0..len {
        name.push_str("n")?;
    }
    Ok(name)
}

/// Starts an element.
fn start(maker: &mut Maker, name: &str, attrs: &Attrs) -> Result<(), OutOfMemory>
    requires events { length maker.old + length (path_after [] maker.old) + 2 < 2 ^ 29 }
    requires bytes { walk_size maker.old + 21000 < 2 ^ 29 }
    requires attrs { attributes_size attrs.now ≤ 20000 }
    ensures events { OnOk result (length maker.new + length (path_after [] maker.new) ≤ length maker.old + length (path_after [] maker.old) + 2) }
    ensures bytes { OnOk result (walk_size maker.new ≤ walk_size maker.old + 21000) }
{
    if name.len() > 1000 {
        return Err(OutOfMemory);
    }
    maker.start_from(name, false, attrs)?;
    Ok(())
}

/// Ends the innermost element.
fn end(maker: &mut Maker) -> Result<(), OutOfMemory> {
    if maker.depth() == 0 {
        return Err(OutOfMemory);
    }
    maker.end()?;
    Ok(())
}

/// Starts an element with this name and these attributes, and in it another one with the same attributes, and ends both.
fn fill(maker: &mut Maker, name: &str, attrs: &Attrs) -> Result<(), OutOfMemory>
    requires events { length maker.old + length (path_after [] maker.old) + 4 < 2 ^ 29 }
    requires bytes { walk_size maker.old + 42000 < 2 ^ 29 }
    requires attrs { attributes_size attrs.now ≤ 20000 }
{
    start(maker, name, attrs)?;
    start(maker, "b", attrs)?;
    end(maker)?;
    end(maker)
}

/// The tree of two elements with this name and these attributes.
fn made(alloc: Global, name: &str, attrs: &Attrs) -> Result<Tree, OutOfMemory>
    requires { attributes_size attrs.now ≤ 20000 }
{
    let mut maker = Tree::maker(alloc);
    fill(&mut maker, name, attrs)?;
    if maker.depth() > 0 {
        return Err(OutOfMemory);
    }
    Ok(maker.finish())
}

/// The tree of two elements with this name and `count` attributes.
fn made_named(alloc: Global, name: &str, count: u32) -> Result<Tree, OutOfMemory> {
    if count >= 1000 {
        return Err(OutOfMemory);
    }
    let attrs = attributes(alloc, count)?;
    made(alloc, name, &attrs)
}

/// The tree of two elements whose name has `len` bytes, with `count` attributes.
fn made_of(alloc: Global, len: u32, count: u32) -> Result<Tree, OutOfMemory> {
    let name = long_name(alloc, len)?;
    made_named(alloc, name.as_str(), count)
}

/// The length of the name in bytes, whether the event is an end, and how many attributes there are.
fn shown(event: EventView<'_>) -> (usize, bool, u32) {
    match event {
        EventView::Start { name, attrs, .. } => (name.len(), false, attrs.len()),
        EventView::End { name, .. } => (name.len(), true, 0),
        _ => (0, false, 0),
    }
}

/// Whether attribute `at` of an event has this name, and its name as value or no value.
fn is_attribute(event: EventView<'_>, at: u32, name: &str, with_value: bool) -> bool {
    let EventView::Start { attrs, .. } = event else {
        return false;
    };
    let value = if with_value { name } else { "" };
    at < attrs.len() && attrs.at(at) == (name, value)
}

/// Whether attribute `at` of an event is attribute `i`, with its value or without.
fn has(alloc: Global, event: EventView<'_>, at: u32, i: u32, with_value: bool) -> bool {
    match numbered(alloc, i) {
        Ok(name) => is_attribute(event, at, name.as_str(), with_value),
        Err(_) => false,
    }
}

/// Whether event `i` shows this, with this parent.
fn is_event(tree: &Tree, i: u32, wanted: (usize, bool, u32), parent: Option<u32>) -> bool {
    i < tree.len() && shown(tree.event(i)) == wanted && tree.parent(i) == parent
}

/// Whether the two starts and the two ends are as they were made.
fn is_whole(tree: &Tree, len: usize, count: u32) -> bool {
    is_event(tree, 0, (len, false, count), None)
        && is_event(tree, 1, (1, false, count), Some(0))
        && is_event(tree, 2, (1, true, 0), Some(1))
        && is_event(tree, 3, (len, true, 0), Some(0))
}

/// Whether attribute `at` of event `e` is attribute `i`.
fn has_at(alloc: Global, tree: &Tree, e: u32, at: u32, i: u32) -> bool {
    e < tree.len() && has(alloc, tree.event(e), at, i, true)
}

/// Whether attribute 0 can be moved after the others of the first start, and nothing else changes.
fn moves(alloc: Global, tree: &mut Tree, len: usize, count: u32) -> bool {
    if tree.len() == 0 || count < 2 {
        return false;
    }
    tree.put_last(0, 0);
    is_whole(tree, len, count)
        && has_at(alloc, tree, 0, count - 1, 0)
        && has_at(alloc, tree, 0, 0, 1)
        && has_at(alloc, tree, 1, 0, 0)
}

/// How many attributes the next event has.
fn count_next(editor: &Editor) -> u32
    requires { 0 < length editor.now.left }
    ensures { (at : ℕ) → at < result → HasAttribute editor.now.left at }
{
    match editor.next() {
        EventView::Start { attrs, .. } => attrs.len(),
        _ => 0,
    }
}

/// Removes attribute 0 of the next event, and gives whether there was one.
fn leave_out(editor: &mut Editor) -> bool {
    if editor.left() == 0 || count_next(editor) == 0 {
        return false;
    }
    editor.leave_out_attribute(0);
    true
}

/// Removes the value of attribute 0 of the next event, and gives whether there was one.
fn leave_out_value(editor: &mut Editor) -> bool {
    if editor.left() == 0 || count_next(editor) == 0 {
        return false;
    }
    editor.leave_out_value(0);
    true
}

/// Whether the next event shows this.
fn is_next(editor: &Editor, wanted: (usize, bool, u32)) -> bool {
    editor.left() > 0 && shown(editor.next()) == wanted
}

/// Whether attribute 0 of the next event is attribute `i` without its value.
fn has_next(alloc: Global, editor: &Editor, i: u32) -> bool {
    editor.left() > 0 && has(alloc, editor.next(), 0, i, false)
}

/// Whether the first attribute of the first start, which is attribute 1 and has at least one after it, can be removed,
/// and the value of the next one.
fn edits(alloc: Global, tree: Tree, len: usize, count: u32) -> bool {
    let mut editor = tree.edit();
    leave_out(&mut editor)
        && count > 2
        && leave_out_value(&mut editor)
        && is_next(&editor, (len, false, count - 1))
        && has_next(alloc, &editor, 2)
}

/// Whether such a tree is made, shown and changed as it should be.
fn is_right(alloc: Global, len: u32, count: u32) -> bool {
    let Ok(mut tree) = made_of(alloc, len, count) else {
        return false;
    };
    let len = len as usize;
    let right = is_whole(&tree, len, count)
        && has_at(alloc, &tree, 0, 0, 0)
        && moves(alloc, &mut tree, len, count);
    edits(alloc, tree, len, count) && right
}

/// Lengths of names in bytes, and numbers of attributes.
const STARTS: [(u32, u32); 7] = [
    (255, 255),
    (255, 256),
    (256, 255),
    (256, 256),
    (300, 3),
    (1, 300),
    (300, 300),
];

/// Asserts that such a tree is made, shown and changed as it should be.
fn expect_right(rt: &impl Abort, alloc: Global, len: u32, count: u32) {
    assert!(rt; is_right(alloc, len, count), "{len} {count}");
}

/// Trees at the limits of a byte are made, shown and changed as they should be.
#[test]
fn long_starts(rt: HostRuntime) {
    for (len, count) in STARTS {
        expect_right(&rt, rt.alloc(), len, count);
    }
}
