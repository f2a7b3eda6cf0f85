//! Graphs of small trees.
#![tactic(auto, using(hm_tree::proofs::RoomLemmas::room))]

use crate::made::{NONE, TIGHT_RULES as RULES, TWO, attributes};
use crate::rows::{after, after_value, expect, is_value};
use hm_base::{Format, OutOfMemory};
use hm_graph::Graph;
use hm_refs::Table;
use hm_tree::Tree;
use std::alloc::Global;

/// A text outside of elements.
fn text_alone(alloc: Global, text: &str) -> Result<Tree, OutOfMemory> {
    if text.len() > 100 {
        return Err(OutOfMemory);
    }
    let mut maker = Tree::maker(alloc);
    maker.text(text, false)?;
    if maker.depth() > 0 {
        return Err(OutOfMemory);
    }
    Ok(maker.finish())
}

/// An empty element with an attribute.
fn element_alone(alloc: Global, name: &str, attr: &str, value: &str) -> Result<Tree, OutOfMemory> {
    if name.len() > 100 || attr.len() > 100 || value.len() > 100 {
        return Err(OutOfMemory);
    }
    let attrs = attributes(alloc, attr, value)?;
    let mut maker = Tree::maker(alloc);
    maker.start(name, false, attrs)?;
    if maker.depth() == 0 {
        return Err(OutOfMemory);
    }
    maker.end()?;
    if maker.depth() > 0 {
        return Err(OutOfMemory);
    }
    Ok(maker.finish())
}

/// Whether the graph has these steps and this many states after them. A step is printed as its number, how many states
/// are before it, how many hops the first of them has, and whether each has one. A space is before the states.
fn is_like(graph: &Graph, wanted: &str) -> bool {
    let mut at = graph.first_layer();
    let mut rest = wanted;
    for k in 0..graph.len() {
        let step = graph.step(at);
        at = graph.next(at);
        let first = if step.width() == 0 {
            0
        } else {
            step.hops(0).len()
        };
        rest = after_value(rest, &(k, step.width(), first, step.is_forced()));
    }
    is_value(after(rest, " "), &graph.last())
}

/// Whether the graph of a tree is printed so, with a table.
fn graph_is_like(alloc: Global, table: &Table, tree: &Tree, format: Format, wanted: &str) -> bool {
    match Graph::of(alloc, tree, table, RULES, format) {
        Ok(graph) => is_like(&graph, wanted),
        Err(OutOfMemory) => false,
    }
}

/// As `graph_is_like`, with the table of these names of references.
fn has_steps(alloc: Global, names: &str, tree: &Tree, format: Format, wanted: &str) -> bool {
    match Table::read(alloc, names.as_bytes()) {
        Ok(table) => graph_is_like(alloc, &table, tree, format, wanted),
        Err(_) => false,
    }
}

/// As `has_steps`, for a text.
fn text_has_steps(alloc: Global, names: &str, text: &str, format: Format, wanted: &str) -> bool {
    match text_alone(alloc, text) {
        Ok(tree) => has_steps(alloc, names, &tree, format, wanted),
        Err(OutOfMemory) => false,
    }
}

/// `a<b`: after the `<` as itself no letter may follow.
const LESS_THAN: &str = "(0, 1, 1, true)(1, 1, 3, false)(2, 3, 0, false) 1";

/// A name for two code points is a way if they follow each other.
const PAIR: &str = "(0, 1, 4, false)(1, 3, 3, false) 2";

/// It is no way if they don't.
const NO_PAIR: &str = "(0, 1, 3, false)(1, 2, 3, false) 2";

/// In the graph of a sparse certificate, a character that can be written as itself is never written as a number.
const SPARSE: &str = "(0, 1, 2, false)(1, 2, 1, true) 1";

/// The graphs of texts.
#[test]
fn texts(rt: HostRuntime) {
    let alloc = rt.alloc();
    let less_than = text_has_steps(alloc, NONE, "a<b", Format::Compact, LESS_THAN);
    expect(&rt, less_than, "a<b");
    let pair = text_has_steps(alloc, TWO, "x\u{338}", Format::Compact, PAIR);
    expect(&rt, pair, "a pair");
    let no_pair = text_has_steps(alloc, TWO, "xx", Format::Compact, NO_PAIR);
    expect(&rt, no_pair, "no pair");
    let sparse = text_has_steps(alloc, TWO, "x\u{338}", Format::Sparse, SPARSE);
    expect(&rt, sparse, "sparse");
}

/// `<p id=x></p>`: three ways to write the value. After either quote the state is the same.
const VALUE: &str =
    "(0, 1, 1, true)(1, 1, 3, false)(2, 3, 1, true)(3, 3, 1, true)(4, 2, 1, true)(5, 1, 1, true) 1";

/// Whether the element has these steps.
fn value_has_steps(alloc: Global, wanted: &str) -> bool {
    match element_alone(alloc, "p", "id", "x") {
        Ok(tree) => has_steps(alloc, NONE, &tree, Format::Compact, wanted),
        Err(OutOfMemory) => false,
    }
}

/// The graph of an element with a value.
#[test]
fn value(rt: HostRuntime) {
    expect(&rt, value_has_steps(rt.alloc(), VALUE), "a value");
}
