//! The text of the first way (path through the layered graph).
ghost use Rattle.std.specs.Prelude.{◌≡◌, ◌<◌, ◌≤◌, ◌+◌, ◌++◌, ◌∷◌, [], ℕ, List, chars, length, drop, option_and_then, slice_get, slice_index, slice_index_or, IfOk, IfSome, IsUtf8, OnOk};
ghost use Rattle.hm_edges.specs.Pieces.{HasName, own_bytes, piece_bytes, piece_text};
ghost use Rattle.hm_graph_laws.specs.Prices.{Row};
ghost use Rattle.hm_graph.specs.Graphs.{IsNamedStep, IsPlace};
ghost use Rattle.hm_event_parts.specs.UnitText.{own_text};
ghost use Rattle.hm_event_parts.specs.Parts.{AreParts, IsPart, part_units, parts_units};
ghost use Rattle.hm_refs.specs.Names.{Entry};
ghost use Rattle.hm_graph.specs.Ways.{along, choices_of, hop_taken, step_choices, way_from};
ghost use Rattle.hm_graph_laws.specs.Units as units;
ghost use Rattle.hm_graph_laws.specs.Units.{units_of};
ghost use Rattle.hm_shortest.specs.Paths.{Goes, GoesOver, IsOnWay, onward, row_after};

use crate::copied::is_copied;
use hm_base::OutOfMemory;
use hm_event_parts::{Part, UnitText, find_parts, put_piece};
use hm_graph::laws::every_graph;
use hm_graph::{Cursor, Graph, Hop, Step};
use hm_refs::Table;
use std::alloc::Global;

/// The part of the first way that is written.
#[derive(Drop)]
struct WrittenWay<'c> {
    out: Vec<u8>,
    /// The layer that was reached.
    at: Cursor,
    /// The index of the state in its layer. None if the way has ended.
    place: Option<usize>,
    /// The choices of the steps that are left. Those of the next step are last.
    choices: &'c [u8],
}

/// Splits the choices: those of the steps after a layer's step, and those of that step.
#[inline(always)]
fn cut_choices<'c>(choices: &'c [u8], graph: &Graph, at: Cursor) -> (&'c [u8], &'c [u8])
    requires place { IsPlace graph.now at }
    requires inside { at.layer < length graph.now.steps }
    requires choices { choices.now ≡ choices_of graph.now.last (drop at.layer graph.now.steps) }
    ensures after { result.0.now ≡ choices_of graph.now.last (drop (at.layer + 1) graph.now.steps) }
    ensures front { result.1.now ≡ step_choices (row_after graph.now at.layer) (slice_index_or graph.now.steps at.layer []) }
{
    let step = graph.step(at);
    if step.is_forced() {
        return (choices, &[]);
    }
    choices.split_at(choices.len() - step.width())
}

/// The choice of the state with this index: 0 if there is nothing to choose.
#[inline(always)]
fn choice_at(choices: &[u8], place: usize) -> usize
    ensures { result ≡ slice_index choices.now place }
{
    match choices.get(place) {
        Some(choice) => *choice as usize,
        None => 0,
    }
}

/// The hop with this index.
#[inline(always)]
pub(crate) fn hop_at(hops: &[Hop], place: usize) -> Option<Hop>
    ensures { result ≡ slice_get hops.now place }
{
    match hops.get(place) {
        Some(hop) => Some(*hop),
        None => None,
    }
}

/// The hop from the state with this index that the choices of the step take.
#[inline(always)]
fn taken_at(step: &Step, choices: &[u8], place: usize) -> Option<Hop>
    ensures taken { (after : Row) → choices.now ≡ step_choices after step.now → result ≡ hop_taken after step.now place }
    ensures named { (t : List Entry) → IsNamedStep t step.now → IfSome result (λ hop. HasName t hop.piece) }
{
    if let Some(hop) = step.only() {
        return if place == 0 { Some(hop) } else { None };
    }
    if place >= step.width() {
        return None;
    }
    hop_at(step.hops(place), choice_at(choices, place))
}

/// The hop that is taken from the state with this index, if the way hasn't ended.
#[inline(always)]
fn next_hop(step: &Step, choices: &[u8], place: Option<usize>) -> Option<Hop>
    ensures taken { (after : Row) → choices.now ≡ step_choices after step.now → result ≡ option_and_then (hop_taken after step.now) place }
    ensures named { (t : List Entry) → IsNamedStep t step.now → IfSome result (λ hop. HasName t hop.piece) }
{
    match place {
        Some(place) => taken_at(step, choices, place),
        None => None,
    }
}

/// Writes what a hop writes of a unit, and gives the index of the state that it leads to.
#[inline(always)]
fn put_hop(
    out: &mut Vec<u8>,
    table: &Table,
    hop: Option<Hop>,
    own: UnitText,
) -> Result<Option<usize>, OutOfMemory>
    requires { IfSome hop (λ hop. HasName table.now.entries hop.piece) }
    ensures { IfOk result (λ place. (more : ℕ → List ℕ) → out.new.items ++ onward more place ≡ out.old.items ++ along (piece_text table.now.entries (own_text own.entry)) more hop) }
{
    match hop {
        Some(hop) => {
            put_piece(out, table, hop.piece, own)?;
            Ok(Some(hop.to))
        }
        None => Ok(None),
    }
}

/// Writes what the next hop of the way writes of a unit with these bytes of its own.
#[inline(always)]
fn take(way: &mut WrittenWay, graph: &Graph, own: UnitText) -> Result<(), OutOfMemory>
    requires inside { way.old.at.layer < length graph.now.steps }
    requires on { IsOnWay graph.now way.old }
    ensures { OnOk result ((u : units.Unit) → own_bytes u ≡ own_text own.entry → Goes graph.now (u ∷ []) [] way.old way.new) }
{
    every_graph(graph);
    let (after, front) = cut_choices(way.choices, graph, way.at);
    let hop = next_hop(graph.step(way.at), front, way.place);
    way.choices = after;
    way.place = put_hop(&mut way.out, graph.table(), hop, own)?;
    way.at = graph.next(way.at);
    Ok(())
}

/// Writes the first characters of a text, as long as the same step copies one byte, and gives the rest of the text.
fn copy_alike<'t>(
    way: &mut WrittenWay,
    graph: &Graph,
    text: &'t str,
) -> Result<&'t str, OutOfMemory>
    requires inside { way.old.at.layer + length (chars text.now) ≤ length graph.now.steps }
    requires some { 0 < length text.now }
    requires on { IsOnWay graph.now way.old }
    ensures goes { IfOk result (λ rest. GoesOver graph.now (chars text.now) (chars rest.now) way.old way.new) }
    ensures within { IfOk result (λ rest. length rest.now ≤ length text.now) }
    ensures utf8 { IfOk result (λ rest. IsUtf8 rest.now) }
{
    if !is_copied(graph.step(way.at), way.place) {
        return Ok(text);
    }
    let at = graph.next_alike(way.at, text.len());
    let count = at.layer - way.at.layer;
    let front = &text.as_bytes()[..count];
    if !front.is_ascii() {
        return Ok(text);
    }
    way.out.extend_from_slice(front)?;
    way.at = at;
    Ok(&text[count..])
}

/// Writes the first character of a text, and gives the rest of the text.
fn take_char<'t>(way: &mut WrittenWay, graph: &Graph, text: &'t str) -> Result<&'t str, OutOfMemory>
    requires inside { way.old.at.layer + length (chars text.now) ≤ length graph.now.steps }
    requires on { IsOnWay graph.now way.old }
    ensures goes { IfOk result (λ rest. GoesOver graph.now (chars text.now) (chars rest.now) way.old way.new) }
    ensures shorter { IfOk result (λ rest. 0 < length text.now → length rest.now < length text.now) }
    ensures utf8 { IfOk result (λ rest. IsUtf8 rest.now) }
{
    let mut rest = text.chars();
    if let Some(c) = rest.next() {
        take(way, graph, UnitText::Character { c })?;
    }
    Ok(rest.as_str())
}

/// Writes the first characters of a text, at least one, and gives the rest of the text.
fn take_some<'t>(way: &mut WrittenWay, graph: &Graph, text: &'t str) -> Result<&'t str, OutOfMemory>
    requires inside { way.old.at.layer + length (chars text.now) ≤ length graph.now.steps }
    requires some { 0 < length text.now }
    requires on { IsOnWay graph.now way.old }
    ensures goes { IfOk result (λ rest. GoesOver graph.now (chars text.now) (chars rest.now) way.old way.new) }
    ensures shorter { IfOk result (λ rest. length rest.now < length text.now) }
    ensures utf8 { IfOk result (λ rest. IsUtf8 rest.now) }
{
    let rest = copy_alike(way, graph, text)?;
    if rest.len() < text.len() {
        return Ok(rest);
    }
    take_char(way, graph, rest)
}

/// Writes the characters of a text.
fn take_chars(way: &mut WrittenWay, graph: &Graph, text: &str) -> Result<(), OutOfMemory>
    requires inside { way.old.at.layer + length (chars text.now) ≤ length graph.now.steps }
    requires on { IsOnWay graph.now way.old }
    ensures { OnOk result (GoesOver graph.now (chars text.now) [] way.old way.new) }
{
    let mut rest = text;
    while !rest.is_empty() {
        rest = take_some(way, graph, rest)?;
    }
    Ok(())
}

/// Writes a part of an event.
fn take_part(way: &mut WrittenWay, graph: &Graph, part: Part) -> Result<(), OutOfMemory>
    requires inside { way.old.at.layer + length (part_units part) ≤ length graph.now.steps }
    requires on { IsOnWay graph.now way.old }
    requires part { IsPart part }
    ensures { OnOk result (Goes graph.now (part_units part.entry) [] way.old way.new) }
{
    match part {
        Part::One { unit: _, own } => take(way, graph, UnitText::Bytes { text: own }),
        Part::Opening { name, value: _ } => take(way, graph, UnitText::Bytes { text: name }),
        Part::Comment { text } => take(way, graph, UnitText::Comment { text }),
        Part::Chars { kind: _, text } => take_chars(way, graph, text),
    }
}

/// Writes the parts of an event.
fn take_parts(way: &mut WrittenWay, graph: &Graph, parts: &[Part]) -> Result<(), OutOfMemory>
    requires inside { way.old.at.layer + length (parts_units parts.now) ≤ length graph.now.steps }
    requires on { IsOnWay graph.now way.old }
    requires parts { AreParts parts.now }
    ensures { OnOk result (Goes graph.now (parts_units parts.now) [] way.old way.new) }
{
    for part in parts {
        take_part(way, graph, *part)?;
    }
    Ok(())
}

/// Writes the text of the first way of a graph, by the choices that were found for it.
pub fn write_path(alloc: Global, graph: &Graph, choices: &[u8]) -> Result<Vec<u8>, OutOfMemory>
    requires { choices.now ≡ choices_of graph.now.last graph.now.steps }
    ensures { IfOk result (λ out. out.items ≡ way_from (piece_bytes graph.now.source.table.entries) graph.now.last (units_of graph.now.source.rules graph.now.source.tree) graph.now.steps 0) }
{
    every_graph(graph);
    let tree = graph.tree();
    let mut parts = Vec::new(alloc);
    let mut way = WrittenWay {
        out: Vec::new(alloc),
        at: graph.first_layer(),
        place: Some(0),
        choices,
    };
    for i in 0..tree.len() {
        find_parts(tree, graph.rules(), i, &mut parts)?;
        take_parts(&mut way, graph, &parts)?;
    }
    Ok(way.out)
}
