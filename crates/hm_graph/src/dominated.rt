//! The edges of a state that no other edge dominates.
ghost use Rattle.std.specs.Prelude.{◌≡◌, ◌||◌, ◌++◌, ◌∷◌, ◌<◌, ◌^◌, [], nat_le, nat_lt, if◌then◌else◌, IfOk, IfSome, OnOk};
ghost use Rattle.std.specs.List.{list_any};
ghost use Rattle.hm_edges.specs.Pieces.{AreOfTable, IsOfTable, edge_of, edges_seen};
ghost use Rattle.hm_edges.specs.States.{HasNodes, state_of};
ghost use Rattle.hm_edges.specs.Units.{StandsFor};
ghost use Rattle.hm_graph.specs.Forms.{IsFew, by_change};
ghost use Rattle.hm_optimality_laws.specs.Dominated as dominated;
ghost use Rattle.hm_optimality_laws.specs.Dominated.{dominance, kept_edges};
ghost use Rattle.hm_refs.specs.Tables.{TableView};
ghost use Rattle.hm_optimality_laws.specs.Formats.{kept_by};
ghost use Rattle.hm_graph_laws.specs.States.{same_state};
ghost use Rattle.hm_graph_laws.specs.Units as units;

use crate::equal::is_state;
use crate::forms::{Change, change_of};
use hm_base::{Format, OutOfMemory};
use hm_edges::{Edge, Pending, State, Unit, Where, piece_len};
use hm_refs::Table;
use std::alloc::Global;

/// Whether what is pending in a state may be ignored.
fn may_forget(state: &State) -> bool
    ensures { (v : TableView) → result ≡ dominated.may_forget (state_of v state.now) }
{
    match (state.at, state.pending) {
        (Where::InSection, _) => false,
        (_, Pending::Half { left: _ }) => false,
        _ => true,
    }
}

/// Whether two states mean the same.
fn is_same(one: &State, other: &State) -> bool
    ensures { (v : TableView) → HasNodes v one.now.pending → HasNodes v other.now.pending → result ≡ same_state (state_of v one.now) (state_of v other.now) }
{
    is_state(one, other)
}

/// Whether the first state can take the place of the other: whatever may follow the other may follow it.
fn can_replace(one: &State, other: &State) -> bool
    ensures { (v : TableView) → HasNodes v one.now.pending → HasNodes v other.now.pending → result ≡ dominated.can_replace (state_of v one.now) (state_of v other.now) }
{
    let forgotten = State {
        at: other.at,
        pending: Pending::Nothing,
    };
    is_same(one, other) || (may_forget(other) && is_same(one, &forgotten))
}

/// Whether the first length is at most the second, if the value is then written with other quotes.
fn is_no_longer(change: Option<Change>, one: u64, other: u64) -> bool
    requires few { IfSome change IsFew }
    requires one { one < 2 ^ 34 }
    requires other { other < 2 ^ 34 }
    ensures { result ≡ by_change nat_le change one other }
{
    match change {
        Some(change) => one + change.added <= other + change.saved,
        None => false,
    }
}

/// Whether the first length is less than the second, if the value is then written with other quotes.
fn is_shorter(change: Option<Change>, one: u64, other: u64) -> bool
    requires few { IfSome change IsFew }
    requires one { one < 2 ^ 34 }
    requires other { other < 2 ^ 34 }
    ensures { result ≡ by_change nat_lt change one other }
{
    match change {
        Some(change) => one + change.added < other + change.saved,
        None => false,
    }
}

/// Whether an edge is dominated by this one, which comes before it.
fn dominates_in_front(table: &Table, unit: Unit, edge: &Edge, other: &Edge) -> bool
    requires edge { IsOfTable table.now edge.now }
    requires other { IsOfTable table.now other.now }
    ensures { (u : units.Unit) → StandsFor table.now.entries unit u → result ≡ dominated.dominates_in_front table.now.entries u (edge_of table.now u edge.now) (edge_of table.now u other.now) }
{
    let len = piece_len(unit, edge.piece, table);
    let other_len = piece_len(unit, other.piece, table);
    (can_replace(&other.to, &edge.to) && other_len <= len)
        || is_no_longer(change_of(unit, &edge.to, &other.to), other_len, len)
}

/// Whether an edge is dominated by this one, which comes after it.
fn dominates_after(table: &Table, unit: Unit, edge: &Edge, other: &Edge) -> bool
    requires edge { IsOfTable table.now edge.now }
    requires other { IsOfTable table.now other.now }
    ensures { (u : units.Unit) → StandsFor table.now.entries unit u → result ≡ dominated.dominates_after table.now.entries u (edge_of table.now u edge.now) (edge_of table.now u other.now) }
{
    let len = piece_len(unit, edge.piece, table);
    let other_len = piece_len(unit, other.piece, table);
    (can_replace(&other.to, &edge.to) && other_len < len)
        || is_shorter(change_of(unit, &edge.to, &other.to), other_len, len)
}

/// Whether an edge is dominated by one of these, which come before it.
fn some_dominates_in_front(table: &Table, unit: Unit, edge: &Edge, others: &[Edge]) -> bool
    requires edge { IsOfTable table.now edge.now }
    requires others { AreOfTable table.now others.now }
    ensures { (u : units.Unit) → StandsFor table.now.entries unit u → result ≡ list_any (dominated.dominates_in_front table.now.entries u (edge_of table.now u edge.now)) (edges_seen table.now u others.now) }
{
    for other in others {
        if dominates_in_front(table, unit, edge, other) {
            return true;
        }
    }
    false
}

/// Whether an edge is dominated by one of these, which come after it.
fn some_dominates_after(table: &Table, unit: Unit, edge: &Edge, others: &[Edge]) -> bool
    requires edge { IsOfTable table.now edge.now }
    requires others { AreOfTable table.now others.now }
    ensures { (u : units.Unit) → StandsFor table.now.entries unit u → result ≡ list_any (dominated.dominates_after table.now.entries u (edge_of table.now u edge.now)) (edges_seen table.now u others.now) }
{
    for other in others {
        if dominates_after(table, unit, edge, other) {
            return true;
        }
    }
    false
}

/// Whether an edge is dominated by one of those before it (`front`) or after it (`after`).
fn is_dominated(table: &Table, unit: Unit, edge: &Edge, front: &[Edge], after: &[Edge]) -> bool
    requires edge { IsOfTable table.now edge.now }
    requires front { AreOfTable table.now front.now }
    requires after { AreOfTable table.now after.now }
    ensures { (u : units.Unit) → StandsFor table.now.entries unit u → result ≡ (list_any (dominated.dominates_in_front table.now.entries u (edge_of table.now u edge.now)) (edges_seen table.now u front.now)
        || list_any (dominated.dominates_after table.now.entries u (edge_of table.now u edge.now)) (edges_seen table.now u after.now)) }
{
    some_dominates_in_front(table, unit, edge, front)
        || some_dominates_after(table, unit, edge, after)
}

/// Appends an edge, unless it is dominated.
fn keep(kept: &mut Vec<Edge>, edge: Edge, dominated: bool) -> Result<(), OutOfMemory>
    ensures { OnOk result (kept.new.items ≡ kept.old.items ++ (if dominated then [] else edge ∷ [])) }
{
    if dominated {
        return Ok(());
    }
    let Edge { piece, to } = edge;
    kept.push(Edge { piece, to })?;
    Ok(())
}

/// The edges of a state that no other one dominates, in their order.
fn without_dominated(
    alloc: Global,
    table: &Table,
    unit: Unit,
    edges: &[Edge],
) -> Result<Vec<Edge>, OutOfMemory>
    requires { AreOfTable table.now edges.now }
    ensures edges { IfOk result (λ kept. (u : units.Unit) → StandsFor table.now.entries unit u → edges_seen table.now u kept.items ≡ kept_edges (dominance table.now.entries) u (edges_seen table.now u edges.now)) }
    ensures known { IfOk result (λ kept. AreOfTable table.now kept.items) }
{
    let mut kept = Vec::new(alloc);
    for place in 0..edges.len() {
        let edge = &edges[place];
        let dominated = is_dominated(table, unit, edge, &edges[..place], &edges[place + 1..]);
        keep(&mut kept, *edge, dominated)?;
    }
    Ok(kept)
}

/// The edges of a state that the graph of this format has.
pub(crate) fn edges_in(
    alloc: Global,
    table: &Table,
    format: Format,
    unit: Unit,
    edges: Vec<Edge>,
) -> Result<Vec<Edge>, OutOfMemory>
    requires { AreOfTable table.now edges.items }
    ensures edges { IfOk result (λ kept. (u : units.Unit) → StandsFor table.now.entries unit u → edges_seen table.now u kept.items ≡ kept_by format table.now.entries u (edges_seen table.now u edges.items)) }
    ensures known { IfOk result (λ kept. AreOfTable table.now kept.items) }
{
    match format {
        Format::Full | Format::Compact => Ok(edges),
        Format::Sparse => without_dominated(alloc, table, unit, edges.as_slice()),
    }
}
