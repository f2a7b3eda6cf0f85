//! The step of a unit from the states before it, and the states after it.
ghost use Rattle.std.specs.Prelude.{◌≡◌, ◌++◌, ◌∷◌, [], map, IfOk, List, OnOk};
ghost use Rattle.hm_refs.specs.Tables.{TableView};
ghost use Rattle.hm_edges.specs.Pieces.{AreOfTable, IsOfTable};
ghost use Rattle.hm_edges.specs.States.{HasNodes, state_of};
ghost use Rattle.hm_edges.specs.declared.states.State.{State as CodeState};
ghost use Rattle.hm_graph.specs.Fits.{place_of};
ghost use Rattle.hm_graph.specs.Steps.{Step as Hops};
ghost use Rattle.hm_graph.specs.Layers.{AreEdgesUnder, AreHops, HaveNodes, IsHop, IsLayer, IsPlaced, states_of};

use crate::Hop;
use crate::dominated::edges_in;
use crate::equal::is_state;
use crate::rules::EdgeRules;
use hm_base::OutOfMemory;
use hm_edges::{Edge, State, Unit, find_edges, piece_len};
use hm_refs::Table;
use smallvec::SmallVec;
use std::alloc::Global;

/// The states of a layer. Up to four are stored inline: few layers of pages have more.
pub(crate) type States = SmallVec<State, 4>;

/// The index of a state among these, if it is one of them.
fn place_in(states: &[State], state: &State) -> Option<usize>
    ensures { (v : TableView) → HaveNodes v states.now → HasNodes v state.now.pending → result ≡ place_of (states_of v states.now) (state_of v state.now) }
{
    for (place, other) in states.iter().enumerate() {
        if is_state(other, state) {
            return Some(place);
        }
    }
    None
}

/// The index of a state among these. It is appended if it isn't one of them.
fn place(states: &mut States, state: &State) -> Result<usize, OutOfMemory>
    ensures { (v : TableView) → HaveNodes v states.old.items → HasNodes v state.now.pending → IfOk result (IsPlaced v state.now states.old.items states.new.items) }
{
    if let Some(place) = place_in(states.as_slice(), state) {
        return Ok(place);
    }
    let place = states.len();
    states.push(*state)?;
    Ok(place)
}

/// The hop of an edge of the unit. The state that it leads to is added to the next layer if it isn't there.
fn hop_of(table: &Table, unit: Unit, edge: &Edge, after: &mut States) -> Result<Hop, OutOfMemory>
    requires edge { IsOfTable table.now edge.now }
    requires nodes { HaveNodes table.now after.old.items }
    ensures { IfOk result (IsHop table.now unit edge.now after.old.items after.new.items) }
{
    let len = piece_len(unit, edge.piece, table);
    let to = place(after, &edge.to)?;
    Ok(Hop {
        piece: edge.piece,
        len,
        to,
    })
}

/// The hops of these edges of the unit, in their order. The states that they lead to are added to the next layer.
fn hops_of(
    alloc: Global,
    table: &Table,
    unit: Unit,
    edges: &[Edge],
    after: &mut States,
) -> Result<Vec<Hop>, OutOfMemory>
    requires edges { AreOfTable table.now edges.now }
    requires nodes { HaveNodes table.now after.old.items }
    ensures { IfOk result (λ hops. AreHops table.now unit edges.now after.old.items after.new.items hops.items) }
{
    let mut hops = Vec::new(alloc);
    for edge in edges {
        hops.push(hop_of(table, unit, edge, after)?)?;
    }
    Ok(hops)
}

/// Where a unit leads from some states: the hops of each, and the states of the next layer.
#[derive(Drop)]
pub(crate) struct Layer {
    pub(crate) hops: Vec<Vec<Hop>>,
    pub(crate) after: States,
}

/// The edges of a unit from a state.
fn edges_from(
    alloc: Global,
    table: &Table,
    rules: EdgeRules,
    unit: Unit,
    from: State,
) -> Result<Vec<Edge>, OutOfMemory>
    requires { HasNodes table.now from.pending }
    ensures edges { IfOk result (λ edges. AreEdgesUnder table.now rules unit from edges.items) }
    ensures known { IfOk result (λ edges. AreOfTable table.now edges.items) }
{
    let mut edges = Vec::new(alloc);
    find_edges(table, rules.spell, unit, from, &mut edges)?;
    edges_in(alloc, table, rules.format, unit, edges)
}

/// The hops of a unit's edges from a state, in their order. The states that they lead to are added to the next layer.
#[inline(always)]
fn hops_from(
    alloc: Global,
    table: &Table,
    rules: EdgeRules,
    unit: Unit,
    from: State,
    after: &mut States,
) -> Result<Vec<Hop>, OutOfMemory>
    requires node { HasNodes table.now from.pending }
    requires nodes { HaveNodes table.now after.old.items }
    ensures { IfOk result (λ hops. (before : List CodeState) (step : Hops) → IsLayer table.now rules unit before after.old.items step → IsLayer table.now rules unit (before ++ from ∷ []) after.new.items (step ++ hops.items ∷ [])) }
{
    let edges = edges_from(alloc, table, rules, unit, from)?;
    hops_of(alloc, table, unit, edges.as_slice(), after)
}

/// Adds the hops of one more state, and the states that they lead to.
#[inline(always)]
fn add_state(
    alloc: Global,
    table: &Table,
    rules: EdgeRules,
    unit: Unit,
    from: State,
    layer: &mut Layer,
) -> Result<(), OutOfMemory>
    requires node { HasNodes table.now from.pending }
    requires nodes { HaveNodes table.now layer.old.after.items }
    ensures { OnOk result ((before : List CodeState) → IsLayer table.now rules unit before layer.old.after.items (map (λ hops. hops.items) layer.old.hops.items)
        → IsLayer table.now rules unit (before ++ from ∷ []) layer.new.after.items (map (λ hops. hops.items) layer.new.hops.items)) }
{
    let hops = hops_from(alloc, table, rules, unit, from, &mut layer.after)?;
    layer.hops.push(hops)?;
    Ok(())
}

/// Finds the hops of each of these states, and the states of the next layer.
pub(crate) fn find_layer(
    alloc: Global,
    table: &Table,
    rules: EdgeRules,
    unit: Unit,
    from: &[State],
) -> Result<Layer, OutOfMemory>
    requires { HaveNodes table.now from.now }
    ensures { IfOk result (λ layer. IsLayer table.now rules unit from.now layer.after.items (map (λ hops. hops.items) layer.hops.items)) }
{
    let mut layer = Layer {
        hops: Vec::new(alloc),
        after: SmallVec::new(alloc),
    };
    for state in from {
        add_state(alloc, table, rules, unit, *state, &mut layer)?;
    }
    Ok(layer)
}
