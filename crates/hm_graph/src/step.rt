//! A step between two layers.
ghost use Rattle.std.specs.Prelude.{◌≡◌, ◌<◌, ◌^◌, [], length, map, slice_index_or, IfOk, IfSome, IsTrue};
ghost use Rattle.hm_graph_laws.specs.Layers.{is_single};
ghost use Rattle.hm_graph.specs.Steps as steps;
ghost use Rattle.hm_graph.specs.Still.{IsStill};
ghost use Rattle.hm_graph.specs.Graphs as graphs;

use crate::Hop;
use crate::equal::is_piece;
use crate::still::still_len;
use hm_base::{Format, OutOfMemory};
use std::alloc::Global;
use std::marker::Model;
use std::rc::Rc;

/// The hops (arcs) of each state of a layer, in the order of its edges.
#[derive(Drop)]
pub struct Step {
    /// Shared by its copies.
    lists: Rc<Vec<Vec<Hop>>>,
    forced: bool,
    only: Option<Hop>,
    /// The length of each hop in bytes, if each state has one hop, to its own place.
    still: Option<u64>,
}

impl Model for Step {
    ghost use Rattle.std.specs.Prelude.{◌≡◌, List, map, IfSome};
    ghost use Rattle.hm_graph.specs.Steps.{is_forced};
    ghost use Rattle.hm_graph.specs.Still.{IsStill};
    ghost use Rattle.hm_graph.specs.declared.hops.Hop.{Hop};
    ghost use Rattle.hm_graph.specs.Graphs.{only_hop};

    ghost Value = { List (List Hop) };

    ghost view = { λ s. map (λ hops. hops.items) s.lists.value.items };

    ghost invariant = { λ s. (s.forced ≡ is_forced (map (λ hops. hops.items) s.lists.value.items)) × (s.only ≡ only_hop (map (λ hops. hops.items) s.lists.value.items))
        × IfSome s.still (λ len. IsStill len (map (λ hops. hops.items) s.lists.value.items)) };
}

/// Whether there is exactly one hop.
fn is_one(hops: &[Hop]) -> bool
    ensures { result ≡ is_single hops.now }
{
    match hops {
        [_] => true,
        _ => false,
    }
}

/// Whether each state has one hop.
fn are_forced(lists: &[Vec<Hop>]) -> bool
    ensures { result ≡ steps.is_forced (map (λ hops. hops.items) lists.now) }
{
    for hops in lists {
        if !is_one(hops.as_slice()) {
            return false;
        }
    }
    true
}

/// The hop, if there is exactly one.
fn one_of(hops: &[Hop]) -> Option<Hop>
    ensures { result ≡ graphs.one_of hops.now }
{
    match hops {
        [hop] => Some(*hop),
        _ => None,
    }
}

/// The only hop of the only state, if there is one of each.
fn only_of(lists: &[Vec<Hop>]) -> Option<Hop>
    ensures { result ≡ graphs.only_hop (map (λ hops. hops.items) lists.now) }
{
    match lists {
        [hops] => one_of(hops.as_slice()),
        _ => None,
    }
}

impl Step {
    /// The step with these hops of each state.
    pub fn new(alloc: Global, lists: Vec<Vec<Hop>>) -> Result<Step, OutOfMemory>
        ensures { IfOk result (λ step. step ≡ map (λ hops. hops.items) lists.items) }
    {
        let forced = are_forced(&lists);
        let only = only_of(&lists);
        let mut step = Step {
            lists: Rc::new(alloc, lists)?,
            forced,
            only,
            still: None,
        };
        step.still = still_len(&step);
        Ok(step)
    }

    /// A copy of the step. It shares the hops.
    pub fn copied(&self) -> Result<Step, OutOfMemory>
        ensures { IfOk result (λ step. step ≡ self.now) }
    {
        Ok(Step {
            lists: self.lists.clone()?,
            forced: self.forced,
            only: self.only,
            still: self.still,
        })
    }

    /// The number of states before it.
    pub fn width(&self) -> usize
        ensures { result ≡ length self.now }
    {
        self.lists.len()
    }

    /// The hops of the state with this index, in the order of its edges.
    pub fn hops(&self, place: usize) -> &[Hop]
        requires { place < length self.now }
        ensures { result.now ≡ slice_index_or self.now place [] }
    {
        self.lists[place].as_slice()
    }

    /// The hop, if there is one state with one hop.
    pub fn only(&self) -> Option<Hop>
        ensures { result ≡ graphs.only_hop self.now }
    {
        self.only
    }

    /// The length of each hop in bytes, if there are states and each has one hop, to its own place.
    pub fn still(&self) -> Option<u64>
        ensures still { IfSome result (λ len. IsStill len self.now) }
        ensures low { graphs.IsLowStep self.now → IfSome result (λ len. len < 2 ^ 33) }
    {
        self.still
    }

    /// Whether a certificate of this format omits the layer before the step, if that isn't the first one.
    pub fn is_left_out(&self, format: Format) -> bool
        ensures { result ≡ steps.leaves_out format self.now }
    {
        match format {
            Format::Full => false,
            Format::Compact => self.width() == 1 && self.is_forced(),
            Format::Sparse => self.is_forced(),
        }
    }

    /// Whether each state has one hop, so that there is nothing to choose.
    pub fn is_forced(&self) -> bool
        ensures { result ≡ steps.is_forced self.now }
    {
        self.forced
    }
}

/// Whether the two are equal.
fn is_hop(one: Hop, other: Hop) -> bool
    ensures { IsTrue result → one ≡ other }
{
    one.len == other.len && one.to == other.to && is_piece(one.piece, other.piece)
}

/// Whether the hops are equal.
fn are_same(one: &[Hop], other: &[Hop]) -> bool
    ensures { IsTrue result → one.now ≡ other.now }
{
    if one.len() != other.len() {
        return false;
    }
    for i in 0..one.len() {
        if !is_hop(one[i], other[i]) {
            return false;
        }
    }
    true
}

/// Whether the steps have the same hops.
pub(crate) fn are_equal(one: &Step, other: &Step) -> bool
    ensures { IsTrue result → one.now ≡ other.now }
{
    if one.width() != other.width() {
        return false;
    }
    for place in 0..one.width() {
        if !are_same(one.hops(place), other.hops(place)) {
            return false;
        }
    }
    true
}
