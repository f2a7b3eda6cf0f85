//! The steps of a tree.
ghost use Rattle.std.specs.Prelude.{◌≡◌, ◌+◌, ◌-◌, ◌<◌, ◌≤◌, ◌^◌, ℕ, [], true, drop, length, slice_index_or, IfSome, IsSome, IsTrue};
ghost use Rattle.hm_graph.specs.Graphs.{IsGraph, IsLowStep, IsPlace};
ghost use Rattle.hm_graph.specs.Kept.{kept_count};
ghost use Rattle.hm_graph.specs.Still.{IsStill};
ghost use Rattle.hm_graph.specs.StillRuns.{AreStillOver, LeavesOutStill};

use crate::numbers::Run;
use crate::step::Step;
use hm_base::{Format, SpellRules};
use hm_refs::Table;
use hm_tree::Tree;
use std::marker::Model;

/// The steps between the layers of a tree's graph, in their order, how many states the last layer has, and the tree,
/// table, rules and format. Each different step is kept once, and equal steps in a row as one run.
#[derive(Drop)]
pub struct Graph<'t> {
    pub(crate) tree: &'t Tree,
    pub(crate) table: &'t Table,
    pub(crate) rules: SpellRules,
    pub(crate) format: Format,
    pub(crate) steps: Vec<Step>,
    pub(crate) runs: Vec<Run>,
    pub(crate) len: usize,
    pub(crate) last: usize,
}

/// A layer of a graph: the one before step `used` of a run, or the last one after all runs.
#[derive(Clone, Copy)]
pub struct Cursor {
    run: usize,
    used: usize,
    /// How many layers are before it.
    pub layer: usize,
}

/// What was found on a way back over several layers.
#[derive(Clone, Copy)]
pub struct Passed {
    /// The layer that was reached, which is before the others.
    pub front: Cursor,
    /// How many bytes the hops over them write together. This is the same from each state.
    pub len: u64,
}

/// Whether this format omits layers of `width` states if no state changes its place over the step after them.
#[inline(always)]
fn leaves_out_still(format: Format, width: usize) -> bool
    ensures { IsTrue result → LeavesOutStill format width }
{
    match format {
        Format::Full => false,
        Format::Compact => width == 1,
        Format::Sparse => true,
    }
}

/// The length of each hop in bytes, if no state changes its place over a step of `width` states.
#[inline(always)]
fn still_over(step: &Step, width: usize) -> Option<u64>
    ensures still { IfSome result (λ len. IsStill len step.now) }
    ensures width { IsSome result → length step.now ≡ width }
    ensures low { IsLowStep step.now → IfSome result (λ len. len < 2 ^ 33) }
{
    if step.width() == width {
        step.still()
    } else {
        None
    }
}

impl<'t> Model for Graph<'t> {
    ghost use Rattle.hm_graph.specs.Graphs.{GraphView};

    ghost Value = { GraphView };

    ghost use Rattle.std.specs.Prelude.{◌≡◌, ◌<◌, ◌^◌, length};
    ghost use Rattle.hm_graph.specs.Graphs.{AreNumbers, IsGraph, graph_view};
    ghost use Rattle.hm_graph.specs.Runs.{AreRuns, unroll};

    ghost view = { λ g. graph_view (record { tree = g.tree.now; table = g.table.now; rules = g.rules; format = g.format }) g.steps.items g.runs.items g.last };

    ghost invariant = { λ g. AreNumbers g.steps.items (unroll g.runs.items)
        × IsGraph (graph_view (record { tree = g.tree.now; table = g.table.now; rules = g.rules; format = g.format }) g.steps.items g.runs.items g.last)
        × (g.len ≡ length (unroll g.runs.items)) × (g.len < 2 ^ 29) × AreRuns g.runs.items };
}

/// What is true of the steps of every graph. The function does nothing.
///
/// A proof knows the invariant of a value only if the body reads one of its fields. A body that needs it calls this
/// function, or reads a field into a name such as `_runs`.
#[inline(always)]
pub fn every_graph(graph: &Graph)
    ensures graph { IsGraph graph.now }
    ensures few { length graph.now.steps < 2 ^ 29 }
{
    let _len = graph.len;
}

impl<'t> Graph<'t> {
    /// The tree whose graph this is.
    pub fn tree(&self) -> &'t Tree
        ensures { result.now ≡ self.now.source.tree }
    {
        self.tree
    }

    /// The table of names that the graph was made with.
    #[inline(always)]
    pub fn table(&self) -> &'t Table
        ensures { result.now ≡ self.now.source.table }
    {
        self.table
    }

    /// The rules by which its tree may be written.
    pub fn rules(&self) -> SpellRules
        ensures { result ≡ self.now.source.rules }
    {
        self.rules
    }

    /// The format of certificates that the graph was made for.
    #[inline(always)]
    pub fn format(&self) -> Format
        ensures { result ≡ self.now.source.format }
    {
        self.format
    }

    /// How many steps there are: one less than the layers.
    pub fn len(&self) -> usize
        ensures { result ≡ length self.now.steps }
    {
        self.len
    }

    /// The number of states of the last layer.
    pub fn last(&self) -> usize
        ensures { result ≡ self.now.last }
    {
        self.last
    }

    /// The first layer.
    pub fn first_layer(&self) -> Cursor
        ensures place { IsPlace self.now result }
        ensures layer { result.layer ≡ 0 }
    {
        let _runs = &self.runs;
        Cursor {
            run: 0,
            used: 0,
            layer: 0,
        }
    }

    /// The last layer.
    pub fn last_layer(&self) -> Cursor
        ensures place { IsPlace self.now result }
        ensures layer { result.layer ≡ length self.now.steps }
    {
        Cursor {
            run: self.runs.len(),
            used: 0,
            layer: self.len,
        }
    }

    /// The step after a layer.
    pub fn step(&self, at: Cursor) -> &Step
        requires place { IsPlace self.now at }
        requires inside { at.layer < length self.now.steps }
        ensures { result.now ≡ slice_index_or self.now.steps at.layer [] }
    {
        &self.steps[self.runs[at.run].number as usize]
    }

    /// The layer after `at`.
    pub fn next(&self, at: Cursor) -> Cursor
        requires place { IsPlace self.now at }
        requires inside { at.layer < length self.now.steps }
        ensures place { IsPlace self.now result }
        ensures layer { result.layer ≡ at.layer + 1 }
    {
        let count = self.runs[at.run].count as usize;
        let layer = at.layer + 1;
        let used = at.used + 1;
        if used < count {
            return Cursor {
                run: at.run,
                used,
                layer,
            };
        }
        Cursor {
            run: at.run + 1,
            used: 0,
            layer,
        }
    }

    /// The layer before `at`.
    pub fn back(&self, at: Cursor) -> Cursor
        requires place { IsPlace self.now at }
        requires some { 0 < at.layer }
        ensures place { IsPlace self.now result }
        ensures layer { result.layer ≡ at.layer - 1 }
    {
        let _runs = &self.runs;
        let layer = at.layer - 1;
        if at.used > 0 {
            return Cursor {
                run: at.run,
                used: at.used - 1,
                layer,
            };
        }
        let run = at.run - 1;
        Cursor {
            run,
            used: self.runs[run].count as usize - 1,
            layer,
        }
    }

    /// Goes back over at most `limit` layers that have the same step after them as this one.
    pub fn back_alike(&self, at: Cursor, limit: usize) -> Cursor
        requires place { IsPlace self.now at }
        requires inside { at.layer < length self.now.steps }
        ensures place { IsPlace self.now result }
        ensures layer { (result.layer ≤ at.layer) × (at.layer ≤ result.layer + limit) }
        ensures alike { (k : ℕ) → result.layer ≤ k → k < at.layer → slice_index_or self.now.steps k [] ≡ slice_index_or self.now.steps at.layer [] }
    {
        let _runs = &self.runs;
        let count = at.used.min(limit);
        Cursor {
            run: at.run,
            used: at.used - count,
            layer: at.layer - count,
        }
    }

    /// Goes forward over at most `limit` layers that have the same step after them as this one.
    pub fn next_alike(&self, at: Cursor, limit: usize) -> Cursor
        requires place { IsPlace self.now at }
        requires inside { at.layer < length self.now.steps }
        ensures place { IsPlace self.now result }
        ensures layer { (at.layer ≤ result.layer) × (result.layer ≤ at.layer + limit) }
        ensures alike { (k : ℕ) → at.layer ≤ k → k < result.layer → slice_index_or self.now.steps k [] ≡ slice_index_or self.now.steps at.layer [] }
    {
        let left = self.runs[at.run].count as usize - at.used;
        if limit < left {
            return Cursor {
                run: at.run,
                used: at.used + limit,
                layer: at.layer + limit,
            };
        }
        Cursor {
            run: at.run + 1,
            used: 0,
            layer: at.layer + left,
        }
    }

    /// Goes back from a layer over layers that a certificate omits, but not to the first layer. Each of them has
    /// `width` states, and none changes its place.
    pub fn back_still(&self, at: Cursor, width: usize) -> Passed
        requires place { IsPlace self.now at }
        requires within { at.layer ≤ length self.now.steps }
        ensures place { IsPlace self.now result.front }
        ensures layer { result.front.layer ≤ at.layer }
        ensures first { 0 < at.layer → 0 < result.front.layer }
        ensures still { AreStillOver self.now.source.format (drop result.front.layer self.now.steps) (at.layer - result.front.layer) width result.len }
        ensures low { result.len < 2 ^ 62 }
    {
        every_graph(self);
        if !leaves_out_still(self.format, width) {
            return Passed { front: at, len: 0 };
        }
        let mut front = at;
        let mut len = 0;
        while front.layer > 1 {
            let next = self.back(front);
            let own = match still_over(self.step(next), width) {
                Some(own) => own,
                None => return Passed { front, len },
            };
            front = self.back_alike(next, next.layer - 1);
            len += (next.layer - front.layer + 1) as u64 * own;
        }
        Passed { front, len }
    }

    /// How many layers a certificate writes. The last one isn't counted, and the first one only if its step is written.
    pub fn count_kept(&self) -> usize
        ensures { result ≡ kept_count self.now.source.format self.now.steps }
    {
        let format = self.format;
        let mut count = 0;
        for run in &self.runs {
            if !self.steps[run.number as usize].is_left_out(format) {
                count += run.count as usize;
            }
        }
        count
    }
}
