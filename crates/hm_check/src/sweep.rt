//! The prices of all layers, from the last layer on.
ghost use Rattle.std.specs.Prelude.{◌≡◌, ℕ, ◌<◌, ◌≤◌, ◌+◌, ◌^◌, true, false, [], length, map, slice_index_or, IfOk, IfSome, None, OnOk};
ghost use Rattle.hm_cert.specs.Layout.{told};
ghost use Rattle.hm_graph_laws.specs.Ways.{over};
ghost use Rattle.hm_graph.specs.Graphs.{IsLowStep, IsPlace};
ghost use Rattle.hm_graph.specs.Prices.{row_over};
ghost use Rattle.hm_graph.specs.Prices as steps;
ghost use Rattle.hm_graph.specs.Steps.{leaves_out};
ghost use Rattle.hm_cert.specs.Rows.{AreBelow};
ghost use Rattle.hm_check.specs.Sweeps.{AreInPlace, IsStillOver, IsSwept, judged, judged_at_end};

use crate::Why;
use crate::bounds::{are_within, best_price, find_high, find_high_at_end};
use crate::layers::is_left_out;
use hm_base::OutOfMemory;
use hm_cert::{RowPlace, WrittenRows, add_each};
use hm_graph::laws::every_graph;
use hm_graph::{Cursor, Graph, Step};
use std::alloc::Global;
use std::mem;

/// What is found of the rows from a layer on.
#[derive(Clone, Copy)]
pub(crate) struct SweepFound {
    /// Whether each has as many prices as its layer has states.
    pub(crate) right: bool,
    /// The first row of another width, else the first price above its bound.
    pub(crate) why: Option<Why>,
}

/// What is known from a layer on.
#[derive(Drop)]
pub(crate) struct Sweep<'a> {
    /// The rows of these layers are after this place.
    pub(crate) at: RowPlace<'a>,
    /// The prices of the layer, if all rows have the right widths.
    pub(crate) next_row: Vec<u64>,
    pub(crate) found: SweepFound,
    spare: Vec<u64>,
}

/// Adds to `found` what is found of the row of layer `k`, from the next layer's prices.
fn judge(found: &mut SweepFound, k: u64, row: &[u64], next_row: &[u64], step: &Step)
    requires below { found.old.right ≡ true → AreBelow (2 ^ 63 + 2 ^ 62) (map told next_row.now) }
    requires low { IsLowStep step.now }
    ensures { found.new ≡ judged found.old k (map told row.now) (map told next_row.now) step.now }
{
    if row.len() != step.width() {
        *found = SweepFound {
            right: false,
            why: Some(Why::WrongWidth {
                layer: k,
                got: row.len() as u64,
                want: step.width() as u64,
            }),
        };
        return;
    }
    if !found.right {
        return;
    }
    if let Some(why) = find_high(k, row, next_row, step) {
        found.why = Some(why);
    }
}

/// As `judge`. If `len` is given, no state changes its place over the step, and each hop writes that many bytes.
fn judge_over(
    found: &mut SweepFound,
    k: u64,
    row: &[u64],
    next_row: &[u64],
    step: &Step,
    still: Option<u64>,
)
    requires below { found.old.right ≡ true → AreBelow (2 ^ 63 + 2 ^ 62) (map told next_row.now) }
    requires low { IsLowStep step.now }
    requires still { IfSome still (IsStillOver step.now) }
    ensures { found.new ≡ judged found.old k (map told row.now) (map told next_row.now) step.now }
{
    if let Some(len) = still {
        if found.right
            && row.len() == step.width()
            && next_row.len() == row.len()
            && are_within(row, next_row, len)
        {
            return;
        }
    }
    judge(found, k, row, next_row, step)
}

/// What is found of the row of the last layer, layer `k`, which has `last` states.
fn judge_at_end(k: u64, row: &[u64], last: usize) -> SweepFound
    ensures { result ≡ judged_at_end k (map told row.now) last }
{
    if row.len() != last {
        return SweepFound {
            right: false,
            why: Some(Why::WrongWidth {
                layer: k,
                got: row.len() as u64,
                want: last as u64,
            }),
        };
    }
    SweepFound {
        right: true,
        why: find_high_at_end(k, row),
    }
}

/// Finds the prices of an omitted layer from those after it. They replace what the row held.
fn find_followed(next_row: &[u64], row: &mut Vec<u64>, step: &Step) -> Result<(), OutOfMemory>
    requires below { AreBelow (2 ^ 63 + 2 ^ 62) (map told next_row.now) }
    requires low { IsLowStep step.now }
    ensures { OnOk result (map told row.new.items ≡ row_over (map told next_row.now) step.now) }
{
    row.clear();
    for place in 0..step.width() {
        row.push(best_price(next_row, step.hops(place)))?;
    }
    Ok(())
}

/// Adds `len` to each price.
fn add_to(next_row: &mut Vec<u64>, len: u64)
    requires below { AreBelow (2 ^ 63 + 2 ^ 62) (map told next_row.old.items) }
    requires low { len < 2 ^ 62 }
    ensures { map told next_row.new.items ≡ map (over len) (map told next_row.old.items) }
{
    add_each(next_row, len);
}

/// Replaces the prices of a layer by those of the omitted layer before it. Over most steps no state changes its place.
fn follow(next_row: &mut Vec<u64>, spare: &mut Vec<u64>, step: &Step) -> Result<(), OutOfMemory>
    requires below { AreBelow (2 ^ 63 + 2 ^ 62) (map told next_row.old.items) }
    requires low { IsLowStep step.now }
    ensures { OnOk result (map told next_row.new.items ≡ row_over (map told next_row.old.items) step.now) }
{
    if let Some(len) = step.still() {
        if next_row.len() == step.width() {
            add_to(next_row, len);
            return Ok(());
        }
    }
    find_followed(next_row, spare, step)?;
    mem::swap(next_row, spare);
    Ok(())
}

impl<'a> Sweep<'a> {
    /// What is known at the last layer.
    pub(crate) fn at_end(
        alloc: Global,
        graph: &Graph,
        prices: &WrittenRows<'a>,
    ) -> Result<Sweep<'a>, OutOfMemory>
        requires { AreInPlace graph.now prices.now }
        ensures { IfOk result (IsSwept graph.now prices.now (length graph.now.steps)) }
    {
        let mut next_row = Vec::new(alloc);
        let mut at = prices.end();
        prices.row_before(&mut at, &mut next_row)?;
        let found = judge_at_end(graph.len() as u64, next_row.as_slice(), graph.last());
        Ok(Sweep {
            at,
            next_row,
            found,
            spare: Vec::new(alloc),
        })
    }

    /// Goes back to layer `k`, which is omitted.
    fn pass_over(
        &mut self,
        graph: &Graph,
        prices: &WrittenRows<'a>,
        k: usize,
        step: &Step,
    ) -> Result<(), OutOfMemory>
        requires layer { k < length graph.now.steps }
        requires step { step.now ≡ slice_index_or graph.now.steps k [] }
        requires out { steps.is_left_out graph.now.source.format k step.now ≡ true }
        requires swept { IsSwept graph.now prices.now (k + 1) self.old }
        ensures { OnOk result (IsSwept graph.now prices.now k self.new) }
    {
        every_graph(graph);
        if !self.found.right {
            return Ok(());
        }
        follow(&mut self.next_row, &mut self.spare, step)
    }

    /// Goes back to layer `k`, which is written. If `len` is given, no state changes its place over the step, and each
    /// hop writes that many bytes.
    fn read_layer(
        &mut self,
        graph: &Graph,
        prices: &WrittenRows<'a>,
        k: usize,
        step: &Step,
        still: Option<u64>,
    ) -> Result<(), OutOfMemory>
        requires place { AreInPlace graph.now prices.now }
        requires layer { k < length graph.now.steps }
        requires step { step.now ≡ slice_index_or graph.now.steps k [] }
        requires kept { steps.is_left_out graph.now.source.format k step.now ≡ false }
        requires still { IfSome still (IsStillOver step.now) }
        requires swept { IsSwept graph.now prices.now (k + 1) self.old }
        ensures { OnOk result (IsSwept graph.now prices.now k self.new) }
    {
        every_graph(graph);
        prices.row_before(&mut self.at, &mut self.spare)?;
        judge_over(
            &mut self.found,
            k as u64,
            self.spare.as_slice(),
            self.next_row.as_slice(),
            step,
            still,
        );
        mem::swap(&mut self.next_row, &mut self.spare);
        Ok(())
    }

    /// Goes back to layer `k`, the one before the step.
    pub(crate) fn take_layer(
        &mut self,
        graph: &Graph,
        prices: &WrittenRows<'a>,
        k: usize,
        step: &Step,
    ) -> Result<(), OutOfMemory>
        requires place { AreInPlace graph.now prices.now }
        requires layer { k < length graph.now.steps }
        requires step { step.now ≡ slice_index_or graph.now.steps k [] }
        requires swept { IsSwept graph.now prices.now (k + 1) self.old }
        ensures { OnOk result (IsSwept graph.now prices.now k self.new) }
    {
        if is_left_out(graph.format(), k, step) {
            self.pass_over(graph, prices, k, step)
        } else {
            self.read_layer(graph, prices, k, step, None)
        }
    }

    /// Adds `len` to each price of the layer.
    fn add(&mut self, len: u64)
        requires below { AreBelow (2 ^ 63 + 2 ^ 62) (map told self.old.next_row.items) }
        requires low { len < 2 ^ 62 }
        ensures at { self.new.at ≡ self.old.at }
        ensures found { self.new.found ≡ self.old.found }
        ensures next_row { map told self.new.next_row.items ≡ map (over len) (map told self.old.next_row.items) }
    {
        add_to(&mut self.next_row, len);
    }

    /// Goes back over written layers, from the one before layer `from` down to layer `front`, which isn't the first.
    /// They have the same step, over which no state changes its place and each hop writes `len` bytes.
    fn read_on(
        &mut self,
        graph: &Graph,
        prices: &WrittenRows<'a>,
        from: usize,
        front: usize,
        step: &Step,
        len: u64,
    ) -> Result<(), OutOfMemory>
        requires place { AreInPlace graph.now prices.now }
        requires inside { from < length graph.now.steps }
        requires order { front ≤ from }
        requires some { 0 < front }
        requires alike { (k : ℕ) → front ≤ k → k < from → slice_index_or graph.now.steps k [] ≡ step.now }
        requires kept { leaves_out graph.now.source.format step.now ≡ false }
        requires still { IsStillOver step.now len }
        requires swept { IsSwept graph.now prices.now from self.old }
        ensures { OnOk result (IsSwept graph.now prices.now front self.new) }
    {
        let mut layer = from;
        while layer > front {
            layer -= 1;
            self.read_layer(graph, prices, layer, step, Some(len))?;
        }
        Ok(())
    }

    /// Goes back over the omitted layers before a layer, as long as no state changes its place, but not to the first
    /// layer.
    pub(crate) fn pass_still(
        &mut self,
        graph: &Graph,
        prices: &WrittenRows<'a>,
        at: Cursor,
    ) -> Cursor
        requires place { IsPlace graph.now at }
        requires within { at.layer ≤ length graph.now.steps }
        requires swept { IsSwept graph.now prices.now at.layer self.old }
        ensures place { IsPlace graph.now result }
        ensures layer { result.layer ≤ at.layer }
        ensures first { 0 < at.layer → 0 < result.layer }
        ensures swept { IsSwept graph.now prices.now result.layer self.new }
    {
        let _rows = prices.len();
        every_graph(graph);
        if at.layer == 0 || !self.found.right {
            return at;
        }
        let passed = graph.back_still(at, self.next_row.len());
        if passed.front.layer < at.layer {
            self.add(passed.len);
        }
        passed.front
    }

    /// Goes back over layers before one that have the same step, if they are written and no state changes its place
    /// over it, but not to the first layer.
    pub(crate) fn go_on(
        &mut self,
        graph: &Graph,
        prices: &WrittenRows<'a>,
        at: Cursor,
    ) -> Result<Cursor, OutOfMemory>
        requires rows { AreInPlace graph.now prices.now }
        requires place { IsPlace graph.now at }
        requires inside { at.layer < length graph.now.steps }
        requires swept { IsSwept graph.now prices.now at.layer self.old }
        ensures place { IfOk result (λ front. IsPlace graph.now front) }
        ensures layer { IfOk result (λ front. front.layer ≤ at.layer) }
        ensures swept { IfOk result (λ front. IsSwept graph.now prices.now front.layer self.new) }
    {
        if at.layer == 0 || !self.found.right {
            return Ok(at);
        }
        let front = graph.back_alike(at, at.layer - 1);
        if front.layer == at.layer {
            return Ok(at);
        }
        every_graph(graph);
        let step = graph.step(at);
        if self.next_row.len() != step.width() || step.is_left_out(graph.format()) {
            return Ok(at);
        }
        let len = match step.still() {
            Some(len) => len,
            None => return Ok(at),
        };
        self.read_on(graph, prices, at.layer, front.layer, step, len)?;
        Ok(front)
    }
}
