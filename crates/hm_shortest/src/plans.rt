//! Least prices (potentials: the cost to go), from the last layer on: the certificate that lists them, and what the
//! first way (path through the layered graph) chooses.
ghost use Rattle.std.specs.Prelude.{◌≡◌, true, ◌++◌, ◌∷◌, [], ◌+◌, ◌*◌, ◌<◌, ◌≤◌, ◌^◌, length, map, reverse, if◌then◌else◌, Some, None, IfOk, IsTrue, OnOk, slice_index_or};
ghost use Rattle.hm_cert.specs.Certificate.{head_lines, row_line};
ghost use Rattle.hm_cert.specs.Layout.{told};
ghost use Rattle.hm_graph_laws.specs.Ways.{over};
ghost use Rattle.hm_graph.specs.FewHops.{IsFewStep};
ghost use Rattle.hm_graph.specs.Graphs.{AreLowHops, IsLowStep, IsPlace};
ghost use Rattle.hm_graph.specs.Prices.{best_price, row_over, zeros};
ghost use Rattle.hm_graph.specs.Prices as prices;
ghost use Rattle.hm_graph.specs.Steps as steps;
ghost use Rattle.hm_graph.specs.Ways.{choice, step_choices};
ghost use Rattle.hm_cert.specs.Rows.{AreBelow};
ghost use Rattle.hm_shortest.specs.Plans.{IsFound, IsPlan, raised_lines};

use crate::turned::turn;
use hm_base::{Format, OutOfMemory, SpellRules};
use hm_cert::{INFINITE, ReversedText, add_each, more};
use hm_graph::laws::every_graph;
use hm_graph::{Cursor, Graph, Hop, Step};
use hm_refs::laws::every_table;
use std::alloc::Global;
use std::mem;

/// What is known once the prices of all layers are found: the text of the certificate, the choices of the first way,
/// those of the last layer first, and the first price, in bytes.
#[derive(Drop)]
pub struct Plan {
    pub certificate: Vec<u8>,
    pub choices: Vec<u8>,
    /// `hm_cert::INFINITE` if there is no way.
    pub first: u64,
}

/// The least price over some hops, and the index of the first hop that has it.
#[derive(Clone, Copy)]
pub(crate) struct Best {
    pub(crate) price: u64,
    pub(crate) place: usize,
}

/// The price over a hop, by the prices of the next layer.
fn price_over(hop: Hop, next_row: &[u64]) -> u64
    requires below { AreBelow (2 ^ 63 + 2 ^ 62) (map told next_row.now) }
    requires low { hop.len < 2 ^ 62 }
    ensures { told result ≡ prices.price_over (map told next_row.now) hop }
{
    match next_row.get(hop.to) {
        Some(price) => more(*price, hop.len),
        None => INFINITE,
    }
}

/// The least price over these hops, by the prices of the next layer.
pub(crate) fn find_best(hops: &[Hop], next_row: &[u64]) -> Best
    requires below { AreBelow (2 ^ 63 + 2 ^ 62) (map told next_row.now) }
    requires low { AreLowHops hops.now }
    ensures price { told result.price ≡ best_price (map told next_row.now) hops.now }
    ensures place { result.place ≡ choice (map told next_row.now) hops.now }
{
    if let [hop] = hops {
        return Best {
            price: price_over(*hop, next_row),
            place: 0,
        };
    }
    let mut best = Best {
        price: INFINITE,
        place: hops.len(),
    };
    for place in (0..hops.len()).rev() {
        let price = price_over(hops[place], next_row);
        if price <= best.price {
            best = Best { price, place };
        }
    }
    best
}

/// Appends a choice, if there is something to choose.
fn put_choice(choices: &mut Vec<u8>, forced: bool, place: usize) -> Result<(), OutOfMemory>
    requires { place < 256 }
    ensures { OnOk result (choices.new.items ≡ choices.old.items ++ (if forced then [] else place ∷ [])) }
{
    if !forced {
        choices.push(place as u8)?;
    }
    Ok(())
}

/// Finds the prices before a step with one hop for each state, from those after it. They replace what the row held.
fn follow_each(step: &Step, next_row: &[u64], row: &mut Vec<u64>) -> Result<(), OutOfMemory>
    requires forced { steps.is_forced step.now ≡ true }
    requires below { AreBelow (2 ^ 63 + 2 ^ 62) (map told next_row.now) }
    requires low { IsLowStep step.now }
    ensures { OnOk result (map told row.new.items ≡ row_over (map told next_row.now) step.now) }
{
    row.clear();
    for place in 0..step.width() {
        row.push(price_over(step.hops(place)[0], next_row))?;
    }
    Ok(())
}

/// Finds the prices before a step from those after it, and appends the choices. The prices replace what the row held.
fn find_row(
    step: &Step,
    next_row: &[u64],
    row: &mut Vec<u64>,
    choices: &mut Vec<u8>,
) -> Result<(), OutOfMemory>
    requires below { AreBelow (2 ^ 63 + 2 ^ 62) (map told next_row.now) }
    requires low { IsLowStep step.now }
    requires few { IsFewStep step.now }
    ensures row { OnOk result (map told row.new.items ≡ row_over (map told next_row.now) step.now) }
    ensures choices { OnOk result (choices.new.items ≡ choices.old.items ++ step_choices (map told next_row.now) step.now) }
{
    row.clear();
    let forced = step.is_forced();
    for place in 0..step.width() {
        let best = find_best(step.hops(place), next_row);
        row.push(best.price)?;
        put_choice(choices, forced, best.place)?;
    }
    Ok(())
}

/// The prices of the last layer.
fn zero_row(alloc: Global, last: usize) -> Result<Vec<u64>, OutOfMemory>
    ensures { IfOk result (λ row. map told row.items ≡ zeros last) }
{
    let mut row = Vec::new(alloc);
    for _place in 0..last {
        row.push(0)?;
    }
    Ok(row)
}

/// Whether a certificate of this format omits layer `k`.
fn is_left_out(format: Format, k: usize, step: &Step) -> bool
    ensures { result ≡ prices.is_left_out format k step.now }
{
    k != 0 && step.is_left_out(format)
}

/// Adds the line of a row, unless it is omitted.
#[inline(always)]
fn put_line(text: &mut ReversedText, left_out: bool, row: &[u64]) -> Result<(), OutOfMemory>
    ensures { OnOk result (text.new ≡ text.old ++ (if left_out then [] else reverse (row_line (map told row.now)))) }
{
    if left_out { Ok(()) } else { text.put_line(row) }
}

/// The first price of a row, or `INFINITE` if the row is empty.
fn first_of(row: &[u64]) -> u64
    ensures { told result ≡ slice_index_or (map told row.now) 0 None }
{
    match row {
        [first, ..] => *first,
        [] => INFINITE,
    }
}

/// What is found from a layer on: the lines of the certificate, from their end, the choices and the prices of the
/// layer.
#[derive(Drop)]
struct Back {
    text: ReversedText,
    choices: Vec<u8>,
    row: Vec<u64>,
    spare: Vec<u64>,
}

impl Back {
    /// What is found at the last layer, which has `last` states.
    fn new(alloc: Global, last: usize) -> Result<Back, OutOfMemory>
        ensures text { IfOk result (λ back. back.text ≡ reverse (row_line (zeros last))) }
        ensures choices { IfOk result (λ back. back.choices.items ≡ []) }
        ensures row { IfOk result (λ back. map told back.row.items ≡ zeros last) }
    {
        let mut text = ReversedText::new(alloc);
        let row = zero_row(alloc, last)?;
        text.put_line(&row)?;
        Ok(Back {
            text,
            choices: Vec::new(alloc),
            row,
            spare: Vec::new(alloc),
        })
    }

    /// Goes back over the only hop of a step of one state.
    fn follow(&mut self, hop: Hop) -> Result<(), OutOfMemory>
        requires below { AreBelow (2 ^ 63 + 2 ^ 62) (map told self.old.row.items) }
        requires low { hop.len < 2 ^ 62 }
        ensures text { self.new.text ≡ self.old.text }
        ensures choices { self.new.choices ≡ self.old.choices }
        ensures row { OnOk result (map told self.new.row.items ≡ prices.price_over (map told self.old.row.items) hop ∷ []) }
    {
        let price = price_over(hop, &self.row);
        self.row.clear();
        self.row.push(price)?;
        Ok(())
    }

    /// Replaces the prices after a step by those before it, and adds the choices.
    fn find(&mut self, step: &Step) -> Result<(), OutOfMemory>
        requires below { AreBelow (2 ^ 63 + 2 ^ 62) (map told self.old.row.items) }
        requires low { IsLowStep step.now }
        requires few { IsFewStep step.now }
        ensures text { self.new.text ≡ self.old.text }
        ensures choices { OnOk result (self.new.choices.items ≡ self.old.choices.items ++ step_choices (map told self.old.row.items) step.now) }
        ensures row { OnOk result (map told self.new.row.items ≡ row_over (map told self.old.row.items) step.now) }
    {
        if step.is_forced() {
            follow_each(step, &self.row, &mut self.spare)?;
        } else {
            find_row(step, &self.row, &mut self.spare, &mut self.choices)?;
        }
        mem::swap(&mut self.row, &mut self.spare);
        Ok(())
    }

    /// Goes back over the best hop of a step of one state.
    fn choose(&mut self, step: &Step) -> Result<(), OutOfMemory>
        requires one { length step.now ≡ 1 }
        requires below { AreBelow (2 ^ 63 + 2 ^ 62) (map told self.old.row.items) }
        requires low { IsLowStep step.now }
        requires few { IsFewStep step.now }
        ensures text { self.new.text ≡ self.old.text }
        ensures choices { OnOk result (self.new.choices.items ≡ self.old.choices.items ++ step_choices (map told self.old.row.items) step.now) }
        ensures row { OnOk result (map told self.new.row.items ≡ row_over (map told self.old.row.items) step.now) }
    {
        let best = find_best(step.hops(0), &self.row);
        self.row.clear();
        self.row.push(best.price)?;
        put_choice(&mut self.choices, step.is_forced(), best.place)
    }

    /// Goes back to the layer before this step, without writing its line.
    fn pass(&mut self, step: &Step) -> Result<(), OutOfMemory>
        requires below { AreBelow (2 ^ 63 + 2 ^ 62) (map told self.old.row.items) }
        requires low { IsLowStep step.now }
        requires few { IsFewStep step.now }
        ensures text { self.new.text ≡ self.old.text }
        ensures choices { OnOk result (self.new.choices.items ≡ self.old.choices.items ++ step_choices (map told self.old.row.items) step.now) }
        ensures row { OnOk result (map told self.new.row.items ≡ row_over (map told self.old.row.items) step.now) }
    {
        if let Some(hop) = step.only() {
            return self.follow(hop);
        }
        if step.width() == 1 {
            return self.choose(step);
        }
        self.find(step)
    }

    /// Goes back to layer `k`, the one before this step.
    fn go_over(&mut self, format: Format, k: usize, step: &Step) -> Result<(), OutOfMemory>
        requires below { AreBelow (2 ^ 63 + 2 ^ 62) (map told self.old.row.items) }
        requires low { IsLowStep step.now }
        requires few { IsFewStep step.now }
        ensures text { OnOk result (self.new.text ≡ self.old.text
            ++ (if prices.is_left_out format k step.now then [] else reverse (row_line (row_over (map told self.old.row.items) step.now)))) }
        ensures choices { OnOk result (self.new.choices.items ≡ self.old.choices.items ++ step_choices (map told self.old.row.items) step.now) }
        ensures row { OnOk result (map told self.new.row.items ≡ row_over (map told self.old.row.items) step.now) }
    {
        self.pass(step)?;
        let left_out = is_left_out(format, k, step);
        put_line(&mut self.text, left_out, &self.row)
    }

    /// Goes back over `count` layers and writes their lines. Each layer's prices are `len` more than those of the layer
    /// after it.
    fn write_alike(&mut self, count: u64, len: u64) -> Result<(), OutOfMemory>
        requires below { AreBelow (2 ^ 62) (map told self.old.row.items) }
        requires low { count * len < 2 ^ 62 }
        ensures text { OnOk result (self.new.text ≡ self.old.text ++ raised_lines count len (map told self.old.row.items)) }
        ensures choices { self.new.choices ≡ self.old.choices }
        ensures row { OnOk result (map told self.new.row.items ≡ map (over (count * len)) (map told self.old.row.items)) }
    {
        for _layer in 0..count {
            add_each(&mut self.row, len);
            self.text.put_line(&self.row)?;
        }
        Ok(())
    }

    /// Goes back over `count` layers and writes their lines unless `left_out`. Each layer's prices are `len` more than
    /// those of the layer after it.
    fn pass_alike(&mut self, left_out: bool, count: u64, len: u64) -> Result<(), OutOfMemory>
        requires below { AreBelow (2 ^ 62) (map told self.old.row.items) }
        requires low { count * len < 2 ^ 62 }
        ensures text { OnOk result (self.new.text ≡ self.old.text ++ (if left_out then [] else raised_lines count len (map told self.old.row.items))) }
        ensures choices { self.new.choices ≡ self.old.choices }
        ensures row { OnOk result (map told self.new.row.items ≡ map (over (count * len)) (map told self.old.row.items)) }
    {
        if left_out {
            add_each(&mut self.row, count * len);
            return Ok(());
        }
        self.write_alike(count, len)
    }

    /// The plan, once the first layer is reached.
    fn finish(self, format: Format, rules: SpellRules) -> Result<Plan, OutOfMemory>
        ensures certificate { IfOk result (λ plan. plan.certificate.items ≡ reverse (self.text ++ reverse (head_lines format rules))) }
        ensures choices { IfOk result (λ plan. plan.choices ≡ self.choices) }
        ensures first { IfOk result (λ plan. told plan.first ≡ slice_index_or (map told self.row.items) 0 None) }
    {
        let first = first_of(&self.row);
        let mut text = self.text;
        text.put_head(format, rules)?;
        let mut certificate = text.into_bytes();
        turn(&mut certificate);
        Ok(Plan {
            certificate,
            choices: self.choices,
            first,
        })
    }
}

/// Goes back over the step after a layer. If no state changes its place, it also goes back over the equal steps before
/// that one, but not to the first layer.
fn go_back(back: &mut Back, graph: &Graph, at: Cursor) -> Result<Cursor, OutOfMemory>
    requires place { IsPlace graph.now at }
    requires inside { at.layer < length graph.now.steps }
    requires found { IsFound graph.now (at.layer + 1) back.old }
    ensures place { IfOk result (λ front. IsPlace graph.now front) }
    ensures layer { IfOk result (λ front. front.layer ≤ at.layer) }
    ensures found { IfOk result (λ front. IsFound graph.now front.layer back.new) }
{
    every_graph(graph);
    every_table(graph.table());
    let format = graph.format();
    let step = graph.step(at);
    if let Some(len) = step.still() {
        if at.layer > 0 && back.row.len() == step.width() {
            let front = graph.back_alike(at, at.layer - 1);
            let count = (at.layer - front.layer + 1) as u64;
            back.pass_alike(step.is_left_out(format), count, len)?;
            return Ok(front);
        }
    }
    back.go_over(format, at.layer, step)?;
    Ok(at)
}

/// Finds the least prices of a graph, and writes them as a certificate. Also gives the choices of the first way.
pub fn backward(alloc: Global, graph: &Graph) -> Result<Plan, OutOfMemory>
    ensures { IfOk result (IsPlan graph.now) }
{
    let mut back = Back::new(alloc, graph.last())?;
    let mut layer = graph.last_layer();
    while layer.layer > 0 {
        layer = go_back(&mut back, graph, graph.back(layer))?;
    }
    back.finish(graph.format(), graph.rules())
}
