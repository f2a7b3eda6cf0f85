//! The shortest text of a tree, written while the steps are found, for a certificate that omits layers with nothing to
//! choose. Steps are kept only from one layer of one state to the next.
ghost use Rattle.std.specs.Prelude.{◌≡◌, ◌<◌, ◌+◌, ◌-◌, ◌^◌, ◌++◌, ◌∷◌, [], Bool, List, None, Option, length, map, IfOk, IsSome, IsTrue, OnOk};
ghost use Rattle.std.specs.Str.{IsAscii};
ghost use Rattle.hm_base.specs.declared.plain.Format.TheVariants.{Sparse};
ghost use Rattle.hm_cert.specs.Certificate.{AreRows, certificate_text, row_lines};
ghost use Rattle.hm_elements.specs.Settled.{Settled};
ghost use Rattle.hm_edges.specs.Pieces.{HasName, piece_text};
ghost use Rattle.hm_graph.specs.Graphs.{IsLowStep, IsNamedStep};
ghost use Rattle.hm_event_parts.specs.UnitText.{own_text};
ghost use Rattle.hm_shortest.specs.Direct.{CopiesOne, FirstIs, first_line, GoesDirectly, GoesHere, GoesOverAlike, GoesOverOne, IsOver, IsSettled, place_of, rows_in};
ghost use Rattle.hm_shortest.specs.Minified.{IsMinifiedBy};
ghost use Rattle.hm_shortest.specs.Shortest.{certified_rows};
ghost use Rattle.hm_graph.specs.Steps.{Step as Hops};
ghost use Rattle.hm_refs.specs.Names.{Entry};
ghost use Rattle.hm_shortest.specs.Stretches.{placed};

use crate::Minified;
use crate::kept::Kept;
use crate::owned::UnitTextBuf;
use crate::stretches::{find_rows, keep_rows, one_price, place_row, write_way, zero_each};
use hm_base::{Format, OutOfMemory, SpellRules};
use hm_cert::{Prices, put_head, put_line};
use hm_edges::Piece;
use hm_event_parts::{UnitText, put_piece};
use hm_graph::{Hop, Step, Visitor, walk};
use hm_refs::Table;
use hm_refs::laws::every_table;
use hm_tree::Tree;
use std::alloc::Global;

/// Fewer steps than this are kept. A graph takes less memory for each, so a tree with more of them in a row is written
/// from its graph.
const FEW: usize = 1 << 13;

/// At this total, in bytes, the direct writer gives up.
const MOST: u64 = 1 << 62;

/// Added to the bytes so far before a price is subtracted from them.
const BASE: u64 = 1 << 62;

/// Why the direct writer gave up.
#[derive(Drop)]
pub(crate) enum Stop {
    /// There is no way over some steps, there are too many to keep, or they write too many bytes.
    Closed,
    /// No memory could be allocated.
    OutOfMemory,
}

impl From<OutOfMemory> for Stop {
    fn from(_error: OutOfMemory) -> Self
        ensures { result ≡ Stop.OutOfMemory }
    {
        Stop::OutOfMemory
    }
}

/// The part of the shortest text that is written.
#[derive(Drop)]
pub(crate) struct DirectWay {
    alloc: Global,
    out: Vec<u8>,
    /// The length of the text in bytes, by its steps.
    total: u64,
    /// The rows of the certificate. Each price is stored as its difference from `BASE` and all bytes up to the next
    /// layer of one state.
    rows: Prices,
    /// Whether a certificate omits the first layer, as its step says; None before the first step.
    first: Option<bool>,
    /// The steps since the last layer of one state.
    stretch: Vec<Kept>,
    /// The prices of their layers, those of the last one first.
    found: Prices,
    spare: Vec<u64>,
    /// The number of states of the last layer that was reached.
    last: usize,
}

/// Whether there is exactly one hop, and it copies one byte and leads to the only state.
#[inline(always)]
fn copies_one(step: &Step) -> bool
    ensures { IsTrue result → CopiesOne step.now }
{
    match step.only() {
        Some(hop) => hop.len == 1 && hop.to == 0 && matches!(hop.piece, Piece::Itself),
        None => false,
    }
}

/// Appends a step and its unit's own text.
fn push_kept(
    alloc: Global,
    stretch: &mut Vec<Kept>,
    step: &Step,
    own: UnitText,
) -> Result<(), OutOfMemory>
    requires { IsLowStep step.now }
    ensures { OnOk result (stretch.new.items ≡ stretch.old.items ++ record { step = step.now; own = own_text own.entry } ∷ []) }
{
    let step = step.copied()?;
    let own = UnitTextBuf::new(alloc, own)?;
    stretch.push(Kept { step, own })?;
    Ok(())
}

/// Appends these bytes.
#[inline(always)]
fn append(out: &mut Vec<u8>, bytes: &[u8]) -> Result<(), OutOfMemory>
    ensures { OnOk result (out.new.items ≡ out.old.items ++ bytes.now) }
{
    out.extend_from_slice(bytes)?;
    Ok(())
}

impl DirectWay {
    /// Nothing is written yet.
    fn new(alloc: Global) -> DirectWay
        ensures stretch { result.stretch.items ≡ [] }
        ensures first { result.first ≡ None }
        ensures place { place_of result ≡ record { total = 0; out = []; rows = [] } }
    {
        DirectWay {
            alloc,
            out: Vec::new(alloc),
            total: 0,
            rows: Prices::new(alloc),
            first: None,
            stretch: Vec::new(alloc),
            found: Prices::new(alloc),
            spare: Vec::new(alloc),
            last: 1,
        }
    }

    /// Notes whether the first layer is omitted, if this is its step.
    #[inline(always)]
    fn begin(&mut self, step: &Step)
        ensures place { place_of self.new ≡ place_of self.old }
        ensures stretch { self.new.stretch ≡ self.old.stretch }
        ensures known { IsSome self.new.first }
        ensures first { (steps : List Hops) (first : Option Bool) → FirstIs self.new.first steps first → FirstIs self.old.first (step.now ∷ steps) first }
    {
        if self.first.is_none() {
            self.first = Some(step.is_forced());
        }
    }

    /// Writes the steps that are kept, up to a layer of `last` states.
    #[inline(never)]
    fn settle(&mut self, table: &Table, last: usize) -> Result<(), Stop>
        ensures settled { OnOk result (IsSettled table.now.entries last self.old self.new) }
        ensures total { OnOk result (self.new.total < 2 ^ 63) }
    {
        if self.stretch.len() >= FEW || self.total >= MOST {
            return Err(Stop::Closed);
        }
        find_rows(&self.stretch, last, &mut self.found, &mut self.spare)?;
        let Some(price) = one_price(self.found.row(self.stretch.len())) else {
            return Err(Stop::Closed);
        };
        self.total += price;
        if !write_way(&mut self.out, table, &self.stretch, &self.found)? {
            return Err(Stop::Closed);
        }
        keep_rows(
            &mut self.rows,
            &self.stretch,
            &self.found,
            BASE + self.total,
            &mut self.spare,
        )?;
        self.stretch.clear();
        self.last = last;
        Ok(())
    }

    /// Writes the steps that are kept, if the next step has one state.
    #[inline(always)]
    fn settle_before(&mut self, table: &Table, step: &Step) -> Result<(), Stop>
        ensures first { OnOk result (self.new.first ≡ self.old.first) }
        ensures goes { OnOk result (GoesHere table.now.entries self.old self.new) }
    {
        if !self.stretch.is_empty() && step.width() == 1 {
            self.settle(table, 1)?;
        }
        Ok(())
    }

    /// Writes what the only hop of a step writes of its unit.
    #[inline(always)]
    fn put(&mut self, table: &Table, hop: Hop, own: UnitText) -> Result<(), Stop>
        requires named { HasName table.now.entries hop.piece }
        requires low { hop.len < 2 ^ 33 }
        ensures first { OnOk result (self.new.first ≡ self.old.first) }
        ensures stretch { OnOk result (self.new.stretch ≡ self.old.stretch) }
        ensures place { OnOk result (place_of self.new ≡ record { total = self.old.total + hop.len; out = self.old.out.items ++ piece_text table.now.entries (own_text own.entry) hop.piece; rows = self.old.rows }) }
    {
        if self.total >= MOST {
            return Err(Stop::OutOfMemory);
        }
        put_piece(&mut self.out, table, hop.piece, own)?;
        self.total += hop.len;
        Ok(())
    }

    /// Keeps a step.
    #[inline(never)]
    fn keep(&mut self, step: &Step, own: UnitText) -> Result<(), Stop>
        requires low { IsLowStep step.now }
        ensures first { OnOk result (self.new.first ≡ self.old.first) }
        ensures goes { OnOk result ((t : List Entry) → IsOver t step.now (own_text own.entry) self.old self.new) }
    {
        if self.stretch.len() >= FEW - 1 {
            return Err(Stop::Closed);
        }
        push_kept(self.alloc, &mut self.stretch, step, own)?;
        Ok(())
    }

    /// Takes the next step.
    #[inline(always)]
    fn go_over(&mut self, table: &Table, step: &Step, own: UnitText) -> Result<(), Stop>
        requires named { IsNamedStep table.now.entries step.now }
        requires low { IsLowStep step.now }
        ensures { OnOk result (GoesOverOne table.now.entries step.now (own_text own.entry) self.old self.new) }
    {
        self.begin(step);
        self.settle_before(table, step)?;
        self.put_or_keep(table, step, own)?;
        Ok(())
    }

    /// Writes a step that has one hop to one state, if no step is kept. Keeps it otherwise.
    #[inline(always)]
    fn put_or_keep(&mut self, table: &Table, step: &Step, own: UnitText) -> Result<(), Stop>
        requires named { IsNamedStep table.now.entries step.now }
        requires low { IsLowStep step.now }
        ensures first { OnOk result (self.new.first ≡ self.old.first) }
        ensures goes { OnOk result (IsOver table.now.entries step.now (own_text own.entry) self.old self.new) }
    {
        if self.stretch.is_empty() {
            if let Some(hop) = step.only() {
                if hop.to == 0 {
                    self.put(table, hop, own)?;
                    return Ok(());
                }
            }
        }
        self.keep(step, own)?;
        Ok(())
    }

    /// Copies these bytes to the text.
    #[inline(always)]
    fn copy(&mut self, bytes: &[u8]) -> Result<(), Stop>
        ensures first { OnOk result (self.new.first ≡ self.old.first) }
        ensures stretch { OnOk result (self.new.stretch ≡ self.old.stretch) }
        ensures place { OnOk result (place_of self.new ≡ record { total = self.old.total + length bytes.now; out = self.old.out.items ++ bytes.now; rows = self.old.rows }) }
    {
        if self.total >= MOST {
            return Err(Stop::OutOfMemory);
        }
        append(&mut self.out, bytes)?;
        self.total += bytes.len() as u64;
        Ok(())
    }

    /// Takes the steps of characters with these bytes. The steps copy the bytes.
    #[inline(always)]
    fn go_over_copied(&mut self, step: &Step, bytes: &[u8]) -> Result<(), Stop>
        requires stretch { self.old.stretch.items ≡ [] }
        requires copies { CopiesOne step.now }
        requires some { 0 < length bytes.now }
        requires ascii { IsAscii bytes.now }
        ensures { OnOk result ((t : List Entry) → GoesOverAlike t step.now bytes.now self.old self.new) }
    {
        self.begin(step);
        self.copy(bytes)?;
        Ok(())
    }

    /// Takes the steps of characters with these bytes, one by one.
    #[inline(never)]
    fn go_over_each(&mut self, table: &Table, step: &Step, bytes: &[u8]) -> Result<(), Stop>
        requires named { IsNamedStep table.now.entries step.now }
        requires low { IsLowStep step.now }
        requires ascii { IsAscii bytes.now }
        ensures { OnOk result (GoesOverAlike table.now.entries step.now bytes.now self.old self.new) }
    {
        for byte in bytes {
            self.go_over(table, step, UnitText::Character { c: *byte as char })?;
        }
        Ok(())
    }
}

impl Visitor for DirectWay {
    type Stop = Stop;

    ghost goes_on = { λ end t units steps way. GoesDirectly end t units steps way };

    #[inline(always)]
    fn take(&mut self, table: &Table, step: &Step, own: UnitText) -> Result<(), Stop> {
        self.go_over(table, step, own)
    }

    #[inline(always)]
    fn take_alike(&mut self, table: &Table, step: &Step, bytes: &[u8]) -> Result<(), Stop> {
        if bytes.is_empty() {
            return Ok(());
        }
        if self.stretch.is_empty() && copies_one(step) {
            self.go_over_copied(step, bytes)
        } else {
            self.go_over_each(table, step, bytes)
        }
    }
}

/// Appends the lines of the rows that are kept, whose prices are stored as differences from `top`.
fn put_rows(
    text: &mut Vec<u8>,
    rows: &Prices,
    top: u64,
    spare: &mut Vec<u64>,
) -> Result<(), OutOfMemory>
    requires { top < 2 ^ 64 - 1 }
    ensures { OnOk result (text.new.items ≡ text.old.items ++ row_lines (map (placed top) rows.now)) }
{
    for k in 0..rows.rows() {
        place_row(rows.row(k), top, spare)?;
        put_line(text, spare)?;
    }
    Ok(())
}

/// Appends the line of the first row, if the certificate omits the first layer by its step.
fn put_first(text: &mut Vec<u8>, first: Option<bool>, total: u64) -> Result<(), OutOfMemory>
    requires { total < 2 ^ 63 }
    ensures { OnOk result (text.new.items ≡ text.old.items ++ row_lines (first_line first total)) }
{
    match first {
        Some(true) => put_line(text, &[total]),
        _ => Ok(()),
    }
}

/// The text of the certificate, once the whole text is written.
fn write_lines(alloc: Global, way: &DirectWay, rules: SpellRules) -> Result<Vec<u8>, OutOfMemory>
    requires { way.now.total < 2 ^ 63 }
    ensures { IfOk result (λ text. text.items ≡ certificate_text Sparse rules (rows_in way.now)) }
{
    let mut text = Vec::new(alloc);
    let mut spare = Vec::new(alloc);
    put_head(&mut text, Format::Sparse, rules)?;
    put_first(&mut text, way.first, way.total)?;
    put_rows(&mut text, &way.rows, BASE + way.total, &mut spare)?;
    zero_each(way.last, &mut spare)?;
    put_line(&mut text, &spare)?;
    Ok(text)
}

/// Writes the shortest text of a tree and its sparse certificate.
pub(crate) fn write_directly(
    alloc: Global,
    tree: &Tree,
    table: &Table,
    rules: SpellRules,
) -> Result<Minified, Stop>
    ensures made { IfOk result (IsMinifiedBy table.now.entries rules Sparse tree.now) }
    ensures readable { IfOk result (λ made. Settled tree.now → AreRows (certified_rows table.now.entries rules Sparse tree.now)) }
{
    every_table(table);
    let start = DirectWay::new(alloc);
    let (walked, way) = walk(alloc, tree, table, rules, Format::Sparse, start)?;
    let mut way = way;
    way.settle(table, walked.last)?;
    let certificate = write_lines(alloc, &way, rules)?;
    Ok(Minified {
        out: way.out,
        certificate,
        layers: walked.len + 1,
    })
}
