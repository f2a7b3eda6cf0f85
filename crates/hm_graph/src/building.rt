//! A graph that is being built.
ghost use Rattle.std.specs.Prelude.{◌≡◌, ◌<◌, ◌≤◌, ◌^◌, ◌∷◌, [], None, Some, drop, length, take, IfOk, IsSome, OnErr, OnOk, if◌then◌else◌};
ghost use Rattle.std.specs.Str.{IsAscii, chars};
ghost use Rattle.std.proofs.Math.ListN.{replicate};
ghost use Rattle.hm_graph_laws.specs.Units as units;
ghost use Rattle.hm_edges.specs.Units.{StandsFor, kind_of, needs_of};
ghost use Rattle.hm_graph_laws.specs.Units.{units_of};
ghost use Rattle.hm_graph.specs.Runs.{AreRuns, unroll};
ghost use Rattle.hm_graph.specs.Building.{AddsSteps, AddsFront, IsBegun, IsBuilt, IsFew, IsMade, more_numbers, numbered_step};

use crate::graph::Graph;
use crate::interned::{Interned, LIMIT};
use crate::numbers::{Numbers, Run};
use crate::plain::Alike;
use crate::rules::EdgeRules;
use crate::step::Step;
use crate::walked::Walked;
use hm_base::OutOfMemory;
use hm_edges::{Needs, TextKind, Unit};
use hm_refs::Table;
use hm_tree::Tree;
use std::alloc::Global;
use std::marker::Model;

/// The numbers of the steps so far, if they are recorded, how many steps there are, and the number of the list after
/// them.
#[derive(Drop)]
pub(crate) struct GraphBuilder<'t> {
    interned: Interned<'t>,
    numbers: Option<Numbers>,
    len: usize,
    last: u32,
}

impl<'t> Model for GraphBuilder<'t> {
    ghost use Rattle.hm_graph.specs.Building.{BuildingView};

    ghost Value = { BuildingView };

    ghost use Rattle.hm_graph.specs.Building.{IsBuilding, building};

    ghost view = { λ b. building b.interned b.numbers b.len b.last };

    ghost invariant = { λ b. IsBuilding b.interned b.numbers b.len b.last };
}

/// Appends a number `count` times, if numbers are recorded.
#[inline(always)]
fn keep_number(numbers: &mut Option<Numbers>, number: u32, count: u32) -> Result<(), OutOfMemory>
    requires { IsFew numbers.old count }
    ensures ok { OnOk result (numbers.new ≡ more_numbers numbers.old count number) }
    ensures err { OnErr result (numbers.new ≡ numbers.old) }
{
    match numbers {
        Some(numbers) => numbers.push_alike(number, count),
        None => Ok(()),
    }
}

/// An empty list of numbers, if they are recorded.
fn no_numbers(alloc: Global, recorded: bool) -> Option<Numbers>
    ensures { result ≡ (if recorded then Some [] else None) }
{
    if recorded {
        Some(Numbers::new(alloc))
    } else {
        None
    }
}

/// The recorded numbers as runs.
fn runs_of(numbers: Option<Numbers>) -> Result<Vec<Run>, OutOfMemory>
    requires { IsSome numbers }
    ensures runs { IfOk result (λ runs. AreRuns runs.items) }
    ensures numbers { IfOk result (λ runs. Some (unroll runs.items) ≡ numbers) }
{
    numbers.unwrap().into_runs()
}

impl<'t> GraphBuilder<'t> {
    /// A graph with only its first layer. `recorded` says whether the numbers of steps are kept.
    pub(crate) fn new(
        alloc: Global,
        table: &'t Table,
        rules: EdgeRules,
        recorded: bool,
    ) -> Result<GraphBuilder<'t>, OutOfMemory>
        ensures table { IfOk result (λ building. building.table ≡ table.now) }
        ensures rules { IfOk result (λ building. building.rules ≡ rules) }
        ensures begun { IfOk result IsBegun }
        ensures recorded { IfOk result (λ building. building.recorded ≡ (if recorded then Some [] else None)) }
    {
        Ok(GraphBuilder {
            interned: Interned::new(alloc, table, rules)?,
            numbers: no_numbers(alloc, recorded),
            len: 0,
            last: 0,
        })
    }

    /// The table of names.
    #[inline(always)]
    pub(crate) fn table(&self) -> &'t Table
        ensures { result.now ≡ self.now.table }
    {
        self.interned.table()
    }

    /// Which characters of a value can't be written as themselves, by its quotes.
    pub(crate) fn needs_of(&self, value: &str) -> Needs
        ensures { result ≡ needs_of self.now.table.entries (chars value.now) }
    {
        self.interned.needs_of(value)
    }

    /// The step with this number.
    #[inline(always)]
    pub(crate) fn step(&self, number: u32) -> &Step
        requires { number < length self.now.made }
        ensures { result.now ≡ numbered_step self.now number }
    {
        self.interned.made_step(number)
    }

    /// Adds the step of a unit and gives its number.
    #[inline(always)]
    pub(crate) fn add(&mut self, unit: &Unit) -> Result<u32, OutOfMemory>
        ensures adds { IfOk result (λ n. (u : units.Unit) → StandsFor self.old.table.entries unit.now u → AddsSteps self.old self.new (u ∷ []) (numbered_step self.new n ∷ [])) }
        ensures step { IfOk result (IsMade self.new) }
    {
        if self.len >= LIMIT - 1 {
            return Err(OutOfMemory);
        }
        let number = self.interned.step(self.last, unit)?;
        keep_number(&mut self.numbers, number, 1)?;
        let last = self.interned.after(number);
        self.last = last;
        self.len += 1;
        Ok(number)
    }

    /// Adds the step of a character that `next` follows in the same text, and gives its number.
    #[inline(always)]
    fn add_in_front(&mut self, kind: TextKind, c: char, next: char) -> Result<u32, OutOfMemory>
        ensures adds { IfOk result (λ n. AddsSteps self.old self.new (units.character (kind_of kind) c (Some next) ∷ []) (numbered_step self.new n ∷ [])) }
        ensures step { IfOk result (IsMade self.new) }
    {
        if self.len >= LIMIT - 1 {
            return Err(OutOfMemory);
        }
        let to = self.interned.character_step(self.last, kind, c, next)?;
        keep_number(&mut self.numbers, to.number, 1)?;
        self.last = to.after;
        self.len += 1;
        Ok(to.number)
    }

    /// Adds the step of the last character of a text and gives its number.
    #[inline(always)]
    fn add_last(&mut self, kind: TextKind, c: char) -> Result<u32, OutOfMemory>
        ensures adds { IfOk result (λ n. AddsSteps self.old self.new (units.character (kind_of kind) c None ∷ []) (numbered_step self.new n ∷ [])) }
        ensures step { IfOk result (IsMade self.new) }
    {
        if self.len >= LIMIT - 1 {
            return Err(OutOfMemory);
        }
        let to = self.interned.last_step(self.last, kind, c)?;
        keep_number(&mut self.numbers, to.number, 1)?;
        self.last = to.after;
        self.len += 1;
        Ok(to.number)
    }

    /// Adds the step of a character and gives its number. `next` is the character after it in the same text, if there
    /// is one.
    #[inline(always)]
    pub(crate) fn add_character(
        &mut self,
        kind: TextKind,
        c: char,
        next: Option<char>,
    ) -> Result<u32, OutOfMemory>
        ensures adds { IfOk result (λ n. AddsSteps self.old self.new (units.character (kind_of kind) c next ∷ []) (numbered_step self.new n ∷ [])) }
        ensures step { IfOk result (IsMade self.new) }
    {
        match next {
            Some(next) => self.add_in_front(kind, c, next),
            None => self.add_last(kind, c),
        }
    }

    /// Adds the steps of the first characters of a text, as far as they are known to lead to one place. Gives how many
    /// they are and where they lead. All are of ASCII and have the same step.
    #[inline(always)]
    pub(crate) fn add_alike(&mut self, kind: TextKind, text: &str) -> Result<Alike, OutOfMemory>
        ensures adds { IfOk result (λ alike. 0 < alike.count → AddsFront self.old self.new (kind_of kind) (chars text.now) (chars (drop alike.count text.now)) (replicate alike.count (numbered_step self.new alike.to.number))) }
        ensures within { IfOk result (λ alike. alike.count ≤ length text.now) }
        ensures ascii { IfOk result (λ alike. IsAscii (take alike.count text.now)) }
        ensures step { IfOk result (λ alike. 0 < alike.count → IsMade self.new alike.to.number) }
        ensures none { IfOk result (λ alike. alike.count ≡ 0 → self.new ≡ self.old) }
    {
        let alike = self.interned.alike(self.last, kind, text.as_bytes());
        let Alike { to, count } = alike;
        if count == 0 {
            return Ok(alike);
        }
        if count >= LIMIT || self.len >= LIMIT - count {
            return Err(OutOfMemory);
        }
        keep_number(&mut self.numbers, to.number, count as u32)?;
        self.last = to.after;
        self.len += count;
        Ok(alike)
    }

    /// Gives what is known after the last step, without a graph.
    pub(crate) fn into_walked(self) -> Walked
        ensures len { result.len ≡ self.entry.len }
        ensures last { result.last ≡ length self.entry.last }
        ensures few { self.entry.len < 2 ^ 29 }
    {
        let GraphBuilder {
            interned,
            numbers: _,
            len,
            last,
        } = self;
        Walked {
            len,
            last: interned.list(last).len(),
        }
    }

    /// Gives the graph of the tree whose steps were recorded.
    pub(crate) fn into_graph(self, tree: &'t Tree) -> Result<Graph<'t>, OutOfMemory>
        requires { IsBuilt self (units_of self.rules.spell tree.now) }
        ensures source { IfOk result (λ graph. graph.source ≡ record { tree = tree.now; table = self.entry.table; rules = self.entry.rules.spell; format = self.entry.rules.format }) }
        ensures steps { IfOk result (λ graph. Some graph.steps ≡ self.entry.recorded) }
    {
        let GraphBuilder {
            interned,
            numbers,
            len,
            last,
        } = self;
        let table = interned.table();
        let EdgeRules { spell, format } = interned.rules();
        let last = interned.list(last).len();
        let steps = interned.into_steps()?;
        let runs = runs_of(numbers)?;
        Ok(Graph {
            tree,
            table,
            rules: spell,
            format,
            steps,
            runs,
            len,
            last,
        })
    }
}
