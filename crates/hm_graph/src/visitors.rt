//! A visitor that is called for each step while a graph is built.
ghost use Rattle.std.specs.Prelude.{◌≡◌, ◌++◌, ◌∷◌, ℕ, List, length, OnOk};
ghost use Rattle.std.proofs.Math.ListN.{replicate};
ghost use Rattle.std.specs.Str.{IsAscii};
ghost use Rattle.hm_edges.specs.Pieces.{own_bytes};
ghost use Rattle.hm_graph.specs.Graphs.{IsLowStep, IsNamedStep};
ghost use Rattle.hm_event_parts.specs.UnitText.{own_text};
ghost use Rattle.hm_refs.specs.Names.{Entry};
ghost use Rattle.hm_graph.specs.Steps.{Step as Hops};
ghost use Rattle.hm_graph_laws.specs.Units as units;
ghost use Rattle.hm_graph_laws.specs.Units.{character_units};

use crate::step::Step;
use hm_base::OutOfMemory;
use hm_event_parts::UnitText;
use hm_refs::Table;

/// A visitor that is called for each step while a graph is built.
pub trait Visitor: Drop {
    /// The error with which it stops.
    type Stop: From<OutOfMemory> + Drop;

    // Whether the visitor, which is the last argument, ends as the first argument once it has taken these units and their
    // steps up to the last layer, by the names of a table.
    ghost goes_on: { Self → List Entry → List units.Unit → List Hops → Self → Type 0 };

    /// Takes the step of a unit that has these bytes of its own.
    fn take(&mut self, table: &Table, step: &Step, own: UnitText) -> Result<(), Self::Stop>
        requires named { IsNamedStep table.now.entries step.now }
        requires low { IsLowStep step.now }
        ensures { OnOk result ((end : Self) (u : units.Unit) (more : List units.Unit) (steps : List Hops) → own_bytes u ≡ own_text own.entry
            → goes_on end table.now.entries more steps self.new → goes_on end table.now.entries (u ∷ more) (step.now ∷ steps) self.old) };

    /// Takes the same step once for each of these bytes, which are characters of ASCII.
    fn take_alike(&mut self, table: &Table, step: &Step, bytes: &[u8]) -> Result<(), Self::Stop>
        requires named { IsNamedStep table.now.entries step.now }
        requires low { IsLowStep step.now }
        requires ascii { IsAscii bytes.now }
        ensures { OnOk result ((end : Self) (kind : units.TextKind) (rest : List ℕ) (more : List units.Unit) (steps : List Hops) → goes_on end table.now.entries (character_units kind rest ++ more) steps self.new
            → goes_on end table.now.entries (character_units kind (bytes.now ++ rest) ++ more) (replicate (length bytes.now) step.now ++ steps) self.old) };
}

/// No visitor.
#[derive(Drop)]
pub(crate) struct NoVisitor;

impl Visitor for NoVisitor {
    type Stop = OutOfMemory;

    ghost goes_on = { λ _ _ _ _ _. Unit {0} };

    #[inline(always)]
    fn take(&mut self, _table: &Table, _step: &Step, _own: UnitText) -> Result<(), OutOfMemory> {
        Ok(())
    }

    #[inline(always)]
    fn take_alike(
        &mut self,
        _table: &Table,
        _step: &Step,
        _bytes: &[u8],
    ) -> Result<(), OutOfMemory> {
        Ok(())
    }
}
