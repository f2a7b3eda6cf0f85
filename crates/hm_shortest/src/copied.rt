//! Steps that copy a byte.
ghost use Rattle.std.specs.Prelude.{IsTrue};
ghost use Rattle.hm_shortest.specs.CopiedRuns.{IsCopied};

use hm_graph::Step;

/// Whether each state of a step has one hop, and the hop from this place copies one byte and leads to the same place.
#[inline(always)]
pub(crate) fn is_copied(step: &Step, place: Option<usize>) -> bool
    ensures { IsTrue result → IsCopied step.now place }
{
    match place {
        Some(place) => step.is_forced() && step.copies(place),
        None => false,
    }
}
