//! Steps over which no state changes its place.
ghost use Rattle.std.specs.Prelude.{IfSome, IsTrue};
ghost use Rattle.hm_graph.specs.Still.{AreStill, IsStill, Stays};

use crate::{Hop, Step};

/// Whether there is exactly one hop, of `len` bytes, to this place.
fn stays(hops: &[Hop], place: usize, len: u64) -> bool
    ensures { IsTrue result → Stays len place hops.now }
{
    match hops {
        [hop] => hop.len == len && hop.to == place,
        _ => false,
    }
}

/// Whether each state has exactly one hop, of `len` bytes, to its own place.
fn are_still(step: &Step, len: u64) -> bool
    ensures { IsTrue result → AreStill len step.now }
{
    for place in 0..step.width() {
        if !stays(step.hops(place), place, len) {
            return false;
        }
    }
    true
}

/// The length of the first hop in bytes, or 0 if there is none.
fn len_of(hops: &[Hop]) -> u64 {
    match hops {
        [hop, ..] => hop.len,
        [] => 0,
    }
}

/// The length of each hop in bytes, if there are states and each has one hop, to its own place.
pub(crate) fn still_len(step: &Step) -> Option<u64>
    ensures { IfSome result (λ len. IsStill len step.now) }
{
    if step.width() == 0 {
        return None;
    }
    let len = len_of(step.hops(0));
    if are_still(step, len) {
        Some(len)
    } else {
        None
    }
}
