//! Steps that copy a byte.
ghost use Rattle.std.specs.Prelude.{[], slice_index_or, IsTrue};
ghost use Rattle.hm_graph.specs.Copied.{Copies};

use crate::{Hop, Step};
use hm_edges::Piece;

/// Whether there is exactly one hop, and it copies one byte and leads to this place.
#[inline(always)]
fn copies(hops: &[Hop], place: usize) -> bool
    ensures { IsTrue result → Copies place hops.now }
{
    match hops {
        [hop] => hop.len == 1 && hop.to == place && matches!(hop.piece, Piece::Itself),
        _ => false,
    }
}

impl Step {
    /// Whether a place has only one hop, which copies one byte and leads to the same place.
    #[inline(always)]
    pub fn copies(&self, place: usize) -> bool
        ensures { IsTrue result → Copies place (slice_index_or self.now place []) }
    {
        place < self.width() && copies(self.hops(place), place)
    }
}
