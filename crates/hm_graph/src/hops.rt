//! An edge by numbers.
use hm_edges::Piece;

/// An edge of the graph: what it writes of its unit, how many bytes that is, and the index of the state that it leads
/// to in the next layer.
#[derive(Clone, Copy)]
pub struct Hop {
    pub piece: Piece,
    pub len: u64,
    pub to: usize,
}
