//! The end of a walk over the steps of a tree.

/// How many steps there were, and how many states the last layer has.
#[derive(Clone, Copy)]
pub struct Walked {
    pub len: usize,
    pub last: usize,
}
