//! What a check finds.
use hm_base::Rule;

/// The first reason why a certificate doesn't show that a text is the shortest of a tree. Layers and states are counted from 0,
/// in the graph of the tree.
#[derive(Clone, Copy, Debug, PartialEq, Eq)]
pub enum Why {
    /// The certificate is about other rules.
    RulesDiffer,
    /// The text is refused as a page, at byte `at` of it.
    OutRefused {
        rule: Rule,
        at: u32,
    },
    /// The tree of the text differs from this event on.
    TreesDiffer {
        event: u32,
    },
    /// The certificate doesn't have as many layers as it has to write.
    WrongLayers {
        got: u64,
        want: u64,
    },
    /// A layer of the certificate doesn't have as many prices as states.
    WrongWidth {
        layer: u64,
        got: u64,
        want: u64,
    },
    /// A price is above the bound that follows from the next layer's prices. None is an infinite price, or no bound.
    TooHigh {
        layer: u64,
        state: u64,
        price: Option<u64>,
        bound: Option<u64>,
    },
    /// The text has more bytes than the first price.
    TooLong {
        length: u64,
        first: u64,
    },
}

/// What a check finds.
#[derive(Clone, Copy, Debug, PartialEq, Eq)]
pub enum Verdict {
    /// The text, of `length` bytes, is shown to be the shortest.
    Yes { length: u64 },
    No { why: Why },
}
