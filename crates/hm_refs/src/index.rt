//! The index of a table: its names by their first code points.
ghost use Rattle.std.specs.Prelude.{◌≡◌, length};
ghost use Rattle.std.specs.List.Sorted.{IsNonDecreasing};
ghost use Rattle.hm_refs.specs.Firsts.{selected};

use crate::ids::NameId;
use std::collections::BTreeMap;

/// The names by their first code points.
#[derive(Drop)]
pub(crate) enum Index {
    /// For each first code point its names. A table that was read has this one.
    Gathered(BTreeMap<char, Vec<NameId>>),
    /// All names in the order of their first code points. The table built into the program has this one.
    Sorted(SortedNames),
}

/// The names in the order of their first code points.
#[derive(Drop)]
pub(crate) struct SortedNames {
    /// The first code point of each name.
    pub(crate) points: &'static [char],
    pub(crate) names: Vec<NameId>,
}

/// The names whose first code point is `first`.
pub(crate) fn select<'a>(points: &[char], names: &'a [NameId], first: char) -> &'a [NameId]
    requires ascending { IsNonDecreasing points.now }
    requires as_long { length names.now ≡ length points.now }
    ensures { result.now ≡ selected first points.now names.now }
{
    let from = points.partition_point(|point| *point < first);
    let to = points.partition_point(|point| *point <= first);
    &names[from..to]
}
