//! Laws over the definitions. The functions do nothing.
ghost use Rattle.hm_refs.specs.Laws.{BestIsLeast, BestIsShortest, HexadecimalIsShorter, KeysAscend, LongestIsLongest, NamesAreTable, NoneIsBest, NoneIsLongest};

pub use crate::table::every_table;

/// What `longest` finds is the longest name that the text starts with.
pub fn longest_is_longest()
    ensures { LongestIsLongest }
{}

/// If `longest` finds none, the text starts with no name.
pub fn none_is_longest()
    ensures { NoneIsLongest }
{}

/// The best number of a code point is the least one that gives it.
pub fn best_is_least()
    ensures { BestIsLeast }
{}

/// If a code point has no best number, no number gives it.
pub fn none_is_best()
    ensures { NoneIsBest }
{}

/// No decimal reference is shorter than the one with the best number, and no hexadecimal one, except for the code
/// points from 1,000,000 to 1,048,575.
pub fn best_is_shortest()
    ensures { BestIsShortest }
{}

/// For the code points from 1,000,000 to 1,048,575 `x` and five hexadecimal digits are one byte shorter than seven
/// decimal ones.
pub fn hexadecimal_is_shorter()
    ensures { HexadecimalIsShorter }
{}

/// The keys of a JSON object are in byte order.
pub fn keys_ascend()
    ensures { KeysAscend }
{}

/// The names in a table's bytes are a table.
pub fn names_are_table()
    ensures { NamesAreTable }
{}
