//! Laws of steps. The functions do nothing.
ghost use Rattle.hm_graph.specs.FewHops.{StatesHaveFewHops};
ghost use Rattle.hm_graph.specs.Joined.{KeptRowsAreJoined, PricesAreJoined, WaysAreJoined, WrittenAreKept};
ghost use Rattle.hm_graph.specs.Laws.{FullRowsAgree, KeepingAgrees, RowsAreLeast, WayIsFirst, WaysAreWays, WrittenRowsAgree};

pub use crate::graph::every_graph;

/// The prices over steps are the least ones in their graph.
pub fn rows_are_least()
    ensures { RowsAreLeast }
{}

/// The way over steps is the first one in their graph.
pub fn way_is_first()
    ensures { WayIsFirst }
{}

/// Each way over steps is one in their graph.
pub fn ways_are_ways()
    ensures { WaysAreWays }
{}

/// The rows that a certificate writes are those of the graph.
pub fn written_rows_agree()
    ensures { WrittenRowsAgree }
{}

/// Written rows restore the same full rows over steps as in the graph.
pub fn full_rows_agree()
    ensures { FullRowsAgree }
{}

/// Prices are feasible over steps exactly if they are in the graph.
pub fn keeping_agrees()
    ensures { KeepingAgrees }
{}

/// Each state of a graph has at most 71 hops, so the index of a hop fits into a byte.
pub fn states_have_few_hops()
    ensures { StatesHaveFewHops }
{}

/// Before a layer of one state, prices are those up to that state, each raised by its price.
pub fn prices_are_joined()
    ensures { PricesAreJoined }
{}

/// Rows that are written before a layer of one state are those up to that state, each raised by its price.
pub fn kept_rows_are_joined()
    ensures { KeptRowsAreJoined }
{}

/// The first way over a layer of one state is the one up to that state, followed by the one after it.
pub fn ways_are_joined()
    ensures { WaysAreJoined }
{}

/// A certificate writes the first row, those that are kept, and the last one.
pub fn written_are_kept()
    ensures { WrittenAreKept }
{}
