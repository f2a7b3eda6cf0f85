//! Laws over the graph of sparse certificates. The functions do nothing.
ghost use Rattle.hm_optimality_laws.specs.SparseLaws.{DominanceLosesNothing, ForgettingIsNoLoss, DominatedEdgesAreNeedless, SparseFirstWayIsFirst, SparseLeastIsLeast, SparsePricesBound, SparsePricesShow, TreesHaveValues};

/// If what is pending may be forgotten, nothing pending is no worse.
pub fn forgetting_is_no_loss()
    ensures { ForgettingIsNoLoss }
{}

/// In the units of every tree the value of an attribute follows its name.
pub fn trees_have_values()
    ensures { TreesHaveValues }
{}

/// An edge that dominates another by a table replaces it, also if it opens the value with other quotes.
pub fn dominance_loses_nothing()
    ensures { DominanceLosesNothing }
{}

/// Over any edges and by any tests that lose nothing, dominated edges change neither prices nor the first way. Prices
/// that are feasible without them bound every way.
pub fn dominated_edges_are_needless()
    ensures { DominatedEdgesAreNeedless }
{}

/// The least prices are the same without the edges that are dominated.
pub fn sparse_least_is_least()
    ensures { SparseLeastIsLeast }
{}

/// The first way is the same without the edges that are dominated.
pub fn sparse_first_way_is_first()
    ensures { SparseFirstWayIsFirst }
{}

/// Prices from any source that are feasible without the dominated edges bound every way.
pub fn sparse_prices_bound()
    ensures { SparsePricesBound }
{}

/// Prices from any source that are feasible without the dominated edges show a bound: no spelling of a settled tree has
/// fewer bytes than the first price.
pub fn sparse_prices_show()
    ensures { SparsePricesShow }
{}
