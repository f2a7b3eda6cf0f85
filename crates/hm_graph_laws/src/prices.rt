//! Laws over ways and prices of the graph of spellings. The functions do nothing.
ghost use Rattle.hm_graph_laws.specs.PriceLaws.{FeasiblePricesBound, FirstPriceIsLeast, LeastPricesAreFeasible, LeastPricesAreReached, LeastPricesBound, SameStatesAreEqual, WrittenPricesAreWhole};

/// The test for the same state is true exactly if two states are equal.
pub fn same_states_are_equal()
    ensures { SameStatesAreEqual }
{}

/// Feasible prices from any source bound every way.
pub fn feasible_prices_bound()
    ensures { FeasiblePricesBound }
{}

/// The least prices are feasible, bound every way, and are reached by the first way.
pub fn least_prices_are_least()
    ensures feasible { LeastPricesAreFeasible }
    ensures first { FirstPriceIsLeast }
    ensures bound { LeastPricesBound }
    ensures reached { LeastPricesAreReached }
{}

/// The prices that a certificate omits follow from those that it writes.
pub fn written_prices_are_whole()
    ensures { WrittenPricesAreWhole }
{}
