//! Laws between the ways of the graph and the spellings of a tree. The functions do nothing.
ghost use Rattle.hm_optimality_laws.specs.SpellingLaws.{FeasiblePricesShow, FirstWaysAreBest, GraphWaysSpell, SpellingsHaveGraphWays, SpellingsHaveWays, TreesHaveGraphWays, TreesHaveSpellings, TreesHaveWays, WaysSpellTrees};

/// The bytes of each way through the units of a settled tree are a spelling of it.
pub fn ways_spell_trees()
    ensures { WaysSpellTrees }
{}

/// Each spelling of a settled tree has a way with no more bytes.
pub fn spellings_have_ways()
    ensures { SpellingsHaveWays }
{}

/// Each tree has a way, so a settled one has a spelling.
pub fn trees_have_ways()
    ensures ways { TreesHaveWays }
    ensures spellings { TreesHaveSpellings }
{}

/// In the graph of a tree, references start only at characters that need one: still, each way is a spelling, each
/// spelling has a way with no more bytes, and each tree has a way.
pub fn graph_ways_are_spellings()
    ensures spell { GraphWaysSpell }
    ensures spellings { SpellingsHaveGraphWays }
    ensures trees { TreesHaveGraphWays }
{}

/// Feasible prices from any source show that no spelling has fewer bytes than the first price.
pub fn feasible_prices_show()
    ensures { FeasiblePricesShow }
{}

/// The first way is a spelling, as long as the first of the least prices, and no spelling has fewer bytes.
pub fn first_ways_are_best()
    ensures { FirstWaysAreBest }
{}
