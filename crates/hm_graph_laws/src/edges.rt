//! A law on the edges of the graph of spellings. The function does nothing.
ghost use Rattle.hm_graph_laws.specs.EdgeLaws.{StatesHaveFewEdges};

/// A state has at most 71 edges, since a table has at most 64 names with the same first code point.
pub fn states_have_few_edges()
    ensures { StatesHaveFewEdges }
{}
