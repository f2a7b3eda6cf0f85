//! Laws over the edges of characters and their spellings. The functions do nothing.
ghost use Rattle.hm_graph_laws.specs.CharacterLaws.{SpellingsHaveWays, WaysEnd, WaysSpell};

/// The bytes along the edges of the characters of a text or a value are a spelling (#attributes-2 to #syntax-charref).
pub fn ways_spell()
    ensures { WaysSpell }
{}

/// Edges over all characters of a text or a value lead to a state in which it may end.
pub fn ways_end()
    ensures { WaysEnd }
{}

/// Each spelling has edges with no more bytes.
pub fn spellings_have_ways()
    ensures { SpellingsHaveWays }
{}
