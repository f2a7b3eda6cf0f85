//! Laws over spellings without references at plain characters. The functions do nothing.
ghost use Rattle.hm_graph_laws.specs.ExchangeLaws.{SpellingsSparePlain, TextsSparePlain};

/// Each spelling of a text or a value has one with no more bytes in which no reference starts at a plain character.
pub fn texts_spare_plain()
    ensures { TextsSparePlain }
{}

/// Each spelling of a tree has one with no more bytes in which no reference starts at a plain character.
pub fn spellings_spare_plain()
    ensures { SpellingsSparePlain }
{}
