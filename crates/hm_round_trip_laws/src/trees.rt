//! Laws of trees that are read back. The functions do nothing.
ghost use Rattle.hm_round_trip_laws.specs.ReadBack.{RewrittenIsReadBack, SpellingsAreReadBack, TextsAreReadBack};

/// Each spelling of a settled tree is a page with that tree. Tags may be left out (HTML Standard, #optional-tags).
/// References, attributes with and without quotes, and line ends of any kind in tags are all read.
pub fn spellings_are_read_back()
    ensures texts { TextsAreReadBack }
    ensures pages { SpellingsAreReadBack }
{}

/// Each spelling of the tree of a page after its rewrites is a page with that tree, whatever the options are, since
/// such a tree is settled.
pub fn rewritten_trees_are_read_back()
    ensures { RewrittenIsReadBack }
{}
