//! Laws over the edges in a start tag with attributes and its spellings. The functions do nothing.
ghost use Rattle.hm_graph_laws.specs.AttributeLaws.{SpellingsHaveTags, TagsSpell};

/// The bytes along the edges of a start tag with attributes are a spelling of it (#start-tags and #attributes-2).
pub fn tags_spell()
    ensures { TagsSpell }
{}

/// Each spelling of a start tag has edges with no more bytes.
pub fn spellings_have_tags()
    ensures { SpellingsHaveTags }
{}
