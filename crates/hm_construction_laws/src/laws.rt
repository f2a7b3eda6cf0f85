//! Laws over the trees that are built. The functions do nothing.
ghost use Rattle.hm_construction_laws.specs.Laws.{BuiltIsSettled, EndsAreWithin, PagesAreSettled, StepsAreWithin, TextsArePlain};

/// The tree of the text of a page is settled. Its elements nest as content that is read without any repair (HTML
/// Standard, #tree-construction), its texts are joined, and its frame is whole.
pub fn what_is_built_is_settled()
    ensures texts_are_plain { TextsArePlain }
    ensures of_texts { BuiltIsSettled }
    ensures of_pages { PagesAreSettled }
{}

/// How large a tree can grow: each step adds at most the events and bytes of its token. What is still to be made and
/// closed afterwards is counted too.
pub fn trees_grow_with_their_tokens()
    ensures steps { StepsAreWithin }
    ensures ends { EndsAreWithin }
{}
