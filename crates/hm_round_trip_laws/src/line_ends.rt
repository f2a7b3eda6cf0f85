//! Laws over the texts of spelled pages. The functions do nothing.
ghost use Rattle.hm_round_trip_laws.specs.PageTexts.{SpelledPagesBeginWithMarkup, SpelledPagesHaveSpelledTexts};

/// A page that spells a settled tree has a text, without a zero byte and CR. The text spells the tree too, in at most
/// as many bytes. A CR is only in whitespace of tags and doctypes, where an LF is as good
/// (#preprocessing-the-input-stream).
pub fn spelled_pages_have_spelled_texts()
    ensures begin { SpelledPagesBeginWithMarkup }
    ensures text { SpelledPagesHaveSpelledTexts }
{}
