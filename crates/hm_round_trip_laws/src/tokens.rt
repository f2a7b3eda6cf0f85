//! Laws over spelled values, tags and texts, and how they are read. The functions do nothing.
ghost use Rattle.hm_round_trip_laws.specs.Pages.{SettledSpellingsAreClean, SettledSpellingsHaveText, SpelledPointsHaveNoReturn};
ghost use Rattle.hm_round_trip_laws.specs.References.{ReferencesTakeFewBytes};
ghost use Rattle.hm_round_trip_laws.specs.Tags.{SpelledDoctypesAreNext, SpelledStartsAreNext, SpelledStartsAreWritten};
ghost use Rattle.hm_round_trip_laws.specs.Texts.{SpelledElementTextsAreRead, SpelledPointsAreInPieces, SpelledPointsEndThere, SpelledSvgPointsAreRead, SpelledSvgTextsAreRead, SpelledTextsAreInPieces, SpelledTextsAreRead, TouchingTextsAreInPieces};
ghost use Rattle.hm_round_trip_laws.specs.Values.{SpelledValuesAreDecided, SpelledValuesAreRead};

/// A reference consists of `&` and then only letters, digits, `#` and `;` (#syntax-charref).
pub fn references_take_few_bytes()
    ensures { ReferencesTakeFewBytes }
{}

/// A value that is spelled before the byte that ends it is read as the value, and has no such byte in it
/// (#attribute-value-(double-quoted)-state to #attribute-value-(unquoted)-state).
pub fn spelled_values_are_read()
    ensures read { SpelledValuesAreRead }
    ensures decided { SpelledValuesAreDecided }
{}

/// A start tag that is spelled is the next token, whatever follows it (#tag-open-state to #self-closing-start-tag-state).
pub fn spelled_starts_are_next()
    ensures written { SpelledStartsAreWritten }
    ensures next { SpelledStartsAreNext }
{}

/// A doctype that is spelled is the next token, whatever follows it (#doctype-state to #bogus-doctype-state).
pub fn spelled_doctypes_are_next()
    ensures { SpelledDoctypesAreNext }
{}

/// A text that is spelled is read as the text (#data-state and #rcdata-state). Two neighbours are read as one.
pub fn spelled_texts_are_read()
    ensures points { SpelledPointsAreInPieces }
    ensures touching { TouchingTextsAreInPieces }
    ensures pieces { SpelledTextsAreInPieces }
    ensures read { SpelledTextsAreRead }
{}

/// A text in an element of SVG that is spelled is read as the text, with CDATA sections or without
/// (#cdata-section-state to #cdata-section-end-state).
pub fn spelled_svg_texts_are_read()
    ensures points { SpelledSvgPointsAreRead }
    ensures read { SpelledSvgTextsAreRead }
{}

/// The text of `title` and `textarea` that is spelled is read as the text. It ends at the end tag that follows it, and
/// not before (#rcdata-less-than-sign-state to #rcdata-end-tag-name-state).
pub fn spelled_element_texts_are_read()
    ensures ends { SpelledPointsEndThere }
    ensures read { SpelledElementTextsAreRead }
{}

/// What spells a settled tree is UTF-8 without a zero byte. The text of such a page (#preprocessing-the-input-stream)
/// spells the tree too: a CR is only in whitespace of tags and doctypes.
pub fn settled_spellings_are_pages()
    ensures no_return { SpelledPointsHaveNoReturn }
    ensures clean { SettledSpellingsAreClean }
    ensures text { SettledSpellingsHaveText }
{}
