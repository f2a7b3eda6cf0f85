//! Laws over the next token of a text. The functions do nothing.
ghost use Rattle.hm_token_laws.specs.Decided.{ElementTextsAreRead, EndsAreDecided, MarkupEndsTexts, ReferencesAreDecided, TextsAreDecided, TextsAreRead};
ghost use Rattle.hm_token_laws.specs.Laws.{TokensAreSmall, TokensAreSound};
ghost use Rattle.hm_token_laws.specs.Readings.{NextTokensExtend, PiecesAreRead, ReadingsFollow, WholePiecesAreRead, WholeReadingsExtend};
ghost use Rattle.hm_token_laws.specs.Written.{CommentsAreNext, DoctypesAreNext, EndsAreNext, RawTextsAreNext, ScriptsAreNext, StartsAreNext, TextEndsAreNext};

/// Each token that is read from the text of a page is allowed in a tree that is written and read back: its name is
/// allowed, its attributes can be written, and its text is UTF-8 without a zero byte.
pub fn tokens_are_sound()
    ensures { TokensAreSound }
{}

/// Each token gives at most three times as many bytes as it is read from.
pub fn tokens_are_small()
    ensures { TokensAreSmall }
{}

/// A token with its end is the same, whatever follows it.
pub fn tokens_extend()
    ensures next { NextTokensExtend }
    ensures readings { WholeReadingsExtend }
{}

/// Written pieces one after the other are read piece by piece.
pub fn written_pieces_are_read()
    ensures follow { ReadingsFollow }
    ensures pieces { PiecesAreRead }
    ensures whole { WholePiecesAreRead }
{}

/// Whether a reference or a text is read as it was written is decided by the bytes up to the first one that can't
/// continue it.
pub fn text_is_decided()
    ensures references { ReferencesAreDecided }
    ensures texts { TextsAreDecided }
    ensures ends { EndsAreDecided }
    ensures markup { MarkupEndsTexts }
{}

/// A text that is written piece by piece is read as that text.
pub fn written_texts_are_read()
    ensures texts { TextsAreRead }
    ensures element_texts { ElementTextsAreRead }
{}

/// A written tag, comment or doctype is the next token, whatever follows it (#tag-open-state to #bogus-doctype-state).
pub fn written_markup_is_next()
    ensures starts { StartsAreNext }
    ensures ends { EndsAreNext }
    ensures comments { CommentsAreNext }
    ensures doctypes { DoctypesAreNext }
{}

/// The text of `style`, `iframe` and `script` up to its end tag is the next token, and so is the end tag after a text
/// (#rcdata-less-than-sign-state to #script-data-double-escape-end-state).
pub fn written_elements_are_next()
    ensures raw_texts { RawTextsAreNext }
    ensures scripts { ScriptsAreNext }
    ensures ends { TextEndsAreNext }
{}
