//! Laws over the tokens of a text of which more may follow. The functions do nothing.
ghost use Rattle.hm_lexer.specs.PartLaws.{PartsBuild, ReadyStands, ReferencesLast};

/// A character reference with its end is the same, whatever follows it (HTML Standard, #character-reference-state).
pub fn references_last()
    ensures { ReferencesLast }
{}

/// A ready token is the next one of any longer text too. The tree of the longer text is what this token gives, followed
/// by what the rest of the text gives, with each byte in its place. A refusal of this token refuses the longer text at
/// the same place.
pub fn parts_build()
    ensures { PartsBuild }
{}

/// The state of tree construction after all ready tokens doesn't depend on what follows.
pub fn ready_stands()
    ensures { ReadyStands }
{}
