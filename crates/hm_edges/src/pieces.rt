//! What an edge writes, and where it leads. A piece holds neither name nor character, so that edges of equal units are
//! equal.
use crate::states::State;
use hm_refs::NameId;

/// How a value is written (HTML Standard, #attributes-2).
#[derive(Clone, Copy, Debug, PartialEq, Eq)]
pub enum Quoting {
    Bare,
    Unquoted,
    Double,
    Single,
}

/// What an edge writes of its unit.
#[derive(Clone, Copy, Debug, PartialEq, Eq)]
pub enum Piece {
    Nothing,
    /// The unit's own bytes: bytes without a choice, or the character.
    Itself,
    /// A start tag, with a `/` if it closes itself.
    StartTag { closes: bool },
    /// `<` and the name.
    TagName,
    /// An attribute, with a space before it, up to what opens its value.
    Attribute { gap: bool, form: Quoting },
    /// The quote that closes a value.
    Quote { double: bool },
    /// `>`, with a `/` before it if the tag closes itself, and a space if one is needed before that.
    TagClose { space: bool, closes: bool },
    EndTag,
    /// A character reference by name.
    Name { id: NameId },
    /// A decimal reference, with or without its `;`.
    Decimal { number: u32, closed: bool },
    /// A hexadecimal reference, with or without its `;`.
    Hexadecimal { number: u32, closed: bool },
    /// The character in a CDATA section, with what opens and what closes it.
    Section { opens: bool, closes: bool },
}

/// An edge: what it writes, and the state after it.
#[derive(Clone, Copy, PartialEq, Eq)]
pub struct Edge {
    pub piece: Piece,
    pub to: State,
}
