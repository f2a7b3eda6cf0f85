//! Units as a writer holds them: all that their edges depend on, and no more, so that units with the same edges are
//! equal.

/// The kinds of text that have characters.
#[derive(Clone, Copy, Debug, PartialEq, Eq, Hash)]
pub enum TextKind {
    Text,
    Rcdata,
    Foreign,
    Value,
}

/// Whether a value has characters of a kind, and whether a reference to one of them is costly.
#[derive(Clone, Copy, Debug, PartialEq, Eq, Hash)]
pub enum Need {
    /// It has none.
    Absent,
    /// It has some, and no reference to one is known to be costly.
    Cheap,
    /// A reference to one of them is costly: it takes at least three bytes more than the character itself.
    Dear,
}

/// Which characters of a value can't be written as themselves, by the quotes of the value.
#[derive(Clone, Copy, Debug, PartialEq, Eq, Hash)]
pub struct Needs {
    /// `"`, which can't be in double quotes.
    pub double: Need,
    /// `'`, which can't be in single quotes.
    pub single: Need,
    /// What needs quotes of either kind: whitespace, `<`, `=`, `>` and the grave accent.
    pub other: Need,
}

/// A unit. Of names and bytes without a choice it holds only the length in bytes.
#[derive(Clone, Copy, Debug, PartialEq, Eq, Hash)]
pub enum Unit {
    /// Bytes without a choice.
    Fixed {
        len: u32,
    },
    /// A start tag without attributes. `omits`: it may be omitted; `required_after_omission`: but not directly after an omitted end tag of
    /// a table's section or of `colgroup`; `closes`: it may close itself.
    StartTag {
        len: u32,
        omits: bool,
        required_after_omission: bool,
        closes: bool,
    },
    /// `<` and the name of a tag with attributes.
    TagName {
        len: u32,
    },
    /// An attribute with an empty value.
    BareAttribute {
        len: u32,
    },
    /// The name of an attribute whose value isn't empty, its `=` and what opens the value. `needs` is what the value
    /// needs.
    AttributeName {
        len: u32,
        needs: Needs,
    },
    /// A character. `pair` is the next one in the same text if some name gives the two, else None. `more` says whether
    /// there is a next one.
    Character {
        kind: TextKind,
        c: char,
        pair: Option<char>,
        more: bool,
    },
    /// What closes a value.
    AttributeEnd,
    /// `>`. `closes` says whether the tag may close itself.
    TagClose {
        closes: bool,
    },
    /// An end tag. `omits`: it may be omitted; `notes_omission`: `tbody` and `colgroup` can't be omitted directly after it
    /// then.
    EndTag {
        len: u32,
        omits: bool,
        notes_omission: bool,
    },
}
