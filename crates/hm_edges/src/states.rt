//! The states between two units: where in the markup the text has got to, and what its bytes leave pending.
use hm_refs::Node;

/// Where in the markup the text has got to.
#[derive(Clone, Copy, Debug, Default, PartialEq, Eq)]
pub enum Where {
    /// Outside of tags.
    #[default]
    Outside,
    /// Outside of tags, after the omitted end tag of a table's section or of `colgroup`.
    AfterOmittedEnd,
    /// After a start tag of SVG with a `/`, which ends the element too.
    SelfClosed,
    /// In a tag, after its name or an attribute without value.
    AfterName,
    /// In a tag, after a value without quotes.
    AfterUnquoted,
    /// In a tag, after a value in quotes.
    AfterQuoted,
    /// In a value without quotes.
    InUnquoted,
    /// In a value in double quotes.
    InDouble,
    /// In a value in single quotes.
    InSingle,
    /// In a CDATA section.
    InSection,
}

/// What the last bytes may become together with those that follow. A place in the names of references is a node of the
/// table's trie.
#[derive(Clone, Copy, Debug, Default, PartialEq, Eq)]
pub enum Pending {
    #[default]
    Nothing,
    /// After a `<` that is text.
    LessThan,
    /// After `&#`, whose `&` is text.
    Hash,
    /// After `&#x`, whose `&` is text.
    HashX,
    /// After a decimal reference without `;`.
    Decimal,
    /// After a hexadecimal reference without `;`.
    Hexadecimal,
    /// After `&` and the bytes that lead to the node, where the `&` is text.
    Ampersand { node: Node },
    /// After `&` and the bytes that lead to the node, which start with a name without `;`.
    Named { node: Node },
    /// After a name for two code points, of which the second has still to come. `left` is the name's node if it has no
    /// `;`.
    Half { left: Option<Node> },
    /// After `]` in a section.
    OneBracket,
    /// After `]]` in a section.
    TwoBrackets,
}

/// Where in the markup the text has got to, and what is pending there. Two states of a table that mean the same are
/// equal. The default is the state before the first unit.
#[derive(Clone, Copy, Default, PartialEq, Eq)]
pub struct State {
    pub at: Where,
    pub pending: Pending,
}

/// Where characters are spelled: in ordinary text, in `title` or `textarea`, in an element of SVG, in a value without
/// quotes, in double or in single quotes.
#[derive(Clone, Copy, PartialEq, Eq)]
pub enum Spot {
    Text,
    Rcdata,
    Foreign,
    Unquoted,
    Double,
    Single,
}
