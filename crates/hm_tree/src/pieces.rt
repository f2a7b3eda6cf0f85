//! Pieces of the text of a table, and attributes as such pieces.
ghost use Rattle.std.specs.Prelude.{◌≡◌};
ghost use Rattle.hm_tree.specs.Pairs.{HasPair, pieces_of};
ghost use Rattle.hm_tree.specs.Pieces.{IsPiece, bytes_of, name_of, value_of};
ghost use Rattle.hm_tree.specs.Starts.{name_from};

/// The bytes of a text from one place up to another.
#[derive(Clone, Copy)]
pub(crate) struct TextRange {
    pub(crate) from: u32,
    pub(crate) to: u32,
}

/// The place of an attribute in the table's text: its name from the first byte up to the second, and its value from
/// there up to the third.
#[derive(Clone, Copy)]
pub(crate) struct AttributePieces {
    pub(crate) from: u32,
    pub(crate) middle: u32,
    pub(crate) to: u32,
}

impl AttributePieces {
    /// The place of the name.
    pub(crate) fn name(self) -> TextRange
        ensures { result ≡ name_of self }
    {
        TextRange {
            from: self.from,
            to: self.middle,
        }
    }

    /// The place of the value.
    pub(crate) fn value(self) -> TextRange
        ensures { result ≡ value_of self }
    {
        TextRange {
            from: self.middle,
            to: self.to,
        }
    }
}

/// The place of an attribute of a tag in the text of the tag's attributes: as `AttributePieces`.
#[derive(Clone, Copy)]
pub(crate) struct Pair {
    pub(crate) from: usize,
    pub(crate) middle: usize,
    pub(crate) to: usize,
}

/// The bytes of a piece.
pub(crate) fn cut(text: &str, piece: TextRange) -> &str
    requires { IsPiece text.now piece }
    ensures { result.now ≡ bytes_of text.now piece }
{
    &text[piece.from as usize..piece.to as usize]
}

/// The bytes of a name of `len` bytes that starts at byte `from`.
pub(crate) fn cut_short(text: &str, from: u32, len: u8) -> &str
    requires { IsPiece text.now (name_from from len) }
    ensures { result.now ≡ bytes_of text.now (name_from from len) }
{
    let from = from as usize;
    &text[from..from + usize::from(len)]
}

/// The name of an attribute.
pub(crate) fn name_in(text: &str, pair: Pair) -> &str
    requires { HasPair text.now pair }
    ensures { result.now ≡ bytes_of text.now (name_of (pieces_of pair)) }
{
    &text[pair.from..pair.middle]
}

/// The value of an attribute.
pub(crate) fn value_in(text: &str, pair: Pair) -> &str
    requires { HasPair text.now pair }
    ensures { result.now ≡ bytes_of text.now (value_of (pieces_of pair)) }
{
    &text[pair.middle..pair.to]
}
