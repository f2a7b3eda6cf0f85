//! Tokens and the faults of scans.
ghost use Rattle.std.specs.Prelude.{◌≡◌, [], string_bytes};
ghost use Rattle.hm_tree.specs.Lexemes.{spanned_of, token_of};
ghost use Rattle.hm_tree.specs.declared.tokens.Lexeme.TheVariants as lexemes;

use crate::Attrs;
use hm_base::{OutOfMemory, OwnedText, Points};
use std::alloc::{AllocError, AllocFailed, Global};
use thiserror::Error;

/// A token of the tokenization stage (HTML Standard, #tokenization).
#[derive(Drop)]
pub enum Token {
    Doctype {
        legacy: bool,
    },
    StartTag {
        name: OwnedText,
        attrs: Attrs,
        slash: bool,
    },
    EndTag {
        name: OwnedText,
    },
    /// The bytes from `from` up to `to` of the source text.
    Slice {
        from: u32,
        to: u32,
    },
    /// The code points of a character reference.
    Points {
        points: Points,
    },
    /// A comment whose text is the bytes from `from` up to `to` of the source text.
    Comment {
        from: u32,
        to: u32,
    },
}

/// A token, with the bytes of the source text that it was read from.
#[derive(Drop)]
pub struct Spanned {
    pub token: Token,
    pub from: u32,
    pub to: u32,
}

/// The name and the attributes of a tag. It is used again for each tag.
#[derive(Drop)]
pub struct Tag {
    pub name: String,
    pub attrs: Attrs,
}

impl Tag {
    /// No name and no attributes. It allocates nothing until a tag is put there.
    pub fn new(alloc: Global) -> Tag
        ensures name { string_bytes result.name ≡ [] }
        ensures attrs { result.attrs ≡ [] }
    {
        Tag {
            name: String::new(alloc),
            attrs: Attrs::new(alloc),
        }
    }

    /// The start tag with this name and these attributes.
    #[inline(always)]
    fn start(self, slash: bool) -> Token
        ensures { result ≡ token_of (lexemes.StartTag slash) self }
    {
        let Tag { name, attrs } = self;
        Token::StartTag {
            name: OwnedText { text: name },
            attrs,
            slash,
        }
    }

    /// The end tag with this name.
    #[inline(always)]
    fn end(self) -> Token
        ensures { result ≡ token_of lexemes.EndTag self }
    {
        let Tag { name, .. } = self;
        Token::EndTag {
            name: OwnedText { text: name },
        }
    }
}

/// A token. The name and the attributes of a tag are in a [`Tag`] beside it.
#[derive(Clone, Copy)]
pub enum Lexeme {
    Doctype { legacy: bool },
    StartTag { slash: bool },
    EndTag,
    /// The bytes from `from` up to `to` of the source text.
    Slice { from: u32, to: u32 },
    /// The code points of a character reference.
    Points { points: Points },
    /// A comment whose text is the bytes from `from` up to `to` of the source text.
    Comment { from: u32, to: u32 },
}

impl Lexeme {
    /// A token without its tag. The name and the attributes of a tag are put into `tag`. For any other token `tag` is
    /// unchanged.
    pub fn of(token: Token, tag: &mut Tag) -> Lexeme
        ensures { token_of result tag.new ≡ token }
    {
        match token {
            Token::Doctype { legacy } => Lexeme::Doctype { legacy },
            Token::StartTag { name, attrs, slash } => {
                tag.name = name.text;
                tag.attrs = attrs;
                Lexeme::StartTag { slash }
            }
            Token::EndTag { name } => {
                tag.name = name.text;
                Lexeme::EndTag
            }
            Token::Slice { from, to } => Lexeme::Slice { from, to },
            Token::Points { points } => Lexeme::Points { points },
            Token::Comment { from, to } => Lexeme::Comment { from, to },
        }
    }

    /// The token. A tag takes over the name and the attributes of `tag`.
    pub fn token(self, tag: Tag) -> Token
        ensures { result ≡ token_of self tag }
    {
        // So `tag` is dropped once, after the match, if no token takes it over.
        let token = match self {
            Lexeme::StartTag { slash } => return tag.start(slash),
            Lexeme::EndTag => return tag.end(),
            Lexeme::Doctype { legacy } => Token::Doctype { legacy },
            Lexeme::Slice { from, to } => Token::Slice { from, to },
            Lexeme::Points { points } => Token::Points { points },
            Lexeme::Comment { from, to } => Token::Comment { from, to },
        };
        token
    }
}

/// A token whose tag is in a [`Tag`] beside it, with the bytes of the source text that it was read from.
#[derive(Clone, Copy)]
pub struct Placed {
    pub lexeme: Lexeme,
    pub from: u32,
    pub to: u32,
}

impl Placed {
    /// The token with its bytes. A tag takes over the name and the attributes of `tag`.
    pub fn spanned(self, tag: Tag) -> Spanned
        ensures { result ≡ spanned_of self tag }
    {
        Spanned {
            token: self.lexeme.token(tag),
            from: self.from,
            to: self.to,
        }
    }
}

/// Why a construct isn't allowed.
#[derive(Clone, Copy, Debug, PartialEq, Eq, Error)]
pub enum ScanFault {
    #[error("the text ends inside the construct")]
    Cut,
    #[error("a tag or attribute name that isn't read")]
    BadName,
    /// Repeated ones are counted.
    #[error("more attributes in one tag than the limit")]
    TooManyAttributes,
    #[error("a doctype of another form")]
    BadDoctype,
    #[error("memory was refused")]
    OutOfMemory,
}

impl From<AllocError> for ScanFault {
    ghost use Rattle.std.specs.Prelude.{◌≡◌};
    ghost use Rattle.hm_tree.specs.declared.tokens.ScanFault.{ScanFault};
    ghost use Rattle.hm_tree.specs.declared.tokens.ScanFault.TheVariants.{OutOfMemory};

    ghost from_gives = { λ _ fault. fault ≡ OutOfMemory };

    fn from(_error: AllocError) -> Self {
        ScanFault::OutOfMemory
    }
}

impl<T: Drop> From<AllocFailed<T>> for ScanFault {
    ghost use Rattle.std.specs.Prelude.{◌≡◌};
    ghost use Rattle.hm_tree.specs.declared.tokens.ScanFault.{ScanFault};
    ghost use Rattle.hm_tree.specs.declared.tokens.ScanFault.TheVariants.{OutOfMemory};

    ghost from_gives = { λ _ fault. fault ≡ OutOfMemory };

    fn from(_error: AllocFailed<T>) -> Self {
        ScanFault::OutOfMemory
    }
}

impl From<OutOfMemory> for ScanFault {
    ghost use Rattle.std.specs.Prelude.{◌≡◌};
    ghost use Rattle.hm_tree.specs.declared.tokens.ScanFault.{ScanFault};
    ghost use Rattle.hm_tree.specs.declared.tokens.ScanFault.TheVariants.{OutOfMemory};

    ghost from_gives = { λ _ fault. fault ≡ OutOfMemory };

    fn from(_error: OutOfMemory) -> Self {
        ScanFault::OutOfMemory
    }
}
