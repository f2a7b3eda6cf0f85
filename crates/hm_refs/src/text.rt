//! The text of a name.
ghost use Rattle.std.specs.Prelude.{◌≡◌, string_bytes};

use std::marker::Model;

/// Where the text is kept.
#[derive(Drop)]
enum Held {
    /// In memory: it was read.
    Read(String),
    /// In a constant of the program.
    Ready(&'static str),
}

/// The text of a name. Contracts see the list of its bytes.
#[derive(Drop)]
pub(crate) struct NameText {
    held: Held,
}

impl Model for NameText {
    ghost use Rattle.std.specs.Prelude.{ℕ, List};
    ghost use Rattle.hm_refs.specs.NameTexts.{bytes_of};

    ghost Value = { List ℕ };

    ghost view = { λ text. bytes_of text.held };
}

impl NameText {
    /// A name that was read.
    pub(crate) fn read(text: String) -> NameText
        ensures { result ≡ string_bytes text }
    {
        NameText {
            held: Held::Read(text),
        }
    }

    /// A name of the program's own table.
    pub(crate) fn ready(text: &'static str) -> NameText
        ensures { result ≡ text.now }
    {
        NameText {
            held: Held::Ready(text),
        }
    }

    /// The text.
    pub(crate) fn as_str(&self) -> &str
        ensures { result.now ≡ self.now }
    {
        match &self.held {
            Held::Read(text) => text.as_str(),
            Held::Ready(text) => text,
        }
    }
}
