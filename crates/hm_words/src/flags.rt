//! The flags among the arguments.
ghost use Rattle.std.specs.Prelude.{◌≡◌};
ghost use Rattle.std.specs.Str.{bytes_eq};
ghost use Rattle.hm_words.specs.Words as spec;
ghost use Rattle.hm_words.specs.Words.{dashed};
ghost use Rattle.hm_words.specs.Answers as answers;

use crate::writing::Writing;
use hm_base::{OwnedText, TreeOptions};

/// What a flag sets.
#[derive(Clone, Copy, PartialEq, Eq)]
pub enum Setting {
    Comments,
    Booleans,
    Empty,
    Redundant,
    Doctype,
    Space,
    Conservative,
    Omit,
    Unquote,
    Tight,
    Ascii,
    Sparse,
    Order,
}

/// A flag: its name, without the two hyphens before it, and what it sets.
#[derive(Clone, Copy, PartialEq, Eq)]
pub struct Flag {
    pub name: &'static str,
    pub setting: Setting,
}

/// The table of flags. A new flag is one more row.
pub const FLAGS: [Flag; 13] = [
    Flag {
        name: "comments",
        setting: Setting::Comments,
    },
    Flag {
        name: "booleans",
        setting: Setting::Booleans,
    },
    Flag {
        name: "empty",
        setting: Setting::Empty,
    },
    Flag {
        name: "redundant",
        setting: Setting::Redundant,
    },
    Flag {
        name: "doctype",
        setting: Setting::Doctype,
    },
    Flag {
        name: "space",
        setting: Setting::Space,
    },
    Flag {
        name: "conservative",
        setting: Setting::Conservative,
    },
    Flag {
        name: "omit",
        setting: Setting::Omit,
    },
    Flag {
        name: "unquote",
        setting: Setting::Unquote,
    },
    Flag {
        name: "tight",
        setting: Setting::Tight,
    },
    Flag {
        name: "ascii",
        setting: Setting::Ascii,
    },
    Flag {
        name: "sparse",
        setting: Setting::Sparse,
    },
    Flag {
        name: "order",
        setting: Setting::Order,
    },
];

/// What all flags set.
#[derive(Clone, Copy, PartialEq, Eq)]
pub struct Choices {
    pub options: TreeOptions,
    pub writing: Writing,
}

impl Setting {
    /// The choices with this one set if `given`, and unset if not.
    pub fn set(self, given: bool, choices: Choices) -> Choices
        ensures { result ≡ spec.set self given choices }
    {
        let Choices {
            mut options,
            mut writing,
        } = choices;
        match self {
            Setting::Comments => options.comments = given,
            Setting::Booleans => options.booleans = given,
            Setting::Empty => options.empty = given,
            Setting::Redundant => options.redundant = given,
            Setting::Doctype => options.doctype = given,
            Setting::Space => options.space = given,
            Setting::Conservative => options.conservative = given,
            Setting::Omit => writing.rules.omit = given,
            Setting::Unquote => writing.rules.unquote = given,
            Setting::Tight => writing.rules.tight = given,
            Setting::Ascii => writing.rules.ascii = given,
            Setting::Sparse => writing.sparse = given,
            Setting::Order => writing.order = given,
        }
        Choices { options, writing }
    }
}

/// Whether an argument starts with `-`.
fn is_flag(word: &str) -> bool
    ensures { result ≡ spec.is_flag word.now }
{
    match word.as_bytes() {
        [] => false,
        [first, ..] => *first == b'-',
    }
}

/// Whether an argument is the flag of this name.
fn is_word_of(name: &str, word: &str) -> bool
    ensures { result ≡ bytes_eq word.now (dashed name.now) }
{
    match word.as_bytes() {
        [b'-', b'-', rest @ ..] => rest == name.as_bytes(),
        _ => false,
    }
}

/// Whether an argument is this flag.
#[tactic(auto, using(crate::proofs::Walks::bytes_flip))]
fn has_word(flag: &Flag, word: &str) -> bool
    ensures { result ≡ bytes_eq (dashed flag.now.name.now) word.now }
{
    is_word_of(flag.name, word)
}

/// Whether an argument is one of these flags.
fn is_one_of(word: &str, flags: &[Flag]) -> bool
    ensures { result ≡ answers.is_one_of flags.now word.now }
{
    flags.iter().any(|flag| has_word(flag, word))
}

/// Whether no argument is empty.
fn are_filled(words: &[OwnedText]) -> bool
    ensures { result ≡ spec.are_filled words.now }
{
    words.iter().all(|word| !word.text.as_str().is_empty())
}

/// Whether each argument that starts with `-` is one of these flags.
fn are_known(words: &[OwnedText], flags: &[Flag]) -> bool
    ensures { result ≡ answers.are_known flags.now words.now }
{
    words.iter().all(|word| !is_flag(word.text.as_str()) || is_one_of(word.text.as_str(), flags))
}

/// Whether the flag of this name is given at most once.
fn is_single(words: &[OwnedText], name: &str) -> bool
    ensures { result ≡ spec.is_single words.now (dashed name.now) }
{
    words
        .iter()
        .filter(|word| is_word_of(name, word.text.as_str()))
        .count()
        <= 1
}

/// Whether each of these flags is given at most once.
fn are_single(words: &[OwnedText], flags: &[Flag]) -> bool
    ensures { result ≡ answers.are_single flags.now words.now }
{
    flags.iter().all(|flag| is_single(words, flag.name))
}

/// Whether no argument is empty, and each that starts with `-` is one of the flags, given at most once. The command
/// line takes exactly such arguments; no others have a meaning.
#[tactic(auto, unfolding(crate::specs::Words::flags))]
pub fn are_readable(words: &[OwnedText]) -> bool
    ensures { result ≡ answers.are_readable words.now }
{
    are_filled(words) && are_known(words, &FLAGS) && are_single(words, &FLAGS)
}
