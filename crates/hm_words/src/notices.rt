//! Notices: what the program prints about itself.
ghost use Rattle.std.specs.Prelude.{◌≡◌, IfSome, None};
ghost use Rattle.hm_words.specs.Words as spec;

use hm_base::OwnedText;

/// What the program prints about itself.
#[derive(Clone, Copy, PartialEq, Eq)]
pub enum Notice {
    /// How to call it.
    Help,
    /// Its version, and the toolchain that it was proved with.
    Version,
}

/// The notice that an argument asks for. A new one is one more row here.
fn notice_of(word: &str) -> Option<Notice>
    ensures { result ≡ spec.notice_of word.now }
{
    if word == "help" {
        Some(Notice::Help)
    } else if word == "--help" {
        Some(Notice::Help)
    } else if word == "-h" {
        Some(Notice::Help)
    } else if word == "version" {
        Some(Notice::Version)
    } else if word == "--version" {
        Some(Notice::Version)
    } else if word == "-V" {
        Some(Notice::Version)
    } else {
        None
    }
}

/// The notice that the arguments ask for: there is exactly one, and the table of notices has it.
pub fn notice_in(words: &[OwnedText]) -> Option<Notice>
    ensures notice { result ≡ spec.notice_in words.now }
    ensures unasked { IfSome result (λ _. spec.asked words.now ≡ None) }
{
    match words {
        [word] => notice_of(word.text.as_str()),
        _ => None,
    }
}
