//! Explains on standard error why arguments were rejected. Nothing is proved of it: `Asked::read` decides which have a
//! meaning.
use crate::commands::{Action, Source, row_of};
use crate::flags::FLAGS;
use hm_base::OwnedText;
use std::alloc::{AllocError, Global};

/// Whether an argument starts with `-`.
fn is_flag(word: &str) -> bool {
    word.starts_with('-')
}

/// Whether an argument is a flag.
fn is_known(word: &str) -> bool {
    FLAGS
        .iter()
        .any(|flag| word.strip_prefix("--") == Some(flag.name))
}

/// How often an argument is given.
fn count(words: &[OwnedText], wanted: &str) -> usize {
    words
        .iter()
        .filter(|word| word.text.as_str() == wanted)
        .count()
}

/// What is wrong with the flags, if anything.
fn flag_fault(alloc: Global, words: &[OwnedText]) -> Result<Option<String>, AllocError> {
    for word in words {
        let text = word.text.as_str();
        if text.is_empty() {
            return Ok(Some(String::from_str(alloc, "a word is empty")?));
        }
        if is_flag(text) && !is_known(text) {
            return Ok(Some(format!(in alloc; "'{text}' is no flag")?));
        }
        if is_flag(text) && count(words, text) > 1 {
            return Ok(Some(format!(in alloc; "'{text}' stands twice")?));
        }
    }
    if count(words, "--conservative") > 0 && count(words, "--space") == 0 {
        return Ok(Some(String::from_str(alloc, "'--conservative' needs '--space'")?));
    }
    Ok(None)
}

/// The arguments of a command after its name, as the help shows them, and their number.
fn wanted(source: Source, deed: Action) -> (&'static str, usize) {
    match (source, deed) {
        (Source::Number, _) => ("TABLE NUMBER SIZE", 3),
        (_, Action::Minify | Action::Check) => ("TABLE PAGE OUT CERT", 4),
        _ => ("TABLE PAGE", 2),
    }
}

/// What is wrong with the arguments after a command's name.
fn command_fault(
    alloc: Global,
    words: &[OwnedText],
    name: &str,
    source: Source,
    deed: Action,
    count_after: usize,
) -> Result<String, AllocError> {
    let (names, count_wanted) = wanted(source, deed);
    if count_after != count_wanted {
        return format!(in alloc;
            "'{name}' wants {names}, {count_wanted} words and not {count_after}"
        );
    }
    match source {
        Source::Number if count(words, "--order") > 0 => {
            format!(in alloc; "'{name}' takes no '--order'")
        }
        Source::Number => String::from_str(
            alloc,
            "NUMBER is at most 4294967295 and SIZE from 1 to 20000, in digits without leading zeros",
        ),
        Source::Fragment if count(words, "--omit") == 0 => {
            format!(in alloc; "'{name}' needs '--omit'")
        }
        _ => format!(in alloc; "two of {names} have one name"),
    }
}

/// Why arguments were rejected: the one that has no meaning, or what is missing.
pub fn usage_fault(alloc: Global, words: &[OwnedText]) -> Result<String, AllocError> {
    if let Some(fault) = flag_fault(alloc, words)? {
        return Ok(fault);
    }
    let mut names = words.iter().filter(|word| !is_flag(word.text.as_str()));
    let Some(command) = names.next() else {
        return String::from_str(alloc, "there is no command");
    };
    let name = command.text.as_str();
    match row_of(name) {
        None => format!(in alloc; "'{name}' is no command, or doesn't stand alone"),
        Some((source, deed)) => command_fault(alloc, words, name, source, deed, names.count()),
    }
}
