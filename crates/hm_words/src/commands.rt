//! The table of commands.
ghost use Rattle.std.specs.Prelude.{◌≡◌};
ghost use Rattle.hm_words.specs.Words as spec;

/// Where the tree of a command comes from.
#[derive(Clone, Copy, PartialEq, Eq)]
pub enum Source {
    /// A page in a file.
    Page,
    /// A fragment in a file.
    Fragment,
    /// The JSON of a tree in a file.
    Json,
    /// The page that `measure` makes from a number.
    Number,
}

/// What a command does with its tree.
#[derive(Clone, Copy, PartialEq, Eq)]
pub enum Action {
    /// It is written in the fewest bytes, with its certificate.
    Minify,
    /// A text of it and a certificate are checked.
    Check,
    /// It is printed.
    Show,
    /// It is printed as JSON.
    TellJson,
    /// Its page is explained: where and why it is refused, or how short its tree can be written.
    Explain,
    /// It is written in the fewest bytes, and what was written is checked in memory.
    Measure,
}

/// The command of this name, if there is one. A new command is one more row here.
pub fn row_of(name: &str) -> Option<(Source, Action)>
    ensures { result ≡ spec.row_of name.now }
{
    if name == "minify" {
        Some((Source::Page, Action::Minify))
    } else if name == "check" {
        Some((Source::Page, Action::Check))
    } else if name == "fragment" {
        Some((Source::Fragment, Action::Minify))
    } else if name == "checkfragment" {
        Some((Source::Fragment, Action::Check))
    } else if name == "tree" {
        Some((Source::Page, Action::Show))
    } else if name == "json" {
        Some((Source::Page, Action::TellJson))
    } else if name == "explain" {
        Some((Source::Page, Action::Explain))
    } else if name == "minifyjson" {
        Some((Source::Json, Action::Minify))
    } else if name == "measure" {
        Some((Source::Number, Action::Measure))
    } else {
        None
    }
}
