//! The arguments of a call.
ghost use Rattle.std.specs.Prelude.{◌≡◌, ℕ, List, [], ◌∷◌, IfOk, IfSome, IfNone, Some, None, Err, true, false, option_map, fold};
ghost use Rattle.std.specs.List.{list_all};
ghost use Rattle.clap.specs.Walk.{texts};
ghost use Rattle.hm_words.specs.declared.flags.Flag.{Flag};
ghost use Rattle.hm_words.specs.Words as spec;
ghost use Rattle.hm_words.specs.Answers as answers;
ghost use Rattle.hm_words.specs.Answers.{command_of, origin_of, request_of, work_of};
ghost use Rattle.hm_words.specs.Matches.{IsMatched};

use crate::commands::{Action, Source, row_of};
use crate::flags::{Choices, FLAGS, Flag, are_readable};
use crate::line::{is_given, names_of, parse};
use crate::numbers::number_in;
use crate::writing::Writing;
use clap::ArgMatches;
use hm_base::{OwnedText, SpellRules, TreeOptions};
use std::alloc::Global;

/// The most blocks of a page that `measure` makes.
const MOST_BLOCKS: u32 = 20_000;

/// Where the tree of a request comes from, with the names of its files.
#[derive(Clone, Copy)]
pub enum Origin<'w> {
    /// The page in a file, read with a table of names.
    PageAt {
        table: &'w str,
        page: &'w str,
    },
    /// The fragment in a file, read with a table of names.
    FragmentAt {
        table: &'w str,
        page: &'w str,
    },
    /// The tree whose JSON is in a file. The table of names is for the output.
    JsonAt {
        table: &'w str,
        page: &'w str,
    },
    /// The page of `size` blocks that `measure` makes from a number.
    Made {
        table: &'w str,
        number: u32,
        size: u32,
    },
}

/// What is done with the tree, with the names of its files.
#[derive(Clone, Copy)]
pub enum Work<'w> {
    /// It is written in the fewest bytes, with its certificate.
    Minify { out: &'w str, cert: &'w str },
    /// A text of it and a certificate are checked.
    Check { out: &'w str, cert: &'w str },
    /// It is printed.
    Show,
    /// It is printed as JSON.
    TellJson,
    /// Its page is explained: where and why it is refused, or how short its tree can be written.
    Explain,
    /// It is written in the fewest bytes, and what was written is checked in memory.
    Measure,
}

/// A request: where a tree comes from, what is done with it, which rewrites it gets, and how it is written.
#[derive(Clone, Copy)]
pub struct Asked<'w> {
    pub origin: Origin<'w>,
    pub work: Work<'w>,
    pub options: TreeOptions,
    pub writing: Writing,
}

/// Why arguments give no request.
#[derive(Clone, Copy, PartialEq, Eq)]
pub enum WordsFault {
    /// The arguments have no meaning.
    Usage,
    /// No memory could be allocated.
    OutOfMemory,
}

/// Whether the name of a table is no file: `none` or `html`.
fn is_table_word(table: &str) -> bool
    ensures { result ≡ spec.is_table_word table.now }
{
    table == "none" || table == "html"
}

/// Whether two names of files differ. `none` and `html` are no files.
fn are_apart(table: &str, page: &str) -> bool
    ensures { result ≡ spec.are_apart table.now page.now }
{
    is_table_word(table) || table != page
}

/// Whether the names of an origin's files differ. `none` and `html` are no files.
fn is_origin_apart(origin: &Origin<'_>) -> bool
    ensures { result ≡ spec.is_origin_apart (origin_of origin.now) }
{
    match *origin {
        Origin::PageAt { table, page } => are_apart(table, page),
        Origin::FragmentAt { table, page } => are_apart(table, page),
        Origin::JsonAt { table, page } => are_apart(table, page),
        Origin::Made {
            table: _,
            number: _,
            size: _,
        } => true,
    }
}

/// Whether no file of an origin has this name.
fn is_away(origin: &Origin<'_>, name: &str) -> bool
    ensures { result ≡ spec.is_away (origin_of origin.now) name.now }
{
    match *origin {
        Origin::PageAt { table, page } => are_apart(table, name) && page != name,
        Origin::FragmentAt { table, page } => are_apart(table, name) && page != name,
        Origin::JsonAt { table, page } => are_apart(table, name) && page != name,
        Origin::Made {
            table,
            number: _,
            size: _,
        } => are_apart(table, name),
    }
}

/// Whether OUT and CERT differ from each other and from the files of an origin.
fn are_files_apart(origin: &Origin<'_>, out: &str, cert: &str) -> bool
    ensures { result ≡ spec.are_files_apart (origin_of origin.now) out.now cert.now }
{
    is_away(origin, out) && is_away(origin, cert) && out != cert
}

/// Whether the names of a command's files differ. `none` and `html` are no files.
fn is_apart(origin: &Origin<'_>, work: &Work<'_>) -> bool
    ensures { result ≡ spec.is_apart (origin_of origin.now) (work_of work.now) }
{
    is_origin_apart(origin)
        && match *work {
            Work::Minify { out, cert } => are_files_apart(origin, out, cert),
            Work::Check { out, cert } => are_files_apart(origin, out, cert),
            Work::Show => true,
            Work::TellJson => true,
            Work::Explain => true,
            Work::Measure => true,
        }
}

/// The choices without any flag.
const NO_CHOICES: Choices = Choices {
    options: TreeOptions {
        doctype: false,
        comments: false,
        booleans: false,
        empty: false,
        redundant: false,
        space: false,
        conservative: false,
    },
    writing: Writing {
        rules: SpellRules {
            omit: false,
            unquote: false,
            tight: false,
            ascii: false,
            frame: false,
        },
        sparse: false,
        order: false,
    },
};

/// The choices, with what these flags set.
fn chosen(matches: &ArgMatches<'_>, rows: &[Flag]) -> Choices
    requires known { list_all (λ (row : Flag). spec.has spec.flags (spec.dashed row.name.now)) rows.now ≡ true }
    ensures { (words : List (List ℕ)) → IsMatched words matches.now → result ≡ fold (answers.set_by words) spec.no_choices rows.now }
{
    let mut choices = NO_CHOICES;
    for row in rows {
        choices = row.setting.set(is_given(matches, row.name), choices);
    }
    choices
}

/// What the flags set.
#[tactic(auto, unfolding(crate::specs::Words::choices_of, crate::specs::Words::flags))]
fn choices_of(matches: &ArgMatches<'_>) -> Choices
    ensures { (words : List (List ℕ)) → IsMatched words matches.now → result ≡ spec.choices_of words }
{
    chosen(matches, &FLAGS)
}

/// The page that `measure` makes with this table, if the two arguments are numbers in range.
fn made_of<'w>(table: &'w str, number: &str, size: &str) -> Option<Origin<'w>>
    ensures { option_map origin_of result ≡ spec.made_of table.now (spec.number_in 0 4294967295 number.now) (spec.number_in 1 20000 size.now) }
{
    let number = number_in(number, 0, u32::MAX)?;
    let size = number_in(size, 1, MOST_BLOCKS)?;
    Some(Origin::Made {
        table,
        number,
        size,
    })
}

/// The page that `measure` makes, from a table, a number and a size at the start of these arguments, and the arguments
/// after them.
fn number_in_front<'m, 'w>(names: &'m [&'w str]) -> Option<(Origin<'w>, &'m [&'w str])>
    ensures { option_map (λ o. (origin_of o.0, texts o.1.now)) result ≡ spec.origin_in Source.Number (texts names.now) }
{
    match names {
        [table, number, size, rest @ ..] => {
            let origin = made_of(table, number, size)?;
            Some((origin, rest))
        }
        _ => None,
    }
}

/// The origin at the start of these arguments, and the arguments after it.
fn origin_in<'m, 'w>(source: Source, names: &'m [&'w str]) -> Option<(Origin<'w>, &'m [&'w str])>
    ensures { option_map (λ o. (origin_of o.0, texts o.1.now)) result ≡ spec.origin_in source (texts names.now) }
{
    match source {
        Source::Page => match names {
            [table, page, rest @ ..] => Some((Origin::PageAt { table, page }, rest)),
            _ => None,
        },
        Source::Fragment => match names {
            [table, page, rest @ ..] => Some((Origin::FragmentAt { table, page }, rest)),
            _ => None,
        },
        Source::Json => match names {
            [table, page, rest @ ..] => Some((Origin::JsonAt { table, page }, rest)),
            _ => None,
        },
        Source::Number => number_in_front(names),
    }
}

/// The work that these arguments ask for. They are all that are left.
fn work_in<'w>(deed: Action, names: &[&'w str]) -> Option<Work<'w>>
    ensures { option_map work_of result ≡ spec.work_in deed (texts names.now) }
{
    match deed {
        Action::Minify => match names {
            [out, cert] => Some(Work::Minify { out, cert }),
            _ => None,
        },
        Action::Check => match names {
            [out, cert] => Some(Work::Check { out, cert }),
            _ => None,
        },
        Action::Show => match names {
            [] => Some(Work::Show),
            _ => None,
        },
        Action::TellJson => match names {
            [] => Some(Work::TellJson),
            _ => None,
        },
        Action::Explain => match names {
            [] => Some(Work::Explain),
            _ => None,
        },
        Action::Measure => match names {
            [] => Some(Work::Measure),
            _ => None,
        },
    }
}

/// The command of a row, from the arguments after its name.
fn command_by<'w>(source: Source, deed: Action, names: &[&'w str]) -> Option<(Origin<'w>, Work<'w>)>
    ensures { option_map command_of result ≡ spec.command_by (Some (source, deed)) (texts names.now) }
{
    let (origin, rest) = origin_in(source, names)?;
    let work = work_in(deed, rest)?;
    Some((origin, work))
}

/// The command of the arguments that are no flags.
fn command_in<'w>(names: &[&'w str]) -> Option<(Origin<'w>, Work<'w>)>
    ensures { option_map command_of result ≡ spec.command_in (texts names.now) }
{
    match names {
        [] => None,
        [name, rest @ ..] => {
            let (source, deed) = row_of(name)?;
            command_by(source, deed, rest)
        }
    }
}

/// Whether `--conservative` is given only together with `--space`.
#[tactic(auto, unfolding(crate::specs::Words::flags))]
fn is_guarded(matches: &ArgMatches<'_>) -> bool
    ensures { (words : List (List ℕ)) → IsMatched words matches.now → result ≡ answers.is_guarded words }
{
    !is_given(matches, "conservative") || is_given(matches, "space")
}

/// Whether the tree is that of a fragment.
fn is_fragment(origin: &Origin<'_>) -> bool
    ensures { result ≡ spec.is_fragment (origin_of origin.now) }
{
    matches!(*origin, Origin::FragmentAt { table: _, page: _ })
}

/// Whether the tree is that of a page that `measure` makes.
fn is_made(origin: &Origin<'_>) -> bool
    ensures { result ≡ spec.is_made (origin_of origin.now) }
{
    matches!(
        *origin,
        Origin::Made {
            table: _,
            number: _,
            size: _
        }
    )
}

/// Whether the flags are allowed with the command. Each is with most; but a fragment needs `--omit`, and `measure`
/// doesn't take `--order`.
#[tactic(auto, unfolding(crate::specs::Words::flags))]
fn fits(command: &(Origin<'_>, Work<'_>), matches: &ArgMatches<'_>) -> bool
    ensures { (words : List (List ℕ)) → IsMatched words matches.now → result ≡ spec.fits (command_of command.now) words }
{
    (!is_fragment(&command.0) || is_given(matches, "omit"))
        && (!is_made(&command.0) || !is_given(matches, "order"))
}

/// How the tree of an origin is written: the start tag of `body` isn't omitted for a fragment.
fn written_of(origin: &Origin<'_>, writing: Writing) -> Writing
    ensures { result ≡ spec.written_of (origin_of origin.now) writing }
{
    let mut writing = writing;
    writing.rules.frame = is_fragment(origin);
    writing
}

/// What the arguments of these matches ask for, if they have a meaning.
#[tactic(auto, using(crate::proofs::Meanings::asked_is))]
fn asked_in<'w>(matches: &ArgMatches<'w>) -> Option<Asked<'w>>
    ensures asked { (words : List (List ℕ)) → answers.are_readable words ≡ true → IsMatched words matches.now → option_map request_of result ≡ spec.asked words }
    ensures apart { IfSome result (λ a. spec.is_apart (origin_of a.origin) (work_of a.work) ≡ true) }
{
    if !is_guarded(matches) {
        return None;
    }
    let command = command_in(names_of(matches)?)?;
    let (origin, work) = command;
    if !is_apart(&origin, &work) || !fits(&command, matches) {
        return None;
    }
    let choices = choices_of(matches);
    Some(Asked {
        origin,
        work,
        options: choices.options,
        writing: written_of(&origin, choices.writing),
    })
}

impl<'w> Asked<'w> {
    /// What the arguments ask for. This may fail with `OutOfMemory` also for arguments without a meaning.
    #[tactic(auto, using(crate::proofs::Meanings::not_asked))]
    pub fn read(alloc: Global, words: &'w [OwnedText]) -> Result<Asked<'w>, WordsFault>
        ensures ok { IfOk result (λ a. spec.asked words.now ≡ Some (request_of a)) }
        ensures apart { IfOk result (λ a. spec.is_apart (origin_of a.origin) (work_of a.work) ≡ true) }
        ensures usage { result ≡ Err WordsFault.Usage → spec.asked words.now ≡ None }
    {
        if !are_readable(words) {
            return Err(WordsFault::Usage);
        }
        let Ok(matches) = parse(alloc, words) else {
            return Err(WordsFault::OutOfMemory);
        };
        asked_in(&matches).ok_or(WordsFault::Usage)
    }
}
