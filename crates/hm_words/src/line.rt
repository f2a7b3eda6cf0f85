//! The command line: its flags, and then names.
ghost use Rattle.std.specs.Prelude.{◌≡◌, ℕ, List, [], IfOk, IfErr, IfSome, IfNone, true, false, fold};
ghost use Rattle.clap.specs.Words.{app_of, rule_of};
ghost use Rattle.clap.specs.Walk.{texts};
ghost use Rattle.clap.specs.Values.{kind_of};
ghost use Rattle.hm_words.specs.Answers as answers;
ghost use Rattle.hm_words.specs.Matches as spec;
ghost use Rattle.hm_words.specs.Matches.{IsMatched};
ghost use Rattle.hm_words.specs.declared.flags.Flag.{Flag};
ghost use Rattle.hm_words.specs.Words.{dashed, flags, has, names_in};

use crate::flags::{FLAGS, Flag};
use clap::error::ErrorKind;
use clap::{Arg, ArgAction, ArgMatches, Command, Error};
use hm_base::OwnedText;
use std::alloc::{AllocError, Global};

/// Shortens the lifetime of a static name.
fn lent<'t>(name: &'static str) -> &'t str
    ensures { result.now ≡ name.now }
{
    name
}

/// A flag of this name.
fn flag<'t>(alloc: Global, name: &'t str) -> Arg<'t>
    ensures rule { rule_of result ≡ spec.flag_rule name.now }
    ensures local { result.global ≡ false }
{
    Arg::new(alloc, name).long(name).action(ArgAction::SetTrue)
}

/// A command without arguments, help or version. The arguments don't start with the program's name.
fn bare_line<'t>(alloc: Global) -> Command<'t>
    ensures { app_of result ≡ spec.bare_line }
{
    Command::new(alloc, "hminify")
        .no_binary_name(true)
        .disable_help_flag(true)
        .disable_version_flag(true)
}

/// A command with one more flag.
fn with_flag<'t>(alloc: Global, command: Command<'t>, row: &Flag) -> Result<Command<'t>, AllocError>
    ensures { IfOk result (λ made. app_of made ≡ spec.with_flag (app_of command.entry) row.now.name.now) }
{
    command.arg(flag(alloc, lent(row.name)))
}

/// A command with these flags.
fn with_flags<'t>(
    alloc: Global,
    command: Command<'t>,
    rows: &[Flag],
) -> Result<Command<'t>, AllocError>
    ensures { IfOk result (λ made. app_of made ≡ fold (λ app (row : Flag). spec.with_flag app row.name.now) (app_of command.entry) rows.now) }
{
    let mut command = command;
    for row in rows {
        command = with_flag(alloc, command, row)?;
    }
    Ok(command)
}

/// The command line: each flag, and any number of names.
fn line<'t>(alloc: Global) -> Result<Command<'t>, AllocError>
    ensures { IfOk result (λ command. app_of command ≡ spec.line) }
{
    with_flags(alloc, bare_line(alloc), &FLAGS)?.arg(Arg::new(alloc, "names").action(
        ArgAction::Append,
    ))
}

/// The matches of clap for arguments that can be read. The only error is lack of memory.
pub fn parse<'w>(alloc: Global, words: &'w [OwnedText]) -> Result<ArgMatches<'w>, Error>
    requires readable { answers.are_readable words.now ≡ true }
    ensures ok { IfOk result (IsMatched words.now) }
    ensures memory { IfErr result (λ error. kind_of error ≡ ErrorKind.OutOfMemory) }
{
    line(alloc)?.try_get_matches_from(words)
}

/// Whether the flag of this name is among the arguments.
pub fn is_given(matches: &ArgMatches<'_>, name: &str) -> bool
    ensures { (words : List (List ℕ)) → IsMatched words matches.now → has flags (dashed name.now) ≡ true → result ≡ has words (dashed name.now) }
{
    matches.get_flag(name)
}

/// The arguments that are no flags, in their order, if there are any.
pub fn names_of<'m, 't>(matches: &'m ArgMatches<'t>) -> Option<&'m [&'t str]>
    ensures some { (words : List (List ℕ)) → IsMatched words matches.now → IfSome result (λ names. texts names.now ≡ names_in words) }
    ensures none { (words : List (List ℕ)) → IsMatched words matches.now → IfNone result (names_in words ≡ []) }
{
    matches.get_strs("names")
}
