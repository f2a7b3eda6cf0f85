//! Runs each case of `cases.txt` in memory, prints each that doesn't end as expected, and then how many there are. Does
//! the same for `wrong.txt`, whose cases are all wrong on purpose but the first: each of the others has to be printed.
//!
//! `compare/README.md` describes the form of the file.
#![tactic(auto)]

mod case;
mod escapes;
mod faults;

use case::{Case, CaseVerdict};
use std::alloc::{AllocError, Global};
use std::rt::Files;
use std::{fs, io};

/// The message for a case with this verdict. `wanted` is the expected status.
fn told(alloc: Global, verdict: CaseVerdict, wanted: u8) -> Result<String, AllocError> {
    match verdict {
        CaseVerdict::Agrees => String::from_str(alloc, "as wanted"),
        CaseVerdict::OtherStatus(status) => format!(in alloc; "status {status}, wanted {wanted}"),
        CaseVerdict::OtherOutput => String::from_str(alloc, "other output"),
        CaseVerdict::OtherFile => String::from_str(alloc, "other file"),
        CaseVerdict::NotShown => String::from_str(alloc, "check doesn't say yes"),
        CaseVerdict::NotEnded => String::from_str(alloc, "a call that fails doesn't end the run"),
        CaseVerdict::OtherPrefix(bytes) => {
            format!(in alloc; "another answer for its first {bytes} bytes")
        }
    }
}

/// Prints the message for a case.
fn tell(rt: &impl Print, name: &str, what: &str) -> io::Result<()> {
    println!(rt; "{name}: {what}")
}

/// Runs a case and prints how it differs. Gives whether it does.
fn differs(rt: &impl Print, alloc: Global, case: &mut Case) -> io::Result<bool> {
    let verdict = case.verdict(alloc)?;
    if verdict == CaseVerdict::Agrees {
        return Ok(false);
    }
    let what = told(alloc, verdict, case.status())?;
    tell(rt, case.name(), what.as_str())?;
    Ok(true)
}

/// How many cases were run, and how many of them differ.
#[derive(Drop)]
struct Counts {
    cases: u32,
    differ: u32,
}

impl Counts {
    /// Counts one more case.
    fn take(&mut self, differs: bool) {
        self.cases = self.cases.saturating_add(1);
        if differs {
            self.differ = self.differ.saturating_add(1);
        }
    }
}

/// Runs a case at its last line, and starts another one.
fn end_case(
    rt: &(impl Print + AllocGlobal),
    case: &mut Case,
    counts: &mut Counts,
) -> io::Result<()> {
    counts.take(differs(rt, rt.alloc(), case)?);
    *case = Case::new(rt.alloc());
    Ok(())
}

/// Adds a file of the cases' folder as the table of a case.
fn take_table(rt: &(impl Files + AllocGlobal), case: &mut Case, name: &str) -> io::Result<()> {
    let table = fs::read(rt, name)?;
    case.take_file(rt.alloc(), "table", table.as_slice())
}

/// Adds a line of the file to a case. At the last line of the case it is run, and another one starts.
fn take_line(
    rt: &(impl Print + Files + AllocGlobal),
    case: &mut Case,
    counts: &mut Counts,
    line: &str,
) -> io::Result<()> {
    let (key, rest) = line.split_once(' ').unwrap_or((line, ""));
    match key {
        "end" => end_case(rt, case, counts),
        "file" => take_table(rt, case, rest),
        _ => case.take(rt.alloc(), key, rest),
    }
}

/// Adds the lines of a file.
fn take_lines(
    rt: &(impl Print + Files + AllocGlobal),
    case: &mut Case,
    counts: &mut Counts,
    text: &str,
) -> io::Result<()> {
    for line in text.lines() {
        take_line(rt, case, counts, line)?;
    }
    Ok(())
}

/// Runs the cases of a text, counts them and prints each that differs.
fn count_cases(
    rt: &(impl Print + Files + AllocGlobal),
    counts: &mut Counts,
    text: &str,
) -> io::Result<()> {
    let mut case = Case::new(rt.alloc());
    take_lines(rt, &mut case, counts, text)
}

/// Runs the cases of a file, counts them and prints each that differs.
fn count_in(
    rt: &(impl Print + Files + AllocGlobal),
    counts: &mut Counts,
    file: &str,
) -> io::Result<()> {
    let text = fs::read_to_string(rt, file)?;
    count_cases(rt, counts, text.as_str())
}

/// Prints how many cases of a file were run, and how many differ.
fn tell_counts(rt: &impl Print, file: &str, count: u32, differ: u32) -> io::Result<()> {
    println!(rt; "{file}: {count} cases, {differ} differ")
}

/// Runs the cases of a file, and prints each that differs, and how many there are.
fn run_cases(rt: &(impl Print + Files + AllocGlobal), file: &str) -> io::Result<()> {
    let mut counts = Counts {
        cases: 0,
        differ: 0,
    };
    count_in(rt, &mut counts, file)?;
    tell_counts(rt, file, counts.cases, counts.differ)
}

/// Runs both files of cases.
fn main(rt: HostRuntime) -> io::Result<()> {
    run_cases(&rt, "cases.txt")?;
    run_cases(&rt, "wrong.txt")
}
