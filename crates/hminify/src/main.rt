//! The program: `main` calls `run` of `hm_minify` over real files. Its arguments are `minify TABLE PAGE OUT CERT`, or
//! `check`, `fragment`, `checkfragment` or `minifyjson` with the same names, `tree TABLE PAGE`, or `json` or `explain`
//! with the same, or `measure TABLE NUMBER SIZE`, and flags; or `help` or `version` alone. What went wrong is printed
//! on standard error.
#![tactic(auto)]

use hm_base::{CERTIFICATE_LIMIT, OwnedText};
use hm_minify::{Status, run};
use hm_store::{FileStore, WriteSink};
use hm_words::usage_fault;
use std::alloc::{AllocError, Global};
use std::io::ErrorKind;
use std::process::ExitCode;
use std::rt::Env;
use std::{env, io};

/// Why the arguments couldn't be read.
enum NoWords {
    Unknown,
    OutOfMemory,
}

/// The arguments after the program's name.
fn words<R: Env + AllocGlobal>(rt: &R) -> Result<Vec<OwnedText>, NoWords> {
    let mut words = Vec::new(rt.alloc());
    match env::args(rt) {
        Ok(args) => {
            for text in args.skip(1) {
                match words.push(OwnedText { text }) {
                    Ok(()) => {}
                    Err(_) => return Err(NoWords::OutOfMemory),
                }
            }
            Ok(words)
        }
        Err(error) => match error.kind() {
            ErrorKind::OutOfMemory => Err(NoWords::OutOfMemory),
            _ => Err(NoWords::Unknown),
        },
    }
}

/// Why a call failed, as the system says it, without the number of the error.
fn reason(alloc: Global, error: io::Error) -> Result<String, AllocError> {
    let text = format!(in alloc; "{error}")?;
    let words = text.as_str();
    match words.split_once(" (os error ") {
        Some((front, _number)) => String::from_str(alloc, front),
        None => String::from_str(alloc, words),
    }
}

/// The message for a failed system call.
fn call_fault(
    alloc: Global,
    name: Option<&str>,
    error: Option<io::Error>,
) -> Result<Option<String>, AllocError> {
    match (name, error) {
        (Some(name), Some(error)) => {
            let words = reason(alloc, error)?;
            let words = words.as_str();
            Ok(Some(format!(in alloc; "{name}: {words}")?))
        }
        _ => Ok(None),
    }
}

/// Whether a `no` means that rules, trees or layers differ. `begin` is its first four bytes.
fn is_of_flags(begin: Option<[u8; 4]>) -> bool {
    match begin {
        Some(begin) => {
            begin[0] == b'n'
                && begin[1] == b'o'
                && begin[2] == b' '
                && matches!(begin[3], b'1' | b'3' | b'4' | b'5')
        }
        None => false,
    }
}

/// Whether the arguments ask for a certificate to be written.
fn writes(words: &[OwnedText]) -> bool {
    match words
        .iter()
        .find(|word| !word.text.as_str().starts_with('-'))
    {
        Some(word) => matches!(word.text.as_str(), "minify" | "fragment" | "minifyjson"),
        None => false,
    }
}

/// The message for a written certificate that is larger than `check` reads.
fn size_fault(
    alloc: Global,
    words: &[OwnedText],
    name: Option<&str>,
    bytes: u64,
) -> Result<Option<String>, AllocError> {
    match name {
        Some(name) if writes(words) && bytes > u64::from(CERTIFICATE_LIMIT) => Ok(Some(
            format!(in alloc;
                "{name}: {bytes} bytes, and the check reads at most {CERTIFICATE_LIMIT}"
            )?,
        )),
        _ => Ok(None),
    }
}

/// Runs the program on real files, and returns its exit status.
fn main(rt: HostRuntime) -> ExitCode {
    let alloc = rt.alloc();
    match words(&rt) {
        Ok(words) => {
            let mut store = FileStore::new(alloc, &rt);
            let mut sink = WriteSink::new(io::writer(&rt));
            let status = run(alloc, words.as_slice(), &mut store, &mut sink);
            let told = match status {
                Status::Done => size_fault(
                    alloc,
                    words.as_slice(),
                    store.last_name(),
                    store.bytes_put(),
                ),
                Status::No if is_of_flags(sink.begin()) => String::from_str(
                    alloc,
                    "flags and TABLE have to be those that OUT and CERT were written with",
                )
                .map(|text| Some(text)),
                Status::Usage => usage_fault(alloc, words.as_slice()).map(|text| Some(text)),
                Status::StoreFault => call_fault(alloc, store.last_name(), store.last_error()),
                Status::SinkFault => call_fault(alloc, Some("standard output"), sink.last_error()),
                _ => Ok(None),
            };
            if let Ok(Some(text)) = told {
                let text = text.as_str();
                let _ = eprintln!(rt; "hminify: {text}");
            }
            if status == Status::Usage {
                let _ = eprintln!(rt; "try 'hminify help'");
            }
            ExitCode::from(status.code())
        }
        Err(NoWords::Unknown) => {
            let _ = eprintln!(rt; "hminify: a word isn't UTF-8");
            ExitCode::from(2)
        }
        Err(NoWords::OutOfMemory) => ExitCode::from(7),
    }
}
