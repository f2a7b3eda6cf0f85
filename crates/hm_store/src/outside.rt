//! The trusted edge: files of the system, and a writer. Contracts know nothing of their contents.
ghost use Rattle.std.specs.Prelude.{◌≡◌, ◌≢◌, List, [], Bool, true, None, IsTrue, IfOk, IfErr, OnOk, is_ok, is_some};
ghost use Rattle.std.specs.Io.{ReadsAtMost};
ghost use Rattle.std.specs.Io.KnownBytes.{Appends, ReadConsumes};
ghost use Rattle.std.specs.IoError.{error_kind};
ghost use Rattle.hm_store.specs.Causes.{counted, HasCause};
ghost use Rattle.hm_store.specs.Edge.{ForBoth, no_open_files};

use crate::faults::count_failure;
use crate::{Failed, Sink, Store};
use std::alloc::Global;
use std::io::{ErrorKind, Read, Write};
use std::marker::Model;
use std::rt::Files;
use std::{fs, io};

/// Files of the system, by path. A missing file counts as a failed call.
///
/// It remembers the error of the last failed call, the name of the last file and how many bytes were written to it. No
/// contract speaks of these.
#[derive(Drop)]
pub struct FileStore<'r, R: Files> {
    alloc: Global,
    rt: &'r R,
    reading: Option<R::File>,
    writing: Option<R::File>,
    faults: u64,
    /// The name of the file that was opened last, if there was memory for it.
    name: Option<String>,
    /// The error of the last failed call.
    error: Option<io::Error>,
    /// The bytes that were written since a file was last opened.
    bytes_put: u64,
}

impl<'r, R: Files> Model for FileStore<'r, R> {
    ghost use Rattle.hm_store.specs.Edge.{OpenFiles};

    ghost Value = { OpenFiles R.File };

    ghost view = { λ s. record {
      reading = s.reading;
      writing = s.writing;
      faults = s.faults;
    } };
}

impl<'r, R: Files> FileStore<'r, R> {
    /// A store with no open file. It takes memory only for the name of a file.
    pub fn new(alloc: Global, rt: &'r R) -> Self
        ensures { result ≡ no_open_files }
    {
        FileStore {
            alloc,
            rt,
            reading: None,
            writing: None,
            faults: 0,
            name: None,
            error: None,
            bytes_put: 0,
        }
    }

    /// The system's error of the last failed call.
    pub fn last_error(&self) -> Option<io::Error> {
        self.error
    }

    /// The name of the last file that was opened or could not be opened, if there was memory for it.
    pub fn last_name(&self) -> Option<&str> {
        match &self.name {
            Some(name) => Some(name.as_str()),
            None => None,
        }
    }

    /// How many bytes were written to the file that was opened last.
    pub fn bytes_put(&self) -> u64 {
        self.bytes_put
    }

    /// Remembers the name of a file that is about to be opened.
    fn note_name(&mut self, name: &str)
        ensures { self.new ≡ self.old }
    {
        self.name = String::from_str(self.alloc, name).ok();
        self.bytes_put = 0;
    }
}

/// Reads once, and again if a signal interrupts the call.
fn read_retrying<F: Read>(reader: &mut F, into: &mut [u8]) -> io::Result<usize>
    ensures bound { ReadsAtMost result into.new }
    ensures bytes { ReadConsumes (F.remaining reader.old) (F.remaining reader.new) result into.new }
    ensures retried { IfErr result (λ error. error_kind error ≢ ErrorKind.Interrupted) }
{
    for _ in 0..u64::MAX {
        match reader.read(into) {
            Ok(count) => return Ok(count),
            Err(error) => {
                if error.kind() != ErrorKind::Interrupted {
                    return Err(error);
                }
            }
        }
    }
    Err(io::Error::from(ErrorKind::TimedOut))
}

impl<'r, R: Files> Store for FileStore<'r, R> {
    ghost files = { λ _. None };

    ghost is_reading = { λ s. is_some s.reading };

    ghost source = { λ _. [] };

    ghost rest = { λ _. None };

    ghost is_writing = { λ s. is_some s.writing };

    ghost target = { λ _. [] };

    ghost faults = { λ s. s.faults };

    /// Opens a file for reading. A missing file is a failed call, so the result is never `Ok(false)`.
    fn open_in(&mut self, name: &str) -> Result<bool, Failed>
        ensures reads { is_some self.new.reading ≡ is_ok result }
        ensures found { IfOk result (λ found. IsTrue found) }
        ensures writes { self.new.writing ≡ self.old.writing }
        ensures counted { self.new.faults ≡ counted self.old.faults result }
        ensures cause { HasCause self.old.faults self.new.faults result }
    {
        self.note_name(name);
        self.reading = None;
        match fs::open(self.rt, name) {
            Ok(file) => {
                self.reading = Some(file);
                Ok(true)
            }
            Err(error) => {
                self.error = Some(error);
                Err(count_failure(&mut self.faults))
            }
        }
    }

    /// Reads at most as many bytes as `into` holds, in one call that is repeated only after a signal.
    fn pull(&mut self, into: &mut [u8]) -> Result<usize, Failed>
        requires { is_some self.old.reading ≡ true }
        ensures reads { is_some self.new.reading ≡ true }
        ensures bound { ReadsAtMost result into.new }
        ensures pulled { ForBoth self.old.reading self.new.reading
            (λ old new. ReadConsumes (R.File.remaining old) (R.File.remaining new) result into.new) }
        ensures writes { self.new.writing ≡ self.old.writing }
        ensures counted { self.new.faults ≡ counted self.old.faults result }
        ensures cause { HasCause self.old.faults self.new.faults result }
    {
        match &mut self.reading {
            None => unreachable!(),
            Some(file) => match read_retrying(file, into) {
                Ok(count) => Ok(count),
                Err(error) => {
                    self.error = Some(error);
                    Err(count_failure(&mut self.faults))
                }
            },
        }
    }

    /// Creates the file, or empties one that is there.
    fn open_out(&mut self, name: &str) -> Result<(), Failed>
        ensures writes { is_some self.new.writing ≡ is_ok result }
        ensures reads { self.new.reading ≡ self.old.reading }
        ensures counted { self.new.faults ≡ counted self.old.faults result }
        ensures cause { HasCause self.old.faults self.new.faults result }
    {
        self.note_name(name);
        self.writing = None;
        match fs::create(self.rt, name) {
            Ok(file) => {
                self.writing = Some(file);
                Ok(())
            }
            Err(error) => {
                self.error = Some(error);
                Err(count_failure(&mut self.faults))
            }
        }
    }

    /// Writes all bytes to the file. After a failed call some of them may have been written.
    fn put(&mut self, bytes: &[u8]) -> Result<(), Failed>
        requires { is_some self.old.writing ≡ true }
        ensures writes { is_some self.new.writing ≡ true }
        ensures written { OnOk result (ForBoth self.old.writing self.new.writing
            (λ old new. Appends (R.File.contents old) (R.File.contents new) bytes.now)) }
        ensures reads { self.new.reading ≡ self.old.reading }
        ensures counted { self.new.faults ≡ counted self.old.faults result }
        ensures cause { HasCause self.old.faults self.new.faults result }
    {
        match &mut self.writing {
            None => unreachable!(),
            Some(file) => match file.write_all(bytes) {
                Ok(()) => {
                    self.bytes_put = self.bytes_put.saturating_add(bytes.len() as u64);
                    Ok(())
                }
                Err(error) => {
                    self.error = Some(error);
                    Err(count_failure(&mut self.faults))
                }
            },
        }
    }

    /// Flushes the file and closes it. It is closed also if flushing fails.
    fn close_out(&mut self) -> Result<(), Failed>
        requires { is_some self.old.writing ≡ true }
        ensures idle { self.new.writing ≡ None }
        ensures reads { self.new.reading ≡ self.old.reading }
        ensures counted { self.new.faults ≡ counted self.old.faults result }
        ensures cause { HasCause self.old.faults self.new.faults result }
    {
        let flushed = match &mut self.writing {
            None => unreachable!(),
            Some(file) => file.flush(),
        };
        self.writing = None;
        match flushed {
            Ok(()) => Ok(()),
            Err(error) => {
                self.error = Some(error);
                Err(count_failure(&mut self.faults))
            }
        }
    }
}

/// A writer as a sink.
///
/// It remembers the first bytes that were written and the error of the last failed call. No contract speaks of these.
#[derive(Drop)]
pub struct WriteSink<W: Write> {
    inner: W,
    faults: u64,
    /// The first four bytes of the first put of at least four bytes.
    begin: Option<[u8; 4]>,
    error: Option<io::Error>,
}

impl<W: Write> Model for WriteSink<W> {
    ghost use Rattle.hm_store.specs.Edge.{SinkOver};

    ghost Value = { SinkOver W };

    ghost view = { λ s. record {
      inner = s.inner;
      faults = s.faults;
    } };
}

impl<W: Write> WriteSink<W> {
    /// A sink whose bytes go to `inner`.
    pub fn new(inner: W) -> Self
        ensures { result ≡ record { inner = inner; faults = 0 } }
    {
        WriteSink {
            inner,
            faults: 0,
            begin: None,
            error: None,
        }
    }

    /// The first four bytes of the first put of at least four bytes.
    pub fn begin(&self) -> Option<[u8; 4]> {
        self.begin
    }

    /// The system's error of the last failed put.
    pub fn last_error(&self) -> Option<io::Error> {
        self.error
    }

    /// Remembers the first four bytes written.
    fn note_begin(&mut self, bytes: &[u8])
        ensures { self.new ≡ self.old }
    {
        if self.begin.is_none() {
            if let [a, b, c, d, ..] = bytes {
                self.begin = Some([*a, *b, *c, *d]);
            }
        }
    }
}

/// Writes all the bytes, and flushes them.
fn write_through<W: Write>(writer: &mut W, bytes: &[u8]) -> io::Result<()>
    ensures { OnOk result (Appends (W.contents writer.old) (W.contents writer.new) bytes.now) }
{
    writer.write_all(bytes)?;
    writer.flush()
}

impl<W: Write> Sink for WriteSink<W> {
    ghost contents = { λ _. None };

    ghost faults = { λ s. s.faults };

    /// Writes all bytes and flushes them. After a failed call some of them may have been written.
    fn put(&mut self, bytes: &[u8]) -> Result<(), Failed>
        ensures written { OnOk result
            (Appends (W.contents self.old.inner) (W.contents self.new.inner) bytes.now) }
        ensures counted { self.new.faults ≡ counted self.old.faults result }
        ensures cause { HasCause self.old.faults self.new.faults result }
    {
        self.note_begin(bytes);
        match write_through(&mut self.inner, bytes) {
            Ok(()) => Ok(()),
            Err(error) => {
                self.error = Some(error);
                Err(count_failure(&mut self.faults))
            }
        }
    }
}
