//! How a run is to end, made in memory.
ghost use Rattle.std.specs.Prelude.{◌≡◌, OnOk, OnErr, string_bytes};
ghost use Rattle.std.specs.Io.KnownBytes.{append_known};
ghost use Rattle.hm_store.specs.Causes.{HasCause};
ghost use Rattle.hm_store.specs.Files.{AppendsFront};
ghost use Rattle.hm_minify.specs.Endings as spec;
ghost use Rattle.hm_minify.specs.Sayings.{bytes_said};

use crate::Status;
use hm_base::OutOfMemory;
use hm_dump::Shown;
use hm_json_tree::JsonShown;
use hm_store::{Failed, LoadFault, Sink};
use std::alloc::{AllocError, AllocFailed, Global};
use std::marker::Model;

/// A file to write, with its bytes.
#[derive(Drop)]
pub struct Output<'w> {
    pub name: &'w str,
    /// The bytes of the file, from byte `from` on. Those before it aren't written.
    pub bytes: Vec<u8>,
    /// The index in `bytes` at which the file starts.
    pub from: usize,
}

impl<'w> Model for Output<'w> {
    ghost use Rattle.std.specs.Prelude.{◌≤◌, length, drop};
    ghost use Rattle.hm_minify.specs.Writes.{Write};

    ghost Value = { Write };

    ghost view = { λ o. record {
      name = o.name.now;
      bytes = drop o.from o.bytes.items;
    } };

    ghost invariant = { λ o. o.from ≤ length o.bytes.items };
}

/// What is written to the sink: a line, or lines of any bytes, or the lines of a tree or its JSON, of which only a part
/// is in memory at a time.
#[derive(Drop)]
pub enum Printed {
    Line { line: String },
    Lines { lines: Vec<u8> },
    Tree { shown: Shown },
    Json { shown: JsonShown },
}

impl Printed {
    /// Writes it to the sink.
    pub fn put<O: Sink>(self, out: &mut O) -> Result<(), Failed>
        ensures ok { OnOk result (O.contents out.new ≡ append_known (O.contents out.old) (bytes_said self)) }
        ensures err { OnErr result (AppendsFront (O.contents out.old) (O.contents out.new) (bytes_said self)) }
        ensures cause { HasCause (O.faults out.old) (O.faults out.new) result }
    {
        match self {
            Printed::Line { line } => out.put(line.as_bytes()),
            Printed::Lines { lines } => out.put(lines.as_slice()),
            Printed::Tree { shown } => shown.put(out),
            Printed::Json { shown } => shown.put(out),
        }
    }
}

/// How a run ends: its status, the line that is printed, and the files that are written before that, in their order.
#[derive(Drop)]
pub struct RunEnd<'w> {
    pub status: Status,
    pub said: Printed,
    pub outputs: Vec<Output<'w>>,
}

impl<'w> Model for RunEnd<'w> {
    ghost use Rattle.hm_minify.specs.Endings.{Ending};
    ghost use Rattle.hm_minify.specs.Sayings.{bytes_said};

    ghost Value = { Ending };

    ghost view = { λ e. record {
      status = e.status;
      line = bytes_said e.said;
      writes = e.outputs.items;
    } };
}

/// Prints a line, and writes no file.
pub fn says<'w>(alloc: Global, status: Status, line: String) -> RunEnd<'w>
    ensures { result ≡ spec.says status (string_bytes line) }
{
    RunEnd {
        status,
        said: Printed::Line { line },
        outputs: Vec::new(alloc),
    }
}

/// Prints lines of any bytes, and writes no file.
pub fn says_lines<'w>(alloc: Global, status: Status, lines: Vec<u8>) -> RunEnd<'w>
    ensures { result ≡ spec.says status lines.items }
{
    RunEnd {
        status,
        said: Printed::Lines { lines },
        outputs: Vec::new(alloc),
    }
}

/// Prints the lines of a tree, and writes no file.
pub fn shows<'w>(alloc: Global, status: Status, shown: Shown) -> RunEnd<'w>
    ensures { result ≡ spec.says status shown }
{
    RunEnd {
        status,
        said: Printed::Tree { shown },
        outputs: Vec::new(alloc),
    }
}

/// Prints the JSON of a tree, and writes no file.
pub fn tells_json<'w>(alloc: Global, status: Status, shown: JsonShown) -> RunEnd<'w>
    ensures { result ≡ spec.says status shown }
{
    RunEnd {
        status,
        said: Printed::Json { shown },
        outputs: Vec::new(alloc),
    }
}

/// The errors that stop a run before its ending is known.
#[derive(Clone, Copy, PartialEq, Eq)]
pub enum Stop {
    /// A call on the store failed, or a file isn't there.
    Store,
    /// No memory could be allocated.
    OutOfMemory,
}

impl From<AllocError> for Stop {
    ghost use Rattle.hm_minify.specs.declared.ended.Stop.{Stop};
    ghost use Rattle.hm_minify.specs.declared.ended.Stop.TheVariants.{OutOfMemory};

    ghost from_gives = { λ _ stop. stop ≡ OutOfMemory };

    fn from(_error: AllocError) -> Self {
        Stop::OutOfMemory
    }
}

impl<T: Drop> From<AllocFailed<T>> for Stop {
    ghost use Rattle.hm_minify.specs.declared.ended.Stop.{Stop};
    ghost use Rattle.hm_minify.specs.declared.ended.Stop.TheVariants.{OutOfMemory};

    ghost from_gives = { λ _ stop. stop ≡ OutOfMemory };

    fn from(_error: AllocFailed<T>) -> Self {
        Stop::OutOfMemory
    }
}

impl From<OutOfMemory> for Stop {
    ghost use Rattle.hm_minify.specs.declared.ended.Stop.{Stop};
    ghost use Rattle.hm_minify.specs.declared.ended.Stop.TheVariants.{OutOfMemory};

    ghost from_gives = { λ _ stop. stop ≡ OutOfMemory };

    fn from(_error: OutOfMemory) -> Self {
        Stop::OutOfMemory
    }
}

impl From<LoadFault> for Stop {
    ghost use Rattle.std.specs.Prelude.{◌≡◌};
    ghost use Rattle.hm_minify.specs.Stops.{stop_of};

    ghost from_gives = { λ fault stop. stop ≡ stop_of fault };

    fn from(fault: LoadFault) -> Self {
        match fault {
            LoadFault::Store => Stop::Store,
            LoadFault::OutOfMemory => Stop::OutOfMemory,
        }
    }
}
