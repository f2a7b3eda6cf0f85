//! Stores of files and sinks of bytes.
ghost use Rattle.std.specs.Prelude.{◌≡◌, true, is_some};
ghost use Rattle.hm_store.specs.Causes.{counted};

use crate::made::{holds, path_of};
use hm_store::{
    Failed, FileStore, MemSink, MemStore, Sink, Store, WriteSink, load, load_over, write_file,
};
use std::alloc::{Allocator, Global};
use std::fs::{Metadata, OpenFile, OpenOptions};
use std::io::{Empty, ErrorKind, Read, Seek, SeekFrom, Write};
use std::process::Abort;
use std::rt::Files;
use std::{env, fs, io};

/// Files are written.
#[test]
fn files_are_written(rt: HostRuntime) {
    let mut store = MemStore::new(rt.alloc());
    assert!(rt; store.add("page", b"hello").is_ok());
    assert!(rt; write_file(&mut store, "out", b"world").is_ok());
    assert!(rt; holds(&store, "page", Some("hello")));
    assert!(rt; holds(&store, "out", Some("world")));
    assert!(rt; holds(&store, "cert", None));
}

/// A file is replaced.
#[test]
fn a_file_is_replaced(rt: HostRuntime) {
    let mut store = MemStore::new(rt.alloc());
    assert!(rt; write_file(&mut store, "out", b"world").is_ok());
    assert!(rt; store.add("out", b"new").is_ok());
    assert!(rt; holds(&store, "out", Some("new")));
}

/// Asserts what a load of `page` with this limit gives.
fn expect_loaded(rt: &impl Abort, alloc: Global, store: &mut MemStore, limit: u32, wanted: &str) {
    match load(alloc, store, "page", limit) {
        Ok(bytes) => assert!(rt; bytes.as_slice() == wanted.as_bytes(), "limit {limit}"),
        Err(_) => assert!(rt; false, "limit {limit}"),
    }
}

/// A load reads at most one byte more than its limit.
#[test]
fn a_load_takes_one_byte_more_than_its_limit(rt: HostRuntime) {
    let mut store = MemStore::new(rt.alloc());
    assert!(rt; store.add("page", b"hello").is_ok());
    expect_loaded(&rt, rt.alloc(), &mut store, 100, "hello");
    expect_loaded(&rt, rt.alloc(), &mut store, 5, "hello");
    expect_loaded(&rt, rt.alloc(), &mut store, 4, "hello");
    expect_loaded(&rt, rt.alloc(), &mut store, 3, "hell");
    expect_loaded(&rt, rt.alloc(), &mut store, 0, "h");
}

/// Asserts what a load of `page` with this limit gives over expected bytes, and whether it finds them equal.
fn expect_loaded_over(
    rt: &impl Abort,
    store: &mut MemStore,
    limit: u32,
    mut bytes: Vec<u8>,
    wanted: &str,
    is_expected: bool,
) {
    assert!(rt;
        load_over(store, "page", &mut bytes, limit) == Ok(is_expected),
        "limit {limit}, {wanted}"
    );
    assert!(rt;
        bytes.as_slice() == wanted.as_bytes(),
        "limit {limit}, {wanted}"
    );
}

/// A load over expected bytes says whether they are equal.
#[test]
fn a_load_over_expected_bytes_tells_whether_they_are_the_same(rt: HostRuntime) {
    let mut store = MemStore::new(rt.alloc());
    assert!(rt; store.add("page", b"hello").is_ok());
    for expected in ["", "hell", "hellish", "jello", "hello, world"] {
        if let Ok(bytes) = Vec::from_slice(rt.alloc(), expected.as_bytes()) {
            expect_loaded_over(&rt, &mut store, 100, bytes, "hello", false);
        }
    }
    for (limit, expected) in [
        (100, "hello"),
        (5, "hello"),
        (4, "hello"),
        (3, "hell"),
        (0, "h"),
    ] {
        if let Ok(bytes) = Vec::from_slice(rt.alloc(), expected.as_bytes()) {
            expect_loaded_over(&rt, &mut store, limit, bytes, expected, true);
        }
    }
    if let Ok(bytes) = Vec::from_slice(rt.alloc(), b"hello") {
        expect_loaded_over(&rt, &mut store, 3, bytes, "hell", false);
    }
}

/// Opens a file of a store for reading. A failure counts as one more fault, and another answer as none.
fn open_counted(store: &mut MemStore, name: &str) -> Result<bool, Failed>
    ensures { store.new.calls.faults ≡ counted store.old.calls.faults result }
{
    store.open_in(name)
}

/// A file that isn't there is no fault.
#[test]
fn an_absent_file_is_no_fault(rt: HostRuntime) {
    let mut store = MemStore::new(rt.alloc());
    assert!(rt; store.add("page", b"hello").is_ok());
    assert!(rt; open_counted(&mut store, "none") == Ok(false));
}

/// Pulls a piece of a store's file. A failure counts as one more fault, and another answer as none.
fn pull_counted(store: &mut MemStore, into: &mut [u8]) -> Result<usize, Failed>
    requires { is_some store.old.reading ≡ true }
    ensures faults { store.new.calls.faults ≡ counted store.old.calls.faults result }
    ensures reads { is_some store.new.reading ≡ true }
{
    store.pull(into)
}

/// Asserts that the second pull of two bytes fails, and the third gives what it would have given.
fn expect_pulls(rt: &impl Abort, store: &mut MemStore) {
    assert!(rt; store.open_in("page") == Ok(true));
    let mut piece = [0u8; 2];
    assert!(rt; store.pull(&mut piece) == Ok(2));
    assert!(rt; pull_counted(store, &mut piece) == Err(Failed));
    assert!(rt; store.pull(&mut piece) == Ok(2));
    assert!(rt; piece == *b"ll");
}

/// A pull that is listed to fail does, and the next one reads the same bytes.
#[test]
fn a_listed_pull_fails_and_stays_in_place(rt: HostRuntime) {
    let mut store = MemStore::new(rt.alloc());
    assert!(rt; store.add("page", b"hello").is_ok());
    assert!(rt; store.fail(3).is_ok());
    expect_pulls(&rt, &mut store);
}

/// A call on the store that fails, whether a load then succeeds, and a write after it, and the file that is left.
type Left = (u32, bool, bool, Option<&'static str>);

/// Whether a load of a store, and a write after it, end so.
fn is_left(alloc: Global, store: &mut MemStore, row: &Left) -> bool {
    let loaded = load(alloc, store, "page", 100).is_ok();
    let written = write_file(store, "out", b"world").is_ok();
    loaded == row.1 && written == row.2 && holds(store, "out", row.3)
}

/// Asserts what is left if a call fails.
fn expect_left(rt: &impl Abort, alloc: Global, row: &Left) {
    let mut store = MemStore::new(alloc);
    assert!(rt; store.add("page", b"hello").is_ok());
    assert!(rt; store.fail(row.0).is_ok());
    assert!(rt; is_left(alloc, &mut store, row), "call {}", row.0);
}

/// The calls are: `open_in`, two of `pull`, `open_out`, `put`, `close_out`.
const CALLS: [Left; 7] = [
    (1, false, true, Some("world")),
    (2, false, true, Some("world")),
    (3, false, true, Some("world")),
    (4, true, false, None),
    (5, true, false, Some("")),
    (6, true, false, Some("world")),
    (7, true, true, Some("world")),
];

/// Each call fails in turn.
#[test]
fn each_call_fails_in_turn(rt: HostRuntime) {
    for row in &CALLS {
        expect_left(&rt, rt.alloc(), row);
    }
}

/// Puts bytes to a sink. A failure counts as one more fault, and another answer as none.
fn put_counted(sink: &mut MemSink, bytes: &[u8]) -> Result<(), Failed>
    ensures { sink.new.calls.faults ≡ counted sink.old.calls.faults result }
{
    sink.put(bytes)
}

/// Asserts that the second put fails, and that the first and the third are what the sink holds.
fn expect_puts(rt: &impl Abort, sink: &mut MemSink) {
    assert!(rt; sink.put(b"length ") == Ok(()));
    assert!(rt; put_counted(sink, b"none") == Err(Failed));
    assert!(rt; sink.put(b"23\n") == Ok(()));
    assert!(rt; sink.bytes() == b"length 23\n".as_slice());
}

/// A put that is listed to fail changes nothing.
#[test]
fn a_listed_put_changes_nothing(rt: HostRuntime) {
    let mut sink = MemSink::new(rt.alloc());
    assert!(rt; sink.fail(2).is_ok());
    expect_puts(&rt, &mut sink);
}

/// Whether a store has no file at a path at first, and what is written there can be read.
fn is_kept<S: Store>(alloc: Global, store: &mut S, path: &str) -> bool {
    let is_absent = load(alloc, store, path, 100).is_err();
    let is_written = write_file(store, path, b"hello").is_ok();
    match load(alloc, store, path, 100) {
        Ok(bytes) => is_absent && is_written && bytes.as_slice() == b"hello".as_slice(),
        Err(_) => false,
    }
}

/// Asserts that a real file is written and read. It is removed after that.
fn expect_kept(rt: &(impl Files + Abort), alloc: Global, path: &str) {
    let is_kept = is_kept(alloc, &mut FileStore::new(alloc, rt), path);
    assert!(rt; fs::remove_file(rt, path).is_ok());
    assert!(rt; is_kept);
}

/// A real file is written and read.
#[test]
fn a_real_file_is_written_and_read(rt: HostRuntime) -> io::Result<()> {
    let folder = env::temp_dir(&rt)?;
    let number = std::process::id(rt.process());
    let path = path_of(rt.alloc(), folder.as_str(), number, "test")?;
    expect_kept(&rt, rt.alloc(), path.as_str());
    Ok(())
}

/// A writer that is full.
#[derive(Drop)]
struct Full;

impl Write for Full {
    fn write(&mut self, _buf: &[u8]) -> io::Result<usize> {
        Ok(0)
    }

    fn flush(&mut self) -> io::Result<()> {
        Ok(())
    }
}

/// Bytes go to the writer.
#[test]
fn bytes_go_to_the_writer(rt: HostRuntime) {
    let mut bytes = Vec::new(rt.alloc());
    let mut sink = WriteSink::new(&mut bytes);
    assert!(rt; sink.put(b"length ") == Ok(()));
    assert!(rt; sink.put(b"23\n") == Ok(()));
    drop(sink);
    assert!(rt; bytes.as_slice() == b"length 23\n".as_slice());
}

/// A full writer takes no bytes.
#[test]
fn a_full_writer_takes_no_bytes(rt: HostRuntime) {
    let mut full = WriteSink::new(Full);
    assert!(rt; full.put(b"") == Ok(()));
    assert!(rt; full.put(b"x") == Err(Failed));
}

/// A file that a signal interrupts at the first call to read it, and that fails at the third. It gives `x` at the
/// second, and `y` from the fourth on.
#[derive(Drop)]
struct Interrupted {
    calls: u32,
}

impl Read for Interrupted {
    fn read(&mut self, buf: &mut [u8]) -> io::Result<usize> {
        self.calls = self.calls.saturating_add(1);
        match self.calls {
            1 => Err(io::Error::from(ErrorKind::Interrupted)),
            3 => Err(io::Error::from(ErrorKind::PermissionDenied)),
            calls if !buf.is_empty() => {
                buf[0] = if calls == 2 { b'x' } else { b'y' };
                Ok(1)
            }
            _ => Ok(0),
        }
    }
}

impl Write for Interrupted {
    fn write(&mut self, _buf: &[u8]) -> io::Result<usize> {
        Err(io::Error::from(ErrorKind::Unsupported))
    }

    fn flush(&mut self) -> io::Result<()> {
        Err(io::Error::from(ErrorKind::Unsupported))
    }
}

impl Seek for Interrupted {
    fn seek(&mut self, _to: SeekFrom) -> io::Result<u64> {
        Err(io::Error::from(ErrorKind::Unsupported))
    }
}

impl OpenFile for Interrupted {
    fn metadata(&self) -> io::Result<Metadata> {
        Err(io::Error::from(ErrorKind::Unsupported))
    }

    fn set_len(&self, _size: u64) -> io::Result<()> {
        Err(io::Error::from(ErrorKind::Unsupported))
    }

    fn sync_all(&self) -> io::Result<()> {
        Err(io::Error::from(ErrorKind::Unsupported))
    }

    fn sync_data(&self) -> io::Result<()> {
        Err(io::Error::from(ErrorKind::Unsupported))
    }
}

/// A system whose every file is interrupted when it is read, and that does nothing but open files.
struct Signals;

impl Files for Signals {
    type File = Interrupted;

    type Dir = Empty;

    fn open_file(&self, _how: &OpenOptions, _path: &str) -> io::Result<Interrupted> {
        Ok(Interrupted { calls: 0 })
    }

    fn open_dir(&self, _path: &str) -> io::Result<Empty> {
        Err(io::Error::from(ErrorKind::Unsupported))
    }

    fn metadata(&self, _path: &str) -> io::Result<Metadata> {
        Err(io::Error::from(ErrorKind::Unsupported))
    }

    fn symlink_metadata(&self, _path: &str) -> io::Result<Metadata> {
        Err(io::Error::from(ErrorKind::Unsupported))
    }

    fn copy(&self, _from: &str, _to: &str) -> io::Result<u64> {
        Err(io::Error::from(ErrorKind::Unsupported))
    }

    fn rename(&self, _from: &str, _to: &str) -> io::Result<()> {
        Err(io::Error::from(ErrorKind::Unsupported))
    }

    fn remove_file(&self, _path: &str) -> io::Result<()> {
        Err(io::Error::from(ErrorKind::Unsupported))
    }

    fn create_dir(&self, _path: &str) -> io::Result<()> {
        Err(io::Error::from(ErrorKind::Unsupported))
    }

    fn remove_dir(&self, _path: &str) -> io::Result<()> {
        Err(io::Error::from(ErrorKind::Unsupported))
    }

    fn remove_dir_all<B: Allocator>(&self, _alloc: B, _path: &str) -> io::Result<()> {
        Err(io::Error::from(ErrorKind::Unsupported))
    }
}

/// A read that a signal interrupts is made once more, and one that fails is not.
#[test]
fn an_interrupted_read_is_tried_again(rt: HostRuntime) {
    let mut store = FileStore::new(rt.alloc(), &Signals);
    assert!(rt; store.open_in("page") == Ok(true));
    let mut bytes = [0u8; 4];
    assert!(rt; store.pull(&mut bytes) == Ok(1));
    assert!(rt; bytes[0] == b'x');
    assert!(rt; store.pull(&mut bytes) == Err(Failed));
    assert!(rt; store.pull(&mut bytes) == Ok(1));
    assert!(rt; bytes[0] == b'y');
}
