//! A store in memory.
ghost use Rattle.std.specs.Prelude.{◌≡◌, ◌+◌, ◌-◌, ◌++◌, ◌⊎◌, min, ℕ, List, [], length, take, drop, true, is_some, is_err, IsTrue, IsErr, IsSome, IfOk, OnOk, OnErr, Some, None};
ghost use Rattle.std.specs.Io.{ReadsAtMost};
ghost use Rattle.std.specs.Option.{option_copied, option_map};
ghost use Rattle.std.specs.Result.{result_unwrap_or};
ghost use Rattle.std.specs.FinMap as finmap;
ghost use Rattle.hm_store.specs.Calls.{fails_next, with_listed, after_call};
ghost use Rattle.hm_store.specs.Causes.{HasCause};
ghost use Rattle.hm_store.specs.MemStore.{empty_store, source_of, rest_of, left_of, target_of, with_bytes, opened, advanced};
ghost use Rattle.hm_store.specs.Tears.{tear_next, with_tear, after_put, front_of};

use crate::calls::Calls;
use crate::file_table::FileTable;
use crate::tears::{Tears, front};
use crate::{Failed, Store};
use hm_base::OutOfMemory;
use std::alloc::Global;
use std::marker::Model;

/// The file that is being read: its index, and how many of its bytes were already read.
#[derive(Clone, Copy)]
struct FileReading {
    place: usize,
    taken: usize,
}

/// A store that keeps its files in memory. Tests choose which of its calls fail, and which puts are torn: write only
/// some of their bytes and then fail.
#[derive(Drop)]
pub struct MemStore {
    files: FileTable,
    reading: Option<FileReading>,
    /// The index of the file that is being written.
    writing: Option<usize>,
    calls: Calls,
    tears: Tears,
}

impl Model for MemStore {
    ghost use Rattle.std.specs.Prelude.{length};
    ghost use Rattle.std.specs.Option.{option_map};
    ghost use Rattle.hm_store.specs.MemStore.{StoredFiles, stored_files_code};
    ghost use Rattle.hm_store.specs.NamedFiles.{name_at};

    ghost Value = { StoredFiles };

    ghost coded = { stored_files_code };

    ghost use Rattle.hm_store.specs.Places.{reading_at, AreWithin};

    ghost view = { λ s. record {
      files = s.files.files;
      reading = reading_at s.files.names s.reading;
      writing = option_map (name_at s.files.names) s.writing;
      calls = s.calls;
      tears = s.tears;
    } };

    ghost invariant = { λ s. AreWithin (length s.files.names) s.reading s.writing };
}

impl MemStore {
    /// A store without files. No call is to fail or to be torn.
    pub fn new(alloc: Global) -> Self
        ensures { result ≡ empty_store }
    {
        MemStore {
            files: FileTable::new(alloc),
            reading: None,
            writing: None,
            calls: Calls::new(alloc),
            tears: Tears::new(alloc),
        }
    }

    /// Adds a file, or replaces the one of that name.
    pub fn add(&mut self, name: &str, bytes: &[u8]) -> Result<(), OutOfMemory>
        ensures ok { OnOk result (self.new ≡ record self.old {
          files = finmap.insert self.old.files name.now bytes.now;
        }) }
        ensures err { OnErr result (self.new ≡ self.old) }
    {
        self.files.set(name, bytes)?;
        Ok(())
    }

    /// Makes the call of that number fail. The calls of all methods of `Store` are numbered together, from 1.
    pub fn fail(&mut self, call: u32) -> Result<(), OutOfMemory>
        ensures ok { OnOk result (self.new ≡ record self.old { calls = with_listed self.old.calls call }) }
        ensures err { OnErr result (self.new ≡ self.old) }
    {
        self.calls.list(call)
    }

    /// Makes the put of that number torn: it appends its first `bytes` bytes, or all if it has fewer, and then fails.
    /// Only calls of `put` are numbered, from 1. A put that is also to fail changes nothing. A second tear of the same
    /// put replaces the first.
    pub fn tear(&mut self, put: u32, bytes: u32) -> Result<(), OutOfMemory>
        ensures ok { OnOk result (self.new ≡ record self.old { tears = with_tear self.old.tears put bytes }) }
        ensures err { OnErr result (self.new ≡ self.old) }
    {
        self.tears.list(put, bytes)
    }

    /// The bytes of a file, or None if no file has that name.
    pub fn file(&self, name: &str) -> Option<&[u8]>
        ensures { option_copied result ≡ finmap.get self.now.files name.now }
    {
        self.files.get(name)
    }
}

/// Copies bytes from index `taken` on to the start of `into`, as many as it has room for, and returns how many.
fn copy_rest(bytes: &[u8], taken: usize, into: &mut [u8]) -> usize
    ensures count { result ≡ min (length (drop taken bytes.now)) (length into.old) }
    ensures copied { into.new ≡ take result (drop taken bytes.now) ++ drop result into.old }
{
    let rest = if taken < bytes.len() {
        &bytes[taken..]
    } else {
        &[]
    };
    let count = rest.len().min(into.len());
    into[..count].copy_from_slice(&rest[..count]);
    count
}

impl Store for MemStore {
    ghost files = { λ s. Some s.files };

    ghost is_reading = { λ s. is_some s.reading };

    ghost source = { λ s. source_of s.reading };

    ghost rest = { λ s. rest_of s.files s.reading };

    ghost is_writing = { λ s. is_some s.writing };

    ghost target = { λ s. target_of s.writing };

    ghost faults = { λ s. s.calls.faults };

    /// Fails exactly if the call is to fail.
    fn open_in(&mut self, name: &str) -> Result<bool, Failed>
        ensures listed { is_err result ≡ fails_next self.old.calls }
        ensures found { IfOk result (λ found. found ≡ finmap.contains_key self.old.files name.now) }
        ensures after { self.new ≡ record self.old {
          reading = opened name.now result;
          calls = after_call self.old.calls result;
        } }
        ensures cause { HasCause self.old.calls.faults self.new.calls.faults result }
    {
        self.reading = None;
        if self.calls.begin() {
            return Err(self.calls.fail());
        }
        match self.files.place(name) {
            Some(place) => {
                self.reading = Some(FileReading { place, taken: 0 });
                Ok(true)
            }
            None => Ok(false),
        }
    }

    /// Fails exactly if the call is to fail. Otherwise it reads as many bytes as are left and fit into `into`.
    fn pull(&mut self, into: &mut [u8]) -> Result<usize, Failed>
        requires { is_some self.old.reading ≡ true }
        ensures listed { is_err result ≡ fails_next self.old.calls }
        ensures bound { ReadsAtMost result into.new }
        ensures count { IfOk result (λ n. n ≡ min (length (left_of self.old)) (length into.old)) }
        ensures copied { IfOk result (λ n. into.new ≡ take n (left_of self.old) ++ drop n into.old) }
        ensures untouched { OnErr result (into.new ≡ into.old) }
        ensures after { self.new ≡ record self.old {
          reading = advanced self.old.reading (result_unwrap_or result 0);
          calls = after_call self.old.calls result;
        } }
        ensures cause { HasCause self.old.calls.faults self.new.calls.faults result }
    {
        if self.calls.begin() {
            return Err(self.calls.fail());
        }
        match self.reading {
            None => unreachable!(),
            Some(FileReading { place, taken }) => {
                let count = copy_rest(self.files.bytes(place), taken, into);
                self.reading = Some(FileReading {
                    place,
                    taken: taken + count,
                });
                Ok(count)
            }
        }
    }

    /// Fails if the call is to fail, and otherwise only if an allocation fails. The files are then unchanged.
    fn open_out(&mut self, name: &str) -> Result<(), Failed>
        ensures listed { IsTrue (fails_next self.old.calls) → IsErr result }
        ensures ok { OnOk result (self.new ≡ record self.old {
          files = finmap.insert self.old.files name.now [];
          writing = Some name.now;
          calls = after_call self.old.calls result;
        }) }
        ensures err { OnErr result (self.new ≡ record self.old {
          writing = None;
          calls = after_call self.old.calls result;
        }) }
        ensures cause { HasCause self.old.calls.faults self.new.calls.faults result }
    {
        self.writing = None;
        if self.calls.begin() {
            return Err(self.calls.fail());
        }
        match self.files.set(name, &[]) {
            Ok(place) => {
                self.writing = Some(place);
                Ok(())
            }
            Err(OutOfMemory) => Err(self.calls.fail()),
        }
    }

    /// Fails if the call is to fail, and the files are then unchanged. A torn call appends its first bytes and fails.
    /// Any other call fails only if an allocation fails, and changes no file then.
    fn put(&mut self, bytes: &[u8]) -> Result<(), Failed>
        requires { is_some self.old.writing ≡ true }
        ensures listed { IsTrue (fails_next self.old.calls) → IsErr result × (self.new.files ≡ self.old.files) }
        ensures torn { IsSome (tear_next self.old.tears) → IsErr result }
        ensures ok { OnOk result (self.new.files ≡ with_bytes self.old bytes.now) }
        ensures err { OnErr result ((self.new.files ≡ self.old.files)
            ⊎ (self.new.files ≡ with_bytes self.old (front_of (tear_next self.old.tears) bytes.now))) }
        ensures after { self.new ≡ record self.old {
          files = self.new.files;
          calls = after_call self.old.calls result;
          tears = after_put self.old.tears;
        } }
        ensures cause { HasCause self.old.calls.faults self.new.calls.faults result }
    {
        let torn = self.tears.begin();
        if self.calls.begin() {
            return Err(self.calls.fail());
        }
        match self.writing {
            None => unreachable!(),
            Some(place) => {
                if self.files.append(place, front(bytes, torn)).is_err() {
                    return Err(self.calls.fail());
                }
            }
        }
        match torn {
            Some(_) => Err(self.calls.fail()),
            None => Ok(()),
        }
    }

    /// Fails exactly if the call is to fail.
    fn close_out(&mut self) -> Result<(), Failed>
        requires { is_some self.old.writing ≡ true }
        ensures listed { is_err result ≡ fails_next self.old.calls }
        ensures after { self.new ≡ record self.old {
          writing = None;
          calls = after_call self.old.calls result;
        } }
        ensures cause { HasCause self.old.calls.faults self.new.calls.faults result }
    {
        self.writing = None;
        if self.calls.begin() {
            return Err(self.calls.fail());
        }
        Ok(())
    }
}
