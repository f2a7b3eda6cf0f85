//! A sink in memory.
ghost use Rattle.std.specs.Prelude.{◌≡◌, ◌++◌, ◌⊎◌, IsErr, IsTrue, IsSome, Some, OnOk, OnErr};
ghost use Rattle.hm_store.specs.Calls.{fails_next, with_listed, after_call};
ghost use Rattle.hm_store.specs.Causes.{HasCause};
ghost use Rattle.hm_store.specs.MemSink.{no_bytes};
ghost use Rattle.hm_store.specs.Tears.{tear_next, with_tear, after_put, front_of};

use crate::calls::Calls;
use crate::tears::{Tears, front};
use crate::{Failed, Sink};
use hm_base::OutOfMemory;
use std::alloc::Global;
use std::marker::Model;

/// A sink that keeps its bytes in memory. Tests choose which of its calls fail, and which are torn: write only some of
/// their bytes and then fail.
#[derive(Drop)]
pub struct MemSink {
    bytes: Vec<u8>,
    calls: Calls,
    tears: Tears,
}

impl Model for MemSink {
    ghost use Rattle.hm_store.specs.MemSink.{SunkBytes, sunk_bytes_code};

    ghost Value = { SunkBytes };

    ghost coded = { sunk_bytes_code };

    ghost view = { λ s. record {
      bytes = s.bytes.items;
      calls = s.calls;
      tears = s.tears;
    } };
}

impl MemSink {
    /// An empty sink. No call is to fail or to be torn.
    pub fn new(alloc: Global) -> Self
        ensures { result ≡ no_bytes }
    {
        MemSink {
            bytes: Vec::new(alloc),
            calls: Calls::new(alloc),
            tears: Tears::new(alloc),
        }
    }

    /// Makes the call of that number fail. Calls of `put` are numbered from 1.
    pub fn fail(&mut self, call: u32) -> Result<(), OutOfMemory>
        ensures ok { OnOk result (self.new ≡ record self.old { calls = with_listed self.old.calls call }) }
        ensures err { OnErr result (self.new ≡ self.old) }
    {
        self.calls.list(call)
    }

    /// Makes the put of that number torn: it appends its first `bytes` bytes, or all if it has fewer, and then fails.
    /// Calls of `put` are numbered from 1. A put that is also to fail changes nothing. A second tear of the same put
    /// replaces the first.
    pub fn tear(&mut self, put: u32, bytes: u32) -> Result<(), OutOfMemory>
        ensures ok { OnOk result (self.new ≡ record self.old { tears = with_tear self.old.tears put bytes }) }
        ensures err { OnErr result (self.new ≡ self.old) }
    {
        self.tears.list(put, bytes)
    }

    /// The bytes that were written.
    pub fn bytes(&self) -> &[u8]
        ensures { result.now ≡ self.now.bytes }
    {
        self.bytes.as_slice()
    }
}

impl Sink for MemSink {
    ghost contents = { λ s. Some s.bytes };

    ghost faults = { λ s. s.calls.faults };

    /// Fails if the call is to fail, and changes nothing then. A torn call appends its first bytes and fails. Any other
    /// call fails only if an allocation fails, and changes nothing then.
    fn put(&mut self, bytes: &[u8]) -> Result<(), Failed>
        ensures listed { IsTrue (fails_next self.old.calls) → IsErr result × (self.new.bytes ≡ self.old.bytes) }
        ensures torn { IsSome (tear_next self.old.tears) → IsErr result }
        ensures ok { OnOk result (self.new.bytes ≡ self.old.bytes ++ bytes.now) }
        ensures err { OnErr result ((self.new.bytes ≡ self.old.bytes)
            ⊎ (self.new.bytes ≡ self.old.bytes ++ front_of (tear_next self.old.tears) bytes.now)) }
        ensures after { self.new ≡ record {
          bytes = self.new.bytes;
          calls = after_call self.old.calls result;
          tears = after_put self.old.tears;
        } }
        ensures cause { HasCause self.old.calls.faults self.new.calls.faults result }
    {
        let torn = self.tears.begin();
        if self.calls.begin() || self.bytes.extend_from_slice(front(bytes, torn)).is_err() {
            return Err(self.calls.fail());
        }
        match torn {
            Some(_) => Err(self.calls.fail()),
            None => Ok(()),
        }
    }
}
