//! The puts that are to be torn: to write only some of their bytes and then fail.
ghost use Rattle.std.specs.Prelude.{◌≡◌, OnOk, OnErr};
ghost use Rattle.hm_store.specs.Tears.{no_tears, tear_next, with_tear, after_put, front_of};

use hm_base::OutOfMemory;
use std::alloc::Global;
use std::collections::BTreeMap;
use std::marker::Model;

/// Which puts are to be torn, and how many were made.
#[derive(Drop)]
pub(crate) struct Tears {
    /// How many bytes a put appends before it fails, by its number, from 1.
    listed: BTreeMap<u64, usize>,
    puts: u64,
}

impl Model for Tears {
    ghost use Rattle.std.specs.FinMap as finmap;
    ghost use Rattle.hm_store.specs.Tears.{TearLog, tear_log_code};

    ghost Value = { TearLog };

    ghost coded = { tear_log_code };

    ghost view = { λ t. record {
      listed = finmap.from_entries t.listed.entries;
      puts = t.puts;
    } };
}

impl Tears {
    /// No put is to be torn, and none was made.
    pub(crate) fn new(alloc: Global) -> Self
        ensures { result ≡ no_tears }
    {
        Tears {
            listed: BTreeMap::new(alloc),
            puts: 0,
        }
    }

    /// Makes the put of that number fail after `bytes` bytes.
    pub(crate) fn list(&mut self, put: u32, bytes: u32) -> Result<(), OutOfMemory>
        ensures ok { OnOk result (self.new ≡ with_tear self.old put bytes) }
        ensures err { OnErr result (self.new ≡ self.old) }
    {
        self.listed.insert(u64::from(put), bytes as usize)?;
        Ok(())
    }

    /// Starts the next put. If it is to be torn, returns how many bytes it appends before it fails.
    pub(crate) fn begin(&mut self) -> Option<usize>
        ensures listed { result ≡ tear_next self.old }
        ensures after { self.new ≡ after_put self.old }
    {
        self.puts = self.puts.saturating_add(1);
        self.listed.get(&self.puts).copied()
    }
}

/// The bytes that a put appends: all, or the first `torn` if it is torn.
pub(crate) fn front(bytes: &[u8], torn: Option<usize>) -> &[u8]
    ensures { result.now ≡ front_of torn bytes.now }
{
    match torn {
        Some(count) => &bytes[..count.min(bytes.len())],
        None => bytes,
    }
}
