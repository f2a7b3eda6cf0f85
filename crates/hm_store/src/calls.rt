//! The calls on an object in memory.
ghost use Rattle.std.specs.Prelude.{◌≡◌, ◌≤◌, OnOk, OnErr};
ghost use Rattle.hm_store.specs.Calls.{no_calls, fails_next, with_listed};
ghost use Rattle.hm_store.specs.Causes.{one_more, Rose};

use crate::Failed;
use crate::faults::count_failure;
use hm_base::OutOfMemory;
use std::alloc::Global;
use std::collections::BTreeSet;
use std::marker::Model;

/// Which calls are to fail, how many were made, and how many have failed.
#[derive(Drop)]
pub(crate) struct Calls {
    /// Their numbers, from 1.
    listed: BTreeSet<u64>,
    made: u64,
    faults: u64,
}

impl Model for Calls {
    ghost use Rattle.std.specs.FinSet as set;
    ghost use Rattle.hm_store.specs.Calls.{CallLog, call_log_code};

    ghost Value = { CallLog };

    ghost coded = { call_log_code };

    ghost view = { λ c. record {
      listed = set.from_list c.listed.keys;
      made = c.made;
      faults = c.faults;
    } };
}

impl Calls {
    /// No call is to fail, and none was made.
    pub(crate) fn new(alloc: Global) -> Self
        ensures { result ≡ no_calls }
    {
        Calls {
            listed: BTreeSet::new(alloc),
            made: 0,
            faults: 0,
        }
    }

    /// Makes the call of that number fail. Calls are numbered from 1.
    pub(crate) fn list(&mut self, number: u32) -> Result<(), OutOfMemory>
        ensures ok { OnOk result (self.new ≡ with_listed self.old number) }
        ensures err { OnErr result (self.new ≡ self.old) }
    {
        self.listed.insert(u64::from(number))?;
        Ok(())
    }

    /// Starts the next call, and returns whether it is to fail.
    pub(crate) fn begin(&mut self) -> bool
        ensures listed { result ≡ fails_next self.old }
        ensures after { self.new ≡ record self.old { made = one_more self.old.made } }
    {
        self.made = self.made.saturating_add(1);
        self.listed.contains(&self.made)
    }

    /// Counts the call that was started last as failed.
    pub(crate) fn fail(&mut self) -> Failed
        ensures after { self.new ≡ record self.old { faults = one_more self.old.faults } }
        ensures later { self.old.faults ≤ self.new.faults }
        ensures rose { Rose self.old.faults self.new.faults }
    {
        count_failure(&mut self.faults)
    }
}
