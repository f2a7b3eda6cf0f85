//! A list of numbers, stored as runs of equal ones.
ghost use Rattle.std.specs.Prelude.{◌≡◌, ◌<◌, ◌+◌, ◌^◌, ◌++◌, [], length, IfOk, OnErr, OnOk};
ghost use Rattle.std.proofs.Math.ListN.{replicate};
ghost use Rattle.hm_graph.specs.Runs.{AreRuns, unroll};

use hm_base::OutOfMemory;
use std::alloc::Global;
use std::marker::Model;

/// A number, and how often it is repeated.
#[derive(Clone, Copy)]
pub struct Run {
    pub(crate) number: u32,
    pub(crate) count: u32,
}

/// Numbers in their order. Equal ones in a row are stored as one run.
#[derive(Drop)]
pub(crate) struct Numbers {
    runs: Vec<Run>,
    /// The last run, which may be empty.
    latest: Run,
}

impl Model for Numbers {
    ghost use Rattle.std.specs.Prelude.{◌++◌, ℕ, List};
    ghost use Rattle.std.proofs.Math.ListN.{replicate};
    ghost use Rattle.hm_graph.specs.Runs.{AreRuns, unroll};

    ghost Value = { List ℕ };

    ghost view = { λ n. unroll n.runs.items ++ replicate n.latest.count n.latest.number };

    ghost invariant = { λ n. AreRuns n.runs.items };
}

/// Appends a run, if it isn't empty.
fn push_run(runs: &mut Vec<Run>, run: Run) -> Result<(), OutOfMemory>
    requires { AreRuns runs.old.items }
    ensures runs { AreRuns runs.new.items }
    ensures ok { OnOk result (unroll runs.new.items ≡ unroll runs.old.items ++ replicate run.count run.number) }
    ensures err { OnErr result (runs.new.items ≡ runs.old.items) }
{
    if run.count == 0 {
        return Ok(());
    }
    runs.push(run)?;
    Ok(())
}

/// Starts a new last run with this number, and appends the one before.
fn begin_run(runs: &mut Vec<Run>, latest: &mut Run, number: u32) -> Result<(), OutOfMemory>
    requires { AreRuns runs.old.items }
    ensures runs { AreRuns runs.new.items }
    ensures number { OnOk result (latest.new.number ≡ number) }
    ensures same { unroll runs.new.items ++ replicate latest.new.count latest.new.number ≡ unroll runs.old.items ++ replicate latest.old.count latest.old.number }
{
    if latest.number == number {
        return Ok(());
    }
    push_run(runs, *latest)?;
    *latest = Run { number, count: 0 };
    Ok(())
}

impl Numbers {
    /// An empty list.
    pub(crate) fn new(alloc: Global) -> Numbers
        ensures { result ≡ [] }
    {
        Numbers {
            runs: Vec::new(alloc),
            latest: Run {
                number: 0,
                count: 0,
            },
        }
    }

    /// Appends a number `count` times.
    pub(crate) fn push_alike(&mut self, number: u32, count: u32) -> Result<(), OutOfMemory>
        requires { length self.old + count < 2 ^ 29 }
        ensures ok { OnOk result (self.new ≡ self.old ++ replicate count number) }
        ensures err { OnErr result (self.new ≡ self.old) }
    {
        begin_run(&mut self.runs, &mut self.latest, number)?;
        self.latest.count += count;
        Ok(())
    }

    /// All runs.
    pub(crate) fn into_runs(self) -> Result<Vec<Run>, OutOfMemory>
        ensures runs { IfOk result (λ runs. AreRuns runs.items) }
        ensures numbers { IfOk result (λ runs. unroll runs.items ≡ self) }
    {
        let Numbers { runs, latest } = self;
        let mut runs = runs;
        push_run(&mut runs, latest)?;
        Ok(runs)
    }
}
