//! The count of failed calls.
ghost use Rattle.std.specs.Prelude.{◌≡◌, ◌≤◌};
ghost use Rattle.hm_store.specs.Causes.{one_more, Rose};

use crate::Failed;

/// Counts one more failed call. At the greatest number the count stays.
pub(crate) fn count_failure(faults: &mut u64) -> Failed
    ensures after { faults.new ≡ one_more faults.old }
    ensures later { faults.old ≤ faults.new }
    ensures rose { Rose faults.old faults.new }
{
    *faults = faults.saturating_add(1);
    Failed
}
