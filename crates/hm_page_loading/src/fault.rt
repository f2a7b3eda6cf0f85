//! Why a page in a store has no tree.
use hm_base::{OutOfMemory, Refused, Rule};
use hm_store::LoadFault;

/// Why a page in a store has no tree.
#[derive(Clone, Copy, PartialEq, Eq)]
pub enum PageLoadFault {
    /// The page is refused by this rule, at the byte `at` of the page.
    Page { rule: Rule, at: u32 },
    /// A call on the store has failed, or the store has no such file.
    Store,
    /// An allocation failed.
    OutOfMemory,
}

impl From<OutOfMemory> for PageLoadFault {
    ghost use Rattle.std.specs.Prelude.{◌≡◌};
    ghost use Rattle.hm_page_loading.specs.declared.fault.PageLoadFault.TheVariants as faults;

    ghost from_gives = { λ _ fault. fault ≡ faults.OutOfMemory };

    fn from(_error: OutOfMemory) -> Self {
        PageLoadFault::OutOfMemory
    }
}

impl From<LoadFault> for PageLoadFault {
    ghost use Rattle.std.specs.Prelude.{◌≡◌};
    ghost use Rattle.hm_page_loading.specs.Pages.{load_fault_of};

    ghost from_gives = { λ load fault. fault ≡ load_fault_of load };

    /// Keeps the cause.
    fn from(fault: LoadFault) -> Self {
        match fault {
            LoadFault::Store => PageLoadFault::Store,
            LoadFault::OutOfMemory => PageLoadFault::OutOfMemory,
        }
    }
}

impl From<Refused> for PageLoadFault {
    ghost use Rattle.std.specs.Prelude.{◌≡◌};
    ghost use Rattle.hm_page_loading.specs.Pages.{fault_of};

    ghost from_gives = { λ refused fault. fault ≡ fault_of refused };

    /// Keeps the cause.
    fn from(refused: Refused) -> Self {
        match refused {
            Refused::Page { rule, at } => PageLoadFault::Page { rule, at },
            Refused::OutOfMemory => PageLoadFault::OutOfMemory,
        }
    }
}
