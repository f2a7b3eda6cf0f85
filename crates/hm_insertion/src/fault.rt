//! Why a token isn't taken into the tree.
ghost use Rattle.std.specs.Prelude.{◌≡◌};
ghost use Rattle.hm_insertion.specs.Building.{front_of, of_settle};
ghost use Rattle.hm_insertion.specs.declared.fault.BuildFault.TheVariants as faults;

use hm_base::{OutOfMemory, Rule};
use hm_open_elements::SettleFault;
use std::alloc::{AllocError, AllocFailed};

/// Why a token isn't taken into the tree.
#[derive(Clone, Copy, PartialEq, Eq)]
pub enum BuildFault {
    /// This rule refuses the page, `offset` bytes of the text after the start of the token.
    Rule { rule: Rule, offset: u32 },
    /// An allocation failed.
    OutOfMemory,
}

impl BuildFault {
    /// The same fault at the start of its token.
    pub(crate) fn at_front(self) -> BuildFault
        ensures { result ≡ front_of self }
    {
        match self {
            BuildFault::Rule { rule, .. } => BuildFault::Rule { rule, offset: 0 },
            BuildFault::OutOfMemory => BuildFault::OutOfMemory,
        }
    }
}

impl From<OutOfMemory> for BuildFault {
    ghost from_gives = { λ _ fault. fault ≡ faults.OutOfMemory };

    fn from(_error: OutOfMemory) -> Self {
        BuildFault::OutOfMemory
    }
}

impl From<AllocError> for BuildFault {
    ghost from_gives = { λ _ fault. fault ≡ faults.OutOfMemory };

    fn from(_error: AllocError) -> Self {
        BuildFault::OutOfMemory
    }
}

impl<T: Drop> From<AllocFailed<T>> for BuildFault {
    ghost from_gives = { λ _ fault. fault ≡ faults.OutOfMemory };

    fn from(_error: AllocFailed<T>) -> Self {
        BuildFault::OutOfMemory
    }
}

impl From<Rule> for BuildFault {
    ghost from_gives = { λ rule fault. fault ≡ faults.Rule rule 0 };

    fn from(rule: Rule) -> Self {
        BuildFault::Rule { rule, offset: 0 }
    }
}

impl From<SettleFault> for BuildFault {
    ghost from_gives = { λ fault built. built ≡ of_settle fault };

    fn from(fault: SettleFault) -> Self {
        match fault {
            SettleFault::Rule { rule } => BuildFault::Rule { rule, offset: 0 },
            SettleFault::OutOfMemory => BuildFault::OutOfMemory,
        }
    }
}
