//! Why bytes aren't a table.
ghost use Rattle.std.specs.Prelude.{◌≡◌};
ghost use Rattle.hm_refs.specs.Faults.{fault_name};

use hm_base::{OutOfMemory, OwnedText};
use std::alloc::{AllocError, AllocFailed};
use thiserror::Error;

/// The first fault of a table's bytes, in the order of these cases. A key is the least one, in byte order, with the
/// fault.
#[derive(Debug, Drop, Error)]
pub enum TableFault {
    /// More than 1,048,576 bytes.
    #[error("TooLong")]
    TooLong,
    /// The bytes aren't JSON in UTF-8.
    #[error("NotJson")]
    NotJson,
    /// The value isn't an object.
    #[error("NotObject")]
    NotObject,
    /// The key isn't `&`, an ASCII letter, at least one more letter or digit, and at most one `;` at the end, or has
    /// more than 64 characters.
    #[error("BadName {}", .key.text)]
    BadName { key: OwnedText },
    /// The key's value isn't an object whose `codepoints` is an array of one or two scalar values other than 0, each a
    /// whole number without point and exponent.
    #[error("BadPoints {}", .key.text)]
    BadPoints { key: OwnedText },
    /// More than 4,096 names.
    #[error("TooMany")]
    TooMany,
    /// More than 64 names have this first code point, or more than 4 without `;`. `point` is the least such code point.
    #[error("TooManyFor {point}")]
    TooManyFor { point: u32 },
    /// A name without `;`, while the same name with `;` is missing or has other code points.
    #[error("Lone {}", .key.text)]
    Lone { key: OwnedText },
    /// An allocation failed.
    #[error("Memory")]
    OutOfMemory,
}

impl TableFault {
    /// The name of the fault, as the program prints it.
    pub fn name(&self) -> &'static str
        ensures { result.now ≡ fault_name self.now }
    {
        match self {
            TableFault::TooLong => "TooLong",
            TableFault::NotJson => "NotJson",
            TableFault::NotObject => "NotObject",
            TableFault::BadName { key: _ } => "BadName",
            TableFault::BadPoints { key: _ } => "BadPoints",
            TableFault::TooMany => "TooMany",
            TableFault::TooManyFor { point: _ } => "TooManyFor",
            TableFault::Lone { key: _ } => "Lone",
            TableFault::OutOfMemory => "Memory",
        }
    }
}

impl From<OutOfMemory> for TableFault {
    ghost use Rattle.std.specs.Prelude.{◌≡◌};
    ghost use Rattle.hm_refs.specs.declared.fault.TableFault.TheVariants as faults;

    ghost from_gives = { λ _ fault. fault ≡ faults.OutOfMemory };

    fn from(_refused: OutOfMemory) -> TableFault {
        TableFault::OutOfMemory
    }
}

impl From<AllocError> for TableFault {
    ghost use Rattle.std.specs.Prelude.{◌≡◌};
    ghost use Rattle.hm_refs.specs.declared.fault.TableFault.TheVariants as faults;

    ghost from_gives = { λ _ fault. fault ≡ faults.OutOfMemory };

    fn from(_refused: AllocError) -> TableFault {
        TableFault::OutOfMemory
    }
}

impl<T: Drop> From<AllocFailed<T>> for TableFault {
    ghost use Rattle.std.specs.Prelude.{◌≡◌};
    ghost use Rattle.hm_refs.specs.declared.fault.TableFault.TheVariants as faults;

    ghost from_gives = { λ _ fault. fault ≡ faults.OutOfMemory };

    fn from(_refused: AllocFailed<T>) -> TableFault {
        TableFault::OutOfMemory
    }
}
