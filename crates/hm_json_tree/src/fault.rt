//! Why bytes aren't a tree.
use hm_base::OutOfMemory;
use std::alloc::AllocError;
use thiserror::Error;

/// The first fault of a tree's bytes, in the order of these cases. Events are numbered from 0.
#[derive(Clone, Copy, Debug, PartialEq, Eq, Error)]
pub enum JsonFault {
    /// More than 67,108,864 bytes.
    #[error("TooLong")]
    TooLong,
    /// The bytes aren't JSON in UTF-8, or nest more than 127 deep.
    #[error("NotJson")]
    NotJson,
    /// The value isn't an array.
    #[error("NotArray")]
    NotArray,
    /// The first item that isn't an event, or the first end while no element is open.
    #[error("BadEvent event {event}")]
    BadEvent { event: u32 },
    /// `count` elements are open at the end.
    #[error("Open open {count}")]
    Open { count: u32 },
    /// The first event that breaks a rule of settled trees, and the least rule that it breaks.
    #[error("NotSettled event {event} point {point}")]
    NotSettled { event: u32, point: u8 },
    /// An allocation failed.
    #[error("Memory")]
    OutOfMemory,
}

impl From<OutOfMemory> for JsonFault {
    ghost use Rattle.std.specs.Prelude.{◌≡◌};
    ghost use Rattle.hm_json_tree.specs.declared.fault.JsonFault.TheVariants as faults;

    ghost from_gives = { λ _ fault. fault ≡ faults.OutOfMemory };

    fn from(_refused: OutOfMemory) -> JsonFault {
        JsonFault::OutOfMemory
    }
}

impl From<AllocError> for JsonFault {
    ghost use Rattle.std.specs.Prelude.{◌≡◌};
    ghost use Rattle.hm_json_tree.specs.declared.fault.JsonFault.TheVariants as faults;

    ghost from_gives = { λ _ fault. fault ≡ faults.OutOfMemory };

    fn from(_refused: AllocError) -> JsonFault {
        JsonFault::OutOfMemory
    }
}
