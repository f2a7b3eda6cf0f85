//! A copy of a unit's own text.
ghost use Rattle.std.specs.Prelude.{◌≡◌, IfOk};
ghost use Rattle.hm_event_parts.specs.UnitText.{own_text};
ghost use Rattle.hm_shortest.specs.UnitTextBuf.{owned_text};

use hm_base::OutOfMemory;
use hm_event_parts::UnitText;
use std::alloc::Global;

/// The text of a `UnitText`, owned.
#[derive(Drop)]
pub(crate) enum UnitTextBuf {
    Bytes { text: String },
    Comment { text: String },
    Character { c: char },
}

impl UnitTextBuf {
    /// Copies the text of a unit.
    pub(crate) fn new(alloc: Global, own: UnitText) -> Result<UnitTextBuf, OutOfMemory>
        ensures { IfOk result (λ owned. owned_text owned ≡ own_text own.entry) }
    {
        Ok(match own {
            UnitText::Bytes { text } => UnitTextBuf::Bytes {
                text: String::from_str(alloc, text)?,
            },
            UnitText::Comment { text } => UnitTextBuf::Comment {
                text: String::from_str(alloc, text)?,
            },
            UnitText::Character { c } => UnitTextBuf::Character { c },
        })
    }

    /// The character, if the unit is one.
    pub(crate) fn character(&self) -> Option<char> {
        match self {
            UnitTextBuf::Character { c } => Some(*c),
            _ => None,
        }
    }

    /// Borrows the text.
    pub(crate) fn lent(&self) -> UnitText<'_>
        ensures { own_text result ≡ owned_text self.now }
    {
        match self {
            UnitTextBuf::Bytes { text } => UnitText::Bytes {
                text: text.as_str(),
            },
            UnitTextBuf::Comment { text } => UnitText::Comment {
                text: text.as_str(),
            },
            UnitTextBuf::Character { c } => UnitText::Character { c: *c },
        }
    }
}
