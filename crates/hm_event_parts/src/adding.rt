//! Adds parts to a buffer.
ghost use Rattle.hm_event_parts.specs.Adding.{AddsParts};
ghost use Rattle.hm_event_parts.specs.Parts.{IsPart, part_units};

use crate::parts::Part;
use hm_base::OutOfMemory;

/// Adds a part at the end.
pub(crate) fn add<'t>(into: &mut Vec<Part<'t>>, part: Part<'t>) -> Result<(), OutOfMemory>
    requires { IsPart part }
    ensures { AddsParts result into.old.items into.new.items (part_units part.entry) }
{
    into.push(part)?;
    Ok(())
}
