//! The ends and starts by a tag of the body.
ghost use Rattle.std.specs.Prelude.{◌≡◌, ◌≤◌, [], ◌∷◌, ◌++◌, false, length, map, take, OnOk};
ghost use Rattle.hm_base.specs.Walks as walks;
ghost use Rattle.hm_base.specs.Walks.{path_after};
ghost use Rattle.hm_open_elements.specs.Answers.{elements_of};
ghost use Rattle.hm_tree.specs.Trees.{HasRoom};
ghost use Rattle.hm_construction_laws.specs.Steps.{end_event, starts};

use hm_base::OutOfMemory;
use hm_open_elements::Made;
use hm_tree::{Attrs, Maker};
use std::alloc::Global;

/// Ends the `count` innermost elements.
#[inline(always)]
pub(crate) fn end_elements(maker: &mut Maker, count: u32) -> Result<(), OutOfMemory>
    requires { count ≤ length (path_after [] maker.old) }
    ensures { OnOk result (maker.new ≡ maker.old ++ map end_event (take count (path_after [] maker.old))) }
{
    for _ in 0..count {
        maker.end()?;
    }
    Ok(())
}

/// Starts the elements in `made`.
pub(crate) fn start_made(alloc: Global, maker: &mut Maker, made: Made) -> Result<(), OutOfMemory>
    requires { HasRoom (maker.old ++ starts (elements_of made)) }
    ensures { OnOk result (maker.new ≡ maker.old ++ starts (elements_of made)) }
{
    match made {
        Made::Nothing => Ok(()),
        Made::Section => start(alloc, maker, "tbody"),
        Made::SectionAndRow => {
            start(alloc, maker, "tbody")?;
            start(alloc, maker, "tr")
        }
        Made::Row => start(alloc, maker, "tr"),
        Made::Colgroup => start(alloc, maker, "colgroup"),
    }
}

/// Starts an element of HTML without attributes.
fn start(alloc: Global, maker: &mut Maker, name: &str) -> Result<(), OutOfMemory>
    requires { HasRoom (maker.old ++ walks.start name.now false [] ∷ []) }
    ensures { OnOk result (maker.new ≡ maker.old ++ walks.start name.now false [] ∷ []) }
{
    maker.start(name, false, Attrs::new(alloc))
}
