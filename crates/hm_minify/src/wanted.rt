//! The tree that a run works on.
ghost use Rattle.std.specs.Prelude.{◌≡◌, IfOk};
ghost use Rattle.hm_elements.specs.Settled.{Settled};
ghost use Rattle.hm_words.specs.Answers.{request_of};
ghost use Rattle.hm_input.specs.Inputs as inputs;
ghost use Rattle.hm_minify.specs.Wanted as spec;

use hm_base::OutOfMemory;
use hm_input::Input;
use hm_order::reorder;
use hm_words::Asked;
use std::alloc::Global;

/// The tree that a request works on, from what was read for it: with `--order` the attributes of each tag are put into
/// the order in which its text is shortest.
pub fn wanted(alloc: Global, input: Input, asked: &Asked<'_>) -> Result<Input, OutOfMemory>
    requires settled { Settled input.tree }
    ensures wanted { IfOk result (λ made. inputs.tree made.bytes made.table.entries made.tree ≡ spec.wanted (request_of asked.now) (inputs.tree input.bytes input.table.entries input.tree)) }
    ensures settled { IfOk result (λ made. Settled made.tree) }
{
    if !asked.writing.order {
        return Ok(input);
    }
    let Input { bytes, table, tree } = input;
    let tree = reorder(alloc, tree, &table, asked.writing.rules)?;
    Ok(Input { bytes, table, tree })
}
