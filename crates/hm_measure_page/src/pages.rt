//! Generated pages.
ghost use Rattle.std.specs.Prelude.{◌≡◌, IfOk, string_bytes};
ghost use Rattle.hm_measure_page.specs.Pages.{next, page};

use crate::block::Block;
use hm_base::OutOfMemory;
use std::alloc::Global;

/// All numbers of the sequence are below this one.
const MODULUS: u32 = 1 << 31;

/// The page of a number, with `size` blocks, one for each line.
#[tactic(auto, unfolding(crate::specs::Pages::page))]
pub fn page_of(alloc: Global, number: u32, size: u32) -> Result<String, OutOfMemory>
    ensures { IfOk result (λ text. string_bytes text ≡ page number size) }
{
    let mut text = format!(in alloc; "<!doctype html><title>{number}</title>\n")?;
    let mut chance = number % MODULUS;
    for k in 0..size {
        chance = next(chance);
        Block::chosen_by(chance).write(&mut text, k + 1)?;
    }
    Ok(text)
}

/// The next number of the sequence: a linear congruential generator modulo 2^31.
fn next(number: u32) -> u32
    ensures { result ≡ next number }
{
    ((u64::from(number) * 1_103_515_245 + 12_345) % u64::from(MODULUS)) as u32
}
