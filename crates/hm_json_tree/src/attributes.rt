//! The attributes of a start.
ghost use Rattle.std.specs.Prelude.{◌≡◌, ◌≤◌, ◌&&◌, [], false, true, not, length, nat_le, IfOk, MatchOption};
ghost use Rattle.hm_base.specs.Walks.{has_distinct_names};
ghost use Rattle.hm_base.specs.declared.limits.TheConstants.{ATTRIBUTE_LIMIT};
ghost use Rattle.hm_elements.specs.Settled.{all_names_in_form, no_zero_in_values};
ghost use Rattle.hm_json_tree.specs.Forms.{are_in_form};

use crate::pairs::Pairs;
use crate::texts::{has_byte, is_attribute_name};
use hm_base::{ATTRIBUTE_LIMIT, OutOfMemory};
use hm_tree::Attrs;
use std::alloc::Global;

/// Whether a value has a zero byte.
pub(crate) fn have_zero(pairs: &Pairs<'_>) -> bool
    ensures { result ≡ not (no_zero_in_values pairs.now) }
{
    for i in 0..pairs.len() {
        let (_, value) = pairs.at(i);
        if has_byte(value.as_bytes(), 0) {
            return true;
        }
    }
    false
}

/// The attributes. None if there are more than a tag may have, or if a name is repeated or isn't allowed.
pub(crate) fn attributes_of(alloc: Global, pairs: &Pairs<'_>) -> Result<Option<Attrs>, OutOfMemory>
    ensures { IfOk result (λ made. MatchOption made (are_in_form pairs.now ≡ false)
        (λ attrs. (attrs ≡ pairs.now) × (are_in_form pairs.now ≡ true))) }
{
    if pairs.len() > ATTRIBUTE_LIMIT as usize {
        return Ok(None);
    }
    let mut attrs = Attrs::new(alloc);
    let all = put_all(&mut attrs, pairs)?;
    Ok(kept(attrs, all))
}

/// The attributes, if all were added.
#[inline(always)]
fn kept(attrs: Attrs, all: bool) -> Option<Attrs>
    ensures { MatchOption result (all ≡ false) (λ same. (all ≡ true) × (same ≡ attrs) × (has_distinct_names attrs ≡ true)) }
{
    if !all {
        return None;
    }
    // Asked only for its contract: what is true of all attributes.
    let _count = attrs.len();
    Some(attrs)
}

/// Adds all pairs to an empty list, up to one whose name is repeated or isn't allowed. Returns whether all were added.
#[inline(always)]
fn put_all(attrs: &mut Attrs, pairs: &Pairs<'_>) -> Result<bool, OutOfMemory>
    requires none { attrs.old ≡ [] }
    requires few { length pairs.now ≤ ATTRIBUTE_LIMIT }
    ensures all { IfOk result (λ put. put ≡ true → (attrs.new ≡ pairs.now) × (all_names_in_form pairs.now ≡ true)) }
    ensures other { IfOk result (λ put. put ≡ false → are_in_form pairs.now ≡ false) }
{
    for i in 0..pairs.len() {
        let (name, value) = pairs.at(i);
        if !is_attribute_name(name.as_bytes()) {
            return Ok(false);
        }
        if !attrs.put(name, value)? {
            return Ok(false);
        }
    }
    Ok(true)
}
