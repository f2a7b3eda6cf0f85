//! Names by their first code points.
ghost use Rattle.std.specs.Prelude.{◌≡◌, ℕ, ◌<◌, ◌≤◌, List, [], ◌∷◌, All, length, IfOk, count_by};
ghost use Rattle.hm_refs.specs.declared.limits.TheConstants.{NAMES_LIMIT};
ghost use Rattle.hm_refs.specs.Json.{if_crowded, least_crowded, lesser};
ghost use Rattle.hm_refs.specs.Nodes.{entries_of};
ghost use Rattle.hm_refs.specs.Firsts.{IsIndex, are_many, is_open_at};

use crate::ids::NameId;
use crate::limits::{ALIKE_LIMIT, OPEN_LIMIT};
use crate::nodes::ReferenceName;
use crate::scan::is_closed;
use hm_base::OutOfMemory;
use std::alloc::Global;
use std::collections::BTreeMap;

/// For each code point the names that have it as their first one, in byte order.
pub(crate) fn firsts_of(
    alloc: Global,
    names: &[ReferenceName],
) -> Result<BTreeMap<char, Vec<NameId>>, OutOfMemory>
    requires { length names.now ≤ NAMES_LIMIT }
    ensures { IfOk result (IsIndex (entries_of names.now)) }
{
    let mut firsts = BTreeMap::new(alloc);
    for (number, name) in names.iter().enumerate() {
        let ids = firsts.entry(name.points.first)?.or_insert(Vec::new(alloc));
        ids.push(NameId::new(number as u32))?;
    }
    Ok(firsts)
}

/// The least code point that is the first one of too many names, or of too many without `;`.
pub(crate) fn least_crowded(
    names: &[ReferenceName],
    firsts: &BTreeMap<char, Vec<NameId>>,
) -> Option<char>
    requires { IsIndex (entries_of names.now) firsts.now }
    ensures { result ≡ least_crowded (entries_of names.now) (entries_of names.now) }
{
    let mut least = None;
    for name in names {
        least = lesser(least, if_crowded(names, firsts, name.points.first));
    }
    least
}

/// The lesser of two code points, if there are any.
fn lesser(a: Option<char>, b: Option<char>) -> Option<char>
    ensures { result ≡ lesser a b }
{
    match (a, b) {
        (None, _) => b,
        (_, None) => a,
        (Some(c), Some(d)) => Some(c.min(d)),
    }
}

/// The code point, if it is the first one of too many names.
fn if_crowded(
    names: &[ReferenceName],
    firsts: &BTreeMap<char, Vec<NameId>>,
    point: char,
) -> Option<char>
    requires { IsIndex (entries_of names.now) firsts.now }
    ensures { result ≡ if_crowded (entries_of names.now) (point ∷ []) }
{
    match firsts.get(&point) {
        Some(ids) => are_many(names, ids).then_some(point),
        None => None,
    }
}

/// Whether these are more names than may have the same first code point, or more without `;`.
fn are_many(names: &[ReferenceName], ids: &[NameId]) -> bool
    requires { All (λ id. id < length names.now) ids.now }
    ensures { result ≡ are_many (entries_of names.now) ids.now }
{
    if ids.len() > ALIKE_LIMIT {
        return true;
    }
    open_names(names, ids) > OPEN_LIMIT
}

/// How many of these names don't end in `;`.
fn open_names(names: &[ReferenceName], ids: &[NameId]) -> usize
    requires { All (λ id. id < length names.now) ids.now }
    ensures { result ≡ count_by (is_open_at (entries_of names.now)) ids.now }
{
    let mut open = 0;
    for id in ids {
        if !is_closed(names[id.index()].text.as_str().as_bytes()) {
            open += 1;
        }
    }
    open
}
