//! How many bytes an attribute takes in a tag, by its place there.
ghost use Rattle.std.specs.Prelude.{◌≡◌, ◌<◌, ◌^◌, ◌+◌, length, nat_le, ◌&&◌, not, if◌then◌else◌, IfOk, Some};
ghost use Rattle.std.specs.List.{All};
ghost use Rattle.hm_graph_laws.specs.ExchangeLaws.{sparing_plain};
ghost use Rattle.hm_order.specs.Costs.{inner_cost, last_cost};
ghost use Rattle.hm_order.specs.Places.{IsFirstBest, IsLowCost};
ghost use Rattle.hm_order.specs.Weights as weights;

use crate::scan::scan;
use crate::tags::last_alone;
use hm_base::{OutOfMemory, SpellRules};
use hm_refs::Table;
use hm_refs::laws::every_table;
use std::alloc::Global;

/// The fewest bytes that an attribute takes, its name and quotes included.
#[derive(Clone, Copy, PartialEq, Eq)]
pub struct AttrCost {
    /// If another attribute follows it. The space between them, if one is needed, is counted.
    pub inner: u64,
    /// If it is the last one of its tag. The space before the `/` of a tag that closes itself, if one is needed, is
    /// counted.
    pub last: u64,
}

/// Names and values of this many bytes or more fail with `OutOfMemory`.
const LONG: usize = 1 << 27;

/// The cost of an attribute without a value.
fn bare_cost(name: &str) -> AttrCost
    requires { length name.now < 2 ^ 27 }
    ensures inner { result.inner ≡ length name.now + 1 }
    ensures last { result.last ≡ length name.now }
    ensures low { IsLowCost result }
{
    let last = name.len() as u64;
    AttrCost {
        inner: last + 1,
        last,
    }
}

/// Whether a value of easy characters is shortest without quotes.
fn stands_bare(rules: SpellRules, barred: bool) -> bool
    ensures { result ≡ (rules.unquote && not barred) }
{
    rules.unquote && !barred
}

/// The cost of an attribute whose value has only easy characters, by the bytes of name and value. `bare` says whether
/// the value is written without quotes.
fn easy_cost(name: &str, value: &str, bare: bool, tight: bool, closes: bool) -> AttrCost
    requires name { length name.now < 2 ^ 27 }
    requires value { length value.now < 2 ^ 27 }
    ensures inner { result.inner ≡ weights.easy_cost bare (length name.now) (length value.now) 1 (if tight then 0 else 1) }
    ensures last { result.last ≡ weights.easy_cost bare (length name.now) (length value.now) (if closes then 1 else 0) 0 }
    ensures low { IsLowCost result }
{
    let both = (name.len() + value.len()) as u64;
    if bare {
        AttrCost {
            inner: both + 2,
            last: if closes { both + 2 } else { both + 1 },
        }
    } else {
        AttrCost {
            inner: if tight { both + 3 } else { both + 4 },
            last: both + 3,
        }
    }
}

/// The cost of an attribute with a value, from the shortest texts of tags that have this attribute alone.
fn graph_cost(
    alloc: Global,
    table: &Table,
    rules: SpellRules,
    name: &str,
    value: &str,
    closes: bool,
) -> Result<AttrCost, OutOfMemory>
    requires some { 0 < length value.now }
    requires name { length name.now < 2 ^ 27 }
    requires value { length value.now < 2 ^ 27 }
    ensures inner { IfOk result (λ cost. inner_cost (sparing_plain table.now.entries rules) (record { name = name.now; value = value.now }) ≡ Some cost.inner) }
    ensures last { IfOk result (λ cost. last_cost (sparing_plain table.now.entries rules) closes (record { name = name.now; value = value.now }) ≡ Some cost.last) }
    ensures low { IfOk result IsLowCost }
{
    // With `tight`, the space after a value without quotes is the one that a '/' needs.
    let near = last_alone(alloc, table, rules, name, value, rules.tight)?;
    let inner = if rules.tight { near } else { near + 1 };
    if closes == rules.tight {
        return Ok(AttrCost { inner, last: near });
    }
    let last = last_alone(alloc, table, rules, name, value, closes)?;
    Ok(AttrCost { inner, last })
}

/// How many bytes an attribute costs, by a table and these rules, in a tag that may close itself (`closes`) or not.
/// Takes time linear in the length of the value. Fails with `OutOfMemory` if the name or the value has 2^27 bytes or
/// more.
pub fn attr_cost(
    alloc: Global,
    table: &Table,
    rules: SpellRules,
    name: &str,
    value: &str,
    closes: bool,
) -> Result<AttrCost, OutOfMemory>
    ensures inner { IfOk result (λ cost. inner_cost (sparing_plain table.now.entries rules) (record { name = name.now; value = value.now }) ≡ Some cost.inner) }
    ensures last { IfOk result (λ cost. last_cost (sparing_plain table.now.entries rules) closes (record { name = name.now; value = value.now }) ≡ Some cost.last) }
    ensures low { IfOk result IsLowCost }
{
    if name.len() >= LONG || value.len() >= LONG {
        return Err(OutOfMemory);
    }
    if value.is_empty() {
        return Ok(bare_cost(name));
    }
    every_table(table);
    let low = value.is_ascii();
    let Some(barred) = scan(table, rules.ascii, low, value) else {
        return graph_cost(alloc, table, rules, name, value, closes);
    };
    let bare = stands_bare(rules, barred);
    Ok(easy_cost(name, value, bare, rules.tight, closes))
}

/// Whether the first attribute saves at least as many bytes as the other one if it goes last.
fn is_better_last(cost: AttrCost, other: AttrCost) -> bool
    requires cost { IsLowCost cost }
    requires other { IsLowCost other }
    ensures { result ≡ nat_le (cost.last + other.inner) (other.last + cost.inner) }
{
    cost.last + other.inner <= other.last + cost.inner
}

/// The index of the attribute that goes last: the first of those whose cost as the last one, less that as an inner one,
/// is least.
pub fn best_last(costs: &[AttrCost]) -> usize
    requires some { 0 < length costs.now }
    requires low { All IsLowCost costs.now }
    ensures { IsFirstBest costs.now result }
{
    let mut best = costs.len() - 1;
    for place in (0..costs.len()).rev() {
        if is_better_last(costs[place], costs[best]) {
            best = place;
        }
    }
    best
}
