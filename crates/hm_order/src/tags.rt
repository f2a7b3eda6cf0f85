//! The price of a tag that has one attribute and no others.
ghost use Rattle.std.specs.Prelude.{◌≡◌, ◌+◌, ◌<◌, ◌^◌, ◌∷◌, [], length, Some, IfOk};
ghost use Rattle.hm_graph_laws.specs.ExchangeLaws.{sparing_plain};
ghost use Rattle.hm_order.specs.Alone as alone;
ghost use Rattle.hm_order.specs.Alone.{walk_alone};
ghost use Rattle.hm_order.specs.Costs as costs;

use hm_base::{OutOfMemory, SpellRules};
use hm_refs::Table;
use hm_refs::laws::every_table;
use hm_shortest::least_price;
use hm_tree::{Attrs, Tree};
use std::alloc::Global;

/// Prices from here on fail with `OutOfMemory`.
const HIGH: u64 = 1 << 62;

/// The bytes of the shortest text of such a tag, without the attribute: of `<br >` or `<g />`.
const AROUND: u64 = 5;

/// The element of such a tag.
fn element_alone(closes: bool) -> &'static str
    ensures { result.now ≡ alone.element_alone closes }
{
    if closes { "g" } else { "br" }
}

/// A list of this attribute alone.
#[inline(always)]
fn attrs_alone(alloc: Global, name: &str, value: &str) -> Result<Attrs, OutOfMemory>
    ensures { IfOk result (λ attrs. attrs ≡ record { name = name.now; value = value.now } ∷ []) }
{
    let mut attrs = Attrs::new(alloc);
    attrs.put(name, value)?;
    Ok(attrs)
}

/// The tree of an element with this attribute alone.
fn tree_alone(alloc: Global, name: &str, value: &str, closes: bool) -> Result<Tree, OutOfMemory>
    requires name { length name.now < 2 ^ 27 }
    requires value { length value.now < 2 ^ 27 }
    ensures { IfOk result (λ tree. tree ≡ walk_alone closes (record { name = name.now; value = value.now })) }
{
    let attrs = attrs_alone(alloc, name, value)?;
    let mut maker = Tree::maker(alloc);
    maker.start(element_alone(closes), closes, attrs)?;
    maker.end()?;
    Ok(maker.finish())
}

/// The cost of an attribute as the last one of its tag, in bytes. Its value isn't empty.
pub(crate) fn last_alone(
    alloc: Global,
    table: &Table,
    rules: SpellRules,
    name: &str,
    value: &str,
    closes: bool,
) -> Result<u64, OutOfMemory>
    requires name { length name.now < 2 ^ 27 }
    requires value { length value.now < 2 ^ 27 }
    ensures cost { IfOk result (λ cost. costs.last_cost (sparing_plain table.now.entries rules) closes (record { name = name.now; value = value.now }) ≡ Some cost) }
    ensures low { IfOk result (λ cost. cost + 1 < 2 ^ 62) }
{
    every_table(table);
    let tree = tree_alone(alloc, name, value, closes)?;
    let price = least_price(alloc, &tree, table, rules)?;
    if price >= HIGH {
        return Err(OutOfMemory);
    }
    Ok(price - AROUND)
}
