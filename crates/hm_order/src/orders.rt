//! A tree with the attributes of each tag in the order in which the tag is shortest.
ghost use Rattle.std.specs.Prelude.{◌≡◌, ◌<◌, ◌+◌, ◌^◌, ◌&&◌, length, slice_get, Some, IfOk, OnOk};
ghost use Rattle.hm_elements.specs.Settled.{Settled};
ghost use Rattle.hm_graph_laws.specs.ExchangeLaws.{sparing_plain};
ghost use Rattle.hm_graph_laws.specs.States.{first_state};
ghost use Rattle.hm_graph_laws.specs.UnitEdges.{edges_of};
ghost use Rattle.hm_graph_laws.specs.Units.{units_of};
ghost use Rattle.hm_graph_laws.specs.Ways.{first_way};
ghost use Rattle.hm_order.specs.Laws.{ShortestAny};
ghost use Rattle.hm_order.specs.Orders.{is_end, Like, ordered, reordered};
ghost use Rattle.hm_order.specs.Places.{IsOrderedBy, ordered_at};
ghost use Rattle.hm_tree.specs.Moved.{moved, put_last};
ghost use Rattle.hm_tree.specs.Views.{attributes_shown, event_of};

use crate::costs::{AttrCost, attr_cost, best_last};
use hm_base::{OutOfMemory, SpellRules};
use hm_refs::Table;
use hm_refs::laws::every_table;
use hm_tree::{AttrsView, EventView, Tree};
use std::alloc::Global;

/// Gives the tree with the attributes of each tag in the order in which its text is shortest: the attribute that saves
/// most as the last one goes last, the first of them if there are several. The attributes are moved in place.
///
/// Fails with `OutOfMemory` if an attribute has a name or a value of 2^27 bytes or more.
pub fn reorder(
    alloc: Global,
    tree: Tree,
    table: &Table,
    rules: SpellRules,
) -> Result<Tree, OutOfMemory>
    ensures ok { IfOk result (λ made. made ≡ reordered (sparing_plain table.now.entries rules) tree) }
    ensures like { IfOk result (λ made. Like tree made) }
    ensures settled { Settled tree → IfOk result (λ made. Settled made) }
    ensures shortest { Settled tree → IfOk result (λ made. ShortestAny table.now.entries rules tree
        (length (first_way (edges_of (sparing_plain table.now.entries rules)) (units_of rules made) first_state))) }
{
    every_table(table);
    let mut made = tree;
    order_tags(alloc, &mut made, table, rules)?;
    Ok(made)
}

/// Puts the attributes of each tag in order.
fn order_tags(
    alloc: Global,
    tree: &mut Tree,
    table: &Table,
    rules: SpellRules,
) -> Result<(), OutOfMemory>
    ensures { OnOk result (tree.new ≡ reordered (sparing_plain table.now.entries rules) tree.old) }
{
    let mut costs = Vec::new(alloc);
    for i in 0..tree.len() {
        order_tag(alloc, &mut costs, tree, i, table, rules)?;
    }
    Ok(())
}

/// Puts the attributes of event `i` in order.
fn order_tag(
    alloc: Global,
    costs: &mut Vec<AttrCost>,
    tree: &mut Tree,
    i: u32,
    table: &Table,
    rules: SpellRules,
) -> Result<(), OutOfMemory>
    requires { i < length tree.old }
    ensures { OnOk result (tree.new ≡ ordered_at (sparing_plain table.now.entries rules) tree.old i) }
{
    if let Some(last) = last_of(alloc, costs, tree, i, table, rules)? {
        tree.put_last(i, last);
    }
    Ok(())
}

/// The index of the attribute of event `i` that goes last. None if the event isn't a tag with two or more attributes.
fn last_of(
    alloc: Global,
    costs: &mut Vec<AttrCost>,
    tree: &Tree,
    i: u32,
    table: &Table,
    rules: SpellRules,
) -> Result<Option<u32>, OutOfMemory>
    requires { i < length tree.now }
    ensures { IfOk result (IsOrderedBy (sparing_plain table.now.entries rules) tree.now i) }
{
    if let EventView::Start { foreign, attrs, .. } = tree.event(i) {
        if attrs.len() > 1 {
            let closes = closes_itself(tree, i, foreign);
            return Ok(Some(find_last(alloc, costs, &attrs, closes, table, rules)?));
        }
    }
    Ok(None)
}

/// Whether the start tag of event `i` may close itself: its element is one of SVG (`foreign`) and has no content.
fn closes_itself(tree: &Tree, i: u32, foreign: bool) -> bool
    requires { i < length tree.now }
    ensures { result ≡ (foreign && is_end (slice_get tree.now (i + 1))) }
{
    foreign && is_end_after(tree, i)
}

/// Whether the event after event `i` is an end.
fn is_end_after(tree: &Tree, i: u32) -> bool
    requires { i < length tree.now }
    ensures { result ≡ is_end (slice_get tree.now (i + 1)) }
{
    let len = tree.len();
    i + 1 < len && is_end_event(&tree.event(i + 1))
}

/// Whether the event is an end.
fn is_end_event(event: &EventView<'_>) -> bool
    ensures { result ≡ is_end (Some (event_of event.now)) }
{
    match event {
        EventView::End { .. } => true,
        _ => false,
    }
}

/// The index of the attribute that goes last. If each costs one byte less as the last one, it is the first one. No
/// attribute saves more than a byte there, so the search stops at the first that saves one.
fn find_last(
    alloc: Global,
    costs: &mut Vec<AttrCost>,
    attrs: &AttrsView<'_>,
    closes: bool,
    table: &Table,
    rules: SpellRules,
) -> Result<u32, OutOfMemory>
    requires some { 0 < length (attributes_shown attrs.now) }
    requires few { length (attributes_shown attrs.now) < 2 ^ 32 }
    ensures inside { IfOk result (λ last. last < length (attributes_shown attrs.now)) }
    ensures order { IfOk result (λ last. ordered (sparing_plain table.now.entries rules) closes (attributes_shown attrs.now) ≡ moved last (attributes_shown attrs.now)) }
{
    if !rules.tight && !closes {
        return Ok(0);
    }
    every_table(table);
    costs.clear();
    for i in 0..attrs.len() {
        let (name, value) = attrs.at(i);
        let cost = attr_cost(alloc, table, rules, name, value, closes)?;
        if cost.last < cost.inner {
            return Ok(i);
        }
        costs.push(cost)?;
    }
    Ok(best_last(costs) as u32)
}
