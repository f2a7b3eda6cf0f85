//! A tree from JSON.
ghost use Rattle.std.specs.Prelude.{◌≡◌, ◌≢◌, ◌+◌, ◌^◌, ◌<◌, ◌≤◌, [], List, None, Some, drop, length, IfOk, IfErr, OnOk, MatchOption};
ghost use Rattle.serde_json.specs.View.{items_view, view};
ghost use Rattle.hm_base.specs.Walks.{Element, Event, path_after_event};
ghost use Rattle.hm_elements.specs.Settled.{Settled};
ghost use Rattle.hm_json_tree.specs.declared.limits.TheConstants as limits;
ghost use Rattle.hm_json_tree.specs.Progress.{AreListed, IsAt, fault_walk, put_events};
ghost use Rattle.hm_json_tree.specs.Reading.{at_end, event_in, events_in, json_walk, listed, of_listed, walk};
ghost use Rattle.hm_refs.specs.Json as json;

use crate::JsonFault;
use crate::form::{depth_after, form_of};
use crate::limits::JSON_LIMIT;
use crate::reader::Reader;
use crate::streamed::read_tokens;
use hm_base::OutOfMemory;
use hm_tree::Tree;
use serde_json::Value;
use std::alloc::Global;

/// Reads a tree: an array with an item for each event, as `["doctype","plain"]`, `["start",NAME,[[NAME,VALUE],..]]`,
/// `["text",TEXT]`, `["comment",TEXT]` and `["end"]`. The tree is settled.
pub fn read_tree(alloc: Global, bytes: &[u8]) -> Result<Tree, JsonFault>
    ensures tree { IfOk result (λ tree. json_walk bytes.now ≡ walk tree) }
    ensures settled { IfOk result (λ tree. Settled tree) }
    ensures fault { IfErr result (λ fault. fault ≢ JsonFault.OutOfMemory → json_walk bytes.now ≡ fault_walk fault) }
{
    if bytes.len() > JSON_LIMIT as usize {
        return Err(JsonFault::TooLong);
    }
    match read_tokens(alloc, bytes)? {
        Some(tree) => Ok(tree),
        None => read_value(alloc, bytes),
    }
}

/// As `read_tree`, for bytes within the limit, by their whole JSON value.
fn read_value(alloc: Global, bytes: &[u8]) -> Result<Tree, JsonFault>
    requires { length bytes.now ≤ limits.JSON_LIMIT }
    ensures tree { IfOk result (λ tree. json_walk bytes.now ≡ walk tree) }
    ensures settled { IfOk result (λ tree. Settled tree) }
    ensures fault { IfErr result (λ fault. fault ≢ JsonFault.OutOfMemory → json_walk bytes.now ≡ fault_walk fault) }
{
    let value = parse(alloc, bytes)?;
    match value.as_array() {
        Some(items) => {
            let tree = read_items(alloc, items)?;
            // Asked only for its contract: what is true of each tree.
            let _len = tree.len();
            Ok(tree)
        }
        None => Err(JsonFault::NotArray),
    }
}

/// The bytes as JSON.
fn parse(alloc: Global, bytes: &[u8]) -> Result<Value, JsonFault>
    ensures ok { IfOk result (λ value. json.json bytes.now ≡ Some (view value)) }
    ensures fault { IfErr result
        (λ fault. fault ≢ JsonFault.OutOfMemory
        → (fault ≡ JsonFault.NotJson) × (json.json bytes.now ≡ None)) }
{
    match Value::from_slice(alloc, bytes) {
        Ok(value) => Ok(value),
        Err(error) => if error.is_memory() {
            Err(JsonFault::OutOfMemory)
        } else {
            Err(JsonFault::NotJson)
        },
    }
}

/// The tree of the events in these items.
fn read_items(alloc: Global, items: &[Value]) -> Result<Tree, JsonFault>
    ensures tree { IfOk result (λ tree. of_listed (events_in 0 [] (items_view items.now)) ≡ walk tree) }
    ensures fault { IfErr result (λ fault. fault ≢ JsonFault.OutOfMemory → of_listed (events_in 0 [] (items_view items.now)) ≡ fault_walk fault) }
{
    let mut reader = Reader::new(alloc);
    take_items(alloc, items, &mut reader)?;
    reader.finish()
}

/// Takes the events of all items. None was taken before.
#[inline(always)]
fn take_items(alloc: Global, items: &[Value], reader: &mut Reader) -> Result<(), JsonFault>
    requires at { IsAt reader.old }
    requires none { reader.old.maker ≡ [] }
    requires top { reader.old.path ≡ [] }
    ensures at { OnOk result (IsAt reader.new) }
    ensures read { OnOk result (events_in 0 [] (items_view items.now) ≡ put_events reader.new.maker (at_end reader.new.path)) }
    ensures fault { IfErr result (λ fault. fault ≢ JsonFault.OutOfMemory → of_listed (events_in 0 [] (items_view items.now)) ≡ fault_walk fault) }
{
    for i in 0..items.len() {
        take_item(alloc, items, i, reader)?;
    }
    Ok(())
}

/// Takes the event of item `i`. Those of the items before it were taken.
#[inline(always)]
fn take_item(alloc: Global, items: &[Value], i: usize, reader: &mut Reader) -> Result<(), JsonFault>
    requires inside { i < length items.now }
    requires at { IsAt reader.old }
    requires count { i ≡ length reader.old.maker }
    requires listed { AreListed items.now i reader.old.maker reader.old.path }
    ensures at { OnOk result (IsAt reader.new) }
    ensures count { OnOk result (i + 1 ≡ length reader.new.maker) }
    ensures listed { OnOk result (AreListed items.now (i + 1) reader.new.maker reader.new.path) }
    ensures fault { IfErr result (λ fault. fault ≢ JsonFault.OutOfMemory → of_listed (events_in 0 [] (items_view items.now)) ≡ fault_walk fault) }
{
    let Some(form) = reader.form_of(&items[i]) else {
        return Err(bad_event(i));
    };
    if let Some(point) = reader.take(alloc, &form)? {
        follow(items, i, reader.path.len() as u32)?;
        return Err(not_settled(i, point));
    }
    Ok(())
}

/// Checks that the items from `from` on are events and close all elements. `opened` are open before them.
fn follow(items: &[Value], from: usize, opened: u32) -> Result<(), JsonFault>
    requires { from ≤ length items.now }
    ensures ok { OnOk result ((path : List Element) → length path ≡ opened → (w : List Event) × (events_in from path (items_view (drop from items.now)) ≡ listed w)) }
    ensures fault { IfErr result (λ fault. fault ≢ JsonFault.OutOfMemory → (w : List Event) (path : List Element) → length path ≡ opened → of_listed (put_events w (events_in from path (items_view (drop from items.now)))) ≡ fault_walk fault) }
{
    let mut depth = opened;
    for i in from..items.len() {
        match next_depth(&items[i], depth)? {
            Some(next) => depth = next,
            None => return Err(bad_event(i)),
        }
    }
    if depth > 0 {
        return Err(JsonFault::Open { count: depth });
    }
    Ok(())
}

/// How many elements are open after an item. None if it isn't an event, or is an end while no element is open.
fn next_depth(item: &Value, depth: u32) -> Result<Option<u32>, OutOfMemory>
    ensures { IfOk result (λ next. (path : List Element) → length path ≡ depth → MatchOption next (event_in path (view item.now) ≡ None)
        (λ n. (e : Event) × (event_in path (view item.now) ≡ Some e) × (length (path_after_event path e) ≡ n))) }
{
    let Some(form) = form_of(item) else {
        return Ok(None);
    };
    depth_after(&form, depth)
}

/// The fault of item `i`, which isn't an event.
fn bad_event(i: usize) -> JsonFault
    ensures { result ≢ JsonFault.OutOfMemory → result ≡ JsonFault.BadEvent i }
{
    match u32::try_from(i) {
        Ok(event) => JsonFault::BadEvent { event },
        Err(_) => JsonFault::OutOfMemory,
    }
}

/// The fault of event `i`, which breaks a rule.
fn not_settled(i: usize, point: u8) -> JsonFault
    ensures { result ≢ JsonFault.OutOfMemory → result ≡ JsonFault.NotSettled i point }
{
    match u32::try_from(i) {
        Ok(event) => JsonFault::NotSettled { event, point },
        Err(_) => JsonFault::OutOfMemory,
    }
}
