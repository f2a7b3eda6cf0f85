//! Reads a tree event by event, each after the one before it was checked.
ghost use Rattle.std.specs.Prelude.{◌≡◌, ◌≢◌, ◌<◌, ◌≤◌, [], ◌∷◌, List, length, true, IfOk, IfErr, IfSome};
ghost use Rattle.hm_elements.specs.Settled.{Settled};
ghost use Rattle.hm_json_tree.specs.declared.limits.TheConstants.{JSON_LIMIT};
ghost use Rattle.json.specs.Token as json;
ghost use Rattle.hm_json_tree.specs.Progress.{IsAt, fault_walk, put_events};
ghost use Rattle.hm_json_tree.specs.Reading.{JsonWalk, at_end, json_walk, of_listed, walk};
ghost use Rattle.hm_tree.specs.Trees.{are_sound};
ghost use Rattle.hm_json_tree.specs.Tokens.{IsItem, IsRead, Passes, PassesAs, PassesOne, Whole};

use crate::JsonFault;
use crate::form::{JsonEvent, depth_after};
use crate::reader::Reader;
use crate::tokens::{is_at_end, next_form};
use hm_base::OutOfMemory;
use hm_tree::Tree;
use json::{Scratch, Token};
use std::alloc::Global;

/// The tree of an array of events, or its fault. `Ok(None)` for bytes that aren't JSON or have an item that isn't an
/// event: their fault is found by their whole value.
pub(crate) fn read_tokens(alloc: Global, bytes: &[u8]) -> Result<Option<Tree>, JsonFault>
    requires { length bytes.now ≤ JSON_LIMIT }
    ensures tree { IfOk result (λ read. IfSome read (λ tree. json_walk bytes.now ≡ walk tree)) }
    ensures settled { IfOk result (λ read. IfSome read (λ tree. Settled tree)) }
    ensures fault { IfErr result (λ fault. fault ≢ JsonFault.OutOfMemory → json_walk bytes.now ≡ fault_walk fault) }
{
    let Ok(text) = str::from_utf8(bytes) else {
        return Ok(None);
    };
    let mut scratch = Scratch::new(alloc);
    let mut tokens = json::Reader::new(text, &mut scratch)?;
    read_array(alloc, &mut tokens)
}

/// The tree of the array that is the next value, up to the end of the text.
#[inline(always)]
fn read_array(alloc: Global, tokens: &mut json::Reader<'_>) -> Result<Option<Tree>, JsonFault>
    ensures tree { IfOk result (λ read. IfSome read (λ tree. (rest : List json.Token) × (tokens.old ≡ json.Token.begin_array ∷ rest) × Whole rest (walk tree) × (are_sound tree ≡ true))) }
    ensures fault { IfErr result (λ fault. fault ≢ JsonFault.OutOfMemory → (rest : List json.Token) × (tokens.old ≡ json.Token.begin_array ∷ rest) × Whole rest (fault_walk fault)) }
{
    let Some(Token::BeginArray) = tokens.next() else {
        return Ok(None);
    };
    let Some(tree) = read_events(alloc, tokens)? else {
        return Ok(None);
    };
    // Asked only for its contract: what is true of each tree.
    let _len = tree.len();
    Ok(Some(tree))
}

/// The tree of the next items, up to the end of the text.
fn read_events(alloc: Global, tokens: &mut json::Reader<'_>) -> Result<Option<Tree>, JsonFault>
    ensures tree { IfOk result (λ read. IfSome read (λ tree. Whole tokens.old (walk tree))) }
    ensures fault { IfErr result (λ fault. fault ≢ JsonFault.OutOfMemory → Whole tokens.old (fault_walk fault)) }
{
    let mut reader = Reader::new(alloc);
    if !take_events(alloc, tokens, &mut reader)? {
        return Ok(None);
    }
    Ok(Some(reader.finish()?))
}

/// Takes the events of the next items, up to the end of the text. Returns whether all items are events. None was taken
/// before.
#[inline(always)]
fn take_events(
    alloc: Global,
    tokens: &mut json::Reader<'_>,
    reader: &mut Reader,
) -> Result<bool, JsonFault>
    requires at { IsAt reader.old }
    requires none { reader.old.maker ≡ [] }
    requires top { reader.old.path ≡ [] }
    ensures at { IfOk result (λ taken. taken ≡ true → IsAt reader.new) }
    ensures read { IfOk result (λ taken. taken ≡ true → (w : JsonWalk) → of_listed (put_events reader.new.maker (at_end reader.new.path)) ≡ w → Whole tokens.old w) }
    ensures fault { IfErr result (λ fault. fault ≢ JsonFault.OutOfMemory → Whole tokens.old (fault_walk fault)) }
{
    while !tokens.take_end_array() {
        if !read_event(alloc, tokens, reader)? {
            return Ok(false);
        }
    }
    Ok(is_at_end(tokens))
}

/// Takes the event of the next item. Returns whether the item is one. If it breaks a rule, the rest of the text is read
/// too.
fn read_event(
    alloc: Global,
    tokens: &mut json::Reader<'_>,
    reader: &mut Reader,
) -> Result<bool, JsonFault>
    requires { IsAt reader.old }
    ensures at { IfOk result (λ taken. taken ≡ true → IsAt reader.new) }
    ensures read { IfOk result (λ taken. taken ≡ true → (all : List json.Token) → IsRead all reader.old.maker reader.old.path tokens.old → IsRead all reader.new.maker reader.new.path tokens.new) }
    ensures shorter { IfOk result (λ taken. taken ≡ true → length tokens.new < length tokens.old) }
    ensures fault { IfErr result (λ fault. fault ≢ JsonFault.OutOfMemory → (all : List json.Token) → IsRead all reader.old.maker reader.old.path tokens.old → Whole all (fault_walk fault)) }
{
    match next_form(alloc, tokens) {
        Some(form) => take_form(alloc, tokens, reader, &form),
        None => Ok(false),
    }
}

/// As `read_event`, for an item that was read.
#[inline(always)]
fn take_form(
    alloc: Global,
    tokens: &mut json::Reader<'_>,
    reader: &mut Reader,
    form: &JsonEvent<'_>,
) -> Result<bool, JsonFault>
    requires { IsAt reader.old }
    ensures at { IfOk result (λ taken. taken ≡ true → IsAt reader.new) }
    ensures same { IfOk result (λ taken. taken ≡ true → tokens.new ≡ tokens.old) }
    ensures read { IfOk result (λ taken. taken ≡ true → (all before : List json.Token) → IsItem before form.now tokens.old → IsRead all reader.old.maker reader.old.path before → IsRead all reader.new.maker reader.new.path tokens.new) }
    ensures fault { IfErr result (λ fault. fault ≢ JsonFault.OutOfMemory → (all before : List json.Token) → IsItem before form.now tokens.old → IsRead all reader.old.maker reader.old.path before → Whole all (fault_walk fault)) }
{
    let event = reader.events;
    let Some(opened) = depth_after(form, reader.path.len() as u32)? else {
        return Ok(false);
    };
    let Some(point) = reader.take(alloc, form)? else {
        return Ok(true);
    };
    if pass_events(alloc, tokens, opened)? {
        return Err(JsonFault::NotSettled { event, point });
    }
    Ok(false)
}

/// Whether events follow up to the end of the text, and close all elements. `opened` are open before them.
fn pass_events(alloc: Global, tokens: &mut json::Reader<'_>, opened: u32) -> Result<bool, JsonFault>
    ensures ok { IfOk result (λ passed. passed ≡ true → Passes tokens.old opened) }
    ensures fault { IfErr result (λ fault. fault ≢ JsonFault.OutOfMemory → PassesAs tokens.old opened (fault_walk fault)) }
{
    let mut depth = opened;
    while !tokens.take_end_array() {
        match next_depth(alloc, tokens, depth)? {
            Some(next) => depth = next,
            None => return Ok(false),
        }
    }
    if !is_at_end(tokens) {
        return Ok(false);
    }
    if depth > 0 {
        return Err(JsonFault::Open { count: depth });
    }
    Ok(true)
}

/// How many elements are open after the next item. None if it isn't an event, or is an end while no element is open.
fn next_depth(
    alloc: Global,
    tokens: &mut json::Reader<'_>,
    depth: u32,
) -> Result<Option<u32>, OutOfMemory>
    ensures { IfOk result (λ next. IfSome next (λ n. PassesOne tokens.old depth n tokens.new)) }
{
    let Some(form) = next_form(alloc, tokens) else {
        return Ok(None);
    };
    depth_after(&form, depth)
}
