//! Reads events one after the other, as long as none breaks a rule of settled trees.
ghost use Rattle.std.specs.Prelude.{◌≡◌, ◌+◌, ◌^◌, ◌<◌, [], ◌∷◌, ◌++◌, true, length, List, Some, None, IfOk, IfErr, IfSome, OnOk, MatchOption, is_some, ◌≢◌};
ghost use Rattle.serde_json.specs.View.{view};
ghost use Rattle.hm_base.specs.Walks as walks;
ghost use Rattle.hm_base.specs.Walks.{Element, Event, attributes_size, event_size, path_after, path_after_event};
ghost use Rattle.hm_elements.specs.Settled as settled;
ghost use Rattle.hm_tree.specs.Trees.{HasRoom};
ghost use Rattle.hm_json_tree.specs.Breaks.{Past, first_break, point_at};
ghost use Rattle.hm_json_tree.specs.Forms as forms;
ghost use Rattle.hm_json_tree.specs.Forms.{HasAttributes, event_told, may_join, told};
ghost use Rattle.hm_json_tree.specs.Progress.{IsAt, fault_walk, put_events};
ghost use Rattle.hm_json_tree.specs.Reading.{at_end, event_in, of_listed, walk};
ghost use Rattle.hm_json_tree.specs.Seen.{IsSeen};

use crate::JsonFault;
use crate::attributes::attributes_of;
use crate::form::{JsonEvent, form_of};
use crate::rules::{is_foreign, point_of};
use crate::seen::{Seen, Top};
use crate::texts::{ends_raw, has_byte};
use hm_base::OutOfMemory;
use hm_elements::Named;
use hm_open_elements::OpenElements;
use hm_tree::{Attrs, Maker, Tree};
use serde_json::Value;
use std::alloc::Global;

/// The most bytes of names, values, texts and comments that are kept.
const MOST_BYTES: usize = 536_870_911;

/// The most events that are kept.
const MOST_EVENTS: u32 = 268_435_456;

/// The events so far. None of them breaks a rule.
#[derive(Drop)]
pub(crate) struct Reader {
    pub seen: Seen,
    pub path: OpenElements,
    pub maker: Maker,
    /// The bytes of names, values, texts and comments.
    pub bytes: usize,
    /// How many events there are.
    pub events: u32,
}

impl Reader {
    /// No events.
    pub(crate) fn new(alloc: Global) -> Reader
        ensures at { IsAt result }
        ensures none { result.maker ≡ [] }
        ensures top { result.path ≡ [] }
    {
        Reader {
            seen: Seen::new(),
            path: OpenElements::new(alloc),
            maker: Tree::maker(alloc),
            bytes: 0,
            events: 0,
        }
    }

    /// The event of an item, if it is one.
    pub(crate) fn form_of<'v>(&self, item: &'v Value) -> Option<JsonEvent<'v>>
        ensures event { MatchOption result (event_in self.now.path (view item.now) ≡ None)
            (λ form. event_in self.now.path (view item.now) ≡ Some (told self.now.path form)) }
        ensures told { IfSome result (λ form. event_told self.now.path form ≡ Some (told self.now.path form)) }
    {
        let form = form_of(item)?;
        if is_end(&form) && self.path.len() == 0 {
            return None;
        }
        Some(form)
    }

    /// Takes the next event, unless it breaks a rule. Returns the least rule that it breaks.
    pub(crate) fn take(
        &mut self,
        alloc: Global,
        form: &JsonEvent<'_>,
    ) -> Result<Option<u8>, OutOfMemory>
        requires at { IsAt self.old }
        requires told { event_told self.old.path form.now ≡ Some (told self.old.path form.now) }
        ensures { IfOk result (λ point. MatchOption point
            (IsAt self.new × (self.new.maker ≡ self.old.maker ++ told self.old.path form.now ∷ []) × (self.new.path ≡ path_after_event self.old.path (told self.old.path form.now)))
            (λ k. (self.new.path ≡ self.old.path) × ((w : List Event) → first_break (self.old.maker ++ told self.old.path form.now ∷ w) ≡ Some (record { event = length self.old.maker; point = k })))) }
    {
        let raw_ends = is_raw_text(alloc, &self.path, form)?;
        let attrs = attributes_in(alloc, form)?;
        self.judge(alloc, form, raw_ends, &attrs)
    }

    /// As `take`, given the answers of the rules on raw texts and on attributes.
    #[inline(always)]
    fn judge(
        &mut self,
        alloc: Global,
        form: &JsonEvent<'_>,
        raw_ends: bool,
        attrs: &Option<Attrs>,
    ) -> Result<Option<u8>, OutOfMemory>
        requires at { IsAt self.old }
        requires told { event_told self.old.path form.now ≡ Some (told self.old.path form.now) }
        requires raw { raw_ends ≡ settled.is_raw_text self.old.path (told self.old.path form.now) [] }
        requires form { is_some attrs.now ≡ settled.has_attributes_in_form self.old.path (told self.old.path form.now) [] }
        requires made { IfSome attrs.now (HasAttributes form.now) }
        ensures { IfOk result (λ point. MatchOption point
            (IsAt self.new × (self.new.maker ≡ self.old.maker ++ told self.old.path form.now ∷ []) × (self.new.path ≡ path_after_event self.old.path (told self.old.path form.now)))
            (λ k. (self.new.path ≡ self.old.path) × ((w : List Event) → first_break (self.old.maker ++ told self.old.path form.now ∷ w) ≡ Some (record { event = length self.old.maker; point = k })))) }
    {
        let point = point_of(&self.seen, &self.path, form, raw_ends, attrs.is_some());
        if point.is_some() {
            return Ok(point);
        }
        self.put(alloc, form, attrs.as_ref().unwrap())?;
        Ok(None)
    }

    /// Takes an event that breaks no rule.
    fn put(&mut self, alloc: Global, form: &JsonEvent<'_>, attrs: &Attrs) -> Result<(), OutOfMemory>
        requires at { IsAt self.old }
        requires told { event_told self.old.path form.now ≡ Some (told self.old.path form.now) }
        requires attributes { HasAttributes form.now attrs.now }
        requires sound { (p : Past) → IsSeen self.old.seen p → p.path ≡ self.old.path → point_at p (told self.old.path form.now) ≡ None }
        ensures at { OnOk result (IsAt self.new) }
        ensures maker { OnOk result (self.new.maker ≡ self.old.maker ++ told self.old.path form.now ∷ []) }
        ensures path { OnOk result (self.new.path ≡ path_after_event self.old.path (told self.old.path form.now)) }
    {
        if self.events >= MOST_EVENTS {
            return Err(OutOfMemory);
        }
        let bytes = with_event(self.bytes, form, attrs)?;
        let seen = self.seen.after(&self.path, form);
        put_event(alloc, &mut self.maker, &mut self.path, form, attrs)?;
        self.seen = seen;
        self.bytes = bytes;
        self.events += 1;
        Ok(())
    }

    /// The tree of all events. It is a fault if elements are open or something is missing at the end.
    pub(crate) fn finish(self) -> Result<Tree, JsonFault>
        requires { IsAt self }
        ensures ok { IfOk result (λ tree. of_listed (put_events self.maker (at_end self.path)) ≡ walk tree) }
        ensures fault { IfErr result (λ fault. fault ≢ JsonFault.OutOfMemory → of_listed (put_events self.maker (at_end self.path)) ≡ fault_walk fault) }
    {
        let open = self.path.len();
        if open > 0 {
            return Err(JsonFault::Open { count: open as u32 });
        }
        match self.seen.top {
            Top::AllThere => Ok(self.maker.finish()),
            Top::NoDoctype | Top::NoHtml => Err(JsonFault::NotSettled {
                event: self.events,
                point: 1,
            }),
        }
    }
}

/// Whether the event is an end.
fn is_end(form: &JsonEvent<'_>) -> bool
    ensures { result ≡ forms.is_end form.now }
{
    matches!(form, JsonEvent::End)
}

/// Whether a raw text ends right at the end tag that follows it. True for other events.
fn is_raw_text(
    alloc: Global,
    path: &OpenElements,
    form: &JsonEvent<'_>,
) -> Result<bool, OutOfMemory>
    ensures { IfOk result (λ ends. ends ≡ settled.is_raw_text path.now (told path.now form.now) []) }
{
    match form {
        JsonEvent::Text { text } => if path.is_in_raw() {
            raw_ends(alloc, path, text)
        } else {
            Ok(true)
        },
        _ => Ok(true),
    }
}

/// Whether a raw text has no CR and ends right at the end tag of the innermost element.
#[tactic(auto, unfolding(hm_elements::specs::Settled::is_raw_text))]
fn raw_ends(alloc: Global, path: &OpenElements, text: &str) -> Result<bool, OutOfMemory>
    ensures { IfOk result (λ ends. ends ≡ settled.is_raw_text path.now (walks.text text.now true) []) }
{
    if has_byte(text.as_bytes(), b'\r') {
        return Ok(false);
    }
    ends_raw(alloc, path.current(), text)
}

/// The attributes of a start. None if one isn't allowed. Other events have an empty list.
fn attributes_in(alloc: Global, form: &JsonEvent<'_>) -> Result<Option<Attrs>, OutOfMemory>
    ensures form { IfOk result (λ made. (path : List Element) → is_some made ≡ settled.has_attributes_in_form path (told path form.now) []) }
    ensures made { IfOk result (λ made. IfSome made (HasAttributes form.now)) }
{
    match form {
        JsonEvent::Start { attrs, .. } => attributes_of(alloc, attrs),
        _ => Ok(Some(Attrs::new(alloc))),
    }
}

/// `bytes` plus those of an event. It fails with `OutOfMemory` if that is more than is kept.
fn with_event(bytes: usize, form: &JsonEvent<'_>, attrs: &Attrs) -> Result<usize, OutOfMemory>
    requires room { bytes < 2 ^ 29 }
    requires attributes { HasAttributes form.now attrs.now }
    ensures sum { IfOk result (λ sum. (path : List Element) → sum ≡ bytes + event_size (told path form.now)) }
    ensures room { IfOk result (λ sum. sum < 2 ^ 29) }
{
    match form {
        JsonEvent::Start { name, .. } => with_attributes(with_bytes(bytes, name.len())?, attrs),
        JsonEvent::Text { text } => with_bytes(bytes, text.len()),
        JsonEvent::Comment { text } => with_bytes(bytes, text.len()),
        JsonEvent::Doctype { .. } => Ok(bytes),
        JsonEvent::End => Ok(bytes),
    }
}

/// `bytes` plus those of attributes. It fails with `OutOfMemory` if that is more than is kept.
fn with_attributes(bytes: usize, attrs: &Attrs) -> Result<usize, OutOfMemory>
    requires { bytes < 2 ^ 29 }
    ensures sum { IfOk result (λ sum. sum ≡ bytes + attributes_size attrs.now) }
    ensures room { IfOk result (λ sum. sum < 2 ^ 29) }
{
    let mut sum = bytes;
    for i in 0..attrs.len() {
        let (name, value) = attrs.at(i);
        sum = with_bytes(sum, name.len())?;
        sum = with_bytes(sum, value.len())?;
    }
    Ok(sum)
}

/// The sum. It fails with `OutOfMemory` if that is more than is kept.
fn with_bytes(bytes: usize, more: usize) -> Result<usize, OutOfMemory>
    requires { bytes < 2 ^ 29 }
    ensures sum { IfOk result (λ sum. sum ≡ bytes + more) }
    ensures room { IfOk result (λ sum. sum < 2 ^ 29) }
{
    if more > MOST_BYTES - bytes {
        return Err(OutOfMemory);
    }
    Ok(bytes + more)
}

/// Appends an event, and opens or closes its element.
fn put_event(
    alloc: Global,
    maker: &mut Maker,
    path: &mut OpenElements,
    form: &JsonEvent<'_>,
    attrs: &Attrs,
) -> Result<(), OutOfMemory>
    requires room { HasRoom (maker.old ++ told path.old form.now ∷ []) }
    requires open { path.old ≡ path_after [] maker.old }
    requires told { event_told path.old form.now ≡ Some (told path.old form.now) }
    requires attributes { HasAttributes form.now attrs.now }
    requires apart { may_join form.now maker.old ≡ true }
    ensures maker { OnOk result (maker.new ≡ maker.old ++ told path.old form.now ∷ []) }
    ensures path { OnOk result (path.new ≡ path_after_event path.old (told path.old form.now)) }
{
    match form {
        JsonEvent::Doctype { legacy } => maker.doctype(*legacy)?,
        JsonEvent::Start { name, .. } => {
            let foreign = is_foreign(path, name);
            maker.start_from(name, foreign, attrs)?;
            path.open(alloc, Named::of(name), foreign)?;
        }
        JsonEvent::Text { text } => maker.text(text, path.is_in_raw())?,
        JsonEvent::Comment { text } => maker.comment(text)?,
        JsonEvent::End => {
            maker.end()?;
            path.close();
        }
    }
    Ok(())
}
