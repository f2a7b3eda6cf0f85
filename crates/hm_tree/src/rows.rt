//! The rows of a tree that is being made: one for each event, and all texts one after the other.
ghost use Rattle.std.specs.Prelude.{◌≡◌, ◌+◌, ◌^◌, ◌<◌, ◌≤◌, [], ◌∷◌, ◌++◌, length, string_bytes, string_len, string_capacity, vec_len, vec_capacity, true, Some, IfOk, OnOk, OnErr};
ghost use Rattle.hm_base.specs.Walks as walks;
ghost use Rattle.hm_base.specs.Walks.{start, doctype, comment, attributes_size, event_size, has_distinct_names, path_after, walk_size, with_text};
ghost use Rattle.hm_tree.specs.Attributes.{are_texts};
ghost use Rattle.hm_tree.specs.Rows.{ends_in_text, extended};
ghost use Rattle.hm_tree.specs.Sources.{listed};
ghost use Rattle.hm_tree.specs.Trees.{IsTold, end_of, innermost, last_agrees, parent_of};

use crate::appended::{append, text_len};
use crate::parent::Parent;
use crate::pieces::{AttributePieces, TextRange};
use crate::sources::{AttributeSource, count};
use crate::starts::{end_part, start_part};
use crate::table::EventTable;
use hm_base::OutOfMemory;
use std::alloc::Global;
use std::marker::Model;

/// An event. Its name and texts are pieces of the table's text; a start has the index of its first attribute and their
/// number. Fields of less than four bytes come first, beside the byte for the variant, if that makes the row no longer.
#[derive(Clone, Copy)]
pub(crate) enum RowPart {
    Doctype {
        legacy: bool,
    },
    /// A start. Its name has `len` bytes from byte `from` on.
    Start {
        foreign: bool,
        len: u8,
        count: u8,
        from: u32,
        first: u32,
    },
    /// A start whose name has more than 255 bytes or that has more than 255 attributes. Its name is the piece directly
    /// before its attributes.
    LongStart {
        foreign: bool,
        count: u16,
        first: u32,
    },
    Text {
        raw: bool,
        text: TextRange,
    },
    Comment {
        text: TextRange,
    },
    End {
        foreign: bool,
        name: TextRange,
    },
}

/// An event, and the start of the innermost element that is open directly before it.
#[derive(Clone, Copy)]
pub(crate) struct EventRow {
    pub(crate) part: RowPart,
    pub(crate) parent: Parent,
}

/// A page has many events and attributes, so their sizes in bytes are checked here.
const _: () = prove!(size_of::<EventRow>() == 16);

const _: () = prove!(size_of::<AttributePieces>() == 12);

/// A list of events that grows.
#[derive(Drop)]
pub(crate) struct Rows {
    text: String,
    attributes: Vec<AttributePieces>,
    rows: Vec<EventRow>,
}

impl Model for Rows {
    ghost use Rattle.std.specs.Prelude.{List, string_bytes};
    ghost use Rattle.hm_base.specs.Walks.{Event};

    ghost Value = { List Event };

    ghost use Rattle.hm_tree.specs.Rows.{events_of, IsRowTable};

    ghost view = { λ r. events_of (string_bytes r.text) r.attributes.items r.rows.items };

    ghost invariant = { λ r. IsRowTable (string_bytes r.text) r.attributes.items r.rows.items };
}

impl Rows {
    /// No events. It allocates nothing.
    pub(crate) fn new(alloc: Global) -> Rows
        ensures { result ≡ [] }
    {
        Rows {
            text: String::new(alloc),
            attributes: Vec::new(alloc),
            rows: Vec::new(alloc),
        }
    }

    /// How many events there are.
    pub(crate) fn len(&self) -> u32
        ensures len { result ≡ length self.now }
        ensures told { IsTold self.now }
    {
        self.rows.len() as u32
    }

    /// The table of these events. Its lists have no room to spare.
    pub(crate) fn finish(self) -> EventTable
        ensures { result ≡ self }
    {
        let Rows {
            mut text,
            mut attributes,
            mut rows,
        } = self;
        text.shrink_to_fit();
        attributes.shrink_to_fit();
        rows.shrink_to_fit();
        EventTable::of(text, attributes, rows)
    }

    /// The start of the innermost element that is open directly before event `i`.
    pub(crate) fn parent(&self, i: u32) -> Option<u32>
        requires { i < length self.now }
        ensures { result ≡ parent_of self.now i }
    {
        self.rows[i as usize].parent.index()
    }

    /// Appends a doctype. `parent` is the innermost open element.
    pub(crate) fn push_doctype(
        &mut self,
        legacy: bool,
        parent: Option<u32>,
    ) -> Result<(), OutOfMemory>
        requires room { length self.old + 1 < 2 ^ 29 }
        requires parent { parent ≡ innermost self.old }
        ensures ok { OnOk result (self.new ≡ self.old ++ doctype legacy ∷ []) }
        ensures err { OnErr result (self.new ≡ self.old) }
    {
        let part = RowPart::Doctype { legacy };
        let parent = Parent::of(parent);
        self.rows.push(EventRow { part, parent })?;
        Ok(())
    }

    /// Appends a start. A row has two bytes for the number of attributes, so with more than 65,535 it fails with
    /// `OutOfMemory`. A tag that is read has at most 256.
    #[inline(always)]
    pub(crate) fn push_start(
        &mut self,
        name: &str,
        foreign: bool,
        attrs: &AttributeSource<'_>,
        parent: Option<u32>,
    ) -> Result<(), OutOfMemory>
        requires room { length self.old + 1 < 2 ^ 29 }
        requires bytes { walk_size self.old + event_size (start name.now foreign (listed attrs.now)) < 2 ^ 29 }
        requires parent { parent ≡ innermost self.old }
        ensures ok { OnOk result (self.new ≡ self.old ++ start name.now foreign (listed attrs.now) ∷ []) }
        ensures err { OnErr result (self.new ≡ self.old) }
    {
        let count = start_room(
            &mut self.text,
            &mut self.attributes,
            &mut self.rows,
            name,
            attrs,
        )?;
        let part = start_part(
            &mut self.text,
            &mut self.attributes,
            name,
            foreign,
            count,
            attrs,
        )?;
        let parent = Parent::of(parent);
        self.rows.push(EventRow { part, parent }).unwrap();
        Ok(())
    }

    /// Appends a text. `parent` is the innermost open element.
    pub(crate) fn push_text(
        &mut self,
        text: &str,
        raw: bool,
        parent: Option<u32>,
    ) -> Result<(), OutOfMemory>
        requires room { length self.old + 1 < 2 ^ 29 }
        requires bytes { walk_size self.old + length text.now < 2 ^ 29 }
        requires parent { parent ≡ innermost self.old }
        ensures ok { OnOk result (self.new ≡ self.old ++ walks.text text.now raw ∷ []) }
        ensures err { OnErr result (self.new ≡ self.old) }
    {
        row_room(&mut self.text, &mut self.rows, text.len())?;
        let text = append(&mut self.text, text);
        let part = RowPart::Text { raw, text };
        let parent = Parent::of(parent);
        self.rows.push(EventRow { part, parent }).unwrap();
        Ok(())
    }

    /// Appends a comment. `parent` is the innermost open element.
    pub(crate) fn push_comment(
        &mut self,
        text: &str,
        parent: Option<u32>,
    ) -> Result<(), OutOfMemory>
        requires room { length self.old + 1 < 2 ^ 29 }
        requires bytes { walk_size self.old + length text.now < 2 ^ 29 }
        requires parent { parent ≡ innermost self.old }
        ensures ok { OnOk result (self.new ≡ self.old ++ comment text.now ∷ []) }
        ensures err { OnErr result (self.new ≡ self.old) }
    {
        row_room(&mut self.text, &mut self.rows, text.len())?;
        let text = append(&mut self.text, text);
        let part = RowPart::Comment { text };
        let parent = Parent::of(parent);
        self.rows.push(EventRow { part, parent }).unwrap();
        Ok(())
    }

    /// Adds a text to the last event if that is a text, or else appends it as an event. An empty text adds nothing.
    #[tactic(auto, using(crate::proofs::TextLemmas::texts))]
    pub(crate) fn put_text(
        &mut self,
        text: &str,
        raw: bool,
        parent: Option<u32>,
    ) -> Result<(), OutOfMemory>
        requires room { length (with_text self.old text.now raw) < 2 ^ 29 }
        requires bytes { walk_size (with_text self.old text.now raw) < 2 ^ 29 }
        requires parent { parent ≡ innermost self.old }
        requires same_raw { last_agrees self.old raw ≡ true }
        ensures ok { OnOk result (self.new ≡ with_text self.old text.now raw) }
        ensures err { OnErr result (self.new ≡ self.old) }
    {
        if text.is_empty() {
            return Ok(());
        }
        if self.ends_in_text() {
            self.extend_text(text)
        } else {
            self.push_text(text, raw, parent)
        }
    }

    /// Whether the last event is a text.
    fn ends_in_text(&self) -> bool
        ensures { result ≡ ends_in_text self.now }
    {
        match self.rows.last() {
            Some(row) => matches!(row.part, RowPart::Text { .. }),
            None => false,
        }
    }

    /// Adds to the text of the last event.
    fn extend_text(&mut self, more: &str) -> Result<(), OutOfMemory>
        requires ends { ends_in_text self.old ≡ true }
        requires bytes { walk_size self.old + length more.now < 2 ^ 29 }
        ensures ok { OnOk result (self.new ≡ extended self.old more.now) }
        ensures err { OnErr result (self.new ≡ self.old) }
    {
        let last = self.rows.len() - 1;
        let row = self.rows[last];
        let RowPart::Text { raw, text } = row.part else {
            unreachable!()
        };
        self.text.push_str(more)?;
        let text = TextRange {
            from: text.from,
            to: self.text.len() as u32,
        };
        let part = RowPart::Text { raw, text };
        self.rows[last] = EventRow {
            part,
            parent: row.parent,
        };
        Ok(())
    }

    /// Appends the end of the innermost open element, whose start is event `start`.
    pub(crate) fn push_end(&mut self, start: u32) -> Result<(), OutOfMemory>
        requires room { length self.old + 1 < 2 ^ 29 }
        requires parent { Some start ≡ innermost self.old }
        ensures ok { OnOk result (self.new ≡ self.old ++ end_of (path_after [] self.old)) }
        ensures err { OnErr result (self.new ≡ self.old) }
    {
        let row = self.rows[start as usize];
        let part = end_part(self.attributes.as_slice(), row.part);
        let parent = Parent::of(Some(start));
        self.rows.push(EventRow { part, parent })?;
        Ok(())
    }
}

/// Makes room for one row and for `bytes` bytes of text.
#[inline(always)]
fn row_room(text: &mut String, rows: &mut Vec<EventRow>, bytes: usize) -> Result<(), OutOfMemory>
    ensures kept { (string_bytes text.new ≡ string_bytes text.old) × (rows.new.items ≡ rows.old.items) }
    ensures ok { OnOk result ((string_len text.new + bytes ≤ string_capacity text.new) × (vec_len rows.new + 1 ≤ vec_capacity rows.new)) }
{
    rows.reserve(1)?;
    text.reserve(bytes)?;
    Ok(())
}

/// Makes room for a start, and returns how many attributes it has.
#[inline(always)]
fn start_room(
    text: &mut String,
    attributes: &mut Vec<AttributePieces>,
    rows: &mut Vec<EventRow>,
    name: &str,
    attrs: &AttributeSource<'_>,
) -> Result<u16, OutOfMemory>
    requires { length name.now + attributes_size (listed attrs.now) < 2 ^ 29 }
    ensures kept { (string_bytes text.new ≡ string_bytes text.old) × (attributes.new.items ≡ attributes.old.items) × (rows.new.items ≡ rows.old.items) }
    ensures sound { (has_distinct_names (listed attrs.now) ≡ true) × (are_texts (listed attrs.now) ≡ true) }
    ensures ok { IfOk result (λ count. (count ≡ length (listed attrs.now))
        × (string_len text.new + (length name.now + attributes_size (listed attrs.now)) ≤ string_capacity text.new)
        × (vec_len attributes.new + length (listed attrs.now) ≤ vec_capacity attributes.new) × (vec_len rows.new + 1 ≤ vec_capacity rows.new)) }
{
    let Ok(count) = u16::try_from(count(attrs)) else {
        return Err(OutOfMemory);
    };
    attributes.reserve(usize::from(count))?;
    row_room(text, rows, name.len() + text_len(attrs))?;
    Ok(count)
}
