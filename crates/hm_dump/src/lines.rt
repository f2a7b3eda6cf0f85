//! The lines of a tree, piece by piece.
ghost use Rattle.std.specs.Prelude.{◌≡◌, ◌+◌, ◌^◌, ◌<◌, ◌≤◌, ◌++◌, ◌∷◌, [], List, flat_map, length, get_or};
ghost use Rattle.hm_base.specs.Walks.{Element, doctype, path_after_event};
ghost use Rattle.hm_dump.specs.Dump.{attribute_text, dump_of, event_text, line_of, quoted_byte, spaces_for};
ghost use Rattle.hm_dump.specs.Given.{Gives};
ghost use Rattle.hm_tree.specs.Views.{event_of, attributes_shown};

use crate::buffer::Buffer;
use crate::runs::plain_end;
use hm_store::Sink;
use hm_tree::{AttrsView, EventView, Tree};

/// The spaces for 32 open elements, two for each.
const SPACES: &[u8] = b"                                                                ";

/// Writes the lines of a tree. Stops after a line if a put has failed.
pub(crate) fn give_lines<O: Sink>(buffer: &mut Buffer, out: &mut O, tree: &Tree)
    ensures { Gives (O.contents out.old) (O.contents out.new) (O.faults out.old) (O.faults out.new) buffer.old buffer.new (dump_of tree.now) }
{
    let mut depth = 0;
    for i in 0..tree.len() {
        if buffer.failed {
            return;
        }
        let event = tree.event(i);
        give_line(buffer, out, depth, &event);
        depth = depth_after_event(depth, &event);
    }
}

/// How many elements are open after an event. `depth` is how many are open before it.
fn depth_after_event(depth: u32, event: &EventView<'_>) -> u32
    requires { depth + 1 < 2 ^ 32 }
    ensures depth { (path : List Element) → depth ≡ length path → result ≡ length (path_after_event path (event_of event.now)) }
    ensures bound { result ≤ depth + 1 }
{
    match event {
        EventView::Start { .. } => depth + 1,
        EventView::End { .. } => depth.saturating_sub(1),
        _ => depth,
    }
}

/// Writes the line of an event, if it has one. `depth` elements are open.
fn give_line<O: Sink>(buffer: &mut Buffer, out: &mut O, depth: u32, event: &EventView<'_>)
    ensures { Gives (O.contents out.old) (O.contents out.new) (O.faults out.old) (O.faults out.new) buffer.old buffer.new (line_of depth (event_of event.now)) }
{
    if let EventView::End { .. } = event {
        return;
    }
    give_spaces(buffer, out, depth);
    give_event(buffer, out, event);
    buffer.give(out, b"\n");
}

/// Writes two spaces for each open element.
fn give_spaces<O: Sink>(buffer: &mut Buffer, out: &mut O, depth: u32)
    ensures { Gives (O.contents out.old) (O.contents out.new) (O.faults out.old) (O.faults out.new) buffer.old buffer.new (spaces_for depth) }
{
    let mut left = 2 * depth as usize;
    while left > SPACES.len() {
        buffer.give(out, SPACES);
        left -= SPACES.len();
    }
    buffer.give(out, &SPACES[..left]);
}

/// Writes the line of an event without its spaces and its end.
fn give_event<O: Sink>(buffer: &mut Buffer, out: &mut O, event: &EventView<'_>)
    ensures { Gives (O.contents out.old) (O.contents out.new) (O.faults out.old) (O.faults out.new) buffer.old buffer.new (event_text (event_of event.now)) }
{
    match event {
        EventView::Doctype { legacy } => buffer.give(out, doctype_text(*legacy)),
        EventView::Start { name, attrs, .. } => {
            buffer.give(out, b"element ");
            buffer.give(out, name.as_bytes());
            give_attributes(buffer, out, attrs);
        }
        EventView::Text { text, .. } => give_quoted(buffer, out, b"text \"", text),
        EventView::Comment { text } => give_quoted(buffer, out, b"comment \"", text),
        EventView::End { .. } => {}
    }
}

/// The line of a doctype.
fn doctype_text(legacy: bool) -> &'static [u8]
    ensures { result.now ≡ event_text (doctype legacy) }
{
    if legacy {
        b"doctype legacy"
    } else {
        b"doctype"
    }
}

/// Writes the attributes of a start, each with a space before it.
fn give_attributes<O: Sink>(buffer: &mut Buffer, out: &mut O, attrs: &AttrsView<'_>)
    ensures { Gives (O.contents out.old) (O.contents out.new) (O.faults out.old) (O.faults out.new) buffer.old buffer.new (flat_map attribute_text (attributes_shown attrs.now)) }
{
    for i in 0..attrs.len() {
        let (name, value) = attrs.at(i);
        give_attribute(buffer, out, name, value);
    }
}

/// Writes one attribute with a space before it.
fn give_attribute<O: Sink>(buffer: &mut Buffer, out: &mut O, name: &str, value: &str)
    ensures { Gives (O.contents out.old) (O.contents out.new) (O.faults out.old) (O.faults out.new) buffer.old buffer.new (attribute_text (record { name = name.now; value = value.now })) }
{
    buffer.give(out, b" ");
    buffer.give(out, name.as_bytes());
    give_quoted(buffer, out, b"=\"", value);
}

/// Writes `before`, which ends in a quote, then a text, escaped, and the last quote.
fn give_quoted<O: Sink>(buffer: &mut Buffer, out: &mut O, before: &[u8], text: &str)
    ensures { Gives (O.contents out.old) (O.contents out.new) (O.faults out.old) (O.faults out.new) buffer.old buffer.new (before.now ++ (flat_map quoted_byte text.now ++ 34 ∷ [])) }
{
    buffer.give(out, before);
    give_escaped(buffer, out, text.as_bytes());
    buffer.give(out, b"\"");
}

/// Writes a text, escaped for quotes. Bytes without escapes are written together.
fn give_escaped<O: Sink>(buffer: &mut Buffer, out: &mut O, bytes: &[u8])
    ensures { Gives (O.contents out.old) (O.contents out.new) (O.faults out.old) (O.faults out.new) buffer.old buffer.new (flat_map quoted_byte bytes.now) }
{
    let mut from = 0;
    while from < bytes.len() {
        let to = plain_end(bytes, from);
        buffer.give(out, &bytes[from..to]);
        from = to;
        if to < bytes.len() {
            buffer.give(out, escaped(bytes, to));
            from = to + 1;
        }
    }
}

/// The escaped form of the byte at `at` inside quotes.
fn escaped(bytes: &[u8], at: usize) -> &[u8]
    requires { at < length bytes.now }
    ensures { result.now ≡ quoted_byte (get_or bytes.now at 0) }
{
    match bytes[at] {
        b'"' => b"\\\"",
        b'\\' => b"\\\\",
        b'\n' => b"\\n",
        b'\r' => b"\\r",
        b'\t' => b"\\t",
        _ => &bytes[at..at + 1],
    }
}
