//! The JSON of a tree, piece by piece.
ghost use Rattle.std.specs.Prelude.{◌≡◌, ◌<◌, ◌++◌, Bool, false, nat_lt, flat_map};
ghost use Rattle.std.specs.Char.{digit_char};
ghost use Rattle.hm_base.specs.Walks.{doctype, start};
ghost use Rattle.json.specs.Print.{escape_byte};
ghost use Rattle.serde_json.specs.Written.{comma_if};
ghost use Rattle.hm_dump.specs.Given.{Gives};
ghost use Rattle.hm_json_tree.specs.Texts.{json_text};
ghost use Rattle.hm_json_tree.specs.Written.{attributes_text, event_text, events_text};
ghost use Rattle.hm_tree.specs.Views.{event_of, attributes_shown};

use hm_dump::Buffer;
use hm_store::Sink;
use hm_tree::{AttrsView, EventView, Tree};

/// Writes the JSON of a tree.
pub(crate) fn give_tree<O: Sink>(buffer: &mut Buffer, out: &mut O, tree: &Tree)
    ensures { Gives (O.contents out.old) (O.contents out.new) (O.faults out.old) (O.faults out.new) buffer.old buffer.new (json_text tree.now) }
{
    buffer.give(out, b"[");
    give_events(buffer, out, tree);
    buffer.give(out, b"]");
}

/// Writes an item for each event. Stops after an item if a put has failed.
fn give_events<O: Sink>(buffer: &mut Buffer, out: &mut O, tree: &Tree)
    ensures { Gives (O.contents out.old) (O.contents out.new) (O.faults out.old) (O.faults out.new) buffer.old buffer.new (events_text tree.now) }
{
    for i in 0..tree.len() {
        if buffer.failed {
            return;
        }
        buffer.give(out, comma_before(i));
        give_event(buffer, out, &tree.event(i));
    }
}

/// The comma before item `i`, except before the first.
fn comma_before(i: u32) -> &'static [u8]
    ensures { result.now ≡ comma_if (nat_lt 0 i) }
{
    if i > 0 { b"," } else { b"" }
}

/// Writes the item of an event.
fn give_event<O: Sink>(buffer: &mut Buffer, out: &mut O, event: &EventView<'_>)
    ensures { Gives (O.contents out.old) (O.contents out.new) (O.faults out.old) (O.faults out.new) buffer.old buffer.new (event_text (event_of event.now)) }
{
    match event {
        EventView::Doctype { legacy } => buffer.give(out, doctype_text(*legacy)),
        EventView::Start { name, attrs, .. } => give_start(buffer, out, name, attrs),
        EventView::Text { text, .. } => give_quoted(buffer, out, b"[\"text\",\"", text, b"\"]"),
        EventView::Comment { text } => {
            give_quoted(buffer, out, b"[\"comment\",\"", text, b"\"]");
        }
        EventView::End { .. } => buffer.give(out, b"[\"end\"]"),
    }
}

/// The item of a doctype.
#[tactic(auto, unfolding(json::specs::Print::escape_byte))]
fn doctype_text(legacy: bool) -> &'static [u8]
    ensures { result.now ≡ event_text (doctype legacy) }
{
    if legacy {
        b"[\"doctype\",\"legacy\"]"
    } else {
        b"[\"doctype\",\"plain\"]"
    }
}

/// Writes the item of a start.
fn give_start<O: Sink>(buffer: &mut Buffer, out: &mut O, name: &str, attrs: &AttrsView<'_>)
    ensures { (foreign : Bool) → Gives (O.contents out.old) (O.contents out.new) (O.faults out.old) (O.faults out.new) buffer.old buffer.new (event_text (start name.now foreign (attributes_shown attrs.now))) }
{
    give_quoted(buffer, out, b"[\"start\",\"", name, b"\",[");
    give_attributes(buffer, out, attrs);
    buffer.give(out, b"]]");
}

/// Writes a pair for each attribute.
fn give_attributes<O: Sink>(buffer: &mut Buffer, out: &mut O, attrs: &AttrsView<'_>)
    ensures { Gives (O.contents out.old) (O.contents out.new) (O.faults out.old) (O.faults out.new) buffer.old buffer.new (attributes_text (attributes_shown attrs.now)) }
{
    for i in 0..attrs.len() {
        let (name, value) = attrs.at(i);
        buffer.give(out, comma_before(i));
        give_quoted(buffer, out, b"[\"", name, b"\",\"");
        give_quoted(buffer, out, b"", value, b"\"]");
    }
}

/// Writes `before`, a text, escaped for quotes, and `after`.
fn give_quoted<O: Sink>(buffer: &mut Buffer, out: &mut O, before: &[u8], text: &str, after: &[u8])
    ensures { Gives (O.contents out.old) (O.contents out.new) (O.faults out.old) (O.faults out.new) buffer.old buffer.new (before.now ++ (flat_map escape_byte text.now ++ after.now)) }
{
    buffer.give(out, before);
    give_escaped(buffer, out, text.as_bytes());
    buffer.give(out, after);
}

/// Writes a text, escaped for quotes.
fn give_escaped<O: Sink>(buffer: &mut Buffer, out: &mut O, bytes: &[u8])
    ensures { Gives (O.contents out.old) (O.contents out.new) (O.faults out.old) (O.faults out.new) buffer.old buffer.new (flat_map escape_byte bytes.now) }
{
    for byte in bytes {
        give_byte(buffer, out, *byte);
    }
}

/// Writes a byte, escaped for quotes.
#[tactic(auto, unfolding(json::specs::Print::escape_byte))]
fn give_byte<O: Sink>(buffer: &mut Buffer, out: &mut O, byte: u8)
    ensures { Gives (O.contents out.old) (O.contents out.new) (O.faults out.old) (O.faults out.new) buffer.old buffer.new (escape_byte byte) }
{
    match byte {
        b'"' => buffer.give(out, b"\\\""),
        b'\\' => buffer.give(out, b"\\\\"),
        b'\n' => buffer.give(out, b"\\n"),
        b'\r' => buffer.give(out, b"\\r"),
        b'\t' => buffer.give(out, b"\\t"),
        8 => buffer.give(out, b"\\b"),
        12 => buffer.give(out, b"\\f"),
        _ => if byte < 32 {
            buffer.give(
                out,
                &[b'\\', b'u', b'0', b'0', hex(byte / 16), hex(byte % 16)],
            );
        } else {
            buffer.give(out, &[byte]);
        },
    }
}

/// The hexadecimal digit of a number below 16.
fn hex(number: u8) -> u8
    requires { number < 16 }
    ensures { result ≡ digit_char number }
{
    if number < 10 {
        b'0' + number
    } else {
        b'a' + (number - 10)
    }
}
