//! Characters in CDATA sections, which are allowed in texts of SVG.
ghost use Rattle.std.specs.Prelude.{◌≡◌, ◌&&◌, [], not, ℕ, Option, is_some, if◌then◌else◌, encode_utf8, codes};
ghost use Rattle.hm_spelling_spec.specs.Characters as spots;
ghost use Rattle.hm_refs.specs.Tables.{TableView};
ghost use Rattle.hm_graph_laws.specs.CharacterEdges as characters;
ghost use Rattle.hm_graph_laws.specs.States as states;
ghost use Rattle.hm_graph_laws.specs.Units as units;
ghost use Rattle.hm_edges.specs.Found.{AddsEdges};
ghost use Rattle.hm_edges.specs.Pieces.{own_bytes};
ghost use Rattle.hm_edges.specs.States.{HasNodes, pending_of, where_of};
ghost use Rattle.hm_edges.specs.Units.{is_foreign_kind};

use crate::edges::{add, add_if};
use crate::pieces::{Edge, Piece};
use crate::states::{Pending, State, Where};
use crate::units::TextKind;
use hm_base::OutOfMemory;
use hm_refs::best_number;

/// Whether the character may be written as itself anywhere: it isn't CR, and with `ascii` it is of ASCII or no
/// reference can give it.
#[tactic(auto, unfolding(hm_spelling_spec::specs::Characters::is_writable))]
pub(crate) fn is_writable(ascii: bool, c: char) -> bool
    ensures { result ≡ spots.is_writable ascii c }
{
    c != '\r' && (!ascii || c < '\u{80}' || best_number(c).is_none())
}

/// Whether the place is in a CDATA section.
pub(crate) fn is_in_section(at: Where) -> bool
    ensures { result ≡ characters.is_in_section (where_of at) }
{
    match at {
        Where::InSection => true,
        _ => false,
    }
}

/// Whether the place is outside of tags, values and sections.
fn is_outside(at: Where) -> bool
    ensures { result ≡ characters.is_outside (where_of at) }
{
    match at {
        Where::Outside => true,
        _ => false,
    }
}

/// Whether the second code point of a name has still to come.
fn is_half(pending: &Pending) -> bool
    ensures { (v : TableView) → result ≡ is_some (characters.half_of (pending_of v pending.now)) }
{
    match *pending {
        Pending::Half { left: _ } => true,
        _ => false,
    }
}

/// Whether the text is one of SVG.
fn is_foreign(kind: TextKind) -> bool
    ensures { result ≡ is_foreign_kind kind }
{
    match kind {
        TextKind::Foreign => true,
        _ => false,
    }
}

/// Whether a CDATA section may start here: in a text of SVG, and not within a name for two code points.
pub(crate) fn may_open(kind: TextKind, from: &State) -> bool
    ensures { (v : TableView) → result ≡ (is_foreign_kind kind && (characters.is_outside (where_of from.now.at) && not (is_some (characters.half_of (pending_of v from.now.pending))))) }
{
    is_foreign(kind) && (is_outside(from.at) && !is_half(&from.pending))
}

/// What is pending after a character in a section.
fn in_section_after(c: char, pending: Pending) -> Pending
    ensures to { (v : TableView) → pending_of v result ≡ characters.in_section_after c (pending_of v pending) }
    ensures nodes { (v : TableView) → HasNodes v result }
{
    if c != ']' {
        return Pending::Nothing;
    }
    match pending {
        Pending::Nothing => Pending::OneBracket,
        _ => Pending::TwoBrackets,
    }
}

/// Whether `>` would end the section here.
fn closes_section(c: char, pending: &Pending) -> bool
    ensures { (v : TableView) → result ≡ characters.closes_section c (pending_of v pending.now) }
{
    match *pending {
        Pending::TwoBrackets => c == '>',
        _ => false,
    }
}

/// Adds the edges of a character in a section: the section goes on, if there is a next character, or ends.
fn add_going_on(
    into: &mut Vec<Edge>,
    opens: bool,
    c: char,
    more: bool,
    pending: Pending,
) -> Result<(), OutOfMemory>
    ensures { (v : TableView) (u : units.Unit) (next : Option ℕ) → own_bytes u ≡ encode_utf8 c → more ≡ is_some next
        → AddsEdges result v u into.old.items into.new.items (characters.section_edges_by next (if opens then codes "<![CDATA[" else []) c (pending_of v pending)) }
{
    let to = in_section_after(c, pending);
    add_if(
        more,
        into,
        Piece::Section {
            opens,
            closes: false,
        },
        Where::InSection,
        to,
    )?;
    add(
        into,
        Piece::Section {
            opens,
            closes: true,
        },
        Where::Outside,
        Pending::Nothing,
    )
}

/// Adds the edges of a character in a section that is open.
pub(crate) fn add_section_edges(
    into: &mut Vec<Edge>,
    ascii: bool,
    c: char,
    more: bool,
    pending: Pending,
) -> Result<(), OutOfMemory>
    ensures { (v : TableView) (u : units.Unit) (next : Option ℕ) → own_bytes u ≡ encode_utf8 c → more ≡ is_some next
        → AddsEdges result v u into.old.items into.new.items (characters.section_edges ascii c next (pending_of v pending)) }
{
    if is_writable(ascii, c) && !closes_section(c, &pending) {
        add_going_on(into, false, c, more, pending)
    } else {
        Ok(())
    }
}

/// Adds the edges of a character that opens a section.
pub(crate) fn add_opened_sections(
    into: &mut Vec<Edge>,
    ascii: bool,
    c: char,
    more: bool,
) -> Result<(), OutOfMemory>
    ensures { (v : TableView) (u : units.Unit) (next : Option ℕ) → own_bytes u ≡ encode_utf8 c → more ≡ is_some next
        → AddsEdges result v u into.old.items into.new.items (if spots.is_writable ascii c then characters.section_edges_by next (codes "<![CDATA[") c states.nothing else []) }
{
    if is_writable(ascii, c) {
        add_going_on(into, true, c, more, Pending::Nothing)
    } else {
        Ok(())
    }
}
