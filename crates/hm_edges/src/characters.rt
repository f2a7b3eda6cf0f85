//! The edges of a character: as itself, by each name that gives it, by its number, in a section.
ghost use Rattle.std.specs.Prelude.{◌≡◌, ◌&&◌, ◌++◌, ◌∷◌, [], not, List, ℕ, Option, Some, None, is_some, map, if◌then◌else◌, option_to_list, encode_utf8, codes, nat_le, IfSome, bytes_eq, length, true, ◌<◌};
ghost use Rattle.std.specs.Option.{option_map};
ghost use Rattle.hm_graph_laws.specs.ExchangeLaws.{needs_reference};
ghost use Rattle.hm_refs.specs.Names as names;
ghost use Rattle.hm_refs.specs.Numbers.{best_number};
ghost use Rattle.hm_refs.specs.Tables.{IsNode, TableView, entry_at, front_at, is_for};
ghost use Rattle.hm_spelling_spec.specs.Characters as spots;
ghost use Rattle.hm_graph_laws.specs.CharacterEdges as characters;
ghost use Rattle.hm_graph_laws.specs.States as states;
ghost use Rattle.hm_graph_laws.specs.Steps as steps;
ghost use Rattle.hm_graph_laws.specs.Units as units;
ghost use Rattle.hm_edges.specs.Characters.{after_by, edges_by_pair, rules_with};
ghost use Rattle.hm_edges.specs.Found.{AddsEdges};
ghost use Rattle.hm_edges.specs.Pieces.{AreOfTable, own_bytes};
ghost use Rattle.hm_edges.specs.States.{HasNodes, pending_of, spot_of, state_of, where_of};
ghost use Rattle.hm_edges.specs.Units.{kind_of};

use crate::edges::{add, add_if, value_spot};
use crate::pieces::{Edge, Piece};
use crate::sections::{
    add_opened_sections, add_section_edges, is_in_section, is_writable, may_open,
};
use crate::states::{Pending, Spot, State, Where};
use crate::steps::{is_value, step};
use crate::units::TextKind;
use hm_base::{OutOfMemory, is_space};
use hm_refs::{NameId, Node, Table, best_number};

/// A character to be spelled, with what its unit holds.
#[derive(Clone, Copy)]
pub(crate) struct Character {
    pub(crate) kind: TextKind,
    pub(crate) c: char,
    pub(crate) pair: Option<char>,
    pub(crate) more: bool,
}

/// The spot of a character: that of its text, or of the value that it is in.
fn spot_at(kind: TextKind, at: Where) -> Spot
    ensures { spot_of result ≡ characters.spot_at (kind_of kind) (where_of at) }
{
    match kind {
        TextKind::Text => Spot::Text,
        TextKind::Rcdata => Spot::Rcdata,
        TextKind::Foreign => Spot::Foreign,
        TextKind::Value => value_spot(at),
    }
}

/// Whether a value without quotes can't hold the character (#attributes-2).
#[tactic(auto, unfolding(hm_spelling_spec::specs::Characters::is_barred))]
fn is_barred(c: char) -> bool
    ensures { result ≡ spots.is_barred c }
{
    is_space(c) || c == '"' || c == '\'' || c == '=' || c == '<' || c == '>' || c == '`'
}

/// Whether this spot allows the character as itself.
fn may_stand_in(spot: Spot, c: char) -> bool
    ensures { result ≡ spots.may_stand_in (spot_of spot) c }
{
    match spot {
        Spot::Text => true,
        Spot::Rcdata => true,
        Spot::Foreign => true,
        Spot::Unquoted => !is_barred(c),
        Spot::Double => c != '"',
        Spot::Single => c != '\'',
    }
}

/// Whether the character may be written as itself in this spot. `ascii` says whether the output is of ASCII.
#[tactic(auto, unfolding(hm_spelling_spec::specs::Characters::may_stand))]
fn may_stand(ascii: bool, spot: Spot, c: char) -> bool
    ensures { result ≡ spots.may_stand ascii (spot_of spot) c }
{
    is_writable(ascii, c) && may_stand_in(spot, c)
}

/// What is pending after these bytes; None if they change what was written before.
fn run(table: &Table, spot: Spot, pending: Pending, bytes: &[u8]) -> Option<Pending>
    requires { HasNodes table.now pending }
    ensures run { option_map (pending_of table.now) result
        ≡ steps.run table.now.entries (spot_of spot) (Some (pending_of table.now pending)) bytes.now }
    ensures nodes { IfSome result (HasNodes table.now) }
{
    let mut after = pending;
    for byte in bytes {
        after = step(after, table, spot, *byte)?;
    }
    Some(after)
}

/// What is pending after a character as itself, if its bytes leave `after`.
fn itself_to(table: &Table, spot: Spot, c: char, after: Pending) -> Pending
    requires { HasNodes table.now after }
    ensures to { pending_of table.now result ≡ characters.itself_to (spot_of spot) c (pending_of table.now after) }
    ensures nodes { HasNodes table.now result }
{
    if c == '&' {
        let node = table.root();
        return Pending::Ampersand { node };
    }
    if c == '<' && !is_value(spot) {
        return Pending::LessThan;
    }
    after
}

/// Adds the edge of the character as itself, if it may be written so and doesn't change what was written before.
fn add_as_itself(
    into: &mut Vec<Edge>,
    table: &Table,
    ascii: bool,
    spot: Spot,
    c: char,
    from: State,
) -> Result<(), OutOfMemory>
    requires { HasNodes table.now from.pending }
    ensures { (u : units.Unit) → own_bytes u ≡ encode_utf8 c
        → AddsEdges result table.now u into.old.items into.new.items (map (characters.kept_at (where_of from.at))
        (characters.as_itself table.now.entries (rules_with table.now.entries ascii) (spot_of spot) c (pending_of table.now from.pending))) }
{
    if !may_stand(ascii, spot, c) {
        return Ok(());
    }
    let mut buffer = [0; 4];
    let bytes = c.encode_utf8(&mut buffer).as_bytes();
    match run(table, spot, from.pending, bytes) {
        None => Ok(()),
        Some(after) => {
            let to = itself_to(table, spot, c, after);
            add(into, Piece::Itself, from.at, to)
        }
    }
}

/// Whether the name ends with `;`.
fn is_closed(name: &[u8]) -> bool
    ensures { result ≡ names.is_closed name.now }
{
    match name {
        [.., last] => *last == b';',
        [] => false,
    }
}

/// What is pending after a name for one code point.
#[tactic(auto, unfolding(hm_graph_laws::specs::CharacterEdges::after_name))]
fn after_name(table: &Table, id: NameId) -> Pending
    requires { id < length table.now.entries }
    ensures to { pending_of table.now result ≡ characters.after_name (entry_at table.now.entries id).name }
    ensures nodes { HasNodes table.now result }
{
    if is_closed(table.name(id)) {
        return Pending::Nothing;
    }
    let node = table.node_of(id);
    Pending::Named { node }
}

/// What is pending after a name for two code points: the second one has still to come.
#[tactic(auto, unfolding(hm_graph_laws::specs::CharacterEdges::after_pair))]
fn after_pair(table: &Table, id: NameId) -> Pending
    requires { id < length table.now.entries }
    ensures to { pending_of table.now result ≡ characters.after_pair (entry_at table.now.entries id).name }
    ensures nodes { HasNodes table.now result }
{
    if is_closed(table.name(id)) {
        return Pending::Half { left: None };
    }
    let node = table.node_of(id);
    Pending::Half { left: Some(node) }
}

/// What is pending after a name for one code point or for two.
fn after_by(is_pair: bool, table: &Table, id: NameId) -> Pending
    requires { id < length table.now.entries }
    ensures to { pending_of table.now result ≡ after_by is_pair (entry_at table.now.entries id).name }
    ensures nodes { HasNodes table.now result }
{
    if is_pair {
        after_pair(table, id)
    } else {
        after_name(table, id)
    }
}

/// Whether the name gives the character, and after it exactly this second one, if any.
fn gives(table: &Table, id: NameId, c: char, second: Option<char>) -> bool
    requires { id < length table.now.entries }
    ensures { result ≡ bytes_eq (entry_at table.now.entries id).points (c ∷ option_to_list second) }
{
    let points = table.points(id);
    points.first == c && points.second == second
}

/// Adds the edge of this name, if it gives the characters.
fn add_name(
    into: &mut Vec<Edge>,
    table: &Table,
    id: NameId,
    c: char,
    second: Option<char>,
    at: Where,
) -> Result<(), OutOfMemory>
    requires { id < length table.now.entries }
    ensures { (u : units.Unit) → AddsEdges result table.now u into.old.items into.new.items (map (characters.kept_at (where_of at))
        (characters.by_names (after_by (is_some second)) (c ∷ option_to_list second) (entry_at table.now.entries id ∷ []))) }
{
    let to = after_by(second.is_some(), table, id);
    let there = gives(table, id, c, second);
    add_if(there, into, Piece::Name { id }, at, to)
}

/// Adds the edges of all names that give the character, and after it exactly this second one, if any.
fn add_names(
    into: &mut Vec<Edge>,
    table: &Table,
    c: char,
    second: Option<char>,
    at: Where,
) -> Result<(), OutOfMemory>
    ensures { (u : units.Unit) → AddsEdges result table.now u into.old.items into.new.items (map (characters.kept_at (where_of at))
        (characters.by_names (after_by (is_some second)) (c ∷ option_to_list second) table.now.entries)) }
{
    for id in table.names_for(c) {
        add_name(into, table, *id, c, second, at)?;
    }
    Ok(())
}

/// Adds the edges of the names that give the character and the next one, if there is a next one.
fn add_pairs(
    into: &mut Vec<Edge>,
    table: &Table,
    c: char,
    pair: Option<char>,
    at: Where,
) -> Result<(), OutOfMemory>
    ensures { (u : units.Unit) → AddsEdges result table.now u into.old.items into.new.items (map (characters.kept_at (where_of at))
        (characters.by_pairs table.now.entries c pair)) }
{
    match pair {
        None => Ok(()),
        Some(next) => add_names(into, table, c, Some(next), at),
    }
}

/// Adds the edges of the decimal reference, without and with a `;`.
fn add_decimals(into: &mut Vec<Edge>, c: char, at: Where) -> Result<(), OutOfMemory>
    ensures { (v : TableView) (u : units.Unit) → AddsEdges result v u into.old.items into.new.items (map (characters.kept_at (where_of at))
        (characters.by_decimal (best_number c))) }
{
    match best_number(c) {
        None => Ok(()),
        Some(number) => {
            add(
                into,
                Piece::Decimal {
                    number,
                    closed: false,
                },
                at,
                Pending::Decimal,
            )?;
            add(
                into,
                Piece::Decimal {
                    number,
                    closed: true,
                },
                at,
                Pending::Nothing,
            )
        }
    }
}

/// Whether a hexadecimal reference to the character is shorter than a decimal one.
fn is_shorter_in_hexadecimal(c: char) -> bool
    ensures { result ≡ (nat_le 1000000 c && nat_le c 1048575) }
{
    let number = c as u32;
    1_000_000 <= number && number <= 1_048_575
}

/// Adds the edges of the hexadecimal reference, if it is shorter than the decimal one.
fn add_hexadecimals(into: &mut Vec<Edge>, c: char, at: Where) -> Result<(), OutOfMemory>
    ensures { (v : TableView) (u : units.Unit) → AddsEdges result v u into.old.items into.new.items (map (characters.kept_at (where_of at))
        (characters.by_hexadecimal c)) }
{
    let number = c as u32;
    let shorter = is_shorter_in_hexadecimal(c);
    add_if(
        shorter,
        into,
        Piece::Hexadecimal {
            number,
            closed: false,
        },
        at,
        Pending::Hexadecimal,
    )?;
    add_if(
        shorter,
        into,
        Piece::Hexadecimal {
            number,
            closed: true,
        },
        at,
        Pending::Nothing,
    )
}

/// Whether references to the character are edges: the character isn't plain, and an `&` doesn't change what was written
/// before.
fn may_refer(table: &Table, spot: Spot, c: char, pending: &Pending) -> bool
    requires { HasNodes table.now pending.now }
    ensures { result ≡ (is_some (steps.step table.now.entries (spot_of spot) (pending_of table.now pending.now) 38) && needs_reference table.now.entries c) }
{
    step(*pending, table, spot, b'&').is_some() && !table.is_plain(c)
}

/// Adds the edges of references: by name, by a name for two code points, by number.
fn add_references(
    into: &mut Vec<Edge>,
    table: &Table,
    c: char,
    pair: Option<char>,
    at: Where,
) -> Result<(), OutOfMemory>
    ensures { (u : units.Unit) → AddsEdges result table.now u into.old.items into.new.items (map (characters.kept_at (where_of at))
        (characters.by_references table.now.entries c pair)) }
{
    add_names(into, table, c, None, at)?;
    add_pairs(into, table, c, pair, at)?;
    add_decimals(into, c, at)?;
    add_hexadecimals(into, c, at)
}

/// What is pending after the second code point of a name; None if the state isn't within such a name.
fn after_half(pending: &Pending) -> Option<Pending>
    ensures to { (v : TableView) → option_map (pending_of v) result ≡ option_map characters.after_half (characters.half_of (pending_of v pending.now)) }
    ensures nodes { (v : TableView) → HasNodes v pending.now → IfSome result (HasNodes v) }
{
    match *pending {
        Pending::Half { left: None } => Some(Pending::Nothing),
        Pending::Half { left: Some(node) } => Some(Pending::Named { node }),
        _ => None,
    }
}

/// Adds the edges outside of CDATA sections.
fn add_choices(
    into: &mut Vec<Edge>,
    table: &Table,
    ascii: bool,
    spot: Spot,
    c: char,
    pair: Option<char>,
    from: State,
) -> Result<(), OutOfMemory>
    requires { HasNodes table.now from.pending }
    ensures { (u : units.Unit) → own_bytes u ≡ encode_utf8 c
        → AddsEdges result table.now u into.old.items into.new.items (map (characters.kept_at (where_of from.at))
        (characters.choices table.now.entries (rules_with table.now.entries ascii) (spot_of spot) c pair (pending_of table.now from.pending))) }
{
    let at = from.at;
    if let Some(to) = after_half(&from.pending) {
        return add(into, Piece::Nothing, at, to);
    }
    let refers = may_refer(table, spot, c, &from.pending);
    add_as_itself(into, table, ascii, spot, c, from)?;
    if refers {
        add_references(into, table, c, pair, at)
    } else {
        Ok(())
    }
}

/// Adds the edges from outside a CDATA section, those that open one included.
fn add_outside_edges(
    into: &mut Vec<Edge>,
    table: &Table,
    ascii: bool,
    character: Character,
    from: State,
) -> Result<(), OutOfMemory>
    requires { HasNodes table.now from.pending }
    ensures known { AreOfTable table.now into.old.items → AreOfTable table.now into.new.items }
    ensures edges { (u : units.Unit) (next : Option ℕ) → own_bytes u ≡ encode_utf8 character.c → character.more ≡ is_some next
        → AddsEdges result table.now u into.old.items into.new.items
        (map (characters.kept_at (where_of from.at)) (characters.choices table.now.entries (rules_with table.now.entries ascii) (characters.spot_at (kind_of character.kind) (where_of from.at)) character.c character.pair (pending_of table.now from.pending))
        ++ characters.opened_sections ascii (characters.spot_at (kind_of character.kind) (where_of from.at)) character.c next (state_of table.now from)) }
{
    let spot = spot_at(character.kind, from.at);
    let opens = may_open(character.kind, &from);
    add_choices(into, table, ascii, spot, character.c, character.pair, from)?;
    if opens {
        add_opened_sections(into, ascii, character.c, character.more)
    } else {
        Ok(())
    }
}

/// Adds the edges of a character from a state, at the end of the buffer.
pub(crate) fn add_character_edges(
    into: &mut Vec<Edge>,
    table: &Table,
    ascii: bool,
    character: Character,
    from: State,
) -> Result<(), OutOfMemory>
    requires { HasNodes table.now from.pending }
    ensures known { AreOfTable table.now into.old.items → AreOfTable table.now into.new.items }
    ensures edges { (u : units.Unit) (next : Option ℕ) → own_bytes u ≡ encode_utf8 character.c → character.more ≡ is_some next
        → AddsEdges result table.now u into.old.items into.new.items (edges_by_pair table.now.entries ascii (kind_of character.kind) character.c character.pair next (state_of table.now from)) }
{
    if is_in_section(from.at) {
        add_section_edges(into, ascii, character.c, character.more, from.pending)
    } else {
        add_outside_edges(into, table, ascii, character, from)
    }
}
