//! What one more byte does to what is pending.
ghost use Rattle.std.specs.Prelude.{◌≡◌, ◌≤◌, ◌&&◌, ◌||◌, ◌==◌, ◌++◌, ◌∷◌, [], IfSome};
ghost use Rattle.std.specs.Option.{option_map};
ghost use Rattle.hm_base.specs.Bytes.{is_digit_of};
ghost use Rattle.hm_refs.specs.Names.{is_front, is_name};
ghost use Rattle.hm_refs.specs.References as refs;
ghost use Rattle.hm_refs.specs.Tables.{IsNode, TableView, front_at};
ghost use Rattle.hm_spelling_spec.specs.Characters as spots;
ghost use Rattle.hm_graph_laws.specs.States as states;
ghost use Rattle.hm_graph_laws.specs.Steps as steps;
ghost use Rattle.hm_edges.specs.States.{HasNodes, pending_of, spot_of};

use crate::states::{Pending, Spot};
use hm_refs::{Node, Table};

/// Whether the spot is in an attribute value.
pub(crate) fn is_value(spot: Spot) -> bool
    ensures { result ≡ spots.is_value (spot_of spot) }
{
    match spot {
        Spot::Text => false,
        Spot::Rcdata => false,
        Spot::Foreign => false,
        Spot::Unquoted => true,
        Spot::Double => true,
        Spot::Single => true,
    }
}

/// Whether the byte is a digit of the base.
#[tactic(auto, unfolding(hm_base::specs::Bytes::is_digit_of))]
fn is_digit(byte: u8, base: u32) -> bool
    requires low { 2 ≤ base }
    requires high { base ≤ 16 }
    ensures { result ≡ is_digit_of base byte }
{
    char::from(byte).is_digit(base)
}

/// Whether the byte stops a name without `;` in a value from being a reference: it is `=`, a letter or a digit.
fn blocks(byte: u8) -> bool
    ensures { result ≡ refs.blocks byte }
{
    byte == b'=' || byte.is_ascii_alphanumeric()
}

/// Whether the byte makes a `<` before it markup (#tag-open-state).
#[tactic(auto, unfolding(hm_spelling_spec::specs::Characters::opens_text, hm_base::specs::Bytes::is_letter))]
fn opens_text(byte: u8) -> bool
    ensures { result ≡ spots.opens_text byte }
{
    byte.is_ascii_alphabetic() || byte == b'!' || byte == b'/' || byte == b'?'
}

/// Whether the byte makes a `<` before it markup in this spot.
fn opens(spot: Spot, byte: u8) -> bool
    ensures { result ≡ spots.opens (spot_of spot) byte }
{
    match spot {
        Spot::Text => opens_text(byte),
        Spot::Rcdata => byte == b'/',
        Spot::Foreign => opens_text(byte),
        Spot::Unquoted => false,
        Spot::Double => false,
        Spot::Single => false,
    }
}

/// Whether the byte continues a decimal reference.
fn goes_on_decimal(byte: u8) -> bool
    ensures { result ≡ steps.goes_on_decimal byte }
{
    is_digit(byte, 10) || byte == b';'
}

/// Whether the byte continues a hexadecimal reference.
fn goes_on_hexadecimal(byte: u8) -> bool
    ensures { result ≡ steps.goes_on_hexadecimal byte }
{
    is_digit(byte, 16) || byte == b';'
}

/// Nothing is pending; None if `broken`.
fn unless(broken: bool) -> Option<Pending>
    ensures { (v : TableView) → (option_map (pending_of v) result ≡ steps.unless broken states.nothing) × IfSome result (HasNodes v) }
{
    if broken { None } else { Some(Pending::Nothing) }
}

/// Whether the byte is `x` or `X`.
fn is_x(byte: u8) -> bool
    ensures { result ≡ (120 == byte || 88 == byte) }
{
    byte == b'x' || byte == b'X'
}

/// What is pending after `&#` and the byte.
fn after_hash(byte: u8) -> Option<Pending>
    ensures { (v : TableView) → (option_map (pending_of v) result ≡ steps.step [] spots.text states.hash byte) × IfSome result (HasNodes v) }
{
    if is_x(byte) {
        return Some(Pending::HashX);
    }
    unless(is_digit(byte, 10))
}

/// Whether only the `&` is pending.
fn is_root(table: &Table, node: Node) -> bool
    requires { IsNode table.now node }
    ensures { result ≡ steps.is_root (front_at table.now node) }
{
    node == table.root()
}

/// Whether the byte is `#`, directly after the `&`.
fn is_hash_at_root(table: &Table, node: Node, byte: u8) -> bool
    requires { IsNode table.now node }
    ensures { result ≡ (steps.is_root (front_at table.now node) && steps.is_hash byte) }
{
    byte == b'#' && is_root(table, node)
}

/// Whether the bytes of the node are a name.
fn is_name(table: &Table, node: Node) -> bool
    requires { IsNode table.now node }
    ensures { result ≡ is_name table.now.entries (front_at table.now node) }
{
    table.name_at(node).is_some()
}

/// Whether some name starts with the bytes of the node and the byte.
fn has_child(table: &Table, node: Node, byte: u8) -> bool
    requires { IsNode table.now node }
    ensures { result ≡ is_front table.now.entries (front_at table.now node ++ byte ∷ []) }
{
    table.child(node, byte).is_some()
}

/// Whether the bytes of the node and the byte are a name.
fn is_name_after(table: &Table, node: Node, byte: u8) -> bool
    requires { IsNode table.now node }
    ensures { result ≡ is_name table.now.entries (front_at table.now node ++ byte ∷ []) }
{
    match table.child(node, byte) {
        None => false,
        Some(child) => is_name(table, child),
    }
}

/// On to the child, where the `&` is text.
fn onto_ampersand(table: &Table, node: Node, byte: u8) -> Option<Pending>
    requires { IsNode table.now node }
    ensures step { option_map (pending_of table.now) result ≡ steps.onto states.ampersand table.now.entries (front_at table.now node) byte }
    ensures nodes { IfSome result (HasNodes table.now) }
{
    match table.child(node, byte) {
        None => Some(Pending::Nothing),
        Some(child) => Some(Pending::Ampersand { node: child }),
    }
}

/// On to the child, whose bytes start with a name without `;`.
fn onto_named(table: &Table, node: Node, byte: u8) -> Option<Pending>
    requires { IsNode table.now node }
    ensures step { option_map (pending_of table.now) result ≡ steps.onto states.named table.now.entries (front_at table.now node) byte }
    ensures nodes { IfSome result (HasNodes table.now) }
{
    match table.child(node, byte) {
        None => Some(Pending::Nothing),
        Some(child) => Some(Pending::Named { node: child }),
    }
}

/// What is pending in a text after one more byte, if `&` and the bytes of the node are text.
#[tactic(auto, unfolding(hm_graph_laws::specs::Steps::ampersand_in_text))]
fn ampersand_in_text(table: &Table, node: Node, byte: u8) -> Option<Pending>
    requires { IsNode table.now node }
    ensures step { option_map (pending_of table.now) result ≡ steps.ampersand_in_text table.now.entries (front_at table.now node) byte }
    ensures nodes { IfSome result (HasNodes table.now) }
{
    if is_hash_at_root(table, node, byte) {
        return Some(Pending::Hash);
    }
    if is_name_after(table, node, byte) {
        return None;
    }
    onto_ampersand(table, node, byte)
}

/// Whether the bytes of the node and the byte are a name with `;`.
fn is_closed_name_after(table: &Table, node: Node, byte: u8) -> bool
    requires { IsNode table.now node }
    ensures { result ≡ (is_name table.now.entries (front_at table.now node ++ byte ∷ []) && refs.is_semicolon byte) }
{
    is_name_after(table, node, byte) && byte == b';'
}

/// What is pending in a value after one more byte, if `&` and the bytes of the node are text.
#[tactic(auto, unfolding(hm_graph_laws::specs::Steps::ampersand_in_value))]
fn ampersand_in_value(table: &Table, node: Node, byte: u8) -> Option<Pending>
    requires { IsNode table.now node }
    ensures step { option_map (pending_of table.now) result ≡ steps.ampersand_in_value table.now.entries (front_at table.now node) byte }
    ensures nodes { IfSome result (HasNodes table.now) }
{
    if is_hash_at_root(table, node, byte) {
        return Some(Pending::Hash);
    }
    if is_name(table, node) {
        if blocks(byte) {
            return onto_ampersand(table, node, byte);
        }
        return None;
    }
    if is_closed_name_after(table, node, byte) {
        return None;
    }
    onto_ampersand(table, node, byte)
}

/// What is pending in a text after one more byte, if the bytes of the node start with a reference without `;`.
#[tactic(auto, unfolding(hm_graph_laws::specs::Steps::named_in_text))]
fn named_in_text(table: &Table, node: Node, byte: u8) -> Option<Pending>
    requires { IsNode table.now node }
    ensures step { option_map (pending_of table.now) result ≡ steps.named_in_text table.now.entries (front_at table.now node) byte }
    ensures nodes { IfSome result (HasNodes table.now) }
{
    if is_name_after(table, node, byte) {
        return None;
    }
    onto_named(table, node, byte)
}

/// Whether in a value the byte changes what a name without `;` before it means (#named-character-reference-state).
fn breaks_name(table: &Table, node: Node, byte: u8) -> bool
    requires { IsNode table.now node }
    ensures { result ≡ (refs.blocks byte || (refs.is_semicolon byte && is_front table.now.entries (front_at table.now node ++ byte ∷ []))) }
{
    blocks(byte) || (byte == b';' && has_child(table, node, byte))
}

/// What is pending in a value after one more byte, if the bytes of the node are a reference without `;`.
#[tactic(auto, unfolding(hm_graph_laws::specs::Steps::named_in_value))]
fn named_in_value(table: &Table, node: Node, byte: u8) -> Option<Pending>
    requires { IsNode table.now node }
    ensures step { option_map (pending_of table.now) result ≡ steps.named_in_value table.now.entries (front_at table.now node) byte }
    ensures nodes { IfSome result (HasNodes table.now) }
{
    if breaks_name(table, node, byte) {
        None
    } else {
        Some(Pending::Nothing)
    }
}

/// What is pending after one more byte; None if the byte changes what was written before it.
///
/// Also None for `Half`, `OneBracket` and `TwoBrackets`, for which it is never called.
pub fn step(pending: Pending, table: &Table, spot: Spot, byte: u8) -> Option<Pending>
    requires { HasNodes table.now pending }
    ensures step { option_map (pending_of table.now) result ≡ steps.step table.now.entries (spot_of spot) (pending_of table.now pending) byte }
    ensures nodes { IfSome result (HasNodes table.now) }
{
    match pending {
        Pending::Nothing => Some(Pending::Nothing),
        Pending::LessThan => unless(opens(spot, byte)),
        Pending::Hash => after_hash(byte),
        Pending::HashX => unless(is_digit(byte, 16)),
        Pending::Decimal => unless(goes_on_decimal(byte)),
        Pending::Hexadecimal => unless(goes_on_hexadecimal(byte)),
        Pending::Ampersand { node } => {
            if is_value(spot) {
                ampersand_in_value(table, node, byte)
            } else {
                ampersand_in_text(table, node, byte)
            }
        }
        Pending::Named { node } => {
            if is_value(spot) {
                named_in_value(table, node, byte)
            } else {
                named_in_text(table, node, byte)
            }
        }
        Pending::Half { left: _ } => None,
        Pending::OneBracket => None,
        Pending::TwoBrackets => None,
    }
}

/// Whether a text or a value may end with this pending.
pub fn may_end(pending: Pending, table: &Table, spot: Spot) -> bool
    requires { HasNodes table.now pending }
    ensures { result ≡ steps.may_end table.now.entries (spot_of spot) (pending_of table.now pending) }
{
    match pending {
        Pending::Nothing => true,
        Pending::LessThan => true,
        Pending::Hash => true,
        Pending::HashX => true,
        Pending::Decimal => true,
        Pending::Hexadecimal => true,
        Pending::Ampersand { node } => !(is_value(spot) && is_name(table, node)),
        Pending::Named { node: _ } => true,
        Pending::Half { left: _ } => false,
        Pending::OneBracket => false,
        Pending::TwoBrackets => false,
    }
}
