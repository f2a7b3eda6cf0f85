//! Values whose fewest bytes follow from a scan of their characters.
ghost use Rattle.std.specs.Prelude.{◌≡◌, ◌≤◌, ◌<◌, ◌||◌, true, length, Some, IfSome};
ghost use Rattle.std.specs.Option.{option_map};
ghost use Rattle.std.specs.Str.{chars};
ghost use Rattle.hm_edges.specs.States.{HasNodes, pending_of};
ghost use Rattle.hm_graph_laws.specs.Steps as steps;
ghost use Rattle.hm_refs.specs.Tables.{entry_at};
ghost use Rattle.hm_spelling_spec.specs.Characters as characters;
ghost use Rattle.hm_spelling_spec.specs.Characters.{double};
ghost use Rattle.hm_order.specs.Weights as weights;
ghost use Rattle.hm_order.specs.Weights.{are_literal, AreEasy, IsEasy, IsHeavy, some_barred, total};

use hm_base::is_space;
use hm_edges::{Pending, Spot, may_end, step};
use hm_refs::{NameId, Node, Table};

/// Whether a value without quotes can't hold the character (#attributes-2).
#[tactic(auto, unfolding(hm_spelling_spec::specs::Characters::is_barred))]
fn is_barred(c: char) -> bool
    ensures { result ≡ characters.is_barred c }
{
    is_space(c) || c == '"' || c == '\'' || c == '=' || c == '<' || c == '>' || c == '`'
}

/// The fewest bytes of a character in a value without quotes, if no reference to it is shorter. With `low` the value is
/// of ASCII, and other characters don't count.
fn weight(low: bool, c: char) -> usize
    ensures weight { result ≡ weights.weight low c }
    ensures few { result ≤ 4 }
{
    if low && c >= '\u{80}' {
        return 0;
    }
    if is_barred(c) { 3 } else { c.len_utf8() }
}

/// Whether a name has at least as many bytes as what it gives weighs.
fn is_heavy_name(table: &Table, low: bool, id: NameId) -> bool
    requires { id < length table.now.entries }
    ensures { result ≡ true → total (weights.weight low) (entry_at table.now.entries id).points ≤ length (entry_at table.now.entries id).name }
{
    let points = table.points(id);
    let second = match points.second {
        Some(c) => weight(low, c),
        None => 0,
    };
    weight(low, points.first) + second <= table.name(id).len()
}

/// Whether no reference to the character is shorter than its weight.
fn is_heavy(table: &Table, low: bool, c: char) -> bool
    ensures { result ≡ true → IsHeavy table.now.entries low c }
{
    if c.len_utf8() > 3 {
        return false;
    }
    for id in table.names_for(c) {
        if !is_heavy_name(table, low, *id) {
            return false;
        }
    }
    true
}

/// Whether the character may be written as itself in double quotes, and no reference to it is shorter.
fn is_easy(table: &Table, ascii: bool, low: bool, c: char) -> bool
    ensures { result ≡ true → IsEasy table.now.entries ascii low c }
{
    if c == '"' || c == '\r' || (ascii && c >= '\u{80}') {
        return false;
    }
    if low && c >= '\u{80}' {
        return false;
    }
    table.is_plain(c) || is_heavy(table, low, c)
}

/// What is pending after these bytes in a value; None if they change what was written before.
fn run(table: &Table, pending: Pending, bytes: &[u8]) -> Option<Pending>
    requires { HasNodes table.now pending }
    ensures run { option_map (pending_of table.now) result ≡ steps.run table.now.entries double (Some (pending_of table.now pending)) bytes.now }
    ensures nodes { IfSome result (HasNodes table.now) }
{
    let mut after = pending;
    for byte in bytes {
        after = step(after, table, Spot::Double, *byte)?;
    }
    Some(after)
}

/// What is pending after a character as itself in a value. None if it changes what was written before.
fn literal(table: &Table, pending: Pending, c: char) -> Option<Pending>
    requires { HasNodes table.now pending }
    ensures literal { option_map (pending_of table.now) result ≡ weights.literal table.now.entries double (Some (pending_of table.now pending)) c }
    ensures nodes { IfSome result (HasNodes table.now) }
{
    let mut buffer = [0; 4];
    let after = run(table, pending, c.encode_utf8(&mut buffer).as_bytes())?;
    if c == '&' {
        let node: Node = table.root();
        return Some(Pending::Ampersand { node });
    }
    Some(after)
}

/// As `literal`, with a fast path if nothing is pending.
fn literal_after(table: &Table, pending: Pending, c: char) -> Option<Pending>
    requires { HasNodes table.now pending }
    ensures literal { option_map (pending_of table.now) result ≡ weights.literal table.now.entries double (Some (pending_of table.now pending)) c }
    ensures nodes { IfSome result (HasNodes table.now) }
{
    match pending {
        Pending::Nothing if c != '&' => Some(Pending::Nothing),
        _ => literal(table, pending, c),
    }
}

/// What is known of the characters of a value up to here.
#[derive(Clone, Copy)]
struct Seen {
    /// One of them can't be in a value without quotes.
    barred: bool,
    /// What is pending after them, each written as itself.
    pending: Pending,
}

/// What is known after one more character. None if it isn't easy, or changes what was written before.
fn seen_with(table: &Table, ascii: bool, low: bool, seen: Seen, c: char) -> Option<Seen>
    requires { HasNodes table.now seen.pending }
    ensures easy { IfSome result (λ more. IsEasy table.now.entries ascii low c) }
    ensures barred { IfSome result (λ more. more.barred ≡ (seen.barred || characters.is_barred c)) }
    ensures literal { IfSome result (λ more. weights.literal table.now.entries double (Some (pending_of table.now seen.pending)) c ≡ Some (pending_of table.now more.pending)) }
    ensures nodes { IfSome result (λ more. HasNodes table.now more.pending) }
{
    if table.is_plain(c) {
        if let Pending::Nothing = seen.pending {
            return Some(seen);
        }
    }
    if !is_easy(table, ascii, low, c) {
        return None;
    }
    let pending = literal_after(table, seen.pending, c)?;
    Some(Seen {
        barred: seen.barred || is_barred(c),
        pending,
    })
}

/// Whether a value has a character that can't be without quotes, if all its characters are easy and can be written as
/// themselves. Else None. `low` says that they are all of ASCII, which makes more of them easy.
pub(crate) fn scan(table: &Table, ascii: bool, low: bool, value: &str) -> Option<bool>
    ensures easy { IfSome result (λ barred. AreEasy table.now.entries ascii low (chars value.now)) }
    ensures literal { IfSome result (λ barred. are_literal table.now.entries (chars value.now) ≡ true) }
    ensures barred { IfSome result (λ barred. barred ≡ some_barred (chars value.now)) }
{
    let mut seen = Seen {
        barred: false,
        pending: Pending::Nothing,
    };
    for c in value.chars() {
        seen = seen_with(table, ascii, low, seen, c)?;
    }
    if may_end(seen.pending, table, Spot::Double) {
        Some(seen.barred)
    } else {
        None
    }
}
