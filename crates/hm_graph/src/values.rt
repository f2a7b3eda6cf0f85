//! Which characters of a value can't be written as themselves, by the names of a table.
ghost use Rattle.std.specs.Prelude.{◌≡◌, ◌<◌, ◌&&◌, List, false, IsTrue};
ghost use Rattle.std.specs.List.{list_any};
ghost use Rattle.std.specs.Str.{chars};
ghost use Rattle.hm_edges.specs.Units as units;
ghost use Rattle.hm_graph.specs.Interned.{AreTold};
ghost use Rattle.hm_graph.specs.EntityFacts.{joined};
ghost use Rattle.hm_graph.specs.Values.{is_quote, need_with, needs_with};
ghost use Rattle.hm_graph_laws.specs.Forms as forms;
ghost use Rattle.hm_graph_laws.specs.Units.{next_of};
ghost use Rattle.hm_refs.specs.Names.{Entry};
ghost use Rattle.hm_spelling_spec.specs.Characters as spots;

use crate::forms::is_costly_need;
use crate::pairs::has_pair;
use crate::told::EntityFacts;
use hm_base::is_space;
use hm_edges::{Need, Needs};
use hm_refs::Table;
use memchr::memchr2;

/// Whether references to the character may be costly.
fn may_be_costly(c: char) -> bool
    ensures { result ≡ forms.may_be_costly c }
{
    c == '\n'
        || c == '\x0c'
        || c == ' '
        || c == '"'
        || c == '\''
        || c == '<'
        || c == '='
        || c == '>'
        || c == '`'
}

/// Whether some name without `;` ends with the previous character.
fn may_leave_open(told: &EntityFacts, previous: Option<char>) -> bool
    ensures { (t : List Entry) → AreTold t told.now → result ≡ forms.may_leave_open t previous }
{
    match previous {
        Some(c) => told.ends.contains(&c),
        None => false,
    }
}

/// Whether some name gives these two code points.
fn are_paired(table: &Table, told: &EntityFacts, c: char, d: char) -> bool
    requires { AreTold table.now.entries told.now }
    ensures { result ≡ units.has_pair table.now.entries c d }
{
    if told.is_lone(c) {
        return false;
    }
    has_pair(table, c, d)
}

/// Whether some name makes references to the character cheap before the next one.
fn is_cheap(table: &Table, told: &EntityFacts, c: char, next: Option<char>) -> bool
    requires told { AreTold table.now.entries told.now }
    requires ascii { c < 128 }
    ensures { result ≡ list_any (forms.makes_cheap c next) table.now.entries }
{
    if told.cheap[c as usize] {
        return true;
    }
    match next {
        Some(d) => are_paired(table, told, c, d),
        None => false,
    }
}

/// Whether references to the character are costly between these two.
fn is_costly(
    table: &Table,
    told: &EntityFacts,
    previous: Option<char>,
    c: char,
    next: Option<char>,
) -> bool
    requires { AreTold table.now.entries told.now }
    ensures { result ≡ forms.is_costly table.now.entries previous c next }
{
    if !may_be_costly(c) || is_cheap(table, told, c, next) {
        return false;
    }
    c != '=' || !may_leave_open(told, previous)
}

/// Whether a value without quotes can't hold the character.
#[tactic(auto, unfolding(hm_spelling_spec::specs::Characters::is_barred))]
fn is_barred(c: char) -> bool
    ensures { result ≡ spots.is_barred c }
{
    is_space(c) || c == '"' || c == '\'' || c == '=' || c == '<' || c == '>' || c == '`'
}

/// Whether the character needs quotes of either kind.
fn needs_quotes(c: char) -> bool
    ensures { result ≡ units.needs_quotes c }
{
    is_barred(c) && !(c == '\r' || c == '"' || c == '\'')
}

/// A need, with that of one more character between these two added, if `kind` says that the character is of the kind.
fn need_with(
    table: &Table,
    told: &EntityFacts,
    need: Need,
    kind: bool,
    previous: Option<char>,
    c: char,
    next: Option<char>,
) -> Need
    requires { AreTold table.now.entries told.now }
    ensures { result ≡ joined need kind (kind && forms.is_costly table.now.entries previous c next) }
{
    if !kind || need == Need::Dear {
        return need;
    }
    if is_costly(table, told, previous, c, next) {
        Need::Dear
    } else {
        Need::Cheap
    }
}

/// The needs, with those of one more character between the previous one and the rest of the value added.
fn needs_with(
    table: &Table,
    told: &EntityFacts,
    needs: Needs,
    previous: Option<char>,
    c: char,
    rest: &str,
) -> Needs
    requires { AreTold table.now.entries told.now }
    ensures { result ≡ needs_with table.now.entries needs previous c (next_of (chars rest.now)) }
{
    if !is_barred(c) {
        return needs;
    }
    let next = rest.chars().next();
    Needs {
        double: need_with(table, told, needs.double, c == '"', previous, c, next),
        single: need_with(table, told, needs.single, c == '\'', previous, c, next),
        other: need_with(table, told, needs.other, needs_quotes(c), previous, c, next),
    }
}

/// The need for quotes of either kind, with that of one more character between the previous one and the rest of the
/// value added.
fn other_with(
    table: &Table,
    told: &EntityFacts,
    need: Need,
    previous: Option<char>,
    c: char,
    rest: &str,
) -> Need
    requires { AreTold table.now.entries told.now }
    ensures { result ≡ need_with table.now.entries units.needs_quotes need previous c (next_of (chars rest.now)) }
{
    if !needs_quotes(c) {
        return need;
    }
    let next = rest.chars().next();
    need_with(table, told, need, true, previous, c, next)
}

/// Whether some byte is a quote.
fn has_quotes(bytes: &[u8]) -> bool
    ensures { result ≡ false → list_any is_quote bytes.now ≡ false }
{
    memchr2(b'"', b'\'', bytes).is_some()
}

/// Whether the byte is known to be that of a character that is allowed without quotes, as those of letters and digits
/// are. Two comparisons decide it.
#[inline(always)]
#[tactic(auto, unfolding(hm_spelling_spec::specs::Characters::is_barred, hm_base::specs::Bytes::is_space))]
fn is_clear(byte: u8) -> bool
    ensures { IsTrue result → spots.is_barred byte ≡ false }
{
    (byte > b'>' && byte != b'`') || (byte > b'\'' && byte < b'<')
}

/// Whether the byte is that of a character that isn't allowed without quotes. One comparison decides it for small
/// letters, of which most values are made.
#[inline(always)]
#[tactic(auto, unfolding(hm_spelling_spec::specs::Characters::is_barred, hm_base::specs::Bytes::is_space))]
fn is_barred_byte(byte: u8) -> bool
    ensures { result ≡ spots.is_barred byte }
{
    byte <= b'`' && !is_clear(byte) && is_barred(byte as char)
}

/// Whether some byte is that of a character that isn't allowed without quotes.
fn has_barred(bytes: &[u8]) -> bool
    ensures { result ≡ list_any spots.is_barred bytes.now }
{
    for byte in bytes {
        if is_barred_byte(*byte) {
            return true;
        }
    }
    false
}

/// The needs of a value whose characters need nothing.
const NO_NEEDS: Needs = Needs {
    double: Need::Absent,
    single: Need::Absent,
    other: Need::Absent,
};

/// What the characters of a value need, taken one after the other.
fn needs_along(table: &Table, told: &EntityFacts, value: &str) -> Needs
    requires { AreTold table.now.entries told.now }
    ensures { result ≡ units.needs_of table.now.entries (chars value.now) }
{
    let mut needs = NO_NEEDS;
    let mut previous = None;
    let mut rest = value;
    while !rest.is_empty() {
        let mut characters = rest.chars();
        let first = characters.next();
        rest = characters.as_str();
        if let Some(c) = first {
            needs = needs_with(table, told, needs, previous, c, rest);
            previous = first;
        }
    }
    needs
}

/// What the characters of a value need that are written as themselves in quotes of either kind. Most often the first
/// one that needs quotes has costly references, and the rest isn't looked at.
fn other_along(table: &Table, told: &EntityFacts, value: &str) -> Need
    requires { AreTold table.now.entries told.now }
    ensures { result ≡ units.need_for table.now.entries units.needs_quotes (chars value.now) }
{
    let mut need = Need::Absent;
    let mut previous = None;
    let mut rest = value;
    while !rest.is_empty() {
        let mut characters = rest.chars();
        let first = characters.next();
        rest = characters.as_str();
        if let Some(c) = first {
            need = other_with(table, told, need, previous, c, rest);
            if is_costly_need(need) {
                return need;
            }
            previous = first;
        }
    }
    need
}

/// What the characters of a value without quotes in it need.
fn needs_without_quotes(table: &Table, told: &EntityFacts, value: &str) -> Needs
    requires told { AreTold table.now.entries told.now }
    requires none { list_any is_quote value.now ≡ false }
    ensures { result ≡ units.needs_of table.now.entries (chars value.now) }
{
    Needs {
        double: Need::Absent,
        single: Need::Absent,
        other: other_along(table, told, value),
    }
}

/// What the characters of a value need. Most need nothing, which one pass over the bytes shows, and few values hold
/// quotes.
pub(crate) fn needs_of(table: &Table, told: &EntityFacts, value: &str) -> Needs
    requires { AreTold table.now.entries told.now }
    ensures { result ≡ units.needs_of table.now.entries (chars value.now) }
{
    if !has_barred(value.as_bytes()) {
        NO_NEEDS
    } else if has_quotes(value.as_bytes()) {
        needs_along(table, told, value)
    } else {
        needs_without_quotes(table, told, value)
    }
}
