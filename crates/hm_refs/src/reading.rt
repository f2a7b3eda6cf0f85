//! A table from JSON.
ghost use Rattle.std.specs.Prelude.{◌≡◌, ◌≢◌, ◌&&◌, ◌==◌, ◌+◌, ◌<◌, length, slice_index, Some, None, Ok, Err, option_map, OnOk, IfOk, IfErr, codes, option_and_then};
ghost use Rattle.std.specs.Ordering.{nat_cmp};
ghost use Rattle.std.specs.Cmp.Lexicographic.{slice_cmp};
ghost use Rattle.std.specs.List.Sorted.{IsStrictlySortedBy};
ghost use Rattle.serde_json.specs.Data.{item, no_items};
ghost use Rattle.serde_json.specs.Find.{as_array, get};
ghost use Rattle.serde_json.specs.View.{items_view, members_view, view};
ghost use Rattle.hm_base.specs.Bytes.{is_alnum, is_letter};
ghost use Rattle.hm_refs.specs.Names.{is_good_name, is_tail};
ghost use Rattle.hm_refs.specs.Tables.{points_list};
ghost use Rattle.hm_refs.specs.Json.{and_entry, codepoints, entries_in, first_bad_name, first_bad_points, if_point, json, keys_in, names, names_of_members, point_in, points_in};
ghost use Rattle.hm_refs.specs.Nodes.{entries_of};

use crate::fault::TableFault;
use crate::limits::LENGTH_LIMIT;
use crate::nodes::ReferenceName;
use crate::ordered::ordered_names;
use crate::table::{Table, word_of};
use crate::text::NameText;
use hm_base::{OutOfMemory, Points, TABLE_LIMIT};
use serde_json::{Map, Value};
use std::alloc::Global;

impl Table {
    /// Reads a table in the form of the standard's `entities.json` (HTML Standard, #named-character-references): an
    /// object whose keys are the names. Each value is an object that has the code points in `codepoints`. Other members
    /// are ignored.
    pub fn read(alloc: Global, bytes: &[u8]) -> Result<Table, TableFault>
        ensures ok { IfOk result (λ table. names bytes.now ≡ Ok table.entries) }
        ensures fault { IfErr result
            (λ fault. fault ≢ TableFault.OutOfMemory → names bytes.now ≡ Err fault) }
    {
        if bytes.len() > TABLE_LIMIT as usize {
            return Err(TableFault::TooLong);
        }
        if let Some(names) = ordered_names(alloc, bytes) {
            return Table::checked(alloc, names);
        }
        let value = parse(alloc, bytes)?;
        match value.as_object() {
            Some(members) => of_members(alloc, members),
            None => Err(TableFault::NotObject),
        }
    }
}

/// The table of an object's members.
fn of_members(alloc: Global, members: &Map<String, Value>) -> Result<Table, TableFault>
    requires { IsStrictlySortedBy (slice_cmp nat_cmp) (keys_in (members_view members.now.entries)) }
    ensures ok { IfOk result
        (λ table. names_of_members (members_view members.now.entries) ≡ Ok table.entries) }
    ensures fault { IfErr result
        (λ fault. fault ≢ TableFault.OutOfMemory
        → names_of_members (members_view members.now.entries) ≡ Err fault) }
{
    check_names(alloc, members)?;
    let names = gather(alloc, members)?;
    Table::checked(alloc, names)
}

/// The bytes as JSON.
fn parse(alloc: Global, bytes: &[u8]) -> Result<Value, TableFault>
    ensures ok { IfOk result (λ value. json bytes.now ≡ Some (view value)) }
    ensures fault { IfErr result
        (λ fault. fault ≢ TableFault.OutOfMemory
        → (fault ≡ TableFault.NotJson) × (json bytes.now ≡ None)) }
{
    match Value::from_slice(alloc, bytes) {
        Ok(value) => Ok(value),
        Err(error) => if error.is_memory() {
            Err(TableFault::OutOfMemory)
        } else {
            Err(TableFault::NotJson)
        },
    }
}

/// The fault of the first key that isn't a name.
fn check_names(alloc: Global, members: &Map<String, Value>) -> Result<(), TableFault>
    ensures ok { OnOk result (first_bad_name (members_view members.now.entries) ≡ None) }
    ensures fault { IfErr result
        (λ fault. fault ≢ TableFault.OutOfMemory
        → option_map TableFault.BadName (first_bad_name (members_view members.now.entries))
        ≡ Some fault) }
{
    for (key, _value) in members {
        if !is_good_name(key.as_bytes()) {
            let key = word_of(alloc, key.as_str())?;
            return Err(TableFault::BadName { key });
        }
    }
    Ok(())
}

/// The names with their code points.
fn gather(alloc: Global, members: &Map<String, Value>) -> Result<Vec<ReferenceName>, TableFault>
    ensures passed { OnOk result
        (first_bad_points (members_view members.now.entries) ≡ None) }
    ensures names { IfOk result
        (λ names. entries_of names.items ≡ entries_in (members_view members.now.entries)) }
    ensures fault { IfErr result
        (λ fault. fault ≢ TableFault.OutOfMemory
        → option_map TableFault.BadPoints (first_bad_points (members_view members.now.entries))
        ≡ Some fault) }
{
    let mut names = Vec::new(alloc);
    for (key, value) in members {
        let Some(points) = points_of(value) else {
            let key = word_of(alloc, key.as_str())?;
            return Err(TableFault::BadPoints { key });
        };
        add_name(alloc, &mut names, key.as_str(), points)?;
    }
    Ok(names)
}

/// Appends a name with its code points.
pub(crate) fn add_name(
    alloc: Global,
    names: &mut Vec<ReferenceName>,
    name: &str,
    points: Points,
) -> Result<(), OutOfMemory>
    ensures { OnOk result
        (entries_of names.new.items
        ≡ and_entry (entries_of names.old.items) name.now (points_list points)) }
{
    let text = NameText::read(String::from_str(alloc, name)?);
    names.push(ReferenceName { text, points })?;
    Ok(())
}

/// The code points in a name's object.
#[tactic(auto, unfolding(crate::specs::Json::codepoints))]
fn points_of(value: &Value) -> Option<Points>
    ensures { option_map points_list result ≡ codepoints (view value.now) }
{
    match list_of(value) {
        Some(list) => points_in(list),
        None => None,
    }
}

/// The array of code points in a name's object.
fn list_of(value: &Value) -> Option<&Vec<Value>>
    ensures { option_map (λ list. items_view list.now.items) result
        ≡ option_and_then as_array (get (codes "codepoints") (view value.now)) }
{
    match value.get("codepoints") {
        Some(list) => list.as_array(),
        None => None,
    }
}

/// The one or two code points of an array.
fn points_in(values: &[Value]) -> Option<Points>
    ensures { option_map points_list result ≡ points_in (items_view values.now) }
{
    match values {
        [first] => one_point(first),
        [first, second] => two_points(first, second),
        _ => None,
    }
}

/// The code points of an array of one.
fn one_point(first: &Value) -> Option<Points>
    ensures { option_map points_list result ≡ points_in (item (view first.now) no_items) }
{
    let first = point_in(first)?;
    Some(Points {
        first,
        second: None,
    })
}

/// The code points of an array of two.
fn two_points(first: &Value, second: &Value) -> Option<Points>
    ensures { option_map points_list result
        ≡ points_in (item (view first.now) (item (view second.now) no_items)) }
{
    let first = point_in(first)?;
    let second = point_in(second)?;
    Some(Points {
        first,
        second: Some(second),
    })
}

/// The code point of a whole number.
fn point_in(value: &Value) -> Option<char>
    ensures { result ≡ point_in (view value.now) }
{
    point_of(value.as_u64()?)
}

/// The code point with this number, if a name may give it.
pub(crate) fn point_of(number: u64) -> Option<char>
    ensures { result ≡ if_point number }
{
    let number = u32::try_from(number).ok()?;
    if number == 0 {
        return None;
    }
    char::from_u32(number)
}

/// Whether a key has the form of a name.
pub(crate) fn is_good_name(name: &[u8]) -> bool
    ensures { result ≡ is_good_name name.now }
{
    match name {
        [b'&', first, second, rest @ ..] => {
            is_letter(*first) && is_alnum(*second) && is_tail(rest) && name.len() <= LENGTH_LIMIT
        }
        _ => false,
    }
}

/// Whether the byte at `i` is a `;` and the last one.
fn is_last_semicolon(text: &[u8], i: usize) -> bool
    requires { i < length text.now }
    ensures { result ≡ ((slice_index text.now i == 59) && (i + 1 == length text.now)) }
{
    text[i] == b';' && i + 1 == text.len()
}

/// Whether these are letters and digits, and maybe a `;` at the end.
fn is_tail(text: &[u8]) -> bool
    ensures { result ≡ is_tail text.now }
{
    for (i, byte) in text.iter().enumerate() {
        if !is_alnum(*byte) {
            return is_last_semicolon(text, i);
        }
    }
    true
}

/// Whether the byte is an ASCII letter.
#[tactic(auto, unfolding(hm_base::specs::Bytes::is_letter))]
fn is_letter(byte: u8) -> bool
    ensures { result ≡ is_letter byte }
{
    byte.is_ascii_alphabetic()
}

/// Whether the byte is an ASCII letter or digit.
#[tactic(auto, unfolding(hm_base::specs::Bytes::is_alnum, hm_base::specs::Bytes::is_digit_of))]
fn is_alnum(byte: u8) -> bool
    ensures { result ≡ is_alnum byte }
{
    is_letter(byte) || (byte as char).is_digit(10)
}
