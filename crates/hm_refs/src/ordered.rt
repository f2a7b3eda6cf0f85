//! Tables whose names are in byte order, read token by token.
ghost use Rattle.std.specs.Prelude.{◌≡◌, ◌≤◌, [], length, Some, IsTrue, IfSome, OnSome, codes, option_and_then};
ghost use Rattle.serde_json.specs.Find.{as_u64};
ghost use Rattle.serde_json.specs.Read.{number_of};
ghost use Rattle.hm_base.specs.declared.limits.TheConstants.{TABLE_LIMIT};
ghost use Rattle.hm_refs.specs.Json.{checked, if_point, names};
ghost use Rattle.hm_refs.specs.Nodes.{entries_of};
ghost use Rattle.hm_refs.specs.Ordered.{ArePoints, Closes, IsBefore, IsEntry, IsPoint, IsTableOf};
ghost use Rattle.hm_refs.specs.Tables.{IsGathered, points_list};

use crate::nodes::ReferenceName;
use crate::reading::{add_name, is_good_name, point_of};
use fast_float::Numeral;
use hm_base::Points;
use json::{Reader, Scratch, Token};
use std::alloc::Global;

/// The names of a table whose keys are distinct and in byte order, as in the standard's own file. Each value is an
/// object with `codepoints`, and maybe one text after that, as in `{"codepoints":[198],"characters":"Æ"}`. None if the
/// bytes have another form, which may still be that of a table.
pub(crate) fn ordered_names(alloc: Global, bytes: &[u8]) -> Option<Vec<ReferenceName>>
    requires { length bytes.now ≤ TABLE_LIMIT }
    ensures gathered { IfSome result (λ names. IsGathered (entries_of names.items)) }
    ensures names { IfSome result
        (λ read. names bytes.now ≡ checked (entries_of read.items)) }
{
    let text = str::from_utf8(bytes).ok()?;
    let mut scratch = Scratch::new(alloc);
    let mut reader = Reader::new(text, &mut scratch).ok()?;
    let names = members(alloc, &mut reader)?;
    if reader.next().is_some() {
        return None;
    }
    Some(names)
}

/// The names of an object's members.
fn members<'a>(alloc: Global, reader: &mut Reader<'a>) -> Option<Vec<ReferenceName>>
    ensures { IfSome result (λ names. IsTableOf reader.old (entries_of names.items) reader.new) }
{
    let Token::BeginObject = reader.next()? else {
        return None;
    };
    let mut names = Vec::new(alloc);
    let mut previous: &[u8] = &[];
    while let Some(key) = reader.next_key().ok()? {
        let points = entry(reader)?;
        let name = key.as_bytes();
        if !is_before(previous, name) || !is_good_name(name) {
            return None;
        }
        add_name(alloc, &mut names, key, points).ok()?;
        previous = name;
    }
    Some(names)
}

/// Whether a name comes before another one in byte order.
fn is_before(a: &[u8], b: &[u8]) -> bool
    ensures { IsTrue result → IsBefore a.now b.now }
{
    a.cmp(b).is_lt()
}

/// The code points in a name's object.
fn entry(reader: &mut Reader<'_>) -> Option<Points>
    ensures { IfSome result (λ points. IsEntry reader.old (points_list points) reader.new) }
{
    let Token::BeginObject = reader.next()? else {
        return None;
    };
    let key = reader.next_key().ok()??;
    if key != "codepoints" {
        return None;
    }
    let points = list(reader)?;
    close(reader)?;
    Some(points)
}

/// The code points in an array.
fn list(reader: &mut Reader<'_>) -> Option<Points>
    ensures { IfSome result (λ points. ArePoints reader.old (points_list points) reader.new) }
{
    let Token::BeginArray = reader.next()? else {
        return None;
    };
    let first = point(reader)?;
    if reader.take_end_array() {
        return Some(Points {
            first,
            second: None,
        });
    }
    let second = point(reader)?;
    if !reader.take_end_array() {
        return None;
    }
    Some(Points {
        first,
        second: Some(second),
    })
}

/// Reads the end of a name's object, and before it at most one text.
fn close(reader: &mut Reader<'_>) -> Option<()>
    ensures { OnSome result (Closes (codes "codepoints") reader.old reader.new) }
{
    let Some(key) = reader.next_key().ok()? else {
        return Some(());
    };
    if key == "codepoints" {
        return None;
    }
    let Token::String(_) = reader.next()? else {
        return None;
    };
    let Token::EndObject = reader.next()? else {
        return None;
    };
    Some(())
}

/// The next code point of an array.
fn point(reader: &mut Reader<'_>) -> Option<char>
    ensures { IfSome result (λ c. IsPoint reader.old c reader.new) }
{
    match reader.next()? {
        Token::Number(text) => written_point(text.as_bytes()),
        _ => None,
    }
}

/// The code point with this number, written in decimal digits.
fn written_point(text: &[u8]) -> Option<char>
    ensures { IfSome result
        (λ c. option_and_then if_point (option_and_then as_u64 (number_of text.now)) ≡ Some c) }
{
    if text.is_empty() || text[0] == b'-' {
        return None;
    }
    point_of(Numeral::scan(text).to_u64()?)
}
