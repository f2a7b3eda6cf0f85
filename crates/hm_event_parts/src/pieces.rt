//! The bytes that a piece writes.
ghost use Rattle.std.specs.Prelude.{◌≡◌, ◌<◌, ◌++◌, ◌∷◌, [], false, codes, encode_utf8, if◌then◌else◌, OnOk};
ghost use Rattle.std.specs.Fmt.{decimal, digit_glyph, digits};
ghost use Rattle.hm_edges.specs.Pieces.{HasName, closed_by, piece_text, with_gap, with_opening};
ghost use Rattle.hm_event_parts.specs.Parts.{comment_bytes};
ghost use Rattle.hm_event_parts.specs.UnitText.{own_text};

use hm_base::OutOfMemory;
use hm_edges::{Piece, Quoting};
use hm_refs::Table;
use itoa::Buffer;

/// The text that is a unit's own: its name or its bytes without a choice, the text of a comment without `<!--` and
/// `-->`, or a character.
#[derive(Clone, Copy, Debug)]
pub enum UnitText<'t> {
    Bytes { text: &'t str },
    Comment { text: &'t str },
    Character { c: char },
}

/// Appends the bytes that a piece writes for a unit. After an error some of them may have been appended.
#[inline(always)]
pub fn put_piece(
    out: &mut Vec<u8>,
    table: &Table,
    piece: Piece,
    own: UnitText,
) -> Result<(), OutOfMemory>
    requires { HasName table.now.entries piece }
    ensures { OnOk result (out.new.items ≡ out.old.items ++ piece_text table.now.entries (own_text own.entry) piece) }
{
    match piece {
        Piece::Itself => put_own(out, own),
        other => put_other(out, table, other, own),
    }
}

/// As `put_piece`, without its fast path for the unit's own bytes.
fn put_other(
    out: &mut Vec<u8>,
    table: &Table,
    piece: Piece,
    own: UnitText,
) -> Result<(), OutOfMemory>
    requires { HasName table.now.entries piece }
    ensures { OnOk result (out.new.items ≡ out.old.items ++ piece_text table.now.entries (own_text own.entry) piece) }
{
    match piece {
        Piece::Nothing => Ok(()),
        Piece::Itself => put_own(out, own),
        Piece::StartTag { closes } => put_start_tag(out, own, closes),
        Piece::TagName => put_tag_name(out, own),
        Piece::Attribute { gap, form } => put_attribute(out, own, gap, form),
        Piece::Quote { double } => put_quote(out, double),
        Piece::TagClose { space, closes } => put_tag_close(out, space, closes),
        Piece::EndTag => put_end_tag(out, own),
        Piece::Name { id } => put(out, table.name(id)),
        Piece::Decimal { number, closed } => put_decimal(out, number, closed),
        Piece::Hexadecimal { number, closed } => put_hexadecimal(out, number, closed),
        Piece::Section { opens, closes } => put_section(out, own, opens, closes),
    }
}

/// Appends these bytes.
fn put(out: &mut Vec<u8>, bytes: &[u8]) -> Result<(), OutOfMemory>
    ensures { OnOk result (out.new.items ≡ out.old.items ++ bytes.now) }
{
    out.extend_from_slice(bytes)?;
    Ok(())
}

/// Appends these bytes if `wanted`.
fn put_where(out: &mut Vec<u8>, wanted: bool, bytes: &[u8]) -> Result<(), OutOfMemory>
    ensures { OnOk result (out.new.items ≡ out.old.items ++ (if wanted then bytes.now else [])) }
{
    if wanted { put(out, bytes) } else { Ok(()) }
}

/// Appends the unit's own text.
#[inline(always)]
fn put_own(out: &mut Vec<u8>, own: UnitText) -> Result<(), OutOfMemory>
    ensures { OnOk result (out.new.items ≡ out.old.items ++ own_text own.entry) }
{
    match own {
        UnitText::Bytes { text } => put(out, text.as_bytes()),
        UnitText::Comment { text } => put_comment(out, text),
        UnitText::Character { c } => put_character(out, c),
    }
}

/// Appends a comment with its `<!--` and `-->`.
fn put_comment(out: &mut Vec<u8>, text: &str) -> Result<(), OutOfMemory>
    ensures { OnOk result (out.new.items ≡ out.old.items ++ comment_bytes text.now) }
{
    put(out, b"<!--")?;
    put(out, text.as_bytes())?;
    put(out, b"-->")
}

/// Appends a character in UTF-8.
#[inline(always)]
fn put_character(out: &mut Vec<u8>, c: char) -> Result<(), OutOfMemory>
    ensures { OnOk result (out.new.items ≡ out.old.items ++ encode_utf8 c) }
{
    if c.is_ascii() {
        out.push(c as u8)?;
        return Ok(());
    }
    let mut buffer = [0; 4];
    put(out, c.encode_utf8(&mut buffer).as_bytes())
}

/// Appends `>`, or `/>` if the tag closes itself.
fn put_close(out: &mut Vec<u8>, closes: bool) -> Result<(), OutOfMemory>
    ensures { OnOk result (out.new.items ≡ out.old.items ++ (if closes then codes "/>" else codes ">")) }
{
    if closes {
        put(out, b"/>")
    } else {
        put(out, b">")
    }
}

/// Appends a start tag without attributes.
fn put_start_tag(out: &mut Vec<u8>, own: UnitText, closes: bool) -> Result<(), OutOfMemory>
    ensures { OnOk result (out.new.items ≡ out.old.items ++ (codes "<" ++ (own_text own.entry ++ (if closes then codes "/>" else codes ">")))) }
{
    put(out, b"<")?;
    put_own(out, own)?;
    put_close(out, closes)
}

/// Appends `<` and the name of a tag.
fn put_tag_name(out: &mut Vec<u8>, own: UnitText) -> Result<(), OutOfMemory>
    ensures { OnOk result (out.new.items ≡ out.old.items ++ 60 ∷ own_text own.entry) }
{
    put(out, b"<")?;
    put_own(out, own)
}

/// Appends the name of an attribute, with a space before it if `gap`, its `=` and what opens its value.
fn put_attribute(
    out: &mut Vec<u8>,
    own: UnitText,
    gap: bool,
    form: Quoting,
) -> Result<(), OutOfMemory>
    ensures { OnOk result (out.new.items ≡ out.old.items ++ with_gap gap (with_opening form (own_text own.entry))) }
{
    put_where(out, gap, b" ")?;
    put_own(out, own)?;
    match form {
        Quoting::Bare => Ok(()),
        Quoting::Unquoted => put(out, b"="),
        Quoting::Double => put(out, b"=\""),
        Quoting::Single => put(out, b"='"),
    }
}

/// Appends a quote.
fn put_quote(out: &mut Vec<u8>, double: bool) -> Result<(), OutOfMemory>
    ensures { OnOk result (out.new.items ≡ out.old.items ++ (if double then 34 ∷ [] else 39 ∷ [])) }
{
    if double {
        put(out, b"\"")
    } else {
        put(out, b"'")
    }
}

/// Appends `>` or `/>`, with a space before it if `space`.
fn put_tag_close(out: &mut Vec<u8>, space: bool, closes: bool) -> Result<(), OutOfMemory>
    ensures { OnOk result (out.new.items ≡ out.old.items ++ with_gap space (if closes then codes "/>" else codes ">")) }
{
    put_where(out, space, b" ")?;
    put_close(out, closes)
}

/// Appends an end tag.
fn put_end_tag(out: &mut Vec<u8>, own: UnitText) -> Result<(), OutOfMemory>
    ensures { OnOk result (out.new.items ≡ out.old.items ++ (codes "</" ++ (own_text own.entry ++ codes ">"))) }
{
    put(out, b"</")?;
    put_own(out, own)?;
    put(out, b">")
}

/// Appends a decimal reference, with a `;` if `closed`.
fn put_decimal(out: &mut Vec<u8>, number: u32, closed: bool) -> Result<(), OutOfMemory>
    ensures { OnOk result (out.new.items ≡ out.old.items ++ (codes "&#" ++ closed_by closed (codes ";") (decimal number))) }
{
    let mut buffer = Buffer::new();
    put(out, b"&#")?;
    put(out, buffer.format(number).as_bytes())?;
    put_where(out, closed, b";")
}

/// Appends a hexadecimal reference, with a `;` if `closed`.
fn put_hexadecimal(out: &mut Vec<u8>, number: u32, closed: bool) -> Result<(), OutOfMemory>
    ensures { OnOk result (out.new.items ≡ out.old.items ++ (codes "&#x" ++ closed_by closed (codes ";") (digits 16 false number))) }
{
    put(out, b"&#x")?;
    put_hexadecimal_digits(out, number)?;
    put_where(out, closed, b";")
}

/// The hexadecimal digit of this value, in lower case.
fn hexadecimal_digit(value: u8) -> u8
    requires { value < 16 }
    ensures { result ≡ digit_glyph false value }
{
    if value < 10 {
        b'0' + value
    } else {
        b'a' - 10 + value
    }
}

/// Appends the hexadecimal digits of a number, in lower case.
fn put_hexadecimal_digits(out: &mut Vec<u8>, number: u32) -> Result<(), OutOfMemory>
    ensures { OnOk result (out.new.items ≡ out.old.items ++ digits 16 false number) }
{
    if number < 16 {
        return put(out, &[hexadecimal_digit(number as u8)]);
    }
    put_hexadecimal_digits(out, number / 16)?;
    put(out, &[hexadecimal_digit((number % 16) as u8)])
}

/// Appends the unit's own text in a CDATA section, with what opens and closes the section if this character does.
fn put_section(
    out: &mut Vec<u8>,
    own: UnitText,
    opens: bool,
    closes: bool,
) -> Result<(), OutOfMemory>
    ensures { OnOk result (out.new.items ≡ out.old.items ++ ((if opens then codes "<![CDATA[" else []) ++ closed_by closes (codes "]]>") (own_text own.entry))) }
{
    put_where(out, opens, b"<![CDATA[")?;
    put_own(out, own)?;
    put_where(out, closes, b"]]>")
}
