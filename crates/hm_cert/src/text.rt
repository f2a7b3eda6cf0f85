//! The text of a certificate, first byte first.
ghost use Rattle.std.specs.Prelude.{◌≡◌, ℕ, [], ◌∷◌, ◌++◌, map, OnOk, IfOk};
ghost use Rattle.hm_cert.specs.Certificate.{certificate_text, flag_text, head_lines, more_prices, price_text, row_line, row_text};
ghost use Rattle.hm_cert.specs.Certificate as text;
ghost use Rattle.hm_cert.specs.Layout.{told};

use crate::prices::{INFINITE, Prices};
use hm_base::{Format, OutOfMemory, SpellRules};
use itoa::Buffer;
use std::alloc::Global;

/// The first line of a certificate of this format, without its LF.
pub(crate) fn format_text(format: Format) -> &'static [u8]
    ensures { result.now ≡ text.format_text format }
{
    match format {
        Format::Full => b"html-cert 1",
        Format::Compact => b"html-cert 2",
        Format::Sparse => b"html-cert 3",
    }
}

/// The text of a certificate: its format, the rules, and a line for each row of prices.
pub fn write_certificate(
    alloc: Global,
    format: Format,
    rules: SpellRules,
    prices: &Prices,
) -> Result<Vec<u8>, OutOfMemory>
    ensures { IfOk result (λ out. out.items ≡ certificate_text format rules prices.now) }
{
    let mut out = Vec::new(alloc);
    put_head(&mut out, format, rules)?;
    for k in 0..prices.rows() {
        put_line(&mut out, prices.row(k))?;
    }
    Ok(out)
}

/// Appends the first two lines. If an allocation fails, a part of them may have been appended.
pub fn put_head(out: &mut Vec<u8>, format: Format, rules: SpellRules) -> Result<(), OutOfMemory>
    ensures { OnOk result (out.new.items ≡ out.old.items ++ head_lines format rules) }
{
    out.extend_from_slice(format_text(format))?;
    out.extend_from_slice(b"\nrules")?;
    put_flag(out, rules.omit, b"omit")?;
    put_flag(out, rules.unquote, b"unquote")?;
    put_flag(out, rules.tight, b"tight")?;
    put_flag(out, rules.ascii, b"ascii")?;
    put_flag(out, rules.frame, b"frame")?;
    out.push(b'\n')?;
    Ok(())
}

/// Appends a space and a word, if `is_set`.
fn put_flag(out: &mut Vec<u8>, is_set: bool, word: &[u8]) -> Result<(), OutOfMemory>
    ensures { OnOk result (out.new.items ≡ out.old.items ++ flag_text is_set word.now) }
{
    if is_set {
        out.push(b' ')?;
        out.extend_from_slice(word)?;
    }
    Ok(())
}

/// Appends the line of a row. If an allocation fails, a part of it may have been appended.
pub fn put_line(out: &mut Vec<u8>, row: &[u64]) -> Result<(), OutOfMemory>
    ensures { OnOk result (out.new.items ≡ out.old.items ++ row_line (map told row.now)) }
{
    put_row(out, row)?;
    out.push(b'\n')?;
    Ok(())
}

/// Appends prices with spaces between them.
fn put_row(out: &mut Vec<u8>, row: &[u64]) -> Result<(), OutOfMemory>
    ensures { OnOk result (out.new.items ≡ out.old.items ++ row_text (map told row.now)) }
{
    if let [first, more @ ..] = row {
        put_price(out, *first)?;
        put_more(out, more)?;
    }
    Ok(())
}

/// Appends prices, each after a space.
fn put_more(out: &mut Vec<u8>, row: &[u64]) -> Result<(), OutOfMemory>
    ensures { OnOk result (out.new.items ≡ out.old.items ++ more_prices (map told row.now)) }
{
    for price in row {
        out.push(b' ')?;
        put_price(out, *price)?;
    }
    Ok(())
}

/// Appends a price.
fn put_price(out: &mut Vec<u8>, price: u64) -> Result<(), OutOfMemory>
    ensures { OnOk result (out.new.items ≡ out.old.items ++ price_text (told price)) }
{
    if price == INFINITE {
        out.push(b'-')?;
    } else {
        let mut buffer = Buffer::new();
        out.extend_from_slice(buffer.format(price).as_bytes())?;
    }
    Ok(())
}
