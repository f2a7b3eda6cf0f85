//! Certificates: how they are written and read.
ghost use Rattle.std.specs.Prelude.{◌<◌, IsTrue};
ghost use Rattle.hm_cert.specs.Places.{IsRowPlace};

use crate::made::LOOSE_RULES as RULES;
use crate::rows::{after, after_value, cut, expect, is_value};
use hm_base::{Format, OutOfMemory, SpellRules};
use hm_cert::{
    Certificate, CertificateFault, INFINITE, Prices, ReversedText, RowPlace, WrittenRows, add_each,
    write_certificate,
};
use std::alloc::Global;

/// The certificate of `<!doctype html><p>a</p><p>b</p>`, with every layer.
const EVERY_LAYER: &str =
    "html-cert 1\nrules omit unquote\n23\n8\n8\n8\n8\n8\n5\n4\n4\n1\n0\n0\n0\n0\n";

/// The rows of `EVERY_LAYER`.
const EVERY_ROWS: &str = "23|8|8|8|8|8|5|4|4|1|0|0|0|0";

/// The certificate of the same page with the layers that have a choice.
const CHOICES: &str = "html-cert 2\nrules omit unquote\n23\n8\n8\n8\n8\n4\n0\n0\n0\n0\n";

/// The rows of `CHOICES`.
const CHOICES_ROWS: &str = "23|8|8|8|8|4|0|0|0|0";

/// The sparse certificate of the same page.
const SPARSE: &str = "html-cert 3\nrules omit unquote\n23\n0\n";

/// The rows of `SPARSE`.
const SPARSE_ROWS: &str = "23|0";

/// Rows of several prices, some of them infinite, and the highest price.
const WIDE: &str = "html-cert 2\nrules omit unquote\n10 - 9223372036854775807\n- -\n0\n";

/// The rows of `WIDE`.
const WIDE_ROWS: &str = "10 - 9223372036854775807|- -|0";

/// Prices that share their first digits with a price next to them, and some that only seem to.
const NEAR: &str =
    "html-cert 2\nrules omit unquote\n123456 123499 123400\n123455 12345678\n99123456 123455\n99999 100000 - 100001\n1234567890 1234567899 1234567800 0\n";

/// The rows of `NEAR`.
const NEAR_ROWS: &str =
    "123456 123499 123400|123455 12345678|99123456 123455|99999 100000 - 100001|1234567890 1234567899 1234567800 0";

/// Prices that are raised over hundreds and get more digits, an infinite one, and more than four prices in a row.
const RAISED: &str =
    "html-cert 2\nrules omit unquote\n1000000000 999999999\n1000100 1000099 1000000\n1000099 - 999999\n200 199 100 101 200 199 999\n100 9 0\n99 98\n";

/// The rows of `RAISED`.
const RAISED_ROWS: &str =
    "1000000000 999999999|1000100 1000099 1000000|1000099 - 999999|200 199 100 101 200 199 999|100 9 0|99 98";

/// The price in a word. `-` is an infinite one.
fn price_of(word: &str) -> u64 {
    word.parse::<u64>().unwrap_or(INFINITE)
}

/// Replaces a list by the prices of a row.
fn put_row(row: &mut Vec<u64>, words: &str) -> Result<(), OutOfMemory> {
    row.clear();
    for word in words.split(' ') {
        row.push(price_of(word))?;
    }
    Ok(())
}

/// Appends rows that are separated by bars.
fn push_rows(prices: &mut Prices, row: &mut Vec<u64>, rows: &str) -> Result<(), OutOfMemory> {
    for words in rows.split('|') {
        put_row(row, words)?;
        prices.push_row(row.as_slice())?;
    }
    Ok(())
}

/// The prices of these rows.
fn prices_of(alloc: Global, rows: &str) -> Result<Prices, OutOfMemory> {
    let mut row = Vec::new(alloc);
    let mut prices = Prices::new(alloc);
    push_rows(&mut prices, &mut row, rows)?;
    Ok(prices)
}

/// The text of a certificate, written from its end and then reversed.
fn reversed(
    alloc: Global,
    format: Format,
    rules: SpellRules,
    prices: &Prices,
) -> Result<Vec<u8>, OutOfMemory> {
    let mut text = ReversedText::new(alloc);
    for k in (0..prices.rows()).rev() {
        text.put_line(prices.row(k))?;
    }
    text.put_head(format, rules)?;
    let mut bytes = text.into_bytes();
    bytes.reverse();
    Ok(bytes)
}

/// Whether a certificate of these prices has this text if it is written from its start.
fn is_front(alloc: Global, format: Format, prices: &Prices, text: &[u8]) -> bool {
    match write_certificate(alloc, format, RULES, prices) {
        Ok(front) => front.as_slice() == text,
        Err(_) => false,
    }
}

/// Whether a certificate of these prices has this text, written from its start and from its end.
fn is_written(alloc: Global, format: Format, prices: &Prices, text: &[u8]) -> bool {
    match reversed(alloc, format, RULES, prices) {
        Ok(end) => is_front(alloc, format, prices, text) & (end.as_slice() == text),
        Err(_) => false,
    }
}

/// As `is_written`, for a certificate of these rows.
fn are_written(alloc: Global, format: Format, rows: &str, text: &str) -> bool {
    match prices_of(alloc, rows) {
        Ok(prices) => is_written(alloc, format, &prices, text.as_bytes()),
        Err(OutOfMemory) => false,
    }
}

/// Certificates are written in each format.
#[test]
fn written(rt: HostRuntime) {
    let alloc = rt.alloc();
    expect(
        &rt,
        are_written(alloc, Format::Full, EVERY_ROWS, EVERY_LAYER),
        EVERY_LAYER,
    );
    expect(
        &rt,
        are_written(alloc, Format::Compact, CHOICES_ROWS, CHOICES),
        CHOICES,
    );
    expect(
        &rt,
        are_written(alloc, Format::Sparse, SPARSE_ROWS, SPARSE),
        SPARSE,
    );
    expect(
        &rt,
        are_written(alloc, Format::Compact, WIDE_ROWS, WIDE),
        WIDE,
    );
    expect(
        &rt,
        are_written(alloc, Format::Compact, RAISED_ROWS, RAISED),
        RAISED,
    );
}

/// Whether a price that is added to those of a row raises them, but not an infinite one.
fn is_added(alloc: Global) -> bool {
    match Vec::from_array(alloc, [99, 9_999, INFINITE]) {
        Ok(mut row) => {
            add_each(&mut row, 1);
            row.as_slice() == [100, 10_000, INFINITE].as_slice()
        }
        Err(_) => false,
    }
}

/// Prices are raised.
#[test]
fn added(rt: HostRuntime) {
    expect(&rt, is_added(rt.alloc()), "99, 9,999 and a closed one");
}

/// Appends two long rows and a short one.
fn push_long_rows(prices: &mut Prices) -> Result<(), OutOfMemory> {
    prices.push_row(&[123_456; 300])?;
    prices.push_row(&[123_455; 256])?;
    prices.push_row(&[99; 2])
}

/// Whether a certificate of these prices is long, and the same from its start and from its end.
fn is_long(alloc: Global, prices: &Prices) -> bool {
    match write_certificate(alloc, Format::Compact, RULES, prices) {
        Ok(text) => {
            let is_written = is_written(alloc, Format::Compact, prices, text.as_slice());
            is_written & (text.len() > 3_900)
        }
        Err(_) => false,
    }
}

/// Whether a certificate of long rows is.
fn are_long(alloc: Global) -> bool {
    let mut prices = Prices::new(alloc);
    let are_pushed = push_long_rows(&mut prices).is_ok();
    are_pushed & is_long(alloc, &prices)
}

/// A long certificate is the same from its start and from its end.
#[test]
fn long_rows(rt: HostRuntime) {
    expect(&rt, are_long(rt.alloc()), "long rows");
}

/// The rest of the expected text after a price. `-` is an infinite one.
fn after_price<'w>(wanted: &'w str, price: u64) -> &'w str {
    if price == INFINITE {
        after(wanted, "-")
    } else {
        after_value(wanted, &price)
    }
}

/// Whether the prices of a row are these, which are separated by spaces.
fn is_row(row: &[u64], wanted: &str) -> bool {
    let mut rest = wanted;
    let mut mark = "";
    for price in row {
        rest = after_price(after(rest, mark), *price);
        mark = " ";
    }
    rest.is_empty()
}

/// Whether the row before a place is this one. The place moves to before it.
fn is_before<'a>(
    read: &WrittenRows<'a>,
    place: &mut RowPlace<'a>,
    row: &mut Vec<u64>,
    wanted: &str,
) -> bool
    requires place { IsRowPlace read.now place.old }
    requires some { 0 < place.old.row }
    ensures { IsTrue result → IsRowPlace read.now place.new }
{
    match read.row_before(place, row) {
        Ok(()) => is_row(row.as_slice(), wanted),
        Err(_) => false,
    }
}

/// Whether the rows that were read are these, which are separated by bars. They are read from the last to the first.
fn has_rows(alloc: Global, read: &WrittenRows<'_>, rows: &str) -> bool {
    let mut row = Vec::new(alloc);
    let mut place = read.end();
    for wanted in rows.rsplit('|') {
        if place.row == 0 || !is_before(read, &mut place, &mut row, wanted) {
            return false;
        }
    }
    place.row == 0
}

/// Whether a text is read as a certificate with these rows.
fn is_read(alloc: Global, format: Format, rows: &str, text: &str) -> bool {
    match Certificate::read(alloc, text.as_bytes()) {
        Ok(read) => {
            let is_headed = (read.format == format) & (read.rules == RULES);
            is_headed & has_rows(alloc, &read.prices, rows)
        }
        Err(_) => false,
    }
}

/// Certificates are read in each format.
#[test]
fn read(rt: HostRuntime) {
    let alloc = rt.alloc();
    expect(
        &rt,
        is_read(alloc, Format::Full, EVERY_ROWS, EVERY_LAYER),
        EVERY_LAYER,
    );
    expect(&rt, is_read(alloc, Format::Compact, WIDE_ROWS, WIDE), WIDE);
    expect(
        &rt,
        is_read(alloc, Format::Sparse, SPARSE_ROWS, SPARSE),
        SPARSE,
    );
    expect(&rt, is_read(alloc, Format::Compact, NEAR_ROWS, NEAR), NEAR);
}

/// Whether these rules are those of a certificate whose output is tight, of ASCII and of a fragment.
fn are_framed(rules: SpellRules) -> bool {
    rules.tight && rules.ascii && rules.frame && !rules.omit && !rules.unquote
}

/// Whether a certificate is read with those rules and no row.
fn has_flags(alloc: Global) -> bool {
    match Certificate::read(alloc, b"html-cert 2\nrules tight ascii frame\n") {
        Ok(read) => are_framed(read.rules) & (read.prices.len() == 0),
        Err(_) => false,
    }
}

/// The rules of a certificate are read.
#[test]
fn flags(rt: HostRuntime) {
    expect(&rt, has_flags(rt.alloc()), "flags");
}

/// Texts that are no certificates, and the first line that is wrong in each. `¶` is after each.
const BAD_LINES: &str = "\
    \x20⇒ 1¶\
    \n ⇒ 1¶\
    html-cert 1 ⇒ 1¶\
    html-cert 4\nrules\n0\n ⇒ 1¶\
    html-cert 1 \nrules\n0\n ⇒ 1¶\
    html-cert 1\r\nrules\n0\n ⇒ 1¶\
    html-cert 1\n ⇒ 2¶\
    html-cert 1\nrules ⇒ 2¶\
    html-cert 1\n\n0\n ⇒ 2¶\
    html-cert 1\nrules \n0\n ⇒ 2¶\
    html-cert 1\nrules omit omit\n0\n ⇒ 2¶\
    html-cert 1\nrules frame omit\n0\n ⇒ 2¶\
    html-cert 1\nrules  omit\n0\n ⇒ 2¶\
    html-cert 1\nrulesomit\n0\n ⇒ 2¶\
    html-cert 1\nrules\n\n ⇒ 3¶\
    html-cert 1\nrules\n0 ⇒ 3¶\
    html-cert 1\nrules\n0\n0\n\n0\n ⇒ 5¶\
    html-cert 1\nrules\n0\n0 \n ⇒ 4¶\
    html-cert 1\nrules\n0\n 0\n ⇒ 4¶\
    html-cert 1\nrules\n0\n0  0\n ⇒ 4¶\
    html-cert 1\nrules\n0\n01\n ⇒ 4¶\
    html-cert 1\nrules\n0\n00\n ⇒ 4¶\
    html-cert 1\nrules\n0\n+1\n ⇒ 4¶\
    html-cert 1\nrules\n0\n--\n ⇒ 4¶\
    html-cert 1\nrules\n0\n-1\n ⇒ 4¶\
    html-cert 1\nrules\n0\n1x\n ⇒ 4¶\
    html-cert 1\nrules\n9223372036854775807\n9223372036854775808\n ⇒ 4¶\
    html-cert 1\nrules\n0\n18446744073709551615\n ⇒ 4¶\
    html-cert 1\nrules\n0\n18446744073709551616\n ⇒ 4¶\
    html-cert 1\nrules\n0\n10000000000000000000000000000000000000000\n ⇒ 4¶\
    html-cert 1\nrules\n123456 12345x\n ⇒ 3¶\
    html-cert 1\nrules\n123456\n1234567x\n ⇒ 4¶\
    html-cert 1\nrules\n123456\n123456 ⇒ 4¶\
    html-cert 1\nrules\n0\n0\r\n ⇒ 4¶\
    html-cert 1\nrules\n0\n1\t2\n ⇒ 4";

/// Whether the first line of a text that is wrong is the one in its row.
fn is_bad_line(alloc: Global, row: &str) -> bool {
    let (text, wanted) = cut(row, " ⇒ ");
    match Certificate::read(alloc, text.as_bytes()) {
        Err(CertificateFault::BadLine { line }) => is_value(wanted, &line),
        _ => false,
    }
}

/// A text that is no certificate is refused at its first wrong line.
#[test]
fn bad_lines(rt: HostRuntime) {
    for row in BAD_LINES.split('¶') {
        expect(&rt, is_bad_line(rt.alloc(), row), row);
    }
}
