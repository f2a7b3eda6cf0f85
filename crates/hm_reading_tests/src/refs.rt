//! Tables of character references: what is read, and what is found in them.
ghost use Rattle.std.specs.Prelude.{◌<◌, ◌≤◌, length, IfSome};
ghost use Rattle.hm_refs.specs.Tables.{IsNode};

mod standard;

use crate::printed::{after, after_shown, is_shown, is_value};
use crate::rows::{cut, expect};
use hm_base::Points;
use hm_refs::{NameId, Node, Table, best_number, number_value};
use standard::NAMES;
use std::alloc::{AllocError, Global};
use std::fmt::Write;
use std::process::Abort;
use std::test::Fail;

/// A table of seven names.
const SEVEN: &str =
    "{\"&amp\":{\"codepoints\":[38]},\"&amp;\":{\"codepoints\":[38]},\"&lt\":{\"codepoints\":[60]},\"&lt;\":{\"codepoints\":[60]},\"&not\":{\"codepoints\":[172]},\"&not;\":{\"codepoints\":[172]},\"&notin;\":{\"codepoints\":[8713]}}";

/// A table with `&copy`.
const COPY: &str =
    "{\"&amp\":{\"codepoints\":[38]},\"&amp;\":{\"codepoints\":[38]},\"&lt\":{\"codepoints\":[60]},\"&lt;\":{\"codepoints\":[60]},\"&not\":{\"codepoints\":[172]},\"&not;\":{\"codepoints\":[172]},\"&notin;\":{\"codepoints\":[8713]},\"&copy\":{\"codepoints\":[169]},\"&copy;\":{\"codepoints\":[169]}}";

/// Whether reading the text gives this: `ok`, or the printed fault.
fn is_outcome(alloc: Global, text: &str, wanted: &str) -> bool {
    match Table::read(alloc, text.as_bytes()) {
        Ok(_table) => wanted == "ok",
        Err(fault) => is_shown(wanted, &fault),
    }
}

/// A text before ` ⇒ ` in each line, and after it the result of reading it.
const OUTCOMES: &str = "\
    {} ⇒ ok\n\
    {\"amp;\":{\"codepoints\":[38]}} ⇒ BadName amp;\n\
    [] ⇒ NotObject\n\
    { ⇒ NotJson\n\
    {\"&xy\":{\"codepoints\":[33]}} ⇒ Lone &xy\n\
    {\"&ab;\":{\"codepoints\":[0]}} ⇒ BadPoints &ab;\n\
    {\"&ab;\":{\"codepoints\":[-0]}} ⇒ BadPoints &ab;\n\
    {\"&ab;\":{\"codepoints\":[33.0]}} ⇒ BadPoints &ab;\n\
    {\"&ab;\":{\"codepoints\":[55296]}} ⇒ BadPoints &ab;\n\
    {\"&ab;\":{\"codepoints\":[33,34,35]}} ⇒ BadPoints &ab;\n\
    {\"&ab;\":{\"codepoints\":[33],\"codepoints\":[]}} ⇒ BadPoints &ab;\n\
    {\"&ab;\":{\"codepoints\":[0]},\"&ab;\":{\"codepoints\":[33]}} ⇒ ok\n\
    \u{FEFF}{} ⇒ NotJson\n\
    {\"x\":\"\\ud800\"} ⇒ NotJson\n\
    {\"&ab;\":1e999} ⇒ NotJson\n\
    {\"&b;\":{},\"&ab;\":{}} ⇒ BadName &b;\n\
    {\"&ac\":1,\"&aa\":[33]} ⇒ BadPoints &aa\n\
    {\"&ab\":{\"codepoints\":[33]},\"&ab;\":{\"codepoints\":[33,34]}} ⇒ Lone &ab\n";

/// Whether reading the text in a line gives the result there.
fn is_line(alloc: Global, line: &str) -> bool {
    let (text, wanted) = cut(line, " ⇒ ");
    is_outcome(alloc, text, wanted)
}

/// A text is read as a table, or refused with its first fault.
#[test]
fn reads_or_names_the_first_fault(rt: HostRuntime) {
    for line in OUTCOMES.lines() {
        expect(&rt, is_line(rt.alloc(), line), line);
    }
}

/// Appends the names from 1 up to `count`, where each `share` of all have one code point, from 33 on.
fn push_numbered(text: &mut String, count: u32, share: u32) -> Result<(), AllocError>
    requires { 64 ≤ share }
{
    for number in 1..count {
        let point = 33 + number / share;
        write!(text, ",\"&n{number:04};\":{{\"codepoints\":[{point}]}}")?;
    }
    text.push_str("}")
}

/// Whether reading an object of `count` names gives this, if each `share` of them have one code point, from 33 on.
fn is_numbered(alloc: Global, count: u32, share: u32, wanted: &str) -> bool
    requires { 64 ≤ share }
{
    match String::from_str(alloc, "{\"&n0000;\":{\"codepoints\":[33]}") {
        Ok(mut text) => {
            let is_pushed = push_numbered(&mut text, count, share).is_ok();
            is_pushed & is_outcome(alloc, text.as_str(), wanted)
        }
        Err(_) => false,
    }
}

/// Four names with and without a semicolon.
const FOUR: &str =
    "{\"&aa\":{\"codepoints\":[33]},\"&aa;\":{\"codepoints\":[33]},\"&ab\":{\"codepoints\":[33]},\"&ab;\":{\"codepoints\":[33]},\"&ac\":{\"codepoints\":[33]},\"&ac;\":{\"codepoints\":[33]},\"&ad\":{\"codepoints\":[33]},\"&ad;\":{\"codepoints\":[33]}}";

/// Five names with and without a semicolon.
const FIVE: &str =
    "{\"&aa\":{\"codepoints\":[33]},\"&aa;\":{\"codepoints\":[33]},\"&ab\":{\"codepoints\":[33]},\"&ab;\":{\"codepoints\":[33]},\"&ac\":{\"codepoints\":[33]},\"&ac;\":{\"codepoints\":[33]},\"&ad\":{\"codepoints\":[33]},\"&ad;\":{\"codepoints\":[33]},\"&ae\":{\"codepoints\":[33]},\"&ae;\":{\"codepoints\":[33]}}";

/// The number of names is limited, in a table and for one character.
#[test]
fn counts_names(rt: HostRuntime) {
    let alloc = rt.alloc();
    expect(&rt, is_numbered(alloc, 4096, 64, "ok"), "4096");
    expect(&rt, is_numbered(alloc, 4097, 64, "TooMany"), "4097");
    expect(
        &rt,
        is_numbered(alloc, 4097, 5000, "TooMany"),
        "4097 of one",
    );
    expect(
        &rt,
        is_numbered(alloc, 65, 5000, "TooManyFor 33"),
        "65 of one",
    );
    expect(
        &rt,
        is_numbered(alloc, 129, 65, "TooManyFor 33"),
        "129 of two",
    );
    expect(&rt, is_numbered(alloc, 64, 5000, "ok"), "64 of one");
    expect(&rt, is_outcome(alloc, FOUR, "ok"), "four");
    expect(&rt, is_outcome(alloc, FIVE, "TooManyFor 33"), "five");
    expect(&rt, is_outcome(alloc, SEVEN, "ok"), "seven");
    expect(&rt, is_outcome(alloc, COPY, "ok"), "copy");
}

/// Texts, and the longest name at the start of each.
const LONGEST: &str = "\
    &notit; ⇒ &not\n\
    &notin;x ⇒ &notin;\n\
    &copy= ⇒ &copy\n\
    &lt; ⇒ &lt;\n\
    &no ⇒ none\n\
    \x20⇒ none\n\
    & ⇒ none\n\
    not ⇒ none\n\
    x&not ⇒ none\n";

/// Whether the longest name at the start of the text in a line is the one there, or `none`.
fn is_longest(table: &Table, line: &str) -> bool {
    let (text, wanted) = cut(line, " ⇒ ");
    match table.longest(text.as_bytes()) {
        Some(found) => table.name(found) == wanted.as_bytes(),
        None => wanted == "none",
    }
}

/// The node that `&lt` leads to, if `&l` is no name.
fn lt_node(table: &Table) -> Option<Node>
    ensures { IfSome result (IsNode table.now) }
{
    let l = table.child(table.root(), b'l')?;
    match table.name_at(l) {
        Some(_name) => None,
        None => table.child(l, b't'),
    }
}

/// The number of the name `&lt`.
fn lt_name(table: &Table) -> Option<NameId>
    ensures { IfSome result (λ id. id < length table.now.entries) }
{
    match lt_node(table) {
        Some(node) => table.name_at(node),
        None => None,
    }
}

/// The number of the name `&lt;`, if no name is longer.
fn closed_name(table: &Table) -> Option<NameId> {
    let lt = lt_node(table)?;
    let closed = table.child(lt, b';')?;
    match table.child(closed, b';') {
        Some(_longer) => None,
        None => table.name_at(closed),
    }
}

/// Whether the bytes of the name `&lt` are those, and lead to its node.
fn leads_to_lt(table: &Table) -> bool {
    match lt_name(table) {
        Some(id) => Some(table.node_of(id)) == lt_node(table)
            && table.name(id) == b"&lt".as_slice(),
        None => false,
    }
}

/// Whether the names of `<` are `&lt` and `&lt;`.
fn has_both(table: &Table) -> bool {
    let names = table.names_for('<');
    names.len() == 2 && Some(names[0]) == lt_name(table) && Some(names[1]) == closed_name(table)
}

/// Asserts which names are found in the table of [`COPY`], and how they are walked to.
fn expect_found(rt: &impl Abort, table: &Table) {
    for line in LONGEST.lines() {
        expect(rt, is_longest(table, line), line);
    }
    expect(rt, leads_to_lt(table), "&lt");
    expect(rt, closed_name(table).is_some(), "&lt;");
    expect(rt, has_both(table), "both");
}

/// Names are found by their bytes and by their characters.
#[test]
fn names_are_found(rt: HostRuntime) -> Result<(), Fail> {
    let table = Table::read(rt.alloc(), COPY.as_bytes())?;
    expect_found(&rt, &table);
    Ok(())
}

/// Characters, and after ` ⇒ ` those of them that are plain in a table without names.
const CHARACTERS: &str =
    "Az09 !\"#$%&'()*+,-./:;<=>?@[\\]^_`{|}~\u{7F}\u{80}\u{E9}\n ⇒ Az09!#$%()*+,-./:;?@[\\]^_{|}~";

/// Whether the plain characters of a text are those after ` ⇒ `.
fn is_plain(table: &Table, line: &str) -> bool {
    let (text, wanted) = cut(line, " ⇒ ");
    let mut rest = wanted;
    for c in text.chars() {
        if table.is_plain(c) {
            rest = after_shown(rest, &c);
        }
    }
    rest.is_empty()
}

/// Asserts that nothing is found in an empty table, and which characters are plain with it.
fn expect_nothing(rt: &impl Abort, empty: &Table) {
    expect(rt, empty.longest("&lt;".as_bytes()).is_none(), "longest");
    expect(rt, empty.names_for('<').is_empty(), "names");
    expect(rt, empty.child(empty.root(), b'l').is_none(), "children");
    expect(rt, is_plain(empty, CHARACTERS), CHARACTERS);
}

/// An empty table has no names, and its plain characters are as listed.
#[test]
fn nothing_is_found_in_an_empty_table(rt: HostRuntime) -> Result<(), Fail> {
    let empty = Table::empty(rt.alloc())?;
    expect_nothing(&rt, &empty);
    Ok(())
}

/// In each line names with their code points, after a bar some characters, and after ` ⇒ ` those of them that are
/// plain.
const WITH_NAMES: &str = "\
    &aa=97 &aa;=97 &bb;=98 &fjlig;=102,106|abfjxyz! ⇒ bjxyz!\n\
    &aA;=97 &excl;=33 &xy;=102,97|abfjxyz! ⇒ abjxyz!\n\
    &half;=189|abfjxyz! ⇒ abfjxyz!\n";

/// Whether the characters in a line that are plain with its names are those at its end.
fn is_plain_with(alloc: Global, line: &str) -> bool {
    let (names, line) = cut(line, "|");
    match table_of(alloc, names) {
        Some(table) => is_plain(&table, line),
        None => false,
    }
}

/// Which characters are plain depends on the names.
#[test]
fn tells_plain_characters_with_names(rt: HostRuntime) {
    for line in WITH_NAMES.lines() {
        expect(&rt, is_plain_with(rt.alloc(), line), line);
    }
}

/// Appends these names and their code points to the text of a table. A name without `=` makes the text unreadable.
fn push_names(text: &mut String, names: &str) -> Result<(), AllocError> {
    for word in names.split(' ') {
        let (name, points) = cut(word, "=");
        write!(text, ",\"{name}\":{{\"codepoints\":[{points}]}}")?;
    }
    text.push_str("}")
}

/// The text of the table of these names.
fn text_of(alloc: Global, names: &str) -> Result<String, AllocError> {
    let mut text = String::from_str(alloc, "{\"&end;\":{\"codepoints\":[1]}")?;
    push_names(&mut text, names)?;
    Ok(text)
}

/// The table of these names.
fn table_of(alloc: Global, names: &str) -> Option<Table> {
    let text = text_of(alloc, names).ok()?;
    Table::read(alloc, text.as_bytes()).ok()
}

/// Whether these are the code points of a name in decimal, with a comma between two.
fn are_points(wanted: &str, points: Points) -> bool {
    let first = after_shown(wanted, &(points.first as u32));
    match points.second {
        Some(second) => is_shown(after(first, ","), &(second as u32)),
        None => first.is_empty(),
    }
}

/// Whether a name has these code points, and is one of the names of the first.
fn has_points(table: &Table, id: NameId, wanted: &str) -> bool
    requires { id < length table.now.entries }
{
    let points = table.points(id);
    are_points(wanted, points) && table.names_for(points.first).contains(&id)
}

/// Whether a name is the longest name at the start of its own text, and has these code points.
fn is_its_own(table: &Table, word: &str) -> bool {
    let (name, points) = cut(word, "=");
    match table.longest(name.as_bytes()) {
        Some(id) => table.name(id) == name.as_bytes() && has_points(table, id, points),
        None => false,
    }
}

/// Asserts that each of these names is the longest at the start of its own text, with its code points.
fn expect_names(rt: &impl Abort, table: &Table, names: &str) {
    for word in names.split(' ') {
        expect(rt, is_its_own(table, word), word);
    }
}

/// Each name of the standard is the longest at the start of its own text.
#[test]
fn each_name_of_the_standard_is_its_own_longest(rt: HostRuntime) {
    match table_of(rt.alloc(), NAMES) {
        Some(table) => expect_names(&rt, &table, NAMES),
        None => expect(&rt, false, "the names"),
    }
}

/// A number before ` ⇒ ` in each line, and after it the code point that a reference to it gives.
const NUMBERS: &str = "\
    0 ⇒ 65533\n\
    97 ⇒ 97\n\
    128 ⇒ 8364\n\
    129 ⇒ 129\n\
    159 ⇒ 376\n\
    55295 ⇒ 55295\n\
    55296 ⇒ 65533\n\
    57343 ⇒ 65533\n\
    1114111 ⇒ 1114111\n\
    1114112 ⇒ 65533\n\
    4294967295 ⇒ 65533\n";

/// A code point before ` ⇒ ` in each line, and after it its least number.
const LEAST_NUMBERS: &str = "\
    97 ⇒ Some(97)\n\
    65533 ⇒ Some(0)\n\
    8364 ⇒ Some(128)\n\
    376 ⇒ Some(159)\n\
    129 ⇒ Some(129)\n\
    128 ⇒ None\n\
    0 ⇒ None\n\
    1114111 ⇒ Some(1114111)\n";

/// Whether a reference to the number in a line gives the code point there.
fn is_number(line: &str) -> bool {
    let (number, wanted) = cut(line, " ⇒ ");
    match number.parse::<u32>() {
        Ok(number) => is_value(wanted, &(number_value(number) as u32)),
        Err(_) => false,
    }
}

/// The code point of a text in decimal.
fn point_of(text: &str) -> Option<char> {
    match text.parse::<u32>() {
        Ok(number) => char::from_u32(number),
        Err(_) => None,
    }
}

/// Whether the code point in a line has the least number there.
fn is_least(line: &str) -> bool {
    let (point, wanted) = cut(line, " ⇒ ");
    match point_of(point) {
        Some(point) => is_value(wanted, &best_number(point)),
        None => false,
    }
}

/// References to numbers give their code points, and each code point has its least number.
#[test]
fn numbers_stand_for_code_points(rt: HostRuntime) {
    for line in NUMBERS.lines() {
        expect(&rt, is_number(line), line);
    }
    for line in LEAST_NUMBERS.lines() {
        expect(&rt, is_least(line), line);
    }
}
