//! The edges of units, in their order, and the lengths of their pieces.
ghost use Rattle.hm_refs.specs.Tables.{TableView};
ghost use Rattle.hm_edges.specs.States.{HasNodes};

use crate::made::{NONE, TIGHT_RULES as RULES, TWO};
use crate::rows::{after, after_value, expect};
use hm_edges::{Edge, Pending, Piece, State, TextKind, Unit, Where, find_edges, piece_len};
use hm_refs::{Node, Table};
use std::alloc::{AllocError, Global};
use std::process::Abort;
use std::test::Fail;

/// A table of seven names.
const SEVEN: &str =
    "{\"&amp\":{\"codepoints\":[38]},\"&amp;\":{\"codepoints\":[38]},\"&lt\":{\"codepoints\":[60]},\"&lt;\":{\"codepoints\":[60]},\"&not\":{\"codepoints\":[172]},\"&not;\":{\"codepoints\":[172]},\"&notin;\":{\"codepoints\":[8713]}}";

/// Whether these are the edges, in this order: the piece of each, where it leads, and what is pending there. A line
/// feed is after each.
fn are_same(edges: &[Edge], wanted: &str) -> bool {
    let mut rest = wanted;
    for edge in edges {
        let shown = (edge.piece, edge.to.at, edge.to.pending);
        rest = after(after_value(rest, &shown), "\n");
    }
    rest.is_empty()
}

/// Whether these are the edges of a unit from a state, in this order.
fn has_edges(alloc: Global, table: &Table, unit: Unit, from: State, wanted: &str) -> bool
    requires { HasNodes table.now from.pending }
{
    let mut edges = Vec::new(alloc);
    match find_edges(table, RULES, unit, from, &mut edges) {
        Ok(()) => are_same(&edges, wanted),
        Err(_) => false,
    }
}

/// As `has_edges`, with the table of these names. No name is pending.
fn are_edges(alloc: Global, names: &str, unit: Unit, from: State, wanted: &str) -> bool
    requires { (v : TableView) → HasNodes v from.pending }
{
    match Table::read(alloc, names.as_bytes()) {
        Ok(table) => has_edges(alloc, &table, unit, from, wanted),
        Err(_) => false,
    }
}

/// Outside of sections, with nothing pending.
const OUTSIDE: State = State {
    at: Where::Outside,
    pending: Pending::Nothing,
};

/// A character of this kind of text. `more` says whether another one follows it.
fn character(kind: TextKind, c: char, more: bool) -> Unit {
    Unit::Character {
        kind,
        c,
        pair: None,
        more,
    }
}

/// The edges of a `<` in ordinary text.
const LESS_THAN: &str = "\
    (Itself, Outside, LessThan)\n\
    (Decimal { number: 60, closed: false }, Outside, Decimal)\n\
    (Decimal { number: 60, closed: true }, Outside, Nothing)\n";

/// After a name for two characters, of which the second has still to come.
const HALF: State = State {
    at: Where::Outside,
    pending: Pending::Half { left: None },
};

/// The only edge there.
const SECOND_OF_TWO: &str = "(Nothing, Outside, Nothing)\n";

/// The edges of a carriage return in ordinary text.
const RETURN: &str = "\
    (Decimal { number: 13, closed: false }, Outside, Decimal)\n\
    (Decimal { number: 13, closed: true }, Outside, Nothing)\n";

/// The edges of a `<` in SVG, before another character.
const FOREIGN: &str = "\
    (Itself, Outside, LessThan)\n\
    (Decimal { number: 60, closed: false }, Outside, Decimal)\n\
    (Decimal { number: 60, closed: true }, Outside, Nothing)\n\
    (Section { opens: true, closes: false }, InSection, Nothing)\n\
    (Section { opens: true, closes: true }, Outside, Nothing)\n";

/// After a `]` in a section.
const ONE_BRACKET: State = State {
    at: Where::InSection,
    pending: Pending::OneBracket,
};

/// The edges of another `]` there.
const BRACKET: &str = "\
    (Section { opens: false, closes: false }, InSection, TwoBrackets)\n\
    (Section { opens: false, closes: true }, Outside, Nothing)\n";

/// After `]]` in a section, in which a final `>` has no edge.
const TWO_BRACKETS: State = State {
    at: Where::InSection,
    pending: Pending::TwoBrackets,
};

/// Asserts the edges of a unit of ordinary text from outside of sections.
fn expect_outside(rt: &impl Abort, alloc: Global, unit: Unit, wanted: &str) {
    expect(rt, are_edges(alloc, NONE, unit, OUTSIDE, wanted), wanted);
}

/// Characters of ordinary text have their edges.
#[test]
fn spellings(rt: HostRuntime) {
    let alloc = rt.alloc();
    expect_outside(&rt, alloc, character(TextKind::Text, '<', false), LESS_THAN);
    expect_outside(&rt, alloc, character(TextKind::Text, '\r', false), RETURN);
    expect_outside(&rt, alloc, character(TextKind::Foreign, '<', true), FOREIGN);
}

/// Characters of SVG have their edges, in and outside of sections.
#[test]
fn spellings_in_sections(rt: HostRuntime) {
    let alloc = rt.alloc();
    let bracket = character(TextKind::Foreign, ']', true);
    expect(
        &rt,
        are_edges(alloc, NONE, bracket, ONE_BRACKET, BRACKET),
        BRACKET,
    );
    let end = character(TextKind::Foreign, '>', false);
    expect(&rt, are_edges(alloc, NONE, end, TWO_BRACKETS, ""), "]]>");
}

/// The second character of a name for two has one edge, which writes nothing.
#[test]
fn the_second_of_two_is_spelled_by_nothing(rt: HostRuntime) {
    let second = character(TextKind::Text, '\u{338}', false);
    expect(
        &rt,
        are_edges(rt.alloc(), TWO, second, HALF, SECOND_OF_TWO),
        SECOND_OF_TWO,
    );
}

/// The node that `amp` leads to.
fn node_of_amp(table: &Table) -> Option<Node> {
    let open = table.child(table.root(), b'a')?;
    let open = table.child(open, b'm')?;
    table.child(open, b'p')
}

/// The edges of a `&`: itself, its two names and its numbers.
fn ampersand_edges(alloc: Global, table: &Table) -> Result<String, AllocError> {
    let names = table.names_for('&');
    let root = table.root();
    let node = node_of_amp(table);
    match (names, node) {
        ([open, closed], Some(node)) => format!(in alloc;
            "(Itself, Outside, Ampersand {{ node: {root:?} }})\n\
            (Name {{ id: {open:?} }}, Outside, Named {{ node: {node:?} }})\n\
            (Name {{ id: {closed:?} }}, Outside, Nothing)\n\
            (Decimal {{ number: 38, closed: false }}, Outside, Decimal)\n\
            (Decimal {{ number: 38, closed: true }}, Outside, Nothing)\n"
        ),
        _ => String::from_str(alloc, "two names, and a node"),
    }
}

/// Whether the edges of a `&` are itself, its two names and its numbers.
fn spells_ampersand(alloc: Global, table: &Table) -> bool {
    let unit = character(TextKind::Text, '&', false);
    match ampersand_edges(alloc, table) {
        Ok(wanted) => has_edges(alloc, table, unit, OUTSIDE, wanted.as_str()),
        Err(_) => false,
    }
}

/// A `&` has edges by its names.
#[test]
fn spells_ampersand_by_names(rt: HostRuntime) -> Result<(), Fail> {
    let table = Table::read(rt.alloc(), SEVEN.as_bytes())?;
    expect(&rt, spells_ampersand(rt.alloc(), &table), "&");
    Ok(())
}

/// An `x` before a character such that some name gives both.
const FIRST_OF_TWO: Unit = Unit::Character {
    kind: TextKind::Text,
    c: 'x',
    pair: Some('\u{338}'),
    more: false,
};

/// The edges of that `x`: itself, the only name for both, and its numbers.
fn first_edges(alloc: Global, table: &Table) -> Result<String, AllocError> {
    match table.names_for('x') {
        [name] => format!(in alloc;
            "(Itself, Outside, Nothing)\n\
            (Name {{ id: {name:?} }}, Outside, Half {{ left: None }})\n\
            (Decimal {{ number: 120, closed: false }}, Outside, Decimal)\n\
            (Decimal {{ number: 120, closed: true }}, Outside, Nothing)\n"
        ),
        _ => String::from_str(alloc, "one name"),
    }
}

/// Whether the edges of the `x` are itself, the only name for both and its numbers.
fn spells_two(alloc: Global, table: &Table) -> bool {
    match first_edges(alloc, table) {
        Ok(wanted) => has_edges(alloc, table, FIRST_OF_TWO, OUTSIDE, wanted.as_str()),
        Err(_) => false,
    }
}

/// The first character of two has an edge by the name for both.
#[test]
fn spells_two_by_a_name(rt: HostRuntime) -> Result<(), Fail> {
    let table = Table::read(rt.alloc(), TWO.as_bytes())?;
    expect(&rt, spells_two(rt.alloc(), &table), "two");
    Ok(())
}

/// Whether a number and a section have their lengths.
fn have_lengths(table: &Table) -> bool {
    let number = Piece::Decimal {
        number: 60,
        closed: true,
    };
    let section = Piece::Section {
        opens: true,
        closes: true,
    };
    piece_len(character(TextKind::Text, '<', false), number, table) == 5
        && piece_len(character(TextKind::Foreign, ']', true), section, table) == 13
}

/// Pieces have their lengths in bytes.
#[test]
fn lengths_of_pieces(rt: HostRuntime) -> Result<(), Fail> {
    let table = Table::read(rt.alloc(), NONE.as_bytes())?;
    expect(&rt, have_lengths(&table), "lengths");
    Ok(())
}
