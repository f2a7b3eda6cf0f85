//! Which elements tags close, make and open, and which tags are refused.
use crate::printed::{after, is_value};
use crate::rows::{cut, expect};
use hm_open_elements::{Moves, Path, SettleFault};
use std::alloc::Global;
use std::process::Abort;
use std::test::Fail;

/// Applies a start tag, or, with a `/` before it, an end tag. None has an end of `body` or `html`.
fn take(path: &mut Path, tag: &str) -> Result<Moves, SettleFault> {
    match tag.strip_prefix("/") {
        Some(name) => {
            if name == "body" || name == "html" {
                return Err(SettleFault::OutOfMemory);
            }
            path.end(name)
        }
        None => {
            let foreign = path.is_in_svg() || tag == "svg";
            path.start(tag, foreign)
        }
    }
}

/// Applies these tags, and gives whether each was accepted.
fn take_all(path: &mut Path, tags: &str) -> bool {
    for tag in tags.split_whitespace() {
        if take(path, tag).is_err() {
            return false;
        }
    }
    true
}

/// Whether these are open in `body`, with a space before each.
fn holds(path: &Path, names: &str) -> bool {
    let mut rest = names;
    for place in 2..path.len() {
        rest = after(after(rest, " "), path.name(place));
    }
    rest.is_empty()
}

/// Whether the result of a tag is this: how many elements it closes and what it makes, or the rule that refuses it.
fn is_answer(answer: Result<Moves, SettleFault>, wanted: &str) -> bool {
    match answer {
        Ok(moves) => is_value(wanted, &(moves.closes, moves.made)),
        Err(SettleFault::Rule { rule }) => rule.name() == wanted,
        Err(SettleFault::OutOfMemory) => false,
    }
}

/// Whether, after these tags, a tag has this result, and then these are open in `body`.
fn goes(path: &mut Path, before: &str, tag: &str, wanted: &str, open: &str) -> bool {
    let is_taken = take_all(path, before);
    let is_answered = is_answer(take(path, tag), wanted);
    is_taken & is_answered & holds(path, open)
}

/// As `goes`, with nothing open in `body` at first.
fn gives(alloc: Global, before: &str, tag: &str, wanted: &str, open: &str) -> bool {
    match Path::new(alloc) {
        Ok(mut path) => goes(&mut path, before, tag, wanted, open),
        Err(_) => false,
    }
}

/// In each line, between bars: tags that are applied, a tag after them, how many elements it closes and what it makes,
/// and what is then open in `body`.
const TAKEN: &str = "\
    p | p | (1, Nothing) | p\n\
    ul li p | li | (2, Nothing) | ul li\n\
    ul li | /ul | (2, Nothing) |\n\
    p object | div | (0, Nothing) | p object div\n\
    table | tr | (0, Section) | table tbody tr\n\
    table | td | (0, SectionAndRow) | table tbody tr td\n\
    table thead | th | (0, Row) | table thead tr th\n\
    table | col | (0, Colgroup) | table colgroup\n\
    table col | tr | (1, Section) | table tbody tr\n\
    table td p | tfoot | (4, Nothing) | table tfoot\n\
    table td p | /table | (5, Nothing) |\n\
    | br | (0, Nothing) |\n\
    h1 a | svg | (0, Nothing) | h1 a svg\n\
    a svg | a | (0, Nothing) | a svg a\n\
    svg g | /g | (1, Nothing) | svg\n";

/// In each line, between bars: tags that are applied, a tag after them, the rule by which it is refused, and what is
/// then open in `body`, the same as before.
const REFUSED: &str = "\
    p span | div | BlockInParagraph | p span\n\
    a b | a | Nested | a b\n\
    h1 b | h2 | Nested | h1 b\n\
    form div | form | Nested | form div\n\
    | li | WrongParent |\n\
    table | div | WrongParent | table\n\
    svg | div | ForeignName | svg\n\
    svg title | g | WrongParent | svg title\n\
    table | marquee | RefusedName | table\n\
    p | head | SecondRoot | p\n\
    b i | /b | NotCurrent | b i\n\
    div p b | /div | NotCurrent | div p b\n\
    svg g | /svg | NotCurrent | svg g\n\
    p svg | /p | NotCurrent | p svg\n\
    | /p | StrayEnd |\n\
    ul | /li | StrayEnd | ul\n";

/// Whether the tags in a line have the result there.
fn is_line(alloc: Global, line: &str) -> bool {
    let (before, rest) = cut(line, "|");
    let (tag, rest) = cut(rest, "|");
    let (wanted, open) = cut(rest, "|");
    gives(alloc, before, tag.trim(), wanted.trim(), open)
}

/// Tags close and make elements as listed.
#[test]
fn what_tags_close_and_make(rt: HostRuntime) {
    for line in TAKEN.lines() {
        expect(&rt, is_line(rt.alloc(), line), line);
    }
}

/// Tags are refused by the rule listed.
#[test]
fn what_is_refused(rt: HostRuntime) {
    for line in REFUSED.lines() {
        expect(&rt, is_line(rt.alloc(), line), line);
    }
}

/// In each line a tag, its result, and then how many elements are open and the innermost of them. They are applied one
/// after the other when 510 are open.
const DEEP: &str = "\
    table | (0, Nothing) | (511, \"table\")\n\
    tr | TooDeep | (511, \"table\")\n\
    td | TooDeep | (511, \"table\")\n\
    tbody | (0, Nothing) | (512, \"tbody\")\n\
    tr | TooDeep | (512, \"tbody\")\n\
    /table | (2, Nothing) | (510, \"b\")\n\
    br | (0, Nothing) | (510, \"b\")\n\
    b | (0, Nothing) | (511, \"b\")\n\
    svg | (0, Nothing) | (512, \"svg\")\n\
    g | TooDeep | (512, \"svg\")\n";

/// Applies the tag in a line, and gives whether its result is the one there.
fn is_step(path: &mut Path, line: &str) -> bool {
    let (tag, rest) = cut(line, " | ");
    let (wanted, open) = cut(rest, " | ");
    let is_answered = is_answer(take(path, tag), wanted);
    is_answered & is_value(open, &(path.len(), path.current()))
}

/// Whether of 512 open elements only the innermost is one of SVG.
fn ends_in_svg(path: &Path) -> bool {
    path.len() == 512 && path.foreign(511) && !path.foreign(510)
}

/// Applies `count` start tags of `b`, and gives whether each was accepted.
fn nest(path: &mut Path, count: u32) -> bool {
    for _ in 0..count {
        if take(path, "b").is_err() {
            return false;
        }
    }
    true
}

/// Asserts that 508 of `b` are accepted, and then each line of [`DEEP`].
fn expect_steps(rt: &impl Abort, path: &mut Path) {
    expect(rt, nest(path, 508), "508 of b");
    for line in DEEP.lines() {
        expect(rt, is_step(path, line), line);
    }
    expect(rt, ends_in_svg(path), "an svg in a b");
}

/// At most 512 elements are open.
#[test]
fn at_most_512_are_open(rt: HostRuntime) -> Result<(), Fail> {
    let mut path = Path::new(rt.alloc())?;
    expect_steps(&rt, &mut path);
    Ok(())
}

/// Tags before ` ⇒ ` in each line, and after it whether the innermost element that is then open is one of HTML that
/// holds one text.
const TEXTS: &str = "\
    \x20⇒ false\n\
    textarea ⇒ true\n\
    script ⇒ true\n\
    textarea /textarea ⇒ false\n\
    svg title ⇒ false\n\
    svg style ⇒ false\n\
    p br ⇒ false\n";

/// Whether after the tags in a line an element of one text is open, or not, as the line says.
fn is_text(alloc: Global, line: &str) -> bool {
    let (tags, wanted) = cut(line, " ⇒ ");
    match Path::new(alloc) {
        Ok(mut path) => {
            let is_taken = take_all(&mut path, tags);
            is_taken & is_value(wanted, &path.is_in_text())
        }
        Err(_) => false,
    }
}

/// Only elements of HTML hold one text.
#[test]
fn one_text_in_html_alone(rt: HostRuntime) {
    for line in TEXTS.lines() {
        expect(&rt, is_text(rt.alloc(), line), line);
    }
}
