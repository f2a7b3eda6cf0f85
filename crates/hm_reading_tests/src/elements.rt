//! Classes and kinds of names, names compared, and which element may be in which and closes before which.
use crate::printed::is_value;
use crate::rows::{cut, expect};
use hm_elements::{
    Kind, Named, class_of, closes_p, holds_text, is_block, is_boolean, is_boundary,
    is_closed_by_start, is_ended_by, is_heading, is_one_of, is_raw, is_refused, is_unnested,
    is_void, kind_of, may_stand, same_name, svg_name,
};

/// A name before ` ⇒ ` in each line, and after it the class of the name.
const CLASSES: &str = "\
    body ⇒ Root\n\
    col ⇒ Void\n\
    colgroup ⇒ TablePart\n\
    table ⇒ TablePart\n\
    td ⇒ TablePart\n\
    textarea ⇒ Rcdata\n\
    iframe ⇒ Raw\n\
    script ⇒ Script\n\
    marquee ⇒ Refused\n\
    xmp ⇒ Refused\n\
    svg ⇒ Ordinary\n\
    span ⇒ Ordinary\n\
    T ⇒ Ordinary\n\
    tdd ⇒ Ordinary\n\
    t ⇒ Ordinary\n\
    ~ ⇒ Ordinary\n\
    \x20⇒ Ordinary\n";

/// Whether the name in a line has its class, alone and in its kind.
fn is_class(line: &str) -> bool {
    let (name, class) = cut(line, " ⇒ ");
    is_value(class, &class_of(name)) && is_value(class, &kind_of(name).class)
}

/// Each name has its class.
#[test]
fn classes(rt: HostRuntime) {
    for line in CLASSES.lines() {
        expect(&rt, is_class(line), line);
    }
}

/// In each line a function of a name, the name, and its answer.
const ANSWERS: &str = "\
    closes_p li ⇒ Some(true)\n\
    closes_p h6 ⇒ Some(true)\n\
    closes_p span ⇒ Some(false)\n\
    is_block body ⇒ Some(true)\n\
    is_block ul ⇒ Some(true)\n\
    is_block img ⇒ Some(false)\n\
    is_boundary td ⇒ Some(true)\n\
    is_boundary title ⇒ Some(false)\n\
    is_boundary_in_svg title ⇒ Some(true)\n\
    is_boundary_in_svg td ⇒ Some(false)\n\
    is_boolean checked ⇒ Some(true)\n\
    is_boolean class ⇒ Some(false)\n\
    svg_name path ⇒ Some(true)\n\
    svg_name foreignobject ⇒ Some(false)\n\
    is_heading h1 ⇒ Some(true)\n\
    is_heading hr ⇒ Some(false)\n\
    is_unnested nobr ⇒ Some(true)\n\
    is_unnested b ⇒ Some(false)\n\
    holds_text title ⇒ Some(true)\n\
    holds_text style ⇒ Some(true)\n\
    holds_text p ⇒ Some(false)\n\
    is_raw iframe ⇒ Some(true)\n\
    is_void br ⇒ Some(true)\n\
    is_refused marquee ⇒ Some(true)\n";

/// The answer of a function for a name. None if there is no such function.
fn answer(function: &str, name: &str) -> Option<bool> {
    match function {
        "closes_p" => Some(closes_p(name)),
        "is_block" => Some(is_block(name)),
        "is_boundary" => Some(is_boundary(name, false)),
        "is_boundary_in_svg" => Some(is_boundary(name, true)),
        "is_boolean" => Some(is_boolean(name)),
        "svg_name" => Some(svg_name(name)),
        "is_heading" => Some(is_heading(name)),
        "is_unnested" => Some(is_unnested(name)),
        "holds_text" => Some(holds_text(name)),
        "is_raw" => Some(is_raw(name)),
        "is_void" => Some(is_void(name)),
        "is_refused" => Some(is_refused(name)),
        _ => None,
    }
}

/// Whether the function in a line gives the answer there.
fn is_answer(line: &str) -> bool {
    let (function, rest) = cut(line, " ");
    let (name, wanted) = cut(rest, " ⇒ ");
    is_value(wanted, &answer(function, name))
}

/// Each function of a name gives its answer.
#[test]
fn answers(rt: HostRuntime) {
    for line in ANSWERS.lines() {
        expect(&rt, is_answer(line), line);
    }
}

/// In each line a flag of a kind, a name, and whether its kind has the flag.
const MARKS: &str = "\
    boundary td ⇒ Some(true)\n\
    block td ⇒ Some(true)\n\
    yields td ⇒ Some(true)\n\
    p_yields td ⇒ Some(true)\n\
    ends td ⇒ Some(true)\n\
    p_ends td ⇒ Some(true)\n\
    bound td ⇒ Some(true)\n\
    closes_p td ⇒ Some(false)\n\
    has_children td ⇒ Some(false)\n\
    has_parents td ⇒ Some(false)\n\
    heading h3 ⇒ Some(true)\n\
    closes_p h3 ⇒ Some(true)\n\
    unnested a ⇒ Some(true)\n\
    block a ⇒ Some(false)\n\
    yields colgroup ⇒ Some(true)\n\
    yields col ⇒ Some(false)\n\
    has_parents li ⇒ Some(true)\n\
    has_parents ul ⇒ Some(false)\n\
    has_children br ⇒ Some(true)\n\
    has_children div ⇒ Some(false)\n\
    block  ⇒ Some(false)\n\
    yields  ⇒ Some(false)\n\
    ends  ⇒ Some(false)\n\
    bound  ⇒ Some(false)\n\
    block span ⇒ Some(false)\n\
    yields span ⇒ Some(false)\n\
    ends span ⇒ Some(false)\n\
    bound span ⇒ Some(false)\n\
    block T ⇒ Some(false)\n\
    yields T ⇒ Some(false)\n\
    ends T ⇒ Some(false)\n\
    bound T ⇒ Some(false)\n\
    block tdd ⇒ Some(false)\n\
    yields tdd ⇒ Some(false)\n\
    ends tdd ⇒ Some(false)\n\
    bound tdd ⇒ Some(false)\n\
    block t ⇒ Some(false)\n\
    yields t ⇒ Some(false)\n\
    ends t ⇒ Some(false)\n\
    bound t ⇒ Some(false)\n\
    block ~ ⇒ Some(false)\n\
    yields ~ ⇒ Some(false)\n\
    ends ~ ⇒ Some(false)\n\
    bound ~ ⇒ Some(false)\n";

/// Whether a kind has a flag. None if there is no such flag.
fn mark(kind: Kind, mark: &str) -> Option<bool> {
    match mark {
        "heading" => Some(kind.heading),
        "unnested" => Some(kind.unnested),
        "closes_p" => Some(kind.closes_p),
        "boundary" => Some(kind.boundary),
        "block" => Some(kind.block),
        "yields" => Some(kind.is_closed_by_start),
        "p_yields" => Some(kind.closes_open_p),
        "ends" => Some(kind.ends),
        "p_ends" => Some(kind.p_ends),
        "has_children" => Some(kind.has_children),
        "has_parents" => Some(kind.has_parents),
        "bound" => Some(kind.bound),
        _ => None,
    }
}

/// Whether the kind of the name in a line has the flag, or not, as the line says.
fn is_marked(line: &str) -> bool {
    let (word, rest) = cut(line, " ");
    let (name, wanted) = cut(rest, " ⇒ ");
    is_value(wanted, &mark(kind_of(name), word))
}

/// Each kind has its flags.
#[test]
fn marks(rt: HostRuntime) {
    for line in MARKS.lines() {
        expect(&rt, is_marked(line), line);
    }
}

/// Names are equal only byte for byte.
#[test]
fn same_names(rt: HostRuntime) {
    expect(&rt, same_name("td", "td") && same_name("", ""), "the same");
    expect(&rt, !same_name("td", "th"), "another");
    expect(&rt, !same_name("td", "t"), "a shorter one");
    expect(&rt, is_one_of("th", &["td", "th"]), "one of two");
    expect(&rt, !is_one_of("th", &["td"]), "not one of one");
}

/// In each line a name, its parent, its grandparent or `-`, and whether it may be there.
const PLACES: &str = "\
    li | body | html ⇒ false\n\
    li | ul | body ⇒ true\n\
    div | p | body ⇒ true\n\
    dt | div | dl ⇒ true\n\
    dt | div | body ⇒ false\n\
    dd | dl | body ⇒ true\n\
    col | table | body ⇒ false\n\
    col | colgroup | table ⇒ true\n\
    link | noscript | head ⇒ true\n\
    p | noscript | head ⇒ false\n\
    p | noscript | body ⇒ true\n\
    title | head | html ⇒ true\n\
    title | body | html ⇒ false\n\
    br | br | - ⇒ false\n\
    optgroup | datalist | - ⇒ false\n";

/// Whether the name in a line may be there, or not, as the line says.
fn is_placed(line: &str) -> bool {
    let (name, rest) = cut(line, " | ");
    let (parent, rest) = cut(rest, " | ");
    let (grandparent, wanted) = cut(rest, " ⇒ ");
    let grandparent = if grandparent == "-" {
        None
    } else {
        Some(grandparent)
    };
    is_value(
        wanted,
        &may_stand(Named::of(name), Named::of(parent), grandparent),
    )
}

/// Each element may be in its parents, and in no others.
#[test]
fn what_stands_where(rt: HostRuntime) {
    for line in PLACES.lines() {
        expect(&rt, is_placed(line), line);
    }
}

/// In each line a name, the next one, and whether the next one's start and its end close the first.
const CLOSINGS: &str = "\
    p | div ⇒ (true, true)\n\
    p | hr ⇒ (true, false)\n\
    p | span ⇒ (false, false)\n\
    li | li ⇒ (true, false)\n\
    li | ul ⇒ (false, true)\n\
    td | tr ⇒ (true, true)\n\
    tr | td ⇒ (false, false)\n\
    tbody | tr ⇒ (false, false)\n\
    colgroup | col ⇒ (false, false)\n\
    colgroup | b ⇒ (true, false)\n\
    colgroup | table ⇒ (true, true)\n\
    option | optgroup ⇒ (true, true)\n\
    b | b ⇒ (false, false)\n";

/// Whether the start and the end of the next name in a line close the first, or not, as the line says.
fn is_closing(line: &str) -> bool {
    let (current, rest) = cut(line, " | ");
    let (next, wanted) = cut(rest, " ⇒ ");
    let current = Named::of(current);
    is_value(
        wanted,
        &(
            is_closed_by_start(current, Named::of(next)),
            is_ended_by(current, next),
        ),
    )
}

/// Each element is closed before the starts and ends that close it, and no others.
#[test]
fn what_closes_before_what(rt: HostRuntime) {
    for line in CLOSINGS.lines() {
        expect(&rt, is_closing(line), line);
    }
}
