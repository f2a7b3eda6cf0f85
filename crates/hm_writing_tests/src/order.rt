//! The order of attributes, and what they cost.
use crate::made::{LOOSE_RULES, NONE, TIGHT_RULES, TWO, tree_of};
use crate::rows::{cut, expect};
use hm_base::{Format, OutOfMemory, SpellRules};
use hm_order::{AttrCost, attr_cost, best_last, reorder};
use hm_refs::Table;
use hm_shortest::minify_tree;
use hm_tree::Tree;
use std::alloc::Global;

/// Names for `&`.
const AMP: &str = "{\"&amp\":{\"codepoints\":[38]},\"&amp;\":{\"codepoints\":[38]}}";

/// Names for a space, which are shorter than its number.
const SPACE: &str = "{\"&ab\":{\"codepoints\":[32]},\"&ab;\":{\"codepoints\":[32]}}";

/// The rules of `--omit`.
const PLAIN_RULES: SpellRules = SpellRules {
    unquote: false,
    ..LOOSE_RULES
};

/// The rules of `--omit --tight`.
const QUOTED_RULES: SpellRules = SpellRules {
    unquote: false,
    ..TIGHT_RULES
};

/// The rules of `--omit --unquote --tight --ascii`.
const ASCII_RULES: SpellRules = SpellRules {
    ascii: true,
    ..TIGHT_RULES
};

/// Whether this is the shortest text of a tree.
fn is_text(alloc: Global, table: &Table, rules: SpellRules, tree: &Tree, wanted: &str) -> bool {
    match minify_tree(alloc, tree, table, rules, Format::Compact) {
        Ok(made) => made.out.as_slice() == wanted.as_bytes(),
        Err(OutOfMemory) => false,
    }
}

/// The tree of a page in order. None if it can't be read.
fn in_order_of(alloc: Global, table: &Table, rules: SpellRules, page: &str) -> Option<Tree> {
    let tree = tree_of(alloc, table, page)?;
    reorder(alloc, tree, table, rules).ok()
}

/// Whether this is the shortest text of a page in order.
fn is_written(alloc: Global, table: &Table, rules: SpellRules, page: &str, wanted: &str) -> bool {
    match in_order_of(alloc, table, rules, page) {
        Some(tree) => is_text(alloc, table, rules, &tree, wanted),
        None => false,
    }
}

/// In each line names of references, rules, a page, and after ` ⇒ ` its shortest text in order. The texts come from a
/// second program that was written from the same rules.
const ORDERED: &str = "\
    none tight <!doctype html><a c=z b=\"x y\">t</a> ⇒ <!doctype html><a b=\"x y\"c=z>t</a>\n\
    none loose <!doctype html><a c=z b=\"x y\">t</a> ⇒ <!doctype html><a b=\"x y\" c=z>t</a>\n\
    none loose <!doctype html><svg><path id=\"a b\" d=M0></path></svg> ⇒ <!doctype html><svg><path d=M0 id=\"a b\"/></svg>\n\
    none tight <!doctype html><svg><path id=\"a b\" d=M0></path></svg> ⇒ <!doctype html><svg><path d=M0 id=\"a b\"/></svg>\n\
    none tight <!doctype html><svg><path id=\"a b\" d e=M0></path></svg> ⇒ <!doctype html><svg><path id=\"a b\"e=M0 d/></svg>\n\
    none loose <!doctype html><svg><path d=M0 e=\"\">t</path></svg> ⇒ <!doctype html><svg><path e d=M0>t</path></svg>\n\
    none loose <!doctype html><svg><path d=M0 e=\"\"></path></svg> ⇒ <!doctype html><svg><path d=M0 e/></svg>\n\
    none loose <!doctype html><a x=1 y=2 z=3></a> ⇒ <!doctype html><a y=2 z=3 x=1></a>\n\
    none tight <!doctype html><p a=\"x y\" b=\"x y\"> ⇒ <!doctype html><p b=\"x y\"a=\"x y\">\n\
    none quoted <!doctype html><p a=x b> ⇒ <!doctype html><p a=\"x\"b>\n\
    none plain <!doctype html><p a=x b> ⇒ <!doctype html><p b a=\"x\">\n\
    none tight <!doctype html><p a=\"&#34;\" b='\"x y' c=z d=\"'&#34;\"> ⇒ <!doctype html><p a='\"'b='\"x y'd=\"'&#34\"c=z>\n\
    none tight <!doctype html><p data-a=\"/?a&amp;b=c\" title=b id=\"x y\"> ⇒ <!doctype html><p data-a=\"/?a&amp;b=c\"id=\"x y\"title=b>\n\
    amp tight <!doctype html><p b=\"x y\" a=\"?a&amp;amp=c\" c=\"?a&amp;b\"> ⇒ <!doctype html><p b=\"x y\"a=\"?a&amp=c\"c=?a&b>\n\
    amp tight <!doctype html><p b=\"x y\" a=\"&amp;amp\" c=d> ⇒ <!doctype html><p b=\"x y\"c=d a=&#38amp>\n\
    space tight <!doctype html><p b=\"x y z\" a=\"x y\" c=d> ⇒ <!doctype html><p b=\"x y z\"a=\"x y\"c=d>\n\
    space loose <!doctype html><svg><path a=b c=\"x y\" d=\"x y\" /></svg> ⇒ <!doctype html><svg><path a=b d=\"x y\" c=\"x y\"/></svg>\n\
    two tight <!doctype html><p a=\"x&#824; y\" b=\"x&#824;\"> ⇒ <!doctype html><p a=\"x\u{338} y\"b=x\u{338}>\n\
    two ascii <!doctype html><p a=\"x&#824;y\" b=\"\u{e9} z\" c=\"x y\"> ⇒ <!doctype html><p b=\"&#233 z\"c=\"x y\"a=&ab;y>\n\
    none tight <!doctype html><p a=\"x=y\" b=\"\u{4e00}\u{4e8c}\" c=\"\u{4e00} \u{4e8c}\"> ⇒ <!doctype html><p a=\"x=y\"c=\"\u{4e00} \u{4e8c}\"b=\u{4e00}\u{4e8c}>\n\
    none ascii <!doctype html><p a=\"\u{4e00} \u{4e8c}\" b=\"\u{e9}\"> ⇒ <!doctype html><p a=\"&#19968 &#20108\"b=&#233>\n\
    none tight <!doctype html><p a=\"x y\" b=\"\u{1f600} \u{1f600}\" c=\"\u{1f600}\"> ⇒ <!doctype html><p a=\"x y\"b=\"\u{1f600} \u{1f600}\"c=\u{1f600}>\n\
    none loose <!doctype html><svg><g a=\"b c\" d=e><g f=\"g h\" i=j /></g></svg> ⇒ <!doctype html><svg><g d=e a=\"b c\"><g i=j f=\"g h\"/></g></svg>\n";

/// The table of these names.
fn names_of(word: &str) -> &'static str {
    match word {
        "none" => NONE,
        "amp" => AMP,
        "space" => SPACE,
        "two" => TWO,
        _ => "?",
    }
}

/// The rules of this name.
fn rules_of(word: &str) -> Option<SpellRules> {
    match word {
        "tight" => Some(TIGHT_RULES),
        "loose" => Some(LOOSE_RULES),
        "plain" => Some(PLAIN_RULES),
        "quoted" => Some(QUOTED_RULES),
        "ascii" => Some(ASCII_RULES),
        _ => None,
    }
}

/// Whether the text in a line, after its names, is right with a table.
fn is_ordered(alloc: Global, table: &Table, line: &str) -> bool {
    let (word, rest) = cut(line, " ");
    let (page, wanted) = cut(rest, " ⇒ ");
    match rules_of(word) {
        Some(rules) => is_written(alloc, table, rules, page, wanted),
        None => false,
    }
}

/// Whether the text in a line is right.
fn is_line(alloc: Global, line: &str) -> bool {
    let (word, rest) = cut(line, " ");
    match Table::read(alloc, names_of(word).as_bytes()) {
        Ok(table) => is_ordered(alloc, &table, rest),
        Err(_) => false,
    }
}

/// Each page has its shortest text in order.
#[test]
fn in_order(rt: HostRuntime) {
    for line in ORDERED.lines() {
        expect(&rt, is_line(rt.alloc(), line), line);
    }
}

/// The costs of `title="x y"` with `tight`.
const TITLE: AttrCost = AttrCost {
    inner: 11,
    last: 11,
};

/// The costs of `id=a`.
const ID: AttrCost = AttrCost { inner: 5, last: 4 };

/// Whether an attribute has these costs.
fn has_cost(alloc: Global, table: &Table, name: &str, value: &str, wanted: AttrCost) -> bool {
    match attr_cost(alloc, table, TIGHT_RULES, name, value, false) {
        Ok(cost) => cost == wanted,
        Err(OutOfMemory) => false,
    }
}

/// Whether the two attributes have their costs.
fn have_costs(alloc: Global) -> bool {
    match Table::empty(alloc) {
        Ok(table) => {
            let title = has_cost(alloc, &table, "title", "x y", TITLE);
            title & has_cost(alloc, &table, "id", "a", ID)
        }
        Err(OutOfMemory) => false,
    }
}

/// Attributes have their costs.
#[test]
fn costs(rt: HostRuntime) {
    expect(&rt, have_costs(rt.alloc()), "costs");
    expect(&rt, best_last(&[TITLE, ID, ID]) == 1, "the last");
}
