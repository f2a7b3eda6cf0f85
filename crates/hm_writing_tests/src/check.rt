//! Checks of texts and certificates, accepted and refused.
ghost use Rattle.hm_elements.specs.Settled.{Settled};

use crate::made::{LOOSE_RULES as RULES, tree_of};
use crate::rows::{cut, expect, is_value};
use hm_base::SpellRules;
use hm_cert::Certificate;
use hm_check::{Verdict, check_settled};
use hm_refs::Table;
use hm_tree::Tree;
use std::alloc::Global;

/// A page with two paragraphs.
const PAGE: &str = "<!doctype html><p>a</p><p>b</p>";

/// The shortest text of the page's tree, of 23 bytes.
const OUT: &str = "<!doctype html><p>a<p>b";

/// The prices of all layers.
const EVERY: &str = "html-cert 1\nrules omit unquote\n23\n8\n8\n8\n8\n8\n5\n4\n4\n1\n0\n0\n0\n0\n";

/// The prices of the layers that have something to choose, of the first and of the last.
const CHOICES: &str = "html-cert 2\nrules omit unquote\n23\n8\n8\n8\n8\n4\n0\n0\n0\n0\n";

/// The check of a text and a certificate for a tree. None if the certificate can't be read.
fn found_for(
    alloc: Global,
    table: &Table,
    wanted: &Tree,
    rules: SpellRules,
    out: &str,
    certificate: &str,
) -> Option<Verdict>
    requires { Settled wanted.now }
{
    match Certificate::read(alloc, certificate.as_bytes()) {
        Ok(read) => check_settled(alloc, table, wanted, out.as_bytes(), &read, rules).ok(),
        Err(_) => None,
    }
}

/// As `found_for`, for the tree of a page. None also if the page can't be read.
fn found_with(
    alloc: Global,
    table: &Table,
    page: &str,
    rules: SpellRules,
    out: &str,
    certificate: &str,
) -> Option<Verdict> {
    match tree_of(alloc, table, page) {
        Some(wanted) => found_for(alloc, table, &wanted, rules, out, certificate),
        None => None,
    }
}

/// As `found_with`, with an empty table of names.
fn found_of(
    alloc: Global,
    page: &str,
    rules: SpellRules,
    out: &str,
    certificate: &str,
) -> Option<Verdict> {
    match Table::empty(alloc) {
        Ok(table) => found_with(alloc, &table, page, rules, out, certificate),
        Err(_) => None,
    }
}

/// Whether the check of a text and a certificate for a page finds this.
fn is_found(
    alloc: Global,
    page: &str,
    rules: SpellRules,
    out: &str,
    certificate: &str,
    wanted: &str,
) -> bool {
    match found_of(alloc, page, rules, out, certificate) {
        Some(verdict) => is_value(wanted, &verdict),
        None => false,
    }
}

/// The shortest text is accepted, with each certificate of it.
#[test]
fn accepted(rt: HostRuntime) {
    let wanted = "Yes { length: 23 }";
    expect(
        &rt,
        is_found(rt.alloc(), PAGE, RULES, OUT, EVERY, wanted),
        EVERY,
    );
    expect(
        &rt,
        is_found(rt.alloc(), PAGE, RULES, OUT, CHOICES, wanted),
        CHOICES,
    );
}

/// A text, a certificate and why both together are refused for the page, with ` ⇒ ` between them and `¶` after each
/// three. After the faults of form come a price that is too high, alone and before another, an infinite one where there
/// is a way, another end, a text that isn't the shortest, and prices that show too little.
const REFUSED: &str = "\
    <!doctype html><p>a<p>b ⇒ html-cert 2\nrules omit\n23\n8\n8\n8\n8\n4\n0\n0\n0\n0\n ⇒ No { why: RulesDiffer }¶\
    <p>a<p>b ⇒ html-cert 2\nrules omit unquote\n23\n8\n8\n8\n8\n4\n0\n0\n0\n0\n ⇒ No { why: OutRefused { rule: NoDoctype, at: 0 } }¶\
    <!doctype html><p>a<p>c ⇒ html-cert 2\nrules omit unquote\n23\n8\n8\n8\n8\n4\n0\n0\n0\n0\n ⇒ No { why: TreesDiffer { event: 9 } }¶\
    <!doctype html><p>a<p>b ⇒ html-cert 1\nrules omit unquote\n23\n ⇒ No { why: WrongLayers { got: 1, want: 14 } }¶\
    <!doctype html><p>a<p>b ⇒ html-cert 2\nrules omit unquote\n23\n8\n8\n8 8\n8\n4\n0\n0\n0\n0\n ⇒ No { why: WrongWidth { layer: 3, got: 2, want: 1 } }¶\
    <!doctype html><p>a<p>b ⇒ html-cert 2\nrules omit unquote\n24\n8\n8\n8\n8\n4\n0\n0\n0\n0\n ⇒ No { why: TooHigh { layer: 0, state: 0, price: Some(24), bound: Some(23) } }¶\
    <!doctype html><p>a<p>b ⇒ html-cert 2\nrules omit unquote\n23\n8\n8\n8\n9\n4\n0\n0\n1\n0\n ⇒ No { why: TooHigh { layer: 4, state: 0, price: Some(9), bound: Some(8) } }¶\
    <!doctype html><p>a<p>b ⇒ html-cert 2\nrules omit unquote\n-\n8\n8\n8\n8\n4\n0\n0\n0\n0\n ⇒ No { why: TooHigh { layer: 0, state: 0, price: None, bound: Some(23) } }¶\
    <!doctype html><p>a<p>b ⇒ html-cert 2\nrules omit unquote\n24\n9\n9\n9\n9\n5\n1\n1\n1\n1\n ⇒ No { why: TooHigh { layer: 13, state: 0, price: Some(1), bound: Some(0) } }¶\
    <!doctype html><p>a</p><p>b</p> ⇒ html-cert 2\nrules omit unquote\n23\n8\n8\n8\n8\n4\n0\n0\n0\n0\n ⇒ No { why: TooLong { length: 31, first: 23 } }¶\
    <!doctype html><p>a<p>b ⇒ html-cert 2\nrules omit unquote\n22\n8\n8\n8\n8\n4\n0\n0\n0\n0\n ⇒ No { why: TooLong { length: 23, first: 22 } }";

/// Whether the verdict in a row is right.
fn is_refused(alloc: Global, row: &str) -> bool {
    let (out, rest) = cut(row, " ⇒ ");
    let (certificate, wanted) = cut(rest, " ⇒ ");
    is_found(alloc, PAGE, RULES, out, certificate, wanted)
}

/// Each row is refused with its reason.
#[test]
fn refused(rt: HostRuntime) {
    for row in REFUSED.split('¶') {
        expect(&rt, is_refused(rt.alloc(), row), row);
    }
}

/// A page with a character that is written as a number.
const OTHER_PAGE: &str = "<!doctype html><p>\u{3e8}1</p>";

/// The sparse certificate of that page, for output in ASCII.
const OTHER: &str = "html-cert 3\nrules omit unquote ascii\n26\n8\n- 1\n0\n";

/// The rules of `OTHER`.
const ASCII_RULES: SpellRules = SpellRules {
    ascii: true,
    ..RULES
};

/// Texts of that page, and the verdicts on them: the second is as long as the first, but not in the graph of this
/// format; the graph ends before the third, and the fourth before the graph. `¶` is after each.
const SPELLED: &str = "\
    <!doctype html><p>&#1000;1 ⇒ Yes { length: 26 }¶\
    <!doctype html><p>&#x3e8;1 ⇒ Yes { length: 26 }¶\
    <!doctype html><p>&#1000;1\n ⇒ No { why: TreesDiffer { event: 6 } }¶\
    <!doctype html><p>&#1000; ⇒ No { why: TreesDiffer { event: 6 } }";

/// Whether the verdict in a row on that page is right.
fn is_spelled(alloc: Global, row: &str) -> bool {
    let (out, wanted) = cut(row, " ⇒ ");
    is_found(alloc, OTHER_PAGE, ASCII_RULES, out, OTHER, wanted)
}

/// Texts that aren't in the graph are checked too.
#[test]
fn spelled_otherwise(rt: HostRuntime) {
    for row in SPELLED.split('¶') {
        expect(&rt, is_spelled(rt.alloc(), row), row);
    }
}
