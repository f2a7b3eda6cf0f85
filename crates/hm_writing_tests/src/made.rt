//! What several of the tests need: rules, tables of names, attributes, trees of pages.
#![tactic(auto, using(hm_tree::proofs::RoomLemmas::room))]

ghost use Rattle.std.specs.Prelude.{◌+◌, ◌≤◌, length, IfOk, IfSome};
ghost use Rattle.hm_base.specs.Walks.{attributes_size};
ghost use Rattle.hm_elements.specs.Settled.{Settled};

use hm_base::{OutOfMemory, PAGE_LIMIT, SourceText, SpellRules};
use hm_build::parse;
use hm_refs::Table;
use hm_tree::{Attrs, Tree};
use std::alloc::Global;

/// A table without names.
pub(crate) const NONE: &str = "{}";

/// A name for two code points.
pub(crate) const TWO: &str = "{\"&ab;\":{\"codepoints\":[120,824]}}";

/// The rules of `--omit --unquote --tight`.
pub(crate) const TIGHT_RULES: SpellRules = SpellRules {
    omit: true,
    unquote: true,
    tight: true,
    ascii: false,
    frame: false,
};

/// The rules of `--omit --unquote`.
pub(crate) const LOOSE_RULES: SpellRules = SpellRules {
    tight: false,
    ..TIGHT_RULES
};

/// A list of one attribute.
pub(crate) fn attributes(alloc: Global, name: &str, value: &str) -> Result<Attrs, OutOfMemory>
    ensures { IfOk result (λ attrs. attributes_size attrs ≤ length name.now + length value.now) }
{
    let mut attrs = Attrs::new(alloc);
    attrs.put(name, value)?;
    Ok(attrs)
}

/// The tree of a page. None if it can't be read.
pub(crate) fn tree_of(alloc: Global, table: &Table, page: &str) -> Option<Tree>
    ensures { IfSome result Settled }
{
    match SourceText::read(alloc, page.as_bytes(), PAGE_LIMIT) {
        Ok(text) => parse(alloc, &text, table).ok(),
        Err(_) => None,
    }
}
