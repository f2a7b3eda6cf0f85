//! The names and values of a start, as items of JSON or as texts.
ghost use Rattle.std.specs.Prelude.{◌≡◌, ◌<◌, length, map, slice_get, Some};
ghost use Rattle.hm_json_tree.specs.Pairs.{attributes_at, text_attribute};

use crate::form::pair_of;
use serde_json::Value;
use std::marker::Model;

/// Where the pairs come from.
#[derive(Drop)]
enum Source<'v> {
    Items(&'v [Value]),
    Texts(Vec<(&'v str, &'v str)>),
}

/// The names and the values of a start. Contracts see the list of them. An item that isn't a pair is two empty texts.
#[derive(Drop)]
pub(crate) struct Pairs<'v> {
    source: Source<'v>,
}

impl<'v> Model for Pairs<'v> {
    ghost use Rattle.std.specs.Prelude.{List};
    ghost use Rattle.hm_base.specs.Walks.{Attribute};

    ghost Value = { List Attribute };

    ghost use Rattle.hm_json_tree.specs.Pairs.{attributes_from};

    ghost view = { λ p. attributes_from p.source };
}

impl<'v> Pairs<'v> {
    /// The pairs of items.
    pub(crate) fn of_items(items: &'v [Value]) -> Pairs<'v>
        ensures { result ≡ attributes_at items.now }
    {
        Pairs {
            source: Source::Items(items),
        }
    }

    /// The pairs of texts.
    pub(crate) fn of_texts(texts: Vec<(&'v str, &'v str)>) -> Pairs<'v>
        ensures { result ≡ map text_attribute texts.entry.items }
    {
        Pairs {
            source: Source::Texts(texts),
        }
    }

    /// How many pairs there are.
    pub(crate) fn len(&self) -> usize
        ensures { result ≡ length self.now }
    {
        match &self.source {
            Source::Items(items) => items.len(),
            Source::Texts(texts) => texts.len(),
        }
    }

    /// The name and the value of attribute `i`.
    pub(crate) fn at(&self, i: usize) -> (&str, &str)
        requires { i < length self.now }
        ensures { slice_get self.now i ≡ Some (record { name = result.0.now; value = result.1.now }) }
    {
        match &self.source {
            Source::Items(items) => pair_at(items, i),
            Source::Texts(texts) => texts[i],
        }
    }
}

/// The name and the value of item `i`.
fn pair_at(items: &[Value], i: usize) -> (&str, &str)
    requires { i < length items.now }
    ensures { slice_get (attributes_at items.now) i ≡ Some (record { name = result.0.now; value = result.1.now }) }
{
    pair_of(&items[i])
}
