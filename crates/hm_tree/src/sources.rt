//! The two kinds of attributes that a start is made with.
ghost use Rattle.std.specs.Prelude.{◌≡◌, length, true};
ghost use Rattle.hm_base.specs.Walks.{has_distinct_names};
ghost use Rattle.hm_tree.specs.Attributes.{are_texts};
ghost use Rattle.hm_tree.specs.Sources.{listed};

use crate::{Attrs, AttrsView};

/// The attributes of a tag, or those of an element of another tree.
#[derive(Clone, Copy)]
pub(crate) enum AttributeSource<'a> {
    Tag { attrs: &'a Attrs },
    Element { attrs: AttrsView<'a> },
}

/// How many attributes there are. Their names are distinct, and names and values are UTF-8.
#[inline(always)]
pub(crate) fn count(attrs: &AttributeSource<'_>) -> u32
    ensures len { result ≡ length (listed attrs.now) }
    ensures distinct { has_distinct_names (listed attrs.now) ≡ true }
    ensures texts { are_texts (listed attrs.now) ≡ true }
{
    match attrs {
        AttributeSource::Tag { attrs } => attrs.len(),
        AttributeSource::Element { attrs } => attrs.len(),
    }
}
