//! Classes of elements, and lists of elements and attributes, by name.
ghost use Rattle.std.specs.Prelude.{◌≡◌};
ghost use Rattle.hm_elements.specs.Classes as classes;
ghost use Rattle.hm_elements.specs.Tables as tables;

use crate::flags::{
    BLOCK, BOOLEAN, BOUNDARY, CLOSES_P, HEADING, RAW, REFUSED, SVG, UNNESTED, VOID, is_listed,
};
use crate::kind::kind_of;
use crate::look_up::is_one_of;

/// What kind of element a name stands for.
#[derive(Clone, Copy, Debug, PartialEq, Eq)]
pub enum Class {
    /// `html`, `head`, `body`.
    Root,
    /// It holds nothing and has no end tag (HTML Standard, #elements-2).
    Void,
    /// It holds one text, in which character references are read.
    Rcdata,
    /// It holds one text, in which nothing is read.
    Raw,
    /// `script`, whose text ends by rules of its own.
    Script,
    /// `table` and what stands in it, except for `col`, which is void.
    TablePart,
    Ordinary,
    /// A page with this element is refused.
    Refused,
}

impl Class {
    /// Whether its elements hold nothing.
    pub(crate) fn holds_nothing(self) -> bool
        ensures { result ≡ classes.holds_nothing self }
    {
        matches!(self, Class::Void)
    }

    /// Whether elements of this class hold one text and nothing else.
    pub fn holds_one_text(self) -> bool
        ensures { result ≡ classes.holds_one_text self }
    {
        matches!(self, Class::Rcdata | Class::Raw | Class::Script)
    }
}

/// The class of the HTML element with this name (HTML Standard, #elements-2).
pub fn class_of(name: &str) -> Class
    ensures { result ≡ tables.class_of name.now }
{
    kind_of(name).class
}

/// Whether the HTML element holds nothing and has no end tag (#elements-2).
#[tactic(auto, unfolding(crate::specs::Rows::listed_at, crate::specs::Rows::flags, crate::specs::Tables::is_void))]
pub fn is_void(name: &str) -> bool
    ensures { result ≡ tables.is_void name.now }
{
    is_listed(name, VOID)
}

/// Whether the HTML element holds one text, in which nothing is read; `script` is one of them.
#[tactic(auto, unfolding(crate::specs::Rows::listed_at, crate::specs::Rows::flags, crate::specs::Tables::is_raw))]
pub fn is_raw(name: &str) -> bool
    ensures { result ≡ tables.is_raw name.now }
{
    is_listed(name, RAW)
}

/// Whether the HTML element holds one text and nothing else.
#[tactic(auto, using(crate::proofs::ClassFacts::text_by_class))]
pub fn holds_text(name: &str) -> bool
    ensures { result ≡ tables.holds_text name.now }
{
    kind_of(name).class.holds_one_text()
}

/// Whether a page with this element is refused.
#[tactic(auto, unfolding(crate::specs::Rows::listed_at, crate::specs::Rows::flags, crate::specs::Tables::is_refused))]
pub fn is_refused(name: &str) -> bool
    ensures { result ≡ tables.is_refused name.now }
{
    is_listed(name, REFUSED)
}

/// Whether it is one of `h1` to `h6`.
#[tactic(auto, unfolding(crate::specs::Rows::listed_at, crate::specs::Rows::flags, crate::specs::Tables::is_heading))]
pub fn is_heading(name: &str) -> bool
    ensures { result ≡ tables.is_heading name.now }
{
    is_listed(name, HEADING)
}

/// Whether the element may not stand in one of its own name.
#[tactic(auto, unfolding(crate::specs::Rows::listed_at, crate::specs::Rows::flags, crate::specs::Tables::is_unnested))]
pub fn is_unnested(name: &str) -> bool
    ensures { result ≡ tables.is_unnested name.now }
{
    is_listed(name, UNNESTED)
}

/// Whether a start tag of this name closes an open paragraph (#parsing-main-inbody).
#[tactic(auto, unfolding(crate::specs::Rows::listed_at, crate::specs::Rows::flags, crate::specs::Tables::closes_p))]
pub fn closes_p(name: &str) -> bool
    ensures { result ≡ tables.closes_p name.now }
{
    is_listed(name, CLOSES_P)
}

/// Whether a paragraph is never closed through this open element, of HTML or of SVG.
#[tactic(auto, unfolding(crate::specs::Rows::listed_at, crate::specs::Rows::flags, crate::specs::Tables::is_boundary, crate::specs::Tables::svg_boundaries))]
pub fn is_boundary(name: &str, foreign: bool) -> bool
    ensures { result ≡ tables.is_boundary name.now foreign }
{
    if foreign {
        is_one_of(name, &["title", "desc"])
    } else {
        is_listed(name, BOUNDARY)
    }
}

/// Whether whitespace at the edges of the HTML element isn't seen.
#[tactic(auto, unfolding(crate::specs::Rows::listed_at, crate::specs::Rows::flags, crate::specs::Tables::is_block))]
pub fn is_block(name: &str) -> bool
    ensures { result ≡ tables.is_block name.now }
{
    is_listed(name, BLOCK)
}

/// Whether the attribute's value says nothing.
#[tactic(auto, unfolding(crate::specs::Rows::listed_at, crate::specs::Rows::flags, crate::specs::Tables::is_boolean))]
pub fn is_boolean(attribute: &str) -> bool
    ensures { result ≡ tables.is_boolean attribute.now }
{
    is_listed(attribute, BOOLEAN)
}

/// Whether SVG has an element of this name that is read, in lowercase letters (#elements-2).
#[tactic(auto, unfolding(crate::specs::Rows::listed_at, crate::specs::Rows::flags, crate::specs::Tables::is_svg_name))]
pub fn svg_name(name: &str) -> bool
    ensures { result ≡ tables.is_svg_name name.now }
{
    is_listed(name, SVG)
}
