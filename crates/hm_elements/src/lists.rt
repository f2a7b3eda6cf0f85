//! Lists of elements and attributes that single rules of tree construction and of rewriting ask for.
ghost use Rattle.std.specs.Prelude.{◌≡◌, map};
ghost use Rattle.std.specs.Str.{str_eq_ignore_ascii_case};
ghost use Rattle.hm_base.specs.Bytes.{lower};
ghost use Rattle.hm_elements.specs.Attributes as attributes;
ghost use Rattle.hm_elements.specs.Names.{is_among};
ghost use Rattle.hm_elements.specs.Paths.{blank_parents};
ghost use Rattle.hm_elements.specs.Tables as tables;

use crate::look_up::{is_one_of, same_name};

/// Whether the element is `html`, `head` or `body`.
#[tactic(auto, unfolding(crate::specs::Tables::is_root, crate::specs::Tables::roots))]
pub fn is_root(name: &str) -> bool
    ensures { result ≡ tables.is_root name.now }
{
    is_one_of(name, &["html", "head", "body"])
}

/// Whether the HTML element holds one text, in which character references are read.
#[tactic(auto, unfolding(crate::specs::Tables::is_rcdata, crate::specs::Tables::rcdata_names))]
pub fn is_rcdata(name: &str) -> bool
    ensures { result ≡ tables.is_rcdata name.now }
{
    is_one_of(name, &["title", "textarea"])
}

/// Whether the element is a section of a table.
#[tactic(auto, unfolding(crate::specs::Tables::is_section, crate::specs::Tables::sections))]
pub fn is_section(name: &str) -> bool
    ensures { result ≡ tables.is_section name.now }
{
    is_one_of(name, &["thead", "tbody", "tfoot"])
}

/// Whether the element is a cell of a table.
pub fn is_cell(name: &str) -> bool
    ensures { result ≡ is_among name.now tables.cells }
{
    is_one_of(name, &["td", "th"])
}

/// Whether the element is metadata, which doesn't stand between `head` and `body` (HTML Standard,
/// #the-after-head-insertion-mode).
#[tactic(auto, unfolding(crate::specs::Tables::is_metadata))]
pub fn is_metadata(name: &str) -> bool
    ensures { result ≡ tables.is_metadata name.now }
{
    is_one_of(name, &["base", "link", "meta", "script", "style", "title"])
}

/// Whether whitespace is seen as it is in the HTML element, and a line feed directly after its start tag is dropped
/// (#parsing-main-inbody).
pub fn is_preformatted(name: &str) -> bool
    ensures { result ≡ is_among name.now tables.preformatted }
{
    is_one_of(name, &["pre", "textarea"])
}

/// Whether a text directly in the HTML element is only whitespace.
#[tactic(auto, unfolding(crate::specs::Paths::blank_parents))]
pub fn is_blank_parent(name: &str) -> bool
    ensures { result ≡ is_among name.now blank_parents }
{
    is_one_of(
        name,
        &[
            "head", "table", "thead", "tbody", "tfoot", "tr", "colgroup", "select", "optgroup",
        ],
    )
}

/// Whether a text of only whitespace isn't seen directly in the HTML element.
#[tactic(auto, unfolding(crate::specs::Tables::space_parents))]
pub fn is_space_parent(name: &str) -> bool
    ensures { result ≡ is_among name.now tables.space_parents }
{
    is_one_of(
        name,
        &[
            "html", "head", "table", "colgroup", "thead", "tbody", "tfoot", "tr", "select",
            "optgroup", "datalist", "ul", "ol", "menu", "dir", "dl",
        ],
    )
}

/// Whether the attribute says nothing where its value is only whitespace.
pub fn says_nothing_blank(attribute: &str) -> bool
    ensures { result ≡ is_among attribute.now attributes.nothing_blank }
{
    is_one_of(attribute, &["class", "id", "style"])
}

/// Whether the attribute of the HTML element says what holds without it.
#[tactic(auto, unfolding(crate::specs::Attributes::is_redundant, crate::specs::Attributes::defaults, hm_base::specs::Bytes::lower))]
pub fn is_redundant(element: &str, name: &str, value: &str) -> bool
    ensures { result ≡ attributes.is_redundant element.now (record { name = name.now; value = value.now }) }
{
    is_default(element, name, value, "form", "method", "get")
        || is_default(element, name, value, "input", "type", "text")
        || is_default(element, name, value, "area", "shape", "rect")
        || is_default(element, name, value, "script", "type", "text/javascript")
        || is_default(element, name, value, "script", "language", "javascript")
        || is_default(element, name, value, "style", "type", "text/css")
}

/// Whether this is that attribute of that element, with that value in any ASCII case.
#[tactic(auto, unfolding(crate::specs::Attributes::is_default), using(crate::proofs::Defaults::same_but_case))]
fn is_default(element: &str, name: &str, value: &str, of: &str, called: &str, default: &str) -> bool
    requires { map lower default.now ≡ default.now }
    ensures { result ≡ attributes.is_default element.now (record { name = name.now; value = value.now }) (record { element = of.now; name = called.now; value = default.now }) }
{
    same_name(element, of) && same_name(name, called) && is_but_for_case(value, default)
}

/// Whether a value is that word apart from the case of its ASCII letters.
fn is_but_for_case(value: &str, word: &str) -> bool
    ensures { result ≡ str_eq_ignore_ascii_case value.now word.now }
{
    value.eq_ignore_ascii_case(word)
}
