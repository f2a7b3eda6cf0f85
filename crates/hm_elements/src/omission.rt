//! Which tags may be left out, by the names of elements (HTML Standard, #optional-tags).
ghost use Rattle.std.specs.Prelude.{◌≡◌};
ghost use Rattle.hm_elements.specs.Names.{is_among};
ghost use Rattle.hm_elements.specs.Omission as omission;
ghost use Rattle.hm_elements.specs.Tables as tables;

use crate::flags::{PARAGRAPH_BLOCK, PARAGRAPH_PARENT, is_listed};
use crate::lists::{is_cell, is_section};
use crate::look_up::{is_one_of, same_name};

/// Whether the end tag of a paragraph may be left out before the start tag of the HTML element.
#[tactic(auto, unfolding(crate::specs::Rows::listed_at, crate::specs::Rows::flags))]
fn end_tag_of_p_optional_before(next: &str) -> bool
    ensures { result ≡ is_among next.now tables.blocks }
{
    is_listed(next, PARAGRAPH_BLOCK)
}

/// Whether the end tag of the HTML element may be left out before the start tag of the HTML element `next`.
#[tactic(auto, unfolding(crate::specs::Omission::end_tag_optional_before, crate::specs::Omission::before_rows, crate::specs::Names::is_among, crate::specs::Tables::is_section, crate::specs::Tables::sections))]
pub fn end_tag_optional_before(name: &str, next: &str) -> bool
    ensures { result ≡ omission.end_tag_optional_before name.now next.now }
{
    if is_cell(name) {
        is_cell(next)
    } else if same_name(name, "colgroup") {
        true
    } else if is_one_of(name, &["caption"]) {
        is_one_of(next, &["colgroup"]) || is_section(next)
    } else if is_one_of(name, &["thead", "tbody"]) {
        is_one_of(next, &["tbody", "tfoot"])
    } else if is_one_of(name, &["tr"]) {
        is_one_of(next, &["tr"])
    } else if is_one_of(name, &["li"]) {
        is_one_of(next, &["li"])
    } else if is_one_of(name, &["dt", "dd"]) {
        is_one_of(next, &["dt", "dd"])
    } else if is_one_of(name, &["rt", "rp"]) {
        is_one_of(next, &["rt", "rp"])
    } else if is_one_of(name, &["optgroup"]) {
        is_one_of(next, &["optgroup"])
    } else if is_one_of(name, &["option"]) {
        is_one_of(next, &["option", "optgroup"])
    } else if is_one_of(name, &["p"]) {
        end_tag_of_p_optional_before(next)
    } else {
        false
    }
}

/// Whether the end tag of the HTML element may be left out at the end of this parent.
#[tactic(auto, unfolding(crate::specs::Omission::end_tag_optional_in, crate::specs::Omission::up_names, crate::specs::Names::is_among))]
pub fn end_tag_optional_in(name: &str, parent: &str) -> bool
    ensures { result ≡ omission.end_tag_optional_in name.now parent.now }
{
    if same_name(name, "p") {
        is_parent_of_loose_p(parent)
    } else if same_name(name, "option") {
        !same_name(parent, "datalist")
    } else {
        is_one_of(
            name,
            &[
                "caption", "colgroup", "tbody", "tfoot", "tr", "td", "th", "li", "dd", "rt", "rp",
                "optgroup",
            ],
        )
    }
}

/// Whether the end tag of a paragraph may be left out at the end of this parent.
#[tactic(auto, unfolding(crate::specs::Rows::listed_at, crate::specs::Rows::flags))]
fn is_parent_of_loose_p(parent: &str) -> bool
    ensures { result ≡ is_among parent.now omission.up_of_p }
{
    is_listed(parent, PARAGRAPH_PARENT)
}

/// Whether the start tag of the HTML element may be left out before the start tag of this child.
#[tactic(auto, unfolding(crate::specs::Omission::start_tag_optional_before, crate::specs::Omission::start_rows, crate::specs::Names::is_among))]
pub fn start_tag_optional_before(name: &str, child: &str) -> bool
    ensures { result ≡ omission.start_tag_optional_before name.now child.now }
{
    if is_one_of(name, &["colgroup"]) {
        is_one_of(child, &["col"])
    } else if is_one_of(name, &["tbody"]) {
        is_one_of(child, &["tr"])
    } else {
        false
    }
}

/// Whether the start tag of the HTML element isn't left out after an end of the HTML element `before` whose tag was left out.
#[tactic(auto, unfolding(crate::specs::Omission::start_tag_required_after))]
pub fn start_tag_required_after(before: &str, name: &str) -> bool
    ensures { result ≡ omission.start_tag_required_after before.now name.now }
{
    (same_name(name, "tbody") && is_section(before))
        || (same_name(name, "colgroup") && same_name(before, "colgroup"))
}

/// Whether the HTML element is taken into `head` where no start tag of `body` stands before it.
pub fn stays_in_head(name: &str) -> bool
    ensures { result ≡ is_among name.now omission.head_takers }
{
    is_one_of(name, &["link", "meta", "noscript", "script", "style"])
}
