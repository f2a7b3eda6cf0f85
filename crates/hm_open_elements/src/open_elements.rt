//! The open elements of any tree, in a body or not.
ghost use Rattle.std.specs.Prelude.{◌≡◌, ◌-◌, ◌||◌, [], ◌∷◌, length, take, MatchOption, IfSome, OnOk, OnErr};
ghost use Rattle.hm_elements.specs.Names.{head, is_among};
ghost use Rattle.hm_elements.specs.Nesting.{is_name};
ghost use Rattle.hm_elements.specs.Paths as paths;
ghost use Rattle.hm_elements.specs.Paths.{blank_parents, current_name, head_yields, is_block_in_p, is_nested, outer, stands_on};
ghost use Rattle.hm_elements.specs.Texts.{text_of};
ghost use Rattle.hm_open_elements.specs.Elements.{AreMarked, KeepsKind, element_of, path_of};
ghost use Rattle.hm_open_elements.specs.Moves.{element};

use crate::element::{ElementName, OpenElement};
use crate::plan::{marks, marks_on};
use hm_base::OutOfMemory;
use hm_elements::{Named, is_blank_parent, is_closed_by_start, is_raw, may_stand, same_name};
use std::alloc::Global;
use std::marker::Model;

/// The open elements of any tree, in a body or not. Contracts see the list of them, innermost first.
#[derive(Drop)]
pub struct OpenElements {
    elements: Vec<OpenElement>,
}

impl Model for OpenElements {
    ghost use Rattle.std.specs.Prelude.{List, []};
    ghost use Rattle.hm_base.specs.Walks.{Element};

    ghost Value = { List Element };

    ghost use Rattle.hm_open_elements.specs.Elements.{AreMarked, path_of};

    ghost view = { λ o. path_of o.elements.items };

    ghost invariant = { λ o. AreMarked [] o.elements.items };
}

impl OpenElements {
    /// No element is open. It allocates nothing until one opens.
    pub fn new(alloc: Global) -> OpenElements
        ensures { result ≡ [] }
    {
        OpenElements {
            elements: Vec::new(alloc),
        }
    }

    /// How many elements are open.
    pub fn len(&self) -> usize
        ensures { result ≡ length self.now }
    {
        self.elements.len()
    }

    /// The name of the innermost element, or no bytes if none is open.
    pub fn current(&self) -> &str
        ensures { result.now ≡ paths.current self.now }
    {
        match innermost(&self.elements) {
            Some(last) => last.name.as_str(),
            None => "",
        }
    }

    /// Whether the innermost element is one of SVG.
    pub fn is_in_svg(&self) -> bool
        ensures { result ≡ paths.is_in_svg self.now }
    {
        match innermost(&self.elements) {
            Some(last) => last.foreign,
            None => false,
        }
    }

    /// Whether the innermost element is one of HTML that holds one text and nothing else.
    pub fn is_in_text(&self) -> bool
        ensures { result ≡ paths.is_in_text self.now }
    {
        marks(&self.elements).text
    }

    /// Whether a text directly in the innermost element is raw.
    pub fn is_in_raw(&self) -> bool
        ensures { result ≡ paths.is_in_raw self.now }
    {
        match innermost(&self.elements) {
            Some(last) => !last.foreign && is_raw(last.name.as_str()),
            None => false,
        }
    }

    /// Whether only whitespace is allowed as text directly in the innermost element.
    pub fn is_in_blank(&self) -> bool
        ensures { result ≡ paths.is_in_blank self.now }
    {
        is_in_blank(&self.elements)
    }

    /// Whether an HTML element of this name is allowed in the innermost element.
    pub fn holds(&self, tag: Named<'_>) -> bool
        ensures { result ≡ stands_on tag.entry.name.now self.now }
    {
        match innermost(&self.elements) {
            Some(last) => may_stand(tag, last.named(), parent(&self.elements)),
            None => false,
        }
    }

    /// Whether the start tag of an HTML element of this name closes the innermost element.
    pub fn is_closed_by_start_of(&self, tag: Named<'_>) -> bool
        ensures { result ≡ head_yields self.now tag.entry.name.now }
    {
        match innermost(&self.elements) {
            Some(last) => is_closed_by_start(last.named(), tag),
            None => false,
        }
    }

    /// Whether a start tag of this name would have to close a paragraph that isn't the innermost element, or its
    /// element would be inside one of its own kind that doesn't allow this.
    pub fn bars(&self, tag: Named<'_>) -> bool
        ensures { result ≡ (is_block_in_p tag.entry.name.now self.now || is_nested tag.entry.name.now self.now) }
    {
        let marks = marks(&self.elements);
        marks.is_block_in_p(tag) || marks.is_nested(tag)
    }

    /// Opens an element of this name. It takes memory for the element, and for an unknown name.
    pub fn open(&mut self, alloc: Global, tag: Named<'_>, foreign: bool) -> Result<(), OutOfMemory>
        ensures ok { OnOk result (self.new ≡ element tag.entry.name.now foreign ∷ self.old) }
        ensures err { OnErr result (self.new ≡ self.old) }
    {
        let marks = marks_on(&self.elements, tag, foreign);
        let name = ElementName::given(alloc, tag)?;
        self.elements.push(OpenElement {
            name,
            foreign,
            marks,
        })?;
        Ok(())
    }

    /// Closes the innermost element, if there is one.
    pub fn close(&mut self)
        ensures { self.new ≡ outer self.old }
    {
        let _closed = self.elements.pop();
    }
}

/// Whether only whitespace is allowed as text directly in the innermost of these elements.
#[tactic(auto, unfolding(hm_elements::specs::Paths::is_in_blank))]
pub(crate) fn is_in_blank(elements: &[OpenElement]) -> bool
    requires { AreMarked [] elements.now }
    ensures { result ≡ paths.is_in_blank (path_of elements.now) }
{
    match innermost(elements) {
        Some(last) => {
            !last.foreign
                && (takes_only_blank(last.named())
                    || (same_name(last.name.as_str(), "noscript") && is_head(parent(elements))))
        }
        None => false,
    }
}

/// Whether only whitespace is allowed as text directly in the HTML element. The name is compared only for an element
/// that allows only children of certain names.
#[tactic(auto, using(crate::proofs::Blank::never_blank))]
fn takes_only_blank(tag: Named<'_>) -> bool
    ensures { result ≡ is_among tag.entry.name.now blank_parents }
{
    tag.kind().has_children && is_blank_parent(tag.name())
}

/// The innermost of these elements.
#[inline(always)]
fn innermost(elements: &[OpenElement]) -> Option<&OpenElement>
    ensures path { MatchOption result (path_of elements.now ≡ [])
        (λ o. path_of elements.now ≡ element_of o.now ∷ path_of (take (length elements.now - 1) elements.now)) }
    ensures kind { AreMarked [] elements.now → IfSome result (λ o. KeepsKind o.now) }
{
    if elements.len() == 0 {
        return None;
    }
    Some(&elements[elements.len() - 1])
}

/// The name of the parent of the innermost element.
fn parent(elements: &[OpenElement]) -> Option<&str>
    ensures { text_of result ≡ current_name (outer (path_of elements.now)) }
{
    if elements.len() == 0 {
        return None;
    }
    match innermost(&elements[..elements.len() - 1]) {
        Some(around) => Some(around.name.as_str()),
        None => None,
    }
}

/// Whether there is a name and it is `head`.
fn is_head(name: Option<&str>) -> bool
    ensures { result ≡ is_name head (text_of name.entry) }
{
    match name {
        Some(name) => same_name(name, "head"),
        None => false,
    }
}
