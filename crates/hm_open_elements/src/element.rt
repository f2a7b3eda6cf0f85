//! An open element, with flags for the elements around it.
ghost use Rattle.std.specs.Prelude.{◌≡◌, List, [], ◌∷◌, true, not, ◌&&◌, ◌||◌, IfOk, bytes_eq};
ghost use Rattle.hm_base.specs.Walks.{Element};
ghost use Rattle.hm_elements.specs.Names.{p};
ghost use Rattle.hm_elements.specs.Paths as paths;
ghost use Rattle.hm_elements.specs.Tables as tables;
ghost use Rattle.hm_open_elements.specs.Elements.{KeepsKind, name_of, marks_of};

use hm_base::OutOfMemory;
use hm_elements::{Kind, KnownName, Named, is_boundary, kind_of, same_name};
use std::alloc::Global;

/// The name of an open element. Only an unknown name of a tag takes memory.
#[derive(Drop)]
pub(crate) enum ElementName {
    Html,
    Body,
    Tbody,
    Tr,
    Colgroup,
    Known(KnownName),
    Given(String),
}

impl ElementName {
    /// The name of a tag. It is copied only if it is unknown.
    pub(crate) fn given(alloc: Global, tag: Named<'_>) -> Result<ElementName, OutOfMemory>
        ensures { IfOk result (λ kept. name_of kept ≡ tag.entry.name.now) }
    {
        match tag.known_name() {
            Some(known) => Ok(ElementName::Known(known)),
            None => Ok(ElementName::Given(String::from_str(alloc, tag.name())?)),
        }
    }

    /// The name.
    #[inline(always)]
    pub(crate) fn as_str(&self) -> &str
        ensures { result.now ≡ name_of self.now }
    {
        match self {
            ElementName::Html => "html",
            ElementName::Body => "body",
            ElementName::Tbody => "tbody",
            ElementName::Tr => "tr",
            ElementName::Colgroup => "colgroup",
            ElementName::Known(name) => name.as_str(),
            ElementName::Given(name) => name.as_str(),
        }
    }
}

/// What is open at an element, the element included, as far as start tags depend on it; and for the element alone its
/// kind and whether it holds one text.
#[derive(Clone, Copy)]
pub(crate) struct ScopeFlags {
    /// A `p`, with no boundary between it and here.
    pub paragraph: bool,
    /// One of `h1` to `h6`.
    pub heading: bool,
    pub a: bool,
    pub button: bool,
    pub form: bool,
    pub nobr: bool,
    /// What the tables say about the element's name, whether it is one of HTML or of SVG.
    pub kind: Kind,
    /// The element is one of HTML that holds one text and nothing else.
    pub text: bool,
}

impl ScopeFlags {
    /// The flags if no element is open.
    pub(crate) fn none() -> ScopeFlags
        ensures { result ≡ marks_of [] }
    {
        ScopeFlags {
            paragraph: false,
            heading: false,
            a: false,
            button: false,
            form: false,
            nobr: false,
            kind: kind_of(""),
            text: false,
        }
    }

    /// The flags at an element that opens inside the one with these flags.
    #[inline(always)]
    #[tactic(auto, unfolding(hm_elements::specs::Tables::is_unnested, hm_elements::specs::Tables::unnested_names, hm_elements::specs::Names::is_among))]
    pub(crate) fn at(&self, name: Named<'_>, foreign: bool) -> ScopeFlags
        ensures { (path : List Element) → self.now ≡ marks_of path → result ≡ marks_of (record { name = name.entry.name.now; foreign = foreign } ∷ path) }
    {
        let kind = name.kind();
        ScopeFlags {
            paragraph: is_paragraph_open(name, foreign, self.paragraph),
            heading: kind.heading || self.heading,
            a: is_open(name, "a", self.a),
            button: is_open(name, "button", self.button),
            form: is_open(name, "form", self.form),
            nobr: is_open(name, "nobr", self.nobr),
            kind: *kind,
            text: holds_text(name, foreign),
        }
    }

    /// Whether a start tag of this name would have to close a paragraph that isn't the innermost element.
    #[tactic(auto, unfolding(hm_elements::specs::Paths::is_block_in_p))]
    pub(crate) fn is_block_in_p(&self, name: Named<'_>) -> bool
        ensures { (path : List Element) → self.now ≡ marks_of path → result ≡ paths.is_block_in_p name.entry.name.now path }
    {
        self.paragraph && name.kind().closes_p
    }

    /// Whether an element of this name would be inside one of its own name that doesn't allow this, or a heading inside
    /// a heading (HTML Standard, #the-element-pointers, #parsing-main-inbody).
    pub(crate) fn is_nested(&self, name: Named<'_>) -> bool
        ensures { (path : List Element) → self.now ≡ marks_of path → result ≡ paths.is_nested name.entry.name.now path }
    {
        let kind = name.kind();
        if kind.unnested {
            self.is_unnested_open(name.name())
        } else {
            self.heading && kind.heading
        }
    }

    /// Whether an element of this name is open. The name is one that isn't allowed inside its own.
    fn is_unnested_open(&self, name: &str) -> bool
        requires { tables.is_unnested name.now ≡ true }
        ensures { (path : List Element) → self.now ≡ marks_of path → result ≡ paths.is_open name.now path }
    {
        match name {
            "a" => self.a,
            "button" => self.button,
            "form" => self.form,
            _ => self.nobr,
        }
    }
}

/// Whether a `p` is open at an element, with no boundary between them. `outside` is the answer for its parent.
#[inline(always)]
fn is_paragraph_open(name: Named<'_>, foreign: bool, outside: bool) -> bool
    ensures { result ≡ (bytes_eq name.entry.name.now p || (not (tables.is_boundary name.entry.name.now foreign) && outside)) }
{
    same_name(name.name(), "p") || (outside && !bounds(name, foreign))
}

/// Whether no paragraph around an open element of this name is closed from inside it. `foreign` is true for an element
/// of SVG.
#[inline(always)]
fn bounds(name: Named<'_>, foreign: bool) -> bool
    ensures { result ≡ tables.is_boundary name.entry.name.now foreign }
{
    if foreign {
        is_boundary(name.name(), true)
    } else {
        name.kind().boundary
    }
}

/// Whether an element named `one` is open at an element. `outside` is the answer for its parent. `one` isn't allowed
/// inside its own.
#[inline(always)]
fn is_open(name: Named<'_>, one: &str, outside: bool) -> bool
    requires one { tables.is_unnested one.now ≡ true }
    ensures { result ≡ (bytes_eq name.entry.name.now one.now || outside) }
{
    outside || (name.kind().unnested && same_name(name.name(), one))
}

/// Whether the element is one of HTML that holds one text and nothing else.
#[inline(always)]
#[tactic(auto, using(hm_elements::proofs::ClassFacts::text_by_class))]
fn holds_text(name: Named<'_>, foreign: bool) -> bool
    ensures { result ≡ (not foreign && tables.holds_text name.entry.name.now) }
{
    !foreign && name.kind().class.holds_one_text()
}

/// An open element.
#[derive(Drop)]
pub(crate) struct OpenElement {
    pub name: ElementName,
    pub foreign: bool,
    pub marks: ScopeFlags,
}

impl OpenElement {
    /// The name with its kind from the flags.
    #[inline(always)]
    pub(crate) fn named(&self) -> Named<'_>
        requires { KeepsKind self.now }
        ensures { result.name.now ≡ name_of self.now.name }
    {
        Named::known(self.name.as_str(), &self.marks.kind)
    }
}
