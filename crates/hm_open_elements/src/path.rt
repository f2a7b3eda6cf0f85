//! The open elements of a page, in its body.
ghost use Rattle.std.specs.Prelude.{◌≡◌, ◌≢◌, ◌↔◌, ◌||◌, ◌+◌, ◌<◌, ◌≤◌, [], ◌∷◌, ◌++◌, length, map, reverse, take, slice_get, vec_len, vec_capacity, true, Some, Err, IfOk, OnErr, bytes_eq, if◌then◌else◌, Bool};
ghost use Rattle.hm_base.specs.declared.limits.TheConstants.{DEPTH_LIMIT};
ghost use Rattle.hm_base.specs.declared.rules.Rule.{Rule};
ghost use Rattle.hm_elements.specs.Kinds as kinds;
ghost use Rattle.hm_elements.specs.Names.{body, html, svg};
ghost use Rattle.hm_elements.specs.Paths as paths;
ghost use Rattle.hm_elements.specs.Paths.{html_element};
ghost use Rattle.hm_open_elements.specs.Answers.{IsMoved, IsStarted, elements_of};
ghost use Rattle.hm_open_elements.specs.Elements.{AreMarked, IsRoomy, are_names_utf8, name_of, path_of};
ghost use Rattle.hm_open_elements.specs.Moves.{element, refuses, start_moves, end_moves};
ghost use Rattle.hm_open_elements.specs.Plans.{IsKindOf, IsPushed, opened_by};

use crate::element::{ElementName, OpenElement};
use crate::open_elements::is_in_blank;
use crate::plan::{DEEPEST, MovePlan, left_by_end, marks_on, plan_start};
use crate::{Made, Moves, SettleFault};
use hm_base::OutOfMemory;
use hm_elements::{Kind, Named, kind_of};
use std::alloc::Global;
use std::marker::Model;

/// The open elements of a page, in its body (HTML Standard, #the-stack-of-open-elements). Contracts see the list of
/// them, innermost first.
#[derive(Drop)]
pub struct Path {
    elements: Vec<OpenElement>,
}

impl Model for Path {
    ghost use Rattle.std.specs.Prelude.{List};
    ghost use Rattle.hm_base.specs.Walks.{Element};

    ghost Value = { List Element };

    ghost use Rattle.hm_open_elements.specs.Elements.{IsRoomy, path_of};

    ghost view = { λ p. path_of p.elements.items };

    ghost invariant = { λ p. IsRoomy p.elements };
}

impl Path {
    /// `html` and `body`, with room for as many elements as may be open, so that later only names take memory.
    pub fn new(alloc: Global) -> Result<Path, OutOfMemory>
        ensures { IfOk result (λ path. path ≡ html_element body ∷ html_element html ∷ []) }
    {
        let mut elements = Vec::with_capacity(alloc, DEEPEST)?;
        push_made(&mut elements, ElementName::Html);
        push_made(&mut elements, ElementName::Body);
        Ok(Path { elements })
    }

    /// How many elements are open, at most [`hm_base::DEPTH_LIMIT`]. The outermost two are `html` and `body`. All names
    /// are UTF-8.
    pub fn len(&self) -> u32
        ensures len { result ≡ length self.now }
        ensures most { result ≤ DEPTH_LIMIT }
        ensures begins { take 2 (reverse self.now) ≡ html_element html ∷ html_element body ∷ [] }
        ensures utf8 { are_names_utf8 self.now ≡ true }
    {
        self.elements.len() as u32
    }

    /// The name of element `i`. `html` is element 0.
    pub fn name(&self, i: u32) -> &str
        requires { i < length self.now }
        ensures { slice_get (reverse (map (λ e. e.name) self.now)) i ≡ Some result.now }
    {
        self.elements[i as usize].name.as_str()
    }

    /// Whether element `i` is one of SVG. `html` is element 0.
    pub fn foreign(&self, i: u32) -> bool
        requires { i < length self.now }
        ensures { slice_get (reverse (map (λ e. e.foreign) self.now)) i ≡ Some result }
    {
        self.elements[i as usize].foreign
    }

    /// The name of the innermost element.
    pub fn current(&self) -> &str
        ensures { result.now ≡ paths.current self.now }
    {
        self.elements[self.elements.len() - 1].name.as_str()
    }

    /// Whether the innermost element is one of SVG.
    pub fn is_in_svg(&self) -> bool
        ensures { result ≡ paths.is_in_svg self.now }
    {
        self.elements[self.elements.len() - 1].foreign
    }

    /// Whether the innermost element is one of HTML that holds one text and nothing else.
    pub fn is_in_text(&self) -> bool
        ensures { result ≡ paths.is_in_text self.now }
    {
        self.elements[self.elements.len() - 1].marks.text
    }

    /// Whether only whitespace is allowed as text directly in the innermost element.
    pub fn is_in_blank(&self) -> bool
        ensures { result ≡ paths.is_in_blank self.now }
    {
        is_in_blank(&self.elements)
    }

    /// Takes a start tag of this name (HTML Standard, #parsing-main-inbody and following, #parsing-main-inforeign):
    /// closes the elements that it closes, makes those that it implies, and opens its own, which is one of SVG if
    /// `foreign` is set. A void element isn't opened. An `svg` with `/>` is: the caller closes it by [`Path::end`].
    /// Only an unknown name that stays open takes memory. After a fault nothing has changed.
    pub fn start(&mut self, name: &str, foreign: bool) -> Result<Moves, SettleFault>
        requires { foreign ≡ (paths.is_in_svg self.old || bytes_eq name.now svg) }
        ensures ok { IfOk result (λ moves. IsStarted (start_moves name.now self.old) moves self.new) }
        ensures rule { (rule : Rule) → (result ≡ Err (SettleFault.Rule rule)) ↔ (start_moves name.now self.old ≡ refuses rule) }
        ensures err { OnErr result (self.new ≡ self.old) }
    {
        self.start_known(Named::of(name), foreign)
    }

    /// Takes a start tag as [`Path::start`] does, with a name that was looked up. For a known name nothing is
    /// allocated.
    pub fn start_known(&mut self, tag: Named<'_>, foreign: bool) -> Result<Moves, SettleFault>
        requires { foreign ≡ (paths.is_in_svg self.old || bytes_eq tag.name.now svg) }
        ensures ok { IfOk result (λ moves. IsStarted (start_moves tag.entry.name.now self.old) moves self.new) }
        ensures rule { (rule : Rule) → (result ≡ Err (SettleFault.Rule rule)) ↔ (start_moves tag.entry.name.now self.old ≡ refuses rule) }
        ensures err { OnErr result (self.new ≡ self.old) }
    {
        let plan = plan_start(&self.elements, tag)?;
        let closes = (self.elements.len() - plan.left) as u32;
        let opened = kept_name(*self.elements.allocator(), tag, plan.is_void)?;
        carry_out(&mut self.elements, plan, opened, tag.kind(), foreign);
        Ok(Moves {
            closes,
            made: plan.made,
        })
    }

    /// Takes an end tag of this name (#parsing-main-inbody): closes the elements whose ends it implies, and its own. It
    /// makes none and allocates nothing. After a fault nothing has changed.
    #[inline(always)]
    pub fn end(&mut self, name: &str) -> Result<Moves, SettleFault>
        requires body { name.now ≢ body }
        requires html { name.now ≢ html }
        ensures ok { IfOk result (λ moves. IsMoved (end_moves name.now self.old) moves self.new) }
        ensures rule { (rule : Rule) → (result ≡ Err (SettleFault.Rule rule)) ↔ (end_moves name.now self.old ≡ refuses rule) }
        ensures no_memory { result ≢ Err SettleFault.OutOfMemory }
        ensures err { OnErr result (self.new ≡ self.old) }
    {
        let left = left_by_end(&self.elements, name)?;
        let closes = (self.elements.len() - left) as u32;
        self.elements.truncate(left);
        Ok(Moves {
            closes,
            made: Made::Nothing,
        })
    }
}

/// The name of the element, if it stays open.
fn kept_name(
    alloc: Global,
    tag: Named<'_>,
    is_void: bool,
) -> Result<Option<ElementName>, OutOfMemory>
    ensures opened { IfOk result (λ kept. (foreign : Bool) → opened_by kept foreign ≡ (if is_void then [] else element tag.entry.name.now foreign ∷ [])) }
    ensures kind { IfOk result (λ kept. IsKindOf kept (kinds.kind tag.entry.name.now)) }
{
    if is_void {
        Ok(None)
    } else {
        Ok(Some(ElementName::given(alloc, tag)?))
    }
}

/// Closes all but the first `plan.left` elements, then opens those that are made and the one named `opened`, if any.
fn carry_out(
    elements: &mut Vec<OpenElement>,
    plan: MovePlan,
    opened: Option<ElementName>,
    kind: &Kind,
    foreign: bool,
)
    requires kept { IsRoomy elements.old }
    requires least { 2 ≤ plan.left }
    requires most { plan.left ≤ length elements.old.items }
    requires room { plan.left + length (elements_of plan.made) < DEPTH_LIMIT }
    requires kind { IsKindOf opened kind.now }
    ensures kept { IsRoomy elements.new }
    ensures path { path_of elements.new.items ≡ opened_by opened foreign ++ (elements_of plan.made ++ path_of (take plan.left elements.old.items)) }
{
    elements.truncate(plan.left);
    make(elements, plan.made);
    if let Some(name) = opened {
        push(elements, name, kind, foreign);
    }
}

/// Opens the elements that are made.
fn make(elements: &mut Vec<OpenElement>, made: Made)
    requires kept { IsRoomy elements.old }
    requires room { length elements.old.items + length (elements_of made) < DEPTH_LIMIT }
    ensures kept { IsRoomy elements.new }
    ensures path { path_of elements.new.items ≡ elements_of made ++ path_of elements.old.items }
{
    match made {
        Made::Nothing => {}
        Made::Section => push_made(elements, ElementName::Tbody),
        Made::SectionAndRow => {
            push_made(elements, ElementName::Tbody);
            push_made(elements, ElementName::Tr);
        }
        Made::Row => push_made(elements, ElementName::Tr),
        Made::Colgroup => push_made(elements, ElementName::Colgroup),
    }
}

/// Opens an element of HTML that no tag named. There is room for it.
fn push_made(elements: &mut Vec<OpenElement>, name: ElementName)
    requires marked { AreMarked [] elements.old.items }
    requires room { vec_len elements.old < vec_capacity elements.old }
    ensures pushed { IsPushed elements.old.items (html_element (name_of name)) elements.new.items }
    ensures capacity { vec_capacity elements.old ≤ vec_capacity elements.new }
{
    let kind = kind_of(name.as_str());
    push(elements, name, &kind, false);
}

/// Opens an element of this kind. There is room for it.
#[inline(always)]
fn push(elements: &mut Vec<OpenElement>, name: ElementName, kind: &Kind, foreign: bool)
    requires marked { AreMarked [] elements.old.items }
    requires room { vec_len elements.old < vec_capacity elements.old }
    requires kind { kind.now ≡ kinds.kind (name_of name) }
    ensures pushed { IsPushed elements.old.items (element (name_of name) foreign) elements.new.items }
    ensures capacity { vec_capacity elements.old ≤ vec_capacity elements.new }
{
    let named = Named::known(name.as_str(), kind);
    let marks = marks_on(elements, named, foreign);
    let element = OpenElement {
        name,
        foreign,
        marks,
    };
    elements.push(element).unwrap();
}
