//! What a tag does to the open elements, or why it is refused, before anything changes.
ghost use Rattle.std.specs.Prelude.{◌≡◌, ◌≢◌, ◌+◌, ◌<◌, ◌≤◌, List, [], ◌∷◌, ◌++◌, length, take, IfOk, IfErr, Bool, true, false};
ghost use Rattle.hm_base.specs.Walks.{Element};
ghost use Rattle.hm_base.specs.declared.limits.TheConstants.{DEPTH_LIMIT};
ghost use Rattle.hm_elements.specs.Names.{body};
ghost use Rattle.hm_elements.specs.Nesting as nesting;
ghost use Rattle.hm_elements.specs.Paths as paths;
ghost use Rattle.hm_elements.specs.Paths.{rest_after, is_closed_by_start_of, is_closed_by_end_of, stands_on};
ghost use Rattle.hm_open_elements.specs.Answers.{elements_of};
ghost use Rattle.hm_open_elements.specs.Elements.{path_of, marks_of, IsPath, AreMarked};
ghost use Rattle.hm_open_elements.specs.Moves.{refuses, start_moves, end_moves, start_on};
ghost use Rattle.hm_open_elements.specs.Plans.{IsStartPlan, IsReached, IsEndPlan, opened};

use crate::Made;
use crate::element::{OpenElement, ScopeFlags};
use hm_base::{DEPTH_LIMIT, Rule};
use hm_elements::{
    Class, Named, is_boundary, is_cell, is_closed_by_start, is_ended_by, may_stand, same_name,
    svg_name,
};

/// The most elements that may be open.
pub(crate) const DEEPEST: usize = DEPTH_LIMIT as usize;

/// What a start tag does.
#[derive(Clone, Copy)]
pub(crate) struct MovePlan {
    /// How many of the open elements stay.
    pub left: usize,
    pub made: Made,
    /// Whether the element is void, so that it isn't opened.
    pub is_void: bool,
}

/// The flags at the innermost of these elements.
#[inline(always)]
pub(crate) fn marks(elements: &[OpenElement]) -> ScopeFlags
    requires { AreMarked [] elements.now }
    ensures { result ≡ marks_of (path_of elements.now) }
{
    match elements.last() {
        Some(innermost) => innermost.marks,
        None => ScopeFlags::none(),
    }
}

/// The flags at an element of this name that opens inside the innermost of these.
#[inline(always)]
pub(crate) fn marks_on(elements: &[OpenElement], name: Named<'_>, foreign: bool) -> ScopeFlags
    requires { AreMarked [] elements.now }
    ensures { result ≡ marks_of (record { name = name.entry.name.now; foreign = foreign } ∷ path_of elements.now) }
{
    marks(elements).at(name, foreign)
}

/// What a start tag of this name does.
pub(crate) fn plan_start(elements: &[OpenElement], tag: Named<'_>) -> Result<MovePlan, Rule>
    requires { IsPath elements.now }
    ensures ok { IfOk result (λ plan. IsStartPlan elements.now tag.entry.name.now plan) }
    ensures rule { IfErr result (λ rule. start_moves tag.entry.name.now (path_of elements.now) ≡ refuses rule) }
{
    let innermost = &elements[elements.len() - 1];
    if innermost.foreign {
        plan_in_svg(elements, innermost.name.as_str(), tag.name())
    } else {
        plan_in_html(elements, tag)
    }
}

/// What a start tag does if the innermost element is `current`, one of SVG (HTML Standard, #parsing-main-inforeign).
fn plan_in_svg(elements: &[OpenElement], current: &str, name: &str) -> Result<MovePlan, Rule>
    requires path { IsPath elements.now }
    requires svg { paths.is_in_svg (path_of elements.now) ≡ true }
    requires current { current.now ≡ paths.current (path_of elements.now) }
    ensures ok { IfOk result (λ plan. IsStartPlan elements.now name.now plan) }
    ensures rule { IfErr result (λ rule. start_moves name.now (path_of elements.now) ≡ refuses rule) }
{
    if !svg_name(name) {
        return Err(Rule::ForeignName);
    }
    if is_boundary(current, true) {
        return Err(Rule::WrongParent);
    }
    if elements.len() == DEEPEST {
        return Err(Rule::TooDeep);
    }
    Ok(MovePlan {
        left: elements.len(),
        made: Made::Nothing,
        is_void: false,
    })
}

/// What a start tag does if the innermost element is one of HTML.
fn plan_in_html(elements: &[OpenElement], tag: Named<'_>) -> Result<MovePlan, Rule>
    requires path { IsPath elements.now }
    requires html { paths.is_in_svg (path_of elements.now) ≡ false }
    ensures ok { IfOk result (λ plan. IsStartPlan elements.now tag.entry.name.now plan) }
    ensures rule { IfErr result (λ rule. start_moves tag.entry.name.now (path_of elements.now) ≡ refuses rule) }
{
    let class = tag.kind().class;
    match class {
        Class::Refused => return Err(Rule::RefusedName),
        Class::Root => return Err(Rule::SecondRoot),
        _ => {}
    }
    let left = left_by_start(elements, tag);
    let made = made_before(&elements[..left], tag)?;
    let is_void = matches!(class, Class::Void);
    Ok(MovePlan {
        left,
        made,
        is_void,
    })
}

/// How many elements the start tag leaves open.
fn left_by_start(elements: &[OpenElement], tag: Named<'_>) -> usize
    requires { IsPath elements.now }
    ensures least { 2 ≤ result }
    ensures most { result ≤ length elements.now }
    ensures left { path_of (take result elements.now) ≡ rest_after (is_closed_by_start_of tag.entry.name.now) (path_of elements.now) }
{
    let mut left = elements.len();
    while closes_before(elements[left - 1].named(), tag) {
        left -= 1;
    }
    left
}

/// Whether the start tag of an HTML element `next` closes the open element `current`. Of the parts of a table only
/// `colgroup` is closed by other elements' tags, and no row by the tags of its cells: both are decided before the table
/// is searched.
#[inline(always)]
#[tactic(auto, using(crate::proofs::Yields::bound_yields, crate::proofs::Yields::row_stays))]
fn closes_before(current: Named<'_>, next: Named<'_>) -> bool
    ensures { result ≡ nesting.is_closed_by_start current.entry.name.now next.entry.name.now }
{
    if !current.kind().bound {
        return is_closed_by_start(current, next);
    }
    if !next.kind().bound {
        return same_name(current.name(), "colgroup");
    }
    if same_name(current.name(), "tr") && is_cell(next.name()) {
        return false;
    }
    is_closed_by_start(current, next)
}

/// The elements that are made before the start tag's element opens inside these, or why it doesn't open.
fn made_before(elements: &[OpenElement], tag: Named<'_>) -> Result<Made, Rule>
    requires { IsPath elements.now }
    ensures opens { (closed : List Element) → start_on tag.entry.name.now closed (path_of elements.now) ≡ opened tag.entry.name.now closed (path_of elements.now) result }
    ensures room { IfOk result (λ made. length elements.now + length (elements_of made) < DEPTH_LIMIT) }
{
    let innermost = &elements[elements.len() - 1];
    if innermost.marks.is_block_in_p(tag) {
        return Err(Rule::BlockInParagraph);
    }
    if innermost.marks.is_nested(tag) {
        return Err(Rule::Nested);
    }
    let made = Made::under(innermost.name.as_str(), tag.name());
    let depth = elements.len() + made.count();
    if depth > DEEPEST {
        return Err(Rule::TooDeep);
    }
    if !stands(elements, made, tag) {
        return Err(Rule::WrongParent);
    }
    if depth == DEEPEST {
        return Err(Rule::TooDeep);
    }
    Ok(made)
}

/// Whether the element is allowed inside these elements after those in `made` are open.
fn stands(elements: &[OpenElement], made: Made, tag: Named<'_>) -> bool
    requires { IsPath elements.now }
    ensures { result ≡ stands_on tag.entry.name.now (elements_of made ++ path_of elements.now) }
{
    let current = elements[elements.len() - 1].named();
    match made {
        Made::Nothing => may_stand(
            tag,
            current,
            Some(elements[elements.len() - 2].name.as_str()),
        ),
        Made::Section => may_stand(tag, Named::of("tbody"), Some(current.name())),
        Made::SectionAndRow => may_stand(tag, Named::of("tr"), Some("tbody")),
        Made::Row => may_stand(tag, Named::of("tr"), Some(current.name())),
        Made::Colgroup => may_stand(tag, Named::of("colgroup"), Some(current.name())),
    }
}

/// How many elements an end tag of this name leaves open.
#[inline(always)]
pub(crate) fn left_by_end(elements: &[OpenElement], name: &str) -> Result<usize, Rule>
    requires path { IsPath elements.now }
    requires name { name.now ≢ body }
    ensures ok { IfOk result (λ left. IsEndPlan elements.now name.now left) }
    ensures rule { IfErr result (λ rule. end_moves name.now (path_of elements.now) ≡ refuses rule) }
{
    let innermost = &elements[elements.len() - 1];
    if same_name(innermost.name.as_str(), name) {
        return Ok(elements.len() - 1);
    }
    let reached = reached_by_end(elements, name);
    if same_name(elements[reached - 1].name.as_str(), name) {
        return Ok(reached - 1);
    }
    if is_open(elements, name) {
        Err(Rule::NotCurrent)
    } else {
        Err(Rule::StrayEnd)
    }
}

/// How many elements are open after all ends that the end tag implies.
fn reached_by_end(elements: &[OpenElement], name: &str) -> usize
    requires { IsPath elements.now }
    ensures { IsReached elements.now name.now result }
{
    if elements[elements.len() - 1].foreign {
        elements.len()
    } else {
        left_by_implied_ends(elements, name)
    }
}

/// How many elements are open after all ends that an end tag of another name implies
/// (#closing-elements-that-have-implied-end-tags).
fn left_by_implied_ends(elements: &[OpenElement], name: &str) -> usize
    requires { IsPath elements.now }
    ensures least { 2 ≤ result }
    ensures most { result ≤ length elements.now }
    ensures left { path_of (take result elements.now) ≡ rest_after (is_closed_by_end_of name.now) (path_of elements.now) }
{
    let mut left = elements.len();
    while is_closed_by_end(elements[left - 1].named(), name) {
        left -= 1;
    }
    left
}

/// Whether an end tag of another name closes the open element `current`.
fn is_closed_by_end(current: Named<'_>, ending: &str) -> bool
    ensures { (foreign : Bool) → result ≡ is_closed_by_end_of ending.now (record { name = current.entry.name.now; foreign = foreign }) }
{
    !same_name(current.name(), ending) && is_ended_by(current, ending)
}

/// Whether an element of this name is open. Called only for a page that is refused.
fn is_open(elements: &[OpenElement], name: &str) -> bool
    ensures { result ≡ paths.is_open name.now (path_of elements.now) }
{
    let mut left = elements.len();
    while left > 0 {
        left -= 1;
        if elements[left].name.as_str() == name {
            return true;
        }
    }
    false
}
