//! End tags (HTML Standard, #parsing-main-inhtml).
ghost use Rattle.std.specs.Prelude.{◌≡◌, ◌≢◌, ◌||◌, false, true};
ghost use Rattle.hm_construction_laws.specs.Steps as steps;
ghost use Rattle.hm_construction_laws.specs.Steps.{after_end_moves, end_current, step, step_end};
ghost use Rattle.hm_elements.specs.Names.{body, html};
ghost use Rattle.hm_open_elements.specs.Moves.{end_moves};
ghost use Rattle.hm_elements.specs.Paths as paths;
ghost use Rattle.hm_tree.specs.Tokens as tokens;
ghost use Rattle.hm_insertion.specs.Building.{Fits};
ghost use Rattle.hm_insertion.specs.Inside as inside;
ghost use Rattle.hm_insertion.specs.Inside.{HasBodyPath, IsInner, IsKept, IsUnbegun, Takes, insertion_mode_of, state_of, under_noscript};

use crate::BuildFault;
use crate::insertion::{BuilderMode, HeadText};
use crate::make::{close_missing_head, make_missing};
use crate::moves::end_elements;
use crate::parts::{Parts, current_in_head, is_in_text};
use hm_base::Rule;
use hm_elements::same_name;
use hm_open_elements::Path;
use std::alloc::Global;

impl Parts {
    /// Takes an end tag (#parsing-main-inhtml).
    pub(crate) fn end_tag(&mut self, alloc: Global, name: &str) -> Result<(), BuildFault>
        requires kept { IsKept self.old }
        requires room { Fits (step (state_of self.old) (tokens.end_tag name.now)) self.old.maker }
        ensures { Takes (step (state_of self.old) (tokens.end_tag name.now)) result self.old self.new }
    {
        self.drops_line_feed = false;
        match self.insertion_mode {
            BuilderMode::Initial => Err(BuildFault::from(Rule::NoDoctype)),
            BuilderMode::InHead { noscript, text } => self.end_in_head(alloc, noscript, text, name),
            BuilderMode::BeforeHtml | BuilderMode::BeforeHead | BuilderMode::AfterHead => {
                self.end_unbegun(alloc, name)
            }
            BuilderMode::InBody | BuilderMode::AfterBody | BuilderMode::AfterHtml =>
                self.end_in_body(name),
        }
    }

    /// Takes an end tag in `head` (#parsing-main-inhead, #parsing-main-inheadnoscript, #parsing-main-incdata).
    fn end_in_head(
        &mut self,
        alloc: Global,
        noscript: bool,
        text: Option<HeadText>,
        name: &str,
    ) -> Result<(), BuildFault>
        requires kept { IsKept self.old }
        requires insertion_mode { self.old.insertion_mode ≡ BuilderMode.InHead noscript text }
        requires room { Fits (step_end name.now (state_of self.old)) self.old.maker }
        ensures { Takes (step_end name.now (state_of self.old)) result self.old self.new }
    {
        if noscript || text.is_some() {
            self.end_inside_head(noscript, text, name)
        } else {
            self.end_unbegun(alloc, name)
        }
    }

    /// Takes an end tag while `noscript` or a text is open in `head`. Only its own end tag closes it
    /// (#parsing-main-inheadnoscript, #parsing-main-incdata).
    fn end_inside_head(
        &mut self,
        noscript: bool,
        text: Option<HeadText>,
        name: &str,
    ) -> Result<(), BuildFault>
        requires kept { IsKept self.old }
        requires insertion_mode { self.old.insertion_mode ≡ BuilderMode.InHead noscript text }
        requires inner { IsInner noscript text }
        ensures { Takes (step_end name.now (state_of self.old)) result self.old self.new }
    {
        let around = is_noscript_around(noscript, text);
        if current_in_head(noscript, text) == name {
            self.maker.end()?;
            self.insertion_mode = BuilderMode::InHead {
                noscript: around,
                text: None,
            };
            return Ok(());
        }
        if is_open_in_head(around, name) {
            return Err(BuildFault::from(Rule::NotCurrent));
        }
        Err(BuildFault::from(Rule::StrayEnd))
    }

    /// Takes an end tag before the body is open (#the-before-html-insertion-mode to #the-after-head-insertion-mode).
    fn end_unbegun(&mut self, alloc: Global, name: &str) -> Result<(), BuildFault>
        requires kept { IsKept self.old }
        requires unbegun { IsUnbegun self.old.insertion_mode }
        requires room { Fits (step_end name.now (state_of self.old)) self.old.maker }
        ensures { Takes (step_end name.now (state_of self.old)) result self.old self.new }
    {
        match name {
            "head" => self.end_head(alloc),
            "body" => self.leave_unbegun(alloc, BuilderMode::AfterBody),
            "html" => self.leave_unbegun(alloc, BuilderMode::AfterHtml),
            _ => Err(BuildFault::from(Rule::StrayEnd)),
        }
    }

    /// Takes the end tag of `head` (#parsing-main-inhead).
    fn end_head(&mut self, alloc: Global) -> Result<(), BuildFault>
        requires kept { IsKept self.old }
        requires unbegun { IsUnbegun self.old.insertion_mode }
        requires room { Fits (steps.end_head (insertion_mode_of self.old.insertion_mode) (state_of self.old)) self.old.maker }
        ensures { Takes (steps.end_head (insertion_mode_of self.old.insertion_mode) (state_of self.old)) result self.old self.new }
    {
        if let BuilderMode::AfterHead = self.insertion_mode {
            return Err(BuildFault::from(Rule::StrayEnd));
        }
        close_missing_head(alloc, &mut self.maker, self.insertion_mode)?;
        self.insertion_mode = BuilderMode::AfterHead;
        Ok(())
    }

    /// Makes what is missing up to `body`, and leaves the body at once: `insertion_mode` is the next mode
    /// (#parsing-main-inbody).
    fn leave_unbegun(
        &mut self,
        alloc: Global,
        insertion_mode: BuilderMode,
    ) -> Result<(), BuildFault>
        requires kept { IsKept self.old }
        requires unbegun { IsUnbegun self.old.insertion_mode }
        requires there { HasBodyPath insertion_mode }
        requires room { Fits (steps.reach_body (insertion_mode_of self.old.insertion_mode) (steps.leave_body (insertion_mode_of insertion_mode)) (state_of self.old)) self.old.maker }
        ensures { Takes (steps.reach_body (insertion_mode_of self.old.insertion_mode) (steps.leave_body (insertion_mode_of insertion_mode)) (state_of self.old)) result self.old self.new }
    {
        make_missing(alloc, &mut self.maker, self.insertion_mode)?;
        self.insertion_mode = insertion_mode;
        Ok(())
    }

    /// Takes an end tag while the body is or was open (#parsing-main-inbody, #parsing-main-incdata).
    fn end_in_body(&mut self, name: &str) -> Result<(), BuildFault>
        requires kept { IsKept self.old }
        requires body { HasBodyPath self.old.insertion_mode }
        requires room { Fits (step_end name.now (state_of self.old)) self.old.maker }
        ensures { Takes (step_end name.now (state_of self.old)) result self.old self.new }
    {
        if is_in_text(self.insertion_mode, &self.path) {
            return self.end_inner(name);
        }
        match self.insertion_mode {
            BuilderMode::AfterBody => self.end_after_body(name),
            BuilderMode::AfterHtml => Err(BuildFault::from(Rule::AfterBody)),
            _ => self.end_open(name),
        }
    }

    /// Takes an end tag after the body (#parsing-main-afterbody).
    fn end_after_body(&mut self, name: &str) -> Result<(), BuildFault>
        requires kept { IsKept self.old }
        requires insertion_mode { self.old.insertion_mode ≡ BuilderMode.AfterBody }
        requires no_text { paths.is_in_text self.old.path ≡ false }
        ensures { Takes (step_end name.now (state_of self.old)) result self.old self.new }
    {
        if name == "html" {
            self.insertion_mode = BuilderMode::AfterHtml;
            Ok(())
        } else {
            Err(BuildFault::from(Rule::AfterBody))
        }
    }

    /// Takes an end tag in the body (#parsing-main-inbody).
    fn end_open(&mut self, name: &str) -> Result<(), BuildFault>
        requires kept { IsKept self.old }
        requires insertion_mode { self.old.insertion_mode ≡ BuilderMode.InBody }
        requires no_text { paths.is_in_text self.old.path ≡ false }
        requires room { Fits (step_end name.now (state_of self.old)) self.old.maker }
        ensures { Takes (step_end name.now (state_of self.old)) result self.old self.new }
    {
        if self.path.is_in_svg() {
            return self.end_inner(name);
        }
        if same_name(name, "body") {
            return self.leave_body(BuilderMode::AfterBody);
        }
        if same_name(name, "html") {
            return self.leave_body(BuilderMode::AfterHtml);
        }
        if same_name(name, "head") {
            return Err(BuildFault::from(Rule::StrayEnd));
        }
        self.end_named(name)
    }

    /// Leaves the body, if nothing but a `p` is open in it: `insertion_mode` is the next mode (#parsing-main-inbody).
    fn leave_body(&mut self, insertion_mode: BuilderMode) -> Result<(), BuildFault>
        requires kept { IsKept self.old }
        requires here { self.old.insertion_mode ≡ BuilderMode.InBody }
        requires there { HasBodyPath insertion_mode }
        ensures { Takes (steps.leave_body (insertion_mode_of insertion_mode) (state_of self.old)) result self.old self.new }
    {
        if is_at_end(&self.path) {
            self.insertion_mode = insertion_mode;
            Ok(())
        } else {
            Err(BuildFault::from(Rule::Unclosed))
        }
    }

    /// Ends an element of HTML, and first those whose ends are implied (#parsing-main-inbody to #parsing-main-intd).
    fn end_named(&mut self, name: &str) -> Result<(), BuildFault>
        requires kept { IsKept self.old }
        requires body { HasBodyPath self.old.insertion_mode }
        requires not_body { name.now ≢ body }
        requires not_html { name.now ≢ html }
        ensures { Takes (after_end_moves (state_of self.old) (end_moves name.now self.old.path)) result self.old self.new }
    {
        let moves = self.path.end(name)?;
        end_elements(&mut self.maker, moves.closes)?;
        Ok(())
    }

    /// Ends the innermost element of the body, which is one of SVG or holds one text, if the tag has its name
    /// (#parsing-main-inforeign, #parsing-main-incdata).
    fn end_inner(&mut self, name: &str) -> Result<(), BuildFault>
        requires kept { IsKept self.old }
        requires body { HasBodyPath self.old.insertion_mode }
        requires only_current { paths.is_in_svg self.old.path || paths.is_in_text self.old.path ≡ true }
        requires room { Fits (end_current name.now (state_of self.old) self.old.path) self.old.maker }
        ensures { Takes (end_current name.now (state_of self.old) self.old.path) result self.old self.new }
    {
        // Asked only for its contract: the outermost elements are `html` and `body`.
        let _depth = self.path.len();
        if name == "body" {
            return Err(BuildFault::from(Rule::NotCurrent));
        }
        if name == "html" {
            return Err(BuildFault::from(Rule::NotCurrent));
        }
        let moves = self.path.end(name)?;
        end_elements(&mut self.maker, moves.closes)?;
        Ok(())
    }
}

/// Whether nothing but `html`, `body` and at most one `p` in it is open (#parsing-main-inbody).
pub(crate) fn is_at_end(path: &Path) -> bool
    ensures { result ≡ steps.is_at_end path.now }
{
    let depth = path.len();
    if depth != 3 {
        return depth == 2;
    }
    path.current() == "p" && !path.is_in_svg()
}

/// Whether `html`, `head` or, if `noscript` is set, `noscript` has this name.
fn is_open_in_head(noscript: bool, name: &str) -> bool
    ensures { result ≡ paths.is_open name.now (under_noscript noscript) }
{
    match name {
        "noscript" => noscript,
        "head" | "html" => true,
        _ => false,
    }
}

/// Whether the innermost element holds a text and is in `noscript`.
fn is_noscript_around(noscript: bool, text: Option<HeadText>) -> bool
    ensures { result ≡ inside.is_noscript_around noscript text }
{
    match text {
        Some(_) => noscript,
        None => false,
    }
}
