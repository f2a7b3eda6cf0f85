//! Start tags (HTML Standard, #parsing-main-inhtml).
ghost use Rattle.std.specs.Prelude.{◌≡◌, ◌≤◌, [], ◌∷◌, ◌++◌, length, map, take, false, OnOk, IfErr};
ghost use Rattle.hm_base.specs.Walks as walks;
ghost use Rattle.hm_base.specs.Walks.{path_after};
ghost use Rattle.hm_construction_laws.specs.Steps.{end_event, html_start, reach_body, start_in_body, starts, step, step_start};
ghost use Rattle.hm_elements.specs.Paths.{is_in_text};
ghost use Rattle.hm_elements.specs.Tables as tables;
ghost use Rattle.hm_open_elements.specs.Answers.{elements_of};
ghost use Rattle.hm_open_elements.specs.Plans as plans;
ghost use Rattle.hm_tree.specs.Tokens as tokens;
ghost use Rattle.hm_tree.specs.Trees.{HasRoom};
ghost use Rattle.hm_insertion.specs.BeforeBody.{IsBefore};
ghost use Rattle.hm_insertion.specs.Building.{Fits};
ghost use Rattle.hm_insertion.specs.Inside.{CanReach, IsEntered, IsKept, IsOpened, Takes, insertion_mode_of, open_path, state_of};

use crate::BuildFault;
use crate::insertion::BuilderMode;
use crate::make::make_missing;
use crate::moves::{end_elements, start_made};
use crate::parts::Parts;
use hm_base::{OutOfMemory, Rule};
use hm_elements::{Named, is_preformatted, is_refused, is_root, same_name};
use hm_open_elements::{Moves, Path};
use hm_tree::{Attrs, Maker};
use std::alloc::Global;

impl Parts {
    /// Takes a start tag (#parsing-main-inhtml). None may come inside an element that holds one text.
    #[inline(always)]
    pub(crate) fn start_tag(
        &mut self,
        alloc: Global,
        name: &str,
        attrs: &Attrs,
        slash: bool,
    ) -> Result<(), BuildFault>
        requires kept { IsKept self.old }
        requires not_text { is_in_text (open_path self.old.insertion_mode self.old.path) ≡ false }
        requires room { Fits (step (state_of self.old) (tokens.start_tag name.now attrs.now slash)) self.old.maker }
        ensures { Takes (step (state_of self.old) (tokens.start_tag name.now attrs.now slash)) result self.old self.new }
    {
        self.drops_line_feed = false;
        self.start_undropped(alloc, name, attrs, slash)
    }

    /// Takes a start tag, after the flag that drops an LF is cleared (#parsing-main-inhtml).
    #[inline(always)]
    fn start_undropped(
        &mut self,
        alloc: Global,
        name: &str,
        attrs: &Attrs,
        slash: bool,
    ) -> Result<(), BuildFault>
        requires kept { IsKept self.old }
        requires all { self.old.drops_line_feed ≡ false }
        requires not_text { is_in_text (open_path self.old.insertion_mode self.old.path) ≡ false }
        requires room { Fits (step_start name.now attrs.now slash (state_of self.old)) self.old.maker }
        ensures { Takes (step_start name.now attrs.now slash (state_of self.old)) result self.old self.new }
    {
        match self.insertion_mode {
            BuilderMode::Initial => Err(BuildFault::from(Rule::NoDoctype)),
            BuilderMode::AfterBody | BuilderMode::AfterHtml => Err(BuildFault::from(
                Rule::AfterBody,
            )),
            BuilderMode::InBody => self.start_in_body(alloc, name, attrs, slash),
            _ => self.start_html(alloc, name, attrs, slash),
        }
    }

    /// Takes a start tag before the body is open (#the-before-html-insertion-mode to #the-after-head-insertion-mode).
    fn start_html(
        &mut self,
        alloc: Global,
        name: &str,
        attrs: &Attrs,
        slash: bool,
    ) -> Result<(), BuildFault>
        requires kept { IsKept self.old }
        requires all { self.old.drops_line_feed ≡ false }
        requires not_text { is_in_text (open_path self.old.insertion_mode self.old.path) ≡ false }
        requires before { IsBefore self.old.insertion_mode }
        requires room { Fits (html_start name.now attrs.now slash (state_of self.old)) self.old.maker }
        ensures { Takes (html_start name.now attrs.now slash (state_of self.old)) result self.old self.new }
    {
        if is_refused(name) {
            return Err(BuildFault::from(Rule::RefusedName));
        }
        if is_root(name) {
            return self.open_root(alloc, name, attrs);
        }
        self.start_before_body(alloc, name, attrs, slash)
    }

    /// Opens an element in the body. A missing body is made first (#parsing-main-inbody, #parsing-main-inforeign).
    pub(crate) fn start_in_body(
        &mut self,
        alloc: Global,
        name: &str,
        attrs: &Attrs,
        slash: bool,
    ) -> Result<(), BuildFault>
        requires kept { IsKept self.old }
        requires reach { CanReach self.old.insertion_mode }
        requires all { self.old.drops_line_feed ≡ false }
        requires room { Fits (reach_body (insertion_mode_of self.old.insertion_mode) (start_in_body name.now attrs.now slash) (state_of self.old)) self.old.maker }
        ensures { Takes (reach_body (insertion_mode_of self.old.insertion_mode) (start_in_body name.now attrs.now slash) (state_of self.old)) result self.old self.new }
    {
        let foreign = opens_as_svg(&self.path, name);
        let tag = Named::of(name);
        let moves = self.path.start_known(tag, foreign)?;
        make_missing(alloc, &mut self.maker, self.insertion_mode)?;
        self.insertion_mode = BuilderMode::InBody;
        move_and_start(alloc, &mut self.maker, moves, name, foreign, attrs)?;
        self.close_at_once(tag, foreign, slash)
    }

    /// Closes a void element, and one of SVG whose tag ends in `/>`. Any other stays open. After `pre` and `textarea`
    /// the next LF is dropped (#parsing-main-inbody, #parsing-main-inforeign).
    fn close_at_once(
        &mut self,
        tag: Named<'_>,
        foreign: bool,
        slash: bool,
    ) -> Result<(), BuildFault>
        requires { IsOpened tag.name.now foreign self.old }
        ensures ok { OnOk result (IsEntered slash self.old self.new) }
        ensures err { IfErr result (λ fault. fault ≡ BuildFault.OutOfMemory) }
    {
        if foreign {
            if slash {
                self.path.end(tag.name())?;
                self.maker.end()?;
            }
            return Ok(());
        }
        if tag.is_void() {
            self.maker.end()?;
            return Ok(());
        }
        self.drops_line_feed = is_preformatted(tag.name());
        Ok(())
    }
}

/// Whether the element opens as one of SVG (#parsing-main-inforeign).
fn opens_as_svg(path: &Path, name: &str) -> bool
    ensures { result ≡ plans.opens_as_svg name.now path.now }
{
    path.is_in_svg() || same_name(name, "svg")
}

/// Ends the elements that the tag closes, starts those that it makes, and then its own (#parsing-main-inbody and
/// following, #creating-and-inserting-nodes).
fn move_and_start(
    alloc: Global,
    maker: &mut Maker,
    moves: Moves,
    name: &str,
    foreign: bool,
    attrs: &Attrs,
) -> Result<(), OutOfMemory>
    requires closes { moves.closes ≤ length (path_after [] maker.old) }
    requires room { HasRoom (maker.old ++ ((map end_event (take moves.closes (path_after [] maker.old)) ++ starts (elements_of moves.made)) ++ walks.start name.now foreign attrs.now ∷ [])) }
    ensures { OnOk result (maker.new ≡ maker.old ++ ((map end_event (take moves.closes (path_after [] maker.old)) ++ starts (elements_of moves.made)) ++ walks.start name.now foreign attrs.now ∷ [])) }
{
    end_elements(maker, moves.closes)?;
    start_made(alloc, maker, moves.made)?;
    maker.start_from(name, foreign, attrs)
}
