//! The end of the page (HTML Standard, #parsing-main-inhtml).
ghost use Rattle.std.specs.Prelude.{◌≡◌, ◌<◌, [], ◌++◌, length, map, IfErr, OnOk};
ghost use Rattle.hm_base.specs.Walks as walks;
ghost use Rattle.hm_base.specs.Walks.{path_after};
ghost use Rattle.hm_construction_laws.specs.Steps.{closing, step_over};
ghost use Rattle.hm_tree.specs.Trees.{HasRoom};
ghost use Rattle.hm_insertion.specs.Building.{Builds, Fits, IsBuilt, IsRefused};
ghost use Rattle.hm_insertion.specs.Inside as inside;
ghost use Rattle.hm_insertion.specs.Inside.{IsKept, state_of};

use crate::BuildFault;
use crate::end_tag::is_at_end;
use crate::insertion::BuilderMode;
use crate::make::make_missing;
use crate::moves::end_elements;
use crate::parts::{Parts, is_in_text};
use hm_base::{OutOfMemory, OwnedText, Rule};
use hm_open_elements::Path;
use hm_tree::{Maker, Tree};
use std::alloc::Global;

impl Parts {
    /// Makes all that is missing, closes all elements, and returns the tree (#the-before-html-insertion-mode to
    /// #parsing-main-inbody).
    pub(crate) fn finish(self, alloc: Global) -> Result<Tree, BuildFault>
        requires kept { IsKept self }
        requires room { Fits (step_over (state_of self)) self.maker }
        ensures { Builds (step_over (state_of self)) result self.maker }
    {
        let mut parts = self;
        match parts.end_page(alloc) {
            Ok(()) => Ok(parts.maker.finish()),
            Err(fault) => Err(fault),
        }
    }

    /// Makes all that is missing, and closes all elements.
    #[inline(always)]
    fn end_page(&mut self, alloc: Global) -> Result<(), BuildFault>
        requires kept { IsKept self.old }
        requires room { Fits (step_over (state_of self.old)) self.old.maker }
        ensures built { OnOk result (IsBuilt (step_over (state_of self.old)) self.old.maker self.new.maker) }
        ensures closed { OnOk result (path_after [] self.new.maker ≡ []) }
        ensures err { IfErr result (IsRefused (step_over (state_of self.old))) }
    {
        if is_in_text(self.insertion_mode, &self.path) {
            return Err(BuildFault::from(Rule::Cut));
        }
        if let Some(rule) = end_rule(self.insertion_mode, &self.path) {
            return Err(BuildFault::from(rule));
        }
        // Asked only for its contract: the outermost elements are `html` and `body`.
        let _depth = self.path.len();
        make_missing(alloc, &mut self.maker, self.insertion_mode)?;
        close_all(
            &mut self.maker,
            self.comments_after_body.as_slice(),
            self.comments_after_html.as_slice(),
        )?;
        Ok(())
    }
}

/// The rule by which the page may not end here, if there is one (#the-initial-insertion-mode,
/// #parsing-main-inheadnoscript, #parsing-main-inbody).
fn end_rule(insertion_mode: BuilderMode, path: &Path) -> Option<Rule>
    ensures { result ≡ inside.end_rule insertion_mode path.now }
{
    match insertion_mode {
        BuilderMode::Initial => Some(Rule::NoDoctype),
        BuilderMode::InHead {
            noscript: true,
            text: None,
        } => Some(Rule::Unclosed),
        BuilderMode::InBody => (!is_at_end(path)).then_some(Rule::Unclosed),
        _ => None,
    }
}

/// Ends all open elements. The comments `inner` come before the last end, the comments `last` after it.
fn close_all(maker: &mut Maker, inner: &[OwnedText], last: &[OwnedText]) -> Result<(), OutOfMemory>
    requires open_still { 0 < length (path_after [] maker.old) }
    requires room { HasRoom (maker.old ++ closing (path_after [] maker.old) inner.now last.now) }
    ensures { OnOk result (maker.new ≡ maker.old ++ closing (path_after [] maker.old) inner.now last.now) }
{
    let depth = maker.depth();
    end_elements(maker, depth - 1)?;
    put_comments(maker, inner)?;
    maker.end()?;
    put_comments(maker, last)
}

/// Appends comments.
fn put_comments(maker: &mut Maker, comments: &[OwnedText]) -> Result<(), OutOfMemory>
    requires { HasRoom (maker.old ++ map walks.comment comments.now) }
    ensures { OnOk result (maker.new ≡ maker.old ++ map walks.comment comments.now) }
{
    for word in comments {
        maker.comment(word.text.as_str())?;
    }
    Ok(())
}
