//! Doctypes and comments (HTML Standard, #parsing-main-inhtml).
ghost use Rattle.std.specs.Prelude.{◌≡◌, IfOk, OnOk};
ghost use Rattle.hm_construction_laws.specs.Steps.{step};
ghost use Rattle.hm_tree.specs.Tokens as tokens;
ghost use Rattle.hm_insertion.specs.Building.{Fits};
ghost use Rattle.hm_insertion.specs.Inside.{IsDone, IsKept, Takes, state_of};

use crate::BuildFault;
use crate::insertion::BuilderMode;
use crate::parts::Parts;
use hm_base::{OutOfMemory, OwnedText, Rule};
use std::alloc::Global;

impl Parts {
    /// Takes a doctype (#the-initial-insertion-mode).
    pub(crate) fn doctype(&mut self, legacy: bool) -> Result<(), BuildFault>
        requires kept { IsKept self.old }
        requires room { Fits (step (state_of self.old) (tokens.doctype legacy)) self.old.maker }
        ensures { Takes (step (state_of self.old) (tokens.doctype legacy)) result self.old self.new }
    {
        match self.insertion_mode {
            BuilderMode::Initial => {
                self.maker.doctype(legacy)?;
                self.insertion_mode = BuilderMode::BeforeHtml;
                self.drops_line_feed = false;
                Ok(())
            }
            _ => Err(BuildFault::Rule {
                rule: Rule::SecondDoctype,
                offset: 0,
            }),
        }
    }

    /// Takes a comment (#parsing-main-inhtml). After `</body>` and after `</html>` it is kept for the end of the page
    /// (#parsing-main-afterbody, #the-after-after-body-insertion-mode).
    pub(crate) fn comment(&mut self, alloc: Global, text: &str) -> Result<(), OutOfMemory>
        requires kept { IsKept self.old }
        requires room { Fits (step (state_of self.old) (tokens.comment text.now)) self.old.maker }
        ensures { OnOk result (IsDone (step (state_of self.old) (tokens.comment text.now)) self.old self.new) }
    {
        self.drops_line_feed = false;
        match self.insertion_mode {
            BuilderMode::AfterBody => self.comments_after_body.push(kept_word(alloc, text)?)?,
            BuilderMode::AfterHtml => self.comments_after_html.push(kept_word(alloc, text)?)?,
            _ => self.maker.comment(text)?,
        }
        Ok(())
    }
}

/// A copy of a text.
fn kept_word(alloc: Global, text: &str) -> Result<OwnedText, OutOfMemory>
    ensures { IfOk result (λ word. word ≡ text.now) }
{
    Ok(OwnedText {
        text: String::from_str(alloc, text)?,
    })
}
