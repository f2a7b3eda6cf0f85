//! Makes the elements whose tags are left out (HTML Standard, #the-before-html-insertion-mode to
//! #the-after-head-insertion-mode).
ghost use Rattle.std.specs.Prelude.{◌≡◌, [], ◌∷◌, ◌++◌, OnOk};
ghost use Rattle.hm_base.specs.Walks.{path_after};
ghost use Rattle.hm_construction_laws.specs.Steps.{under_html, under_head};
ghost use Rattle.hm_tree.specs.Trees.{HasRoom};
ghost use Rattle.hm_insertion.specs.Inside.{CanMake, missing, body_made, head_closed, head_ended, head_made, html_made, html_then_head, only_head};

use crate::insertion::BuilderMode;
use hm_base::OutOfMemory;
use hm_tree::{Attrs, Maker};
use std::alloc::Global;

/// Makes what is missing up to `body` in the mode `insertion_mode`, and closes `head` (#the-before-html-insertion-mode
/// to #the-after-head-insertion-mode).
#[inline(always)]
pub(crate) fn make_missing(
    alloc: Global,
    maker: &mut Maker,
    insertion_mode: BuilderMode,
) -> Result<(), OutOfMemory>
    requires room { HasRoom (maker.old ++ missing insertion_mode) }
    requires open_there { CanMake insertion_mode (path_after [] maker.old) }
    ensures { OnOk result (maker.new ≡ maker.old ++ missing insertion_mode) }
{
    match insertion_mode {
        BuilderMode::BeforeHtml => make_html_up_to_body(alloc, maker),
        BuilderMode::BeforeHead => make_head_up_to_body(alloc, maker),
        BuilderMode::InHead { .. } => close_head_and_make_body(alloc, maker),
        BuilderMode::AfterHead => make_body(alloc, maker),
        BuilderMode::Initial
        | BuilderMode::InBody
        | BuilderMode::AfterBody
        | BuilderMode::AfterHtml => Ok(()),
    }
}

/// Makes `html`, `head` and `body`. `head` is closed, the others stay open.
fn make_html_up_to_body(alloc: Global, maker: &mut Maker) -> Result<(), OutOfMemory>
    requires room { HasRoom (maker.old ++ html_made) }
    requires open_there { path_after [] maker.old ≡ [] }
    ensures { OnOk result (maker.new ≡ maker.old ++ html_made) }
{
    maker.start("html", false, Attrs::new(alloc))?;
    make_head_up_to_body(alloc, maker)
}

/// Makes `head` and `body`. `head` is closed, `body` stays open.
fn make_head_up_to_body(alloc: Global, maker: &mut Maker) -> Result<(), OutOfMemory>
    requires room { HasRoom (maker.old ++ head_made) }
    requires open_there { path_after [] maker.old ≡ under_html }
    ensures { OnOk result (maker.new ≡ maker.old ++ head_made) }
{
    maker.start("head", false, Attrs::new(alloc))?;
    close_head_and_make_body(alloc, maker)
}

/// Closes `head`, and makes `body`, which stays open.
fn close_head_and_make_body(alloc: Global, maker: &mut Maker) -> Result<(), OutOfMemory>
    requires room { HasRoom (maker.old ++ head_closed) }
    requires open_there { path_after [] maker.old ≡ under_head }
    ensures { OnOk result (maker.new ≡ maker.old ++ head_closed) }
{
    maker.end()?;
    make_body(alloc, maker)
}

/// Makes `body`, which stays open.
fn make_body(alloc: Global, maker: &mut Maker) -> Result<(), OutOfMemory>
    requires { HasRoom (maker.old ++ body_made) }
    ensures { OnOk result (maker.new ≡ maker.old ++ body_made) }
{
    maker.start("body", false, Attrs::new(alloc))
}

/// Makes `head`, if it is missing, and closes it (#the-before-html-insertion-mode to #parsing-main-inhead).
pub(crate) fn close_missing_head(
    alloc: Global,
    maker: &mut Maker,
    insertion_mode: BuilderMode,
) -> Result<(), OutOfMemory>
    requires room { HasRoom (maker.old ++ head_ended insertion_mode) }
    requires open_there { CanMake insertion_mode (path_after [] maker.old) }
    ensures { OnOk result (maker.new ≡ maker.old ++ head_ended insertion_mode) }
{
    match insertion_mode {
        BuilderMode::BeforeHtml => make_html_and_closed_head(alloc, maker),
        BuilderMode::BeforeHead => make_closed_head(alloc, maker),
        BuilderMode::InHead { .. } => maker.end(),
        _ => Ok(()),
    }
}

/// Makes `html` and `head`, and closes `head`.
fn make_html_and_closed_head(alloc: Global, maker: &mut Maker) -> Result<(), OutOfMemory>
    requires room { HasRoom (maker.old ++ html_then_head) }
    requires open_there { path_after [] maker.old ≡ [] }
    ensures { OnOk result (maker.new ≡ maker.old ++ html_then_head) }
{
    maker.start("html", false, Attrs::new(alloc))?;
    make_closed_head(alloc, maker)
}

/// Makes `head`, and closes it.
fn make_closed_head(alloc: Global, maker: &mut Maker) -> Result<(), OutOfMemory>
    requires room { HasRoom (maker.old ++ only_head) }
    requires open_there { path_after [] maker.old ≡ under_html }
    ensures { OnOk result (maker.new ≡ maker.old ++ only_head) }
{
    maker.start("head", false, Attrs::new(alloc))?;
    maker.end()
}
