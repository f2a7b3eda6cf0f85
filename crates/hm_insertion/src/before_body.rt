//! Start tags before the body (HTML Standard, #the-before-html-insertion-mode to #the-after-head-insertion-mode).
ghost use Rattle.std.specs.Prelude.{◌≡◌, [], ◌∷◌, ◌++◌, false, true, Some, None, OnOk};
ghost use Rattle.hm_construction_laws.specs.Steps as steps;
ghost use Rattle.hm_construction_laws.specs.Steps.{html_start, opened, start_inside, under_head};
ghost use Rattle.hm_elements.specs.Names.{noscript};
ghost use Rattle.hm_elements.specs.Paths.{is_in_svg, is_in_text, stands_on};
ghost use Rattle.hm_elements.specs.Tables.{is_root, is_void};
ghost use Rattle.hm_tree.specs.Trees.{HasRoom};
ghost use Rattle.hm_insertion.specs.BeforeBody as before_body;
ghost use Rattle.hm_insertion.specs.BeforeBody.{IsBefore, TakesChildren, html_opened, head_opened, in_open_head};
ghost use Rattle.hm_insertion.specs.Building.{Fits};
ghost use Rattle.hm_insertion.specs.Inside.{IsDone, IsKept, IsUnbegun, Takes, insertion_mode_of, open_path, state_of, text_name};

use crate::BuildFault;
use crate::insertion::{BuilderMode, HeadText};
use crate::make::close_missing_head;
use crate::parts::Parts;
use hm_base::{OutOfMemory, Rule};
use hm_elements::{Named, is_metadata, may_stand};
use hm_tree::{Attrs, Maker};
use std::alloc::Global;

impl Parts {
    /// Takes the start tag of `html`, `head` or `body`, each of which opens only once (#the-before-html-insertion-mode,
    /// #the-before-head-insertion-mode, #the-after-head-insertion-mode).
    pub(crate) fn open_root(
        &mut self,
        alloc: Global,
        name: &str,
        attrs: &Attrs,
    ) -> Result<(), BuildFault>
        requires kept { IsKept self.old }
        requires all { self.old.drops_line_feed ≡ false }
        requires not_text { is_in_text (open_path self.old.insertion_mode self.old.path) ≡ false }
        requires not_svg { is_in_svg (open_path self.old.insertion_mode self.old.path) ≡ false }
        requires root { is_root name.now ≡ true }
        requires room { Fits (html_start name.now attrs.now false (state_of self.old)) self.old.maker }
        ensures { Takes (html_start name.now attrs.now false (state_of self.old)) result self.old self.new }
    {
        match name {
            "html" => self.open_html(attrs),
            "head" => self.open_head(alloc, attrs),
            _ => self.open_body(alloc, attrs),
        }
    }

    /// Takes the start tag of `html` (#the-before-html-insertion-mode).
    fn open_html(&mut self, attrs: &Attrs) -> Result<(), BuildFault>
        requires kept { IsKept self.old }
        requires room { Fits (steps.open_html (insertion_mode_of self.old.insertion_mode) attrs.now (state_of self.old)) self.old.maker }
        ensures { Takes (steps.open_html (insertion_mode_of self.old.insertion_mode) attrs.now (state_of self.old)) result self.old self.new }
    {
        match self.insertion_mode {
            BuilderMode::BeforeHtml => {
                self.maker.start_from("html", false, attrs)?;
                self.insertion_mode = BuilderMode::BeforeHead;
                Ok(())
            }
            _ => Err(BuildFault::from(Rule::SecondRoot)),
        }
    }

    /// Takes the start tag of `head` (#the-before-head-insertion-mode).
    fn open_head(&mut self, alloc: Global, attrs: &Attrs) -> Result<(), BuildFault>
        requires kept { IsKept self.old }
        requires room { Fits (steps.open_head (insertion_mode_of self.old.insertion_mode) attrs.now (state_of self.old)) self.old.maker }
        ensures { Takes (steps.open_head (insertion_mode_of self.old.insertion_mode) attrs.now (state_of self.old)) result self.old self.new }
    {
        match self.insertion_mode {
            BuilderMode::BeforeHtml | BuilderMode::BeforeHead => {
                open_missing_html(alloc, &mut self.maker, self.insertion_mode)?;
                self.maker.start_from("head", false, attrs)?;
                self.insertion_mode = BuilderMode::InHead {
                    noscript: false,
                    text: None,
                };
                Ok(())
            }
            _ => Err(BuildFault::from(Rule::SecondRoot)),
        }
    }

    /// Takes the start tag of `body`, which opens only once (#the-after-head-insertion-mode).
    fn open_body(&mut self, alloc: Global, attrs: &Attrs) -> Result<(), BuildFault>
        requires kept { IsKept self.old }
        requires not_text { is_in_text (open_path self.old.insertion_mode self.old.path) ≡ false }
        requires room { Fits (steps.open_body (insertion_mode_of self.old.insertion_mode) attrs.now (state_of self.old)) self.old.maker }
        ensures { Takes (steps.open_body (insertion_mode_of self.old.insertion_mode) attrs.now (state_of self.old)) result self.old self.new }
    {
        if has_begun(self.insertion_mode) {
            return Err(BuildFault::from(Rule::SecondRoot));
        }
        self.open_body_here(alloc, attrs)
    }

    /// Opens `body` (#the-after-head-insertion-mode). What is missing before it is made, and `head` is closed.
    fn open_body_here(&mut self, alloc: Global, attrs: &Attrs) -> Result<(), BuildFault>
        requires kept { IsKept self.old }
        requires unbegun { IsUnbegun self.old.insertion_mode }
        requires room { Fits (steps.open_body (insertion_mode_of self.old.insertion_mode) attrs.now (state_of self.old)) self.old.maker }
        ensures { Takes (steps.open_body (insertion_mode_of self.old.insertion_mode) attrs.now (state_of self.old)) result self.old self.new }
    {
        close_missing_head(alloc, &mut self.maker, self.insertion_mode)?;
        self.maker.start_from("body", false, attrs)?;
        self.insertion_mode = BuilderMode::InBody;
        Ok(())
    }

    /// Takes the start tag of any other element before the body is open (#the-before-html-insertion-mode to
    /// #the-after-head-insertion-mode).
    pub(crate) fn start_before_body(
        &mut self,
        alloc: Global,
        name: &str,
        attrs: &Attrs,
        slash: bool,
    ) -> Result<(), BuildFault>
        requires kept { IsKept self.old }
        requires all { self.old.drops_line_feed ≡ false }
        requires not_text { is_in_text (open_path self.old.insertion_mode self.old.path) ≡ false }
        requires before { IsBefore self.old.insertion_mode }
        requires room { Fits (start_inside (insertion_mode_of self.old.insertion_mode) name.now attrs.now slash (state_of self.old)) self.old.maker }
        ensures { Takes (start_inside (insertion_mode_of self.old.insertion_mode) name.now attrs.now slash (state_of self.old)) result self.old self.new }
    {
        match self.insertion_mode {
            BuilderMode::AfterHead => self.start_after_head(alloc, name, attrs, slash),
            BuilderMode::InHead { noscript, .. } => {
                if noscript {
                    self.start_in_noscript(name, attrs)
                } else {
                    self.start_in_head(alloc, name, attrs, slash)
                }
            }
            _ => self.start_in_head(alloc, name, attrs, slash),
        }
    }

    /// Takes a start tag between `head` and `body` (#the-after-head-insertion-mode).
    fn start_after_head(
        &mut self,
        alloc: Global,
        name: &str,
        attrs: &Attrs,
        slash: bool,
    ) -> Result<(), BuildFault>
        requires kept { IsKept self.old }
        requires all { self.old.drops_line_feed ≡ false }
        requires insertion_mode { self.old.insertion_mode ≡ BuilderMode.AfterHead }
        requires room { Fits (steps.start_after_head name.now attrs.now slash (state_of self.old)) self.old.maker }
        ensures { Takes (steps.start_after_head name.now attrs.now slash (state_of self.old)) result self.old self.new }
    {
        if is_metadata(name) {
            return Err(BuildFault::from(Rule::AfterHead));
        }
        self.start_in_body(alloc, name, attrs, slash)
    }

    /// Takes a start tag while `head` is open or still to be made, and nothing is open in it. An element of `head`
    /// opens in it. Any other closes `head` and opens the body (#parsing-main-inhead).
    fn start_in_head(
        &mut self,
        alloc: Global,
        name: &str,
        attrs: &Attrs,
        slash: bool,
    ) -> Result<(), BuildFault>
        requires kept { IsKept self.old }
        requires all { self.old.drops_line_feed ≡ false }
        requires takes { TakesChildren self.old.insertion_mode }
        requires room { Fits (start_inside (insertion_mode_of self.old.insertion_mode) name.now attrs.now slash (state_of self.old)) self.old.maker }
        ensures { Takes (start_inside (insertion_mode_of self.old.insertion_mode) name.now attrs.now slash (state_of self.old)) result self.old self.new }
    {
        if may_stand(Named::of(name), Named::of("head"), Some("html")) {
            self.reach_head(alloc)?;
            self.start_child(name, attrs)?;
            Ok(())
        } else {
            self.start_in_body(alloc, name, attrs, slash)
        }
    }

    /// Makes `html` and `head`, if they are missing (#the-before-html-insertion-mode, #the-before-head-insertion-mode).
    fn reach_head(&mut self, alloc: Global) -> Result<(), OutOfMemory>
        requires kept { IsKept self.old }
        requires takes { TakesChildren self.old.insertion_mode }
        requires room { HasRoom (self.old.maker ++ head_opened self.old.insertion_mode) }
        ensures { OnOk result (self.new ≡ in_open_head self.old) }
    {
        open_missing_head(alloc, &mut self.maker, self.insertion_mode)?;
        self.insertion_mode = BuilderMode::InHead {
            noscript: false,
            text: None,
        };
        Ok(())
    }

    /// Starts a child of `head` (#parsing-main-inhead). A void one is ended too.
    fn start_child(&mut self, name: &str, attrs: &Attrs) -> Result<(), OutOfMemory>
        requires kept { IsKept self.old }
        requires all { self.old.drops_line_feed ≡ false }
        requires insertion_mode { self.old.insertion_mode ≡ BuilderMode.InHead false None }
        requires stands { stands_on name.now under_head ≡ true }
        requires room { Fits (opened name.now attrs.now (state_of self.old)) self.old.maker }
        ensures { OnOk result (IsDone (opened name.now attrs.now (state_of self.old)) self.old self.new) }
    {
        match name {
            "noscript" => self.start_noscript(attrs),
            "title" => self.start_text(false, HeadText::Title, attrs),
            "style" => self.start_text(false, HeadText::Style, attrs),
            "script" => self.start_text(false, HeadText::Script, attrs),
            _ => self.start_void(false, name, attrs),
        }
    }

    /// Takes a start tag in `noscript` in `head` (#parsing-main-inheadnoscript).
    fn start_in_noscript(&mut self, name: &str, attrs: &Attrs) -> Result<(), BuildFault>
        requires kept { IsKept self.old }
        requires all { self.old.drops_line_feed ≡ false }
        requires insertion_mode { self.old.insertion_mode ≡ BuilderMode.InHead true None }
        requires room { Fits (steps.start_in_noscript name.now attrs.now (state_of self.old)) self.old.maker }
        ensures { Takes (steps.start_in_noscript name.now attrs.now (state_of self.old)) result self.old self.new }
    {
        match name {
            "link" | "meta" => self.start_void(true, name, attrs)?,
            "style" => self.start_text(true, HeadText::Style, attrs)?,
            _ => return Err(BuildFault::from(Rule::WrongParent)),
        }
        Ok(())
    }

    /// Starts `noscript` in `head` (#parsing-main-inhead).
    fn start_noscript(&mut self, attrs: &Attrs) -> Result<(), OutOfMemory>
        requires kept { IsKept self.old }
        requires all { self.old.drops_line_feed ≡ false }
        requires insertion_mode { self.old.insertion_mode ≡ BuilderMode.InHead false None }
        requires room { Fits (opened noscript attrs.now (state_of self.old)) self.old.maker }
        ensures { OnOk result (IsDone (opened noscript attrs.now (state_of self.old)) self.old self.new) }
    {
        self.maker.start_from("noscript", false, attrs)?;
        self.insertion_mode = BuilderMode::InHead {
            noscript: true,
            text: None,
        };
        Ok(())
    }

    /// Starts an element that holds one text, in `head` or in `noscript` in `head` (#parsing-main-inhead,
    /// #parsing-main-inheadnoscript).
    fn start_text(
        &mut self,
        noscript: bool,
        text: HeadText,
        attrs: &Attrs,
    ) -> Result<(), OutOfMemory>
        requires kept { IsKept self.old }
        requires all { self.old.drops_line_feed ≡ false }
        requires insertion_mode { self.old.insertion_mode ≡ BuilderMode.InHead noscript None }
        requires room { Fits (opened (text_name text) attrs.now (state_of self.old)) self.old.maker }
        ensures { OnOk result (IsDone (opened (text_name text) attrs.now (state_of self.old)) self.old self.new) }
    {
        self.maker.start_from(text.name(), false, attrs)?;
        self.insertion_mode = BuilderMode::InHead {
            noscript,
            text: Some(text),
        };
        Ok(())
    }

    /// Starts and ends a void element, in `head` or in `noscript` in `head` (#parsing-main-inhead,
    /// #parsing-main-inheadnoscript).
    fn start_void(&mut self, noscript: bool, name: &str, attrs: &Attrs) -> Result<(), OutOfMemory>
        requires kept { IsKept self.old }
        requires all { self.old.drops_line_feed ≡ false }
        requires insertion_mode { self.old.insertion_mode ≡ BuilderMode.InHead noscript None }
        requires void { is_void name.now ≡ true }
        requires room { Fits (opened name.now attrs.now (state_of self.old)) self.old.maker }
        ensures { OnOk result (IsDone (opened name.now attrs.now (state_of self.old)) self.old self.new) }
    {
        self.maker.start_from(name, false, attrs)?;
        self.maker.end()
    }
}

/// Whether a start tag of `body` is refused: `body` is or was open, `noscript` is open in `head`, or no doctype was
/// read.
fn has_begun(insertion_mode: BuilderMode) -> bool
    ensures { result ≡ before_body.has_begun insertion_mode }
{
    match insertion_mode {
        BuilderMode::BeforeHtml | BuilderMode::BeforeHead | BuilderMode::AfterHead => false,
        BuilderMode::InHead { noscript, .. } => noscript,
        BuilderMode::Initial
        | BuilderMode::InBody
        | BuilderMode::AfterBody
        | BuilderMode::AfterHtml => true,
    }
}

/// Makes `html`, if it is missing (#the-before-html-insertion-mode).
fn open_missing_html(
    alloc: Global,
    maker: &mut Maker,
    insertion_mode: BuilderMode,
) -> Result<(), OutOfMemory>
    requires { HasRoom (maker.old ++ html_opened insertion_mode) }
    ensures { OnOk result (maker.new ≡ maker.old ++ html_opened insertion_mode) }
{
    match insertion_mode {
        BuilderMode::BeforeHtml => maker.start("html", false, Attrs::new(alloc)),
        _ => Ok(()),
    }
}

/// Makes `html` and `head`, if they are missing (#the-before-html-insertion-mode, #the-before-head-insertion-mode).
fn open_missing_head(
    alloc: Global,
    maker: &mut Maker,
    insertion_mode: BuilderMode,
) -> Result<(), OutOfMemory>
    requires { HasRoom (maker.old ++ head_opened insertion_mode) }
    ensures { OnOk result (maker.new ≡ maker.old ++ head_opened insertion_mode) }
{
    match insertion_mode {
        BuilderMode::BeforeHtml => {
            maker.start("html", false, Attrs::new(alloc))?;
            maker.start("head", false, Attrs::new(alloc))
        }
        BuilderMode::BeforeHead => maker.start("head", false, Attrs::new(alloc)),
        _ => Ok(()),
    }
}
