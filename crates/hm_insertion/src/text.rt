//! Texts (HTML Standard, #parsing-main-inhtml).
ghost use Rattle.std.specs.Prelude.{◌≡◌, ◌+◌, ◌^◌, ◌<◌, ◌++◌, length, string_bytes, encode_utf8_all, true, false, None, IfOk, OnOk};
ghost use Rattle.hm_elements.specs.Paths as paths;
ghost use Rattle.hm_tree.specs.Trees.{HasRoom, last_agrees};
ghost use Rattle.hm_construction_laws.specs.Steps.{after_bytes, step, step_bytes};
ghost use Rattle.hm_tree.specs.Tokens as tokens;
ghost use Rattle.hm_tree.specs.Tokens.{points_of};
ghost use Rattle.hm_insertion.specs.Building.{Fits};
ghost use Rattle.hm_insertion.specs.Inside as inside;
ghost use Rattle.hm_insertion.specs.Inside.{IsCut, IsKept, IsPutAfter, Takes, mixed_events, open_path, state_of, with_blank};

use crate::BuildFault;
use crate::insertion::BuilderMode;
use crate::make::make_missing;
use crate::parts::{Parts, is_in_raw, is_in_text};
use hm_base::{OutOfMemory, Points, Rule, is_space};
use hm_tree::Maker;
use std::alloc::Global;

/// The whitespace at the start of the text, and the rest.
fn split_blank(text: &str) -> (&str, &str)
    ensures { IsCut text.now result.0.now result.1.now }
{
    let bytes = text.as_bytes();
    let mut at = 0;
    while at < bytes.len() && is_space(char::from(bytes[at])) {
        at += 1;
    }
    (&text[..at], &text[at..])
}

/// Why a text that isn't whitespace is refused (#parsing-main-inhtml, #parsing-main-intabletext, #parsing-main-inselect).
fn text_rule(insertion_mode: BuilderMode, path: &hm_open_elements::Path) -> Option<Rule>
    ensures { result ≡ inside.text_rule insertion_mode path.now }
{
    match insertion_mode {
        BuilderMode::Initial => Some(Rule::NoDoctype),
        BuilderMode::InHead {
            noscript: true,
            text: None,
        } => Some(Rule::TextHere),
        BuilderMode::InBody => path.is_in_blank().then_some(Rule::TextHere),
        BuilderMode::AfterBody | BuilderMode::AfterHtml => Some(Rule::AfterBody),
        _ => None,
    }
}

/// Fast path: in body, where any text is allowed (#parsing-main-inbody).
#[inline(always)]
fn holds_any_text(insertion_mode: BuilderMode, path: &hm_open_elements::Path) -> bool
    ensures body { result ≡ true → insertion_mode ≡ BuilderMode.InBody }
    ensures plain { result ≡ true → paths.is_in_blank path.now ≡ false }
{
    match insertion_mode {
        BuilderMode::InBody => !path.is_in_blank(),
        _ => false,
    }
}

/// Appends whitespace, or drops it before `head` (#the-initial-insertion-mode to #the-before-head-insertion-mode).
fn keep_blank(maker: &mut Maker, insertion_mode: BuilderMode, text: &str) -> Result<(), OutOfMemory>
    requires room { HasRoom (with_blank insertion_mode maker.old text.now) }
    requires same_raw { last_agrees maker.old false ≡ true }
    ensures { OnOk result (maker.new ≡ with_blank insertion_mode maker.old text.now) }
{
    match insertion_mode {
        BuilderMode::Initial | BuilderMode::BeforeHtml | BuilderMode::BeforeHead => Ok(()),
        BuilderMode::InHead { .. }
        | BuilderMode::AfterHead
        | BuilderMode::InBody
        | BuilderMode::AfterBody
        | BuilderMode::AfterHtml => maker.text(text, false),
    }
}

impl Parts {
    /// Takes a text of fewer than 2^32 bytes (#parsing-main-inhtml). An LF directly after the start tag of `pre` or
    /// `textarea` is dropped (#parsing-main-inbody).
    pub(crate) fn text(&mut self, alloc: Global, text: &str) -> Result<(), BuildFault>
        requires kept { IsKept self.old }
        requires short { length text.now < 2 ^ 32 }
        requires room { Fits (step_bytes text.now (state_of self.old)) self.old.maker }
        ensures { Takes (step_bytes text.now (state_of self.old)) result self.old self.new }
    {
        if !self.drops_line_feed {
            return self.plain_text(alloc, text, 0);
        }
        if text.is_empty() {
            return Ok(());
        }
        self.drops_line_feed = false;
        match text.strip_prefix('\n') {
            Some(rest) => self.plain_text(alloc, rest, 1),
            None => self.plain_text(alloc, text, 0),
        }
    }

    /// Takes the code points of a character reference (#parsing-main-inhtml).
    pub(crate) fn points(&mut self, alloc: Global, points: Points) -> Result<(), BuildFault>
        requires kept { IsKept self.old }
        requires room { Fits (step (state_of self.old) (tokens.points (points_of points))) self.old.maker }
        ensures { Takes (step (state_of self.old) (tokens.points (points_of points))) result self.old self.new }
    {
        let text = text_of(alloc, points)?;
        match self.text(alloc, text.as_str()) {
            Ok(()) => Ok(()),
            Err(fault) => Err(fault.at_front()),
        }
    }

    /// Takes a text from which no LF is dropped. `before` bytes of its token are before it (#parsing-main-inhtml).
    fn plain_text(&mut self, alloc: Global, text: &str, before: u32) -> Result<(), BuildFault>
        requires kept { IsKept self.old }
        requires all { self.old.drops_line_feed ≡ false }
        requires short { before + length text.now < 2 ^ 32 }
        requires room { Fits (step_bytes text.now (state_of self.old)) self.old.maker }
        ensures { Takes (after_bytes before (step_bytes text.now (state_of self.old))) result self.old self.new }
    {
        if is_in_text(self.insertion_mode, &self.path) {
            let raw = is_in_raw(self.insertion_mode, &self.path);
            self.maker.text(text, raw)?;
            return Ok(());
        }
        if holds_any_text(self.insertion_mode, &self.path) {
            self.maker.text(text, false)?;
            return Ok(());
        }
        let (blank, rest) = split_blank(text);
        if rest.is_empty() {
            keep_blank(&mut self.maker, self.insertion_mode, blank)?;
            return Ok(());
        }
        if let Some(rule) = text_rule(self.insertion_mode, &self.path) {
            let offset = before + blank.len() as u32;
            return Err(BuildFault::Rule { rule, offset });
        }
        self.mixed_text(alloc, blank, rest)?;
        Ok(())
    }

    /// Takes whitespace, and a text after it that isn't whitespace. Both are allowed here
    /// (#the-before-html-insertion-mode to #parsing-main-inbody).
    fn mixed_text(&mut self, alloc: Global, blank: &str, rest: &str) -> Result<(), OutOfMemory>
        requires kept { IsKept self.old }
        requires not_text { paths.is_in_text (open_path self.old.insertion_mode self.old.path) ≡ false }
        requires stands { inside.text_rule self.old.insertion_mode self.old.path ≡ None }
        requires room { HasRoom (self.old.maker ++ mixed_events self.old.insertion_mode blank.now rest.now) }
        ensures { OnOk result (IsPutAfter (mixed_events self.old.insertion_mode blank.now rest.now) self.old self.new) }
    {
        keep_blank(&mut self.maker, self.insertion_mode, blank)?;
        make_missing(alloc, &mut self.maker, self.insertion_mode)?;
        self.insertion_mode = BuilderMode::InBody;
        self.maker.text(rest, false)?;
        Ok(())
    }
}

/// The text of one or two code points.
fn text_of(alloc: Global, points: Points) -> Result<String, OutOfMemory>
    ensures { IfOk result (λ text. string_bytes text ≡ encode_utf8_all (points_of points)) }
{
    let mut text = String::new(alloc);
    text.push(points.first)?;
    if let Some(second) = points.second {
        text.push(second)?;
    }
    Ok(text)
}
