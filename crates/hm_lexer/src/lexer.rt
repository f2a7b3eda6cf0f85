//! The lexer: reads a text token by token.
ghost use Rattle.std.specs.Prelude.{◌≡◌, ◌≢◌, ℕ, ◌+◌, ◌^◌, ◌<◌, ◌≤◌, true, false, List, drop, length, IfOk, IfErr, OnErr, IsCharBoundary};
ghost use Rattle.hm_base.specs.RawText.{raw_end};
ghost use Rattle.hm_base.specs.Source.{place_in};
ghost use Rattle.hm_tree.specs.Lexemes.{next_of, token_of};
ghost use Rattle.hm_tree.specs.Tokens.{BeginsAt, Reads, refused};
ghost use Rattle.hm_tree.specs.declared.tokens.Tag as places;
ghost use Rattle.hm_scan.specs.Reading as tags;
ghost use Rattle.hm_scan.specs.Texts as texts;
ghost use Rattle.hm_token_laws.specs.First as tokens;
ghost use Rattle.hm_lexer.specs.Modes.{mode_of, rcdata_name};
ghost use Rattle.hm_lexer.specs.Parts.{GivesPart, IsWhole, RefusesPart, left_of};
ghost use Rattle.hm_lexer.specs.Reading.{Gives, Refuses, text_front, text_of};
ghost use Rattle.hm_lexer.specs.Steps.{Ends, IsAfterNothing, IsLexer, has_markup, read_in, refusal_of};

use crate::inside::{raw_text_end, scan_raw_text, scan_script_text, scan_up_to};
use crate::modes::{Mode, RcdataName};
use crate::ordinary::{after_empty_tags, scan_here};
use crate::parts::scan_part;
use hm_base::{Refused, Rule, SourceText};
use hm_refs::Table;
use hm_scan::{begins_markup, begins_tag, scan_tag_into};
use hm_tree::{Lexeme, Placed, ScanFault, Spanned, Tag};
use std::alloc::Global;
use std::marker::Model;

/// The end of the text of a title or a textarea, in bytes of the page's text.
#[derive(Clone, Copy)]
struct TextEnd {
    name: RcdataName,
    place: u32,
}

/// A text that is read token by token.
///
/// Contracts see the named character references, the text with its places, and how many of its bytes were read.
///
/// To read a token the lexer looks no further than the end of the token. If a piece of text ends before a character
/// reference, it looks to the end of that reference. If a token has no end, it looks to the end of the text, and the
/// page is refused. So all tokens of a page together take time linear in it. In title, textarea, style, iframe and
/// script the first token searches for the end tag of the element. The later pieces of a title or a textarea don't
/// search again.
#[derive(Drop)]
pub struct Lexer<'a> {
    source: &'a SourceText,
    table: &'a Table,
    at: u32,
    /// The end of the text of a title or a textarea, once it was found, so that later pieces don't search for it again.
    text_end: Option<TextEnd>,
}

impl<'a> Model for Lexer<'a> {
    ghost use Rattle.std.specs.Prelude.{map};
    ghost use Rattle.hm_base.specs.Source.{byte_of};
    ghost use Rattle.hm_lexer.specs.Reading.{Reading};
    ghost use Rattle.hm_lexer.specs.Steps.{IsLexer};

    ghost Value = { Reading };

    ghost view = { λ l. record { names = l.table.now.entries; source = l.source.now; at = l.at } };

    ghost invariant = { λ l. IsLexer (map byte_of l.source.now.placed) l.at l.text_end };
}

/// The refusal of a page by a fault at byte `at` of the text.
fn refusal(source: &SourceText, fault: ScanFault, at: u32) -> Refused
    requires { at ≤ length source.now.placed }
    ensures { result ≡ refusal_of fault (place_in source.now.placed source.now.end at) }
{
    let rule = match fault {
        ScanFault::Cut => Rule::Cut,
        ScanFault::BadName => Rule::BadName,
        ScanFault::TooManyAttributes => Rule::TooManyAttributes,
        ScanFault::BadDoctype => Rule::BadDoctype,
        ScanFault::OutOfMemory => return Refused::OutOfMemory,
    };
    Refused::Page {
        rule,
        at: source.place_of(at),
    }
}

/// The byte at or after `at` at which the next token starts.
#[inline(always)]
fn token_start(text: &str, at: u32, mode: Mode) -> u32
    requires boundary { IsCharBoundary text.now at }
    requires size { length text.now < 2 ^ 32 }
    ensures { IsAfterNothing (mode_of mode) text.now at result }
{
    match mode {
        Mode::Html | Mode::Foreign => after_empty_tags(text, at),
        Mode::Rcdata { .. } | Mode::Raw { .. } | Mode::Script => at,
    }
}

/// The known end of a text, unless byte `to` is after it.
#[inline(always)]
fn kept_end(end: Option<TextEnd>, to: u32) -> Option<TextEnd>
    ensures { (s : List ℕ) (at : ℕ) → at ≤ to → IsCharBoundary s to → IsLexer s at end → IsLexer s to result }
{
    match end {
        Some(kept) if to <= kept.place => Some(kept),
        _ => None,
    }
}

impl<'a> Lexer<'a> {
    /// A lexer at the start of a text.
    pub fn new(text: &'a SourceText, table: &'a Table) -> Lexer<'a>
        ensures { result ≡ record { names = table.now.entries; source = text.now; at = 0 } }
    {
        let _text = text.text();
        Lexer {
            source: text,
            table,
            at: 0,
            text_end: None,
        }
    }

    /// Reads the next token, with the bytes of the text that it was read from. None at the end of the text.
    ///
    /// `</>` is no token and is skipped. A refusal has the place of the token's first byte in the page, and leaves the
    /// lexer unchanged. Its rule is `Cut` if the token has no end, `BadName`, `TooManyAttributes` or `BadDoctype`.
    pub fn next(&mut self, alloc: Global, mode: Mode) -> Result<Option<Spanned>, Refused>
        ensures ok { IfOk result (λ token. Gives self.old (mode_of mode) token self.new) }
        ensures err { IfErr result (λ refusal. Refuses self.old (mode_of mode) refusal) }
        ensures unchanged { OnErr result (self.new ≡ self.old) }
    {
        let mut tag = Tag::new(alloc);
        match self.next_into(alloc, mode, &mut tag) {
            Ok(Some(placed)) => Ok(Some(placed.spanned(tag))),
            Ok(None) => Ok(None),
            Err(refused) => Err(refused),
        }
    }

    /// As `next`, but puts a tag's name and attributes into `tag`, over those of an earlier tag. After a refusal they
    /// may be anything.
    pub fn next_into(
        &mut self,
        alloc: Global,
        mode: Mode,
        tag: &mut Tag,
    ) -> Result<Option<Placed>, Refused>
        ensures ok { IfOk result (λ placed. Gives self.old (mode_of mode) (next_of placed tag.new) self.new) }
        ensures err { IfErr result (λ refusal. Refuses self.old (mode_of mode) refusal) }
        ensures unchanged { OnErr result (self.new ≡ self.old) }
    {
        let text = self.source.text();
        if mode.has_markup() && begins_tag(text, self.at) {
            return self.next_tag(alloc, mode, tag);
        }
        let from = token_start(text, self.at, mode);
        if from as usize == text.len() {
            return Ok(None);
        }
        match self.scan(alloc, mode, from, tag) {
            Ok((lexeme, to)) => {
                self.advance(to);
                Ok(Some(Placed { lexeme, from, to }))
            }
            Err(fault) => Err(refusal(self.source, fault, from)),
        }
    }

    /// How many bytes of the text were read.
    pub fn at(&self) -> u32
        ensures { result ≡ self.now.at }
    {
        self.at
    }

    /// Reads the next token of a text of which more may follow, or a piece of it if it is ordinary text. None if more
    /// input is needed; an incomplete token isn't an error.
    pub fn part_into(
        &mut self,
        alloc: Global,
        mode: Mode,
        tag: &mut Tag,
    ) -> Result<Option<Placed>, Refused>
        ensures ok { IfOk result (λ placed. GivesPart self.old (mode_of mode) (next_of placed tag.new) self.new) }
        ensures err { IfErr result (λ refusal. RefusesPart self.old (mode_of mode) refusal) }
        ensures unchanged { OnErr result (self.new ≡ self.old) }
    {
        if !mode.has_markup() {
            return self.whole_part(alloc, mode, tag);
        }
        let text = self.source.text();
        if begins_tag(text, self.at) {
            return self.tag_part(alloc, mode, tag);
        }
        let begin = token_start(text, self.at, mode);
        if begin as usize == text.len() {
            return Ok(None);
        }
        if begins_markup(text, begin) {
            return self.whole_part(alloc, mode, tag);
        }
        Ok(self.part_of_text(mode, begin))
    }

    /// Reads the next token, of which no piece may be taken. None if more input is needed.
    fn whole_part(
        &mut self,
        alloc: Global,
        mode: Mode,
        tag: &mut Tag,
    ) -> Result<Option<Placed>, Refused>
        requires { IsWhole self.old.names (mode_of mode) (left_of self.old) }
        ensures ok { IfOk result (λ placed. GivesPart self.old (mode_of mode) (next_of placed tag.new) self.new) }
        ensures err { IfErr result (λ refusal. RefusesPart self.old (mode_of mode) refusal) }
        ensures unchanged { OnErr result (self.new ≡ self.old) }
    {
        match self.next_into(alloc, mode, tag) {
            Ok(placed) => {
                let _at = self.at;
                return Ok(placed);
            }
            Err(Refused::Page { rule, at }) => {
                if rule == Rule::Cut {
                    return Ok(None);
                }
                Err(Refused::Page { rule, at })
            }
            Err(Refused::OutOfMemory) => return Err(Refused::OutOfMemory),
        }
    }

    /// Reads the tag at the lexer's place. None if it has no end yet.
    #[inline(always)]
    fn tag_part(
        &mut self,
        alloc: Global,
        mode: Mode,
        tag: &mut Tag,
    ) -> Result<Option<Placed>, Refused>
        requires markup { has_markup (mode_of mode) ≡ true }
        requires begins { tags.begins_tag (drop self.old.at (text_of self.old)) ≡ true }
        requires whole { IsWhole self.old.names (mode_of mode) (left_of self.old) }
        ensures ok { IfOk result (λ placed. GivesPart self.old (mode_of mode) (next_of placed tag.new) self.new) }
        ensures err { IfErr result (λ refusal. RefusesPart self.old (mode_of mode) refusal) }
        ensures unchanged { OnErr result (self.new ≡ self.old) }
    {
        match self.next_tag(alloc, mode, tag) {
            Ok(placed) => {
                let _at = self.at;
                return Ok(placed);
            }
            Err(Refused::Page { rule, at }) => {
                if rule == Rule::Cut {
                    return Ok(None);
                }
                Err(Refused::Page { rule, at })
            }
            Err(Refused::OutOfMemory) => return Err(Refused::OutOfMemory),
        }
    }

    /// Reads the piece of ordinary text that starts at `from`. None if more input is needed.
    #[inline(always)]
    fn part_of_text(&mut self, mode: Mode, from: u32) -> Option<Placed>
        requires markup { has_markup (mode_of mode) ≡ true }
        requires start { IsAfterNothing (mode_of mode) (text_of self.old) self.old.at from }
        requires inside { from < length (text_of self.old) }
        requires begins { texts.begins_markup (drop from (text_of self.old)) ≡ false }
        ensures { (tag : places.Tag) → GivesPart self.old (mode_of mode) (next_of result tag) self.new }
    {
        match scan_part(self.source.text(), from, self.table) {
            Some((lexeme, to)) => {
                self.advance(to);
                Some(Placed { lexeme, from, to })
            }
            None => None,
        }
    }

    /// Reads the tag at the lexer's place.
    #[inline(always)]
    fn next_tag(
        &mut self,
        alloc: Global,
        mode: Mode,
        tag: &mut Tag,
    ) -> Result<Option<Placed>, Refused>
        requires markup { has_markup (mode_of mode) ≡ true }
        requires begins { tags.begins_tag (drop self.old.at (text_of self.old)) ≡ true }
        ensures ok { IfOk result (λ placed. Gives self.old (mode_of mode) (next_of placed tag.new) self.new) }
        ensures err { IfErr result (λ refusal. Refuses self.old (mode_of mode) refusal) }
        ensures unchanged { OnErr result (self.new ≡ self.old) }
    {
        let from = self.at;
        match scan_tag_into(alloc, self.source.text(), from, self.table, tag) {
            Ok((lexeme, to)) => {
                self.advance(to);
                Ok(Some(Placed { lexeme, from, to }))
            }
            Err(fault) => Err(refusal(self.source, fault, self.at)),
        }
    }

    /// Reads the token that starts at `from`, the next place at which one starts.
    fn scan(
        &mut self,
        alloc: Global,
        mode: Mode,
        from: u32,
        tag: &mut Tag,
    ) -> Result<(Lexeme, u32), ScanFault>
        requires start { IsAfterNothing (mode_of mode) (text_of self.old) self.old.at from }
        requires inside { from < length (text_of self.old) }
        ensures ok { IfOk result (λ r. Reads (read_in self.old.names (mode_of mode) (drop from (text_of self.old))) (text_of self.old) (token_of r.0 tag.new) r.1) }
        ensures err { IfErr result
            (λ fault. fault ≢ ScanFault.OutOfMemory → read_in self.old.names (mode_of mode) (drop from (text_of self.old)) ≡ refused fault) }
        ensures forward { IfOk result (λ r. from < r.1) }
        ensures placed { IfOk result (λ r. BeginsAt (from + text_front (mode_of mode) (drop from (text_of self.old))) (token_of r.0 tag.new)) }
        ensures same { self.new ≡ self.old }
    {
        let text = self.source.text();
        match mode {
            Mode::Html => scan_here(alloc, text, from, self.table, false, tag),
            Mode::Foreign => scan_here(alloc, text, from, self.table, true, tag),
            Mode::Rcdata { name } => self.scan_rcdata(alloc, name, tag),
            Mode::Raw { name } => {
                scan_raw_text(alloc, text, from, name.as_str(), self.table, tag)
            }
            Mode::Script => scan_script_text(alloc, text, from, self.table, tag),
        }
    }

    /// Reads from the lexer's place on in the text of a title or a textarea.
    fn scan_rcdata(
        &mut self,
        alloc: Global,
        name: RcdataName,
        tag: &mut Tag,
    ) -> Result<(Lexeme, u32), ScanFault>
        requires { self.old.at < length (text_of self.old) }
        ensures ok { IfOk result (λ r. Reads (read_in self.old.names (tokens.rcdata (rcdata_name name)) (drop self.old.at (text_of self.old))) (text_of self.old) (token_of r.0 tag.new) r.1) }
        ensures err { IfErr result
            (λ fault. fault ≢ ScanFault.OutOfMemory → read_in self.old.names (tokens.rcdata (rcdata_name name)) (drop self.old.at (text_of self.old)) ≡ refused fault) }
        ensures forward { IfOk result (λ r. self.old.at < r.1) }
        ensures placed { IfOk result (λ r. BeginsAt self.old.at (token_of r.0 tag.new)) }
        ensures same { self.new ≡ self.old }
    {
        match self.end_of(name) {
            Some(place) => {
                self.text_end = Some(TextEnd { name, place });
                scan_up_to(
                    alloc,
                    self.source.text(),
                    self.at,
                    place,
                    self.table,
                    true,
                    tag,
                )
            }
            None => Err(ScanFault::Cut),
        }
    }

    /// The end of the text of a title or a textarea, from the lexer's place on.
    fn end_of(&self, name: RcdataName) -> Option<u32>
        ensures { Ends (raw_end (rcdata_name name) (drop self.now.at (text_of self.now))) (text_of self.now) self.now.at result }
    {
        if let Some(end) = self.text_end {
            if end.name == name {
                return Some(end.place);
            }
        }
        raw_text_end(self.source.text(), self.at, name.as_str())
    }

    /// Advances to byte `to`.
    #[inline(always)]
    fn advance(&mut self, to: u32)
        requires forward { self.old.at ≤ to }
        requires boundary { IsCharBoundary (text_of self.old) to }
        ensures { self.new ≡ record self.old { at = to } }
    {
        self.text_end = kept_end(self.text_end, to);
        self.at = to;
    }
}
