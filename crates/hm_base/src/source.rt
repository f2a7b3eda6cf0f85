//! The text of a page, with the byte of the page for each of its bytes.
ghost use Rattle.std.specs.Prelude.{◌≡◌, ◌+◌, ◌≤◌, ◌++◌, ℕ, List, [], None, length, map, drop, true, IfOk, OnOk, IfErr, IsCharBoundary};
ghost use Rattle.hm_base.specs.Bytes.{all_pass};
ghost use Rattle.hm_base.specs.Faults.{HasText, IsRefusalOf, IsRefusedBy};
ghost use Rattle.hm_base.specs.Places.{is_nonzero, mark_of, pairs_after, source_from, start_of, with_bytes, with_lines, with_pair};
ghost use Rattle.hm_base.specs.Source.{byte_of, is_text_byte, numbered, place_in, source_of, text_fault, without_mark};

use crate::limits::OUTPUT_LIMIT;
use crate::plain::OutOfMemory;
use crate::rules::{Refused, Rule};
use memchr::memchr;
use std::alloc::Global;
use std::marker::Model;
use std::str;
use thiserror::Error;

/// Why a page has no text. Places are bytes of the page.
#[derive(Clone, Copy, Debug, PartialEq, Eq, Error)]
pub enum TextFault {
    /// There are more bytes than the limit.
    #[error("the page is too long")]
    TooLong,
    /// The byte `at` starts the first sequence that isn't UTF-8.
    #[error("not UTF-8 at {at}")]
    NotUtf8 { at: u32 },
    /// The byte `at` is the first zero.
    #[error("a zero byte at {at}")]
    Nul { at: u32 },
    /// An allocation failed.
    #[error("out of memory")]
    OutOfMemory,
}

impl From<OutOfMemory> for TextFault {
    ghost use Rattle.hm_base.specs.declared.source.TextFault.TheVariants as faults;

    ghost from_gives = { λ _ fault. fault ≡ faults.OutOfMemory };

    fn from(_error: OutOfMemory) -> Self {
        TextFault::OutOfMemory
    }
}

impl TextFault {
    /// The refusal of a page with this fault. `limit` is the most bytes that may be read.
    pub fn refusal(self, limit: u32) -> Refused
        ensures { (page : List ℕ) → IsRefusedBy self limit page → IsRefusalOf result limit page }
    {
        match self {
            TextFault::TooLong => Refused::Page {
                rule: Rule::TooLong,
                at: limit,
            },
            TextFault::NotUtf8 { at } => Refused::Page {
                rule: Rule::NotUtf8,
                at,
            },
            TextFault::Nul { at } => Refused::Page {
                rule: Rule::Nul,
                at,
            },
            TextFault::OutOfMemory => Refused::OutOfMemory,
        }
    }
}

/// The text of a page (HTML Standard, #the-input-byte-stream): without a leading U+FEFF, and with one LF for each line
/// end.
///
/// Contracts see its bytes, each with its place in the page, and the length of the page. Places are bytes of the page.
#[derive(Drop)]
pub struct SourceText {
    text: String,
    /// The byte of the page at which the text starts.
    start: u32,
    /// The indices in `text` of the LFs that were CR LF, in ascending order.
    pairs: Vec<u32>,
}

impl Model for SourceText {
    ghost use Rattle.std.specs.Prelude.{string_bytes};
    ghost use Rattle.hm_base.specs.Places.{IsSourceText, source_from};
    ghost use Rattle.hm_base.specs.Source.{Source};

    ghost Value = { Source };

    ghost view = { λ s. source_from s.start s.pairs.items (string_bytes s.text) };

    ghost invariant = { λ s. IsSourceText s.start s.pairs.items (string_bytes s.text) };
}

impl SourceText {
    /// The text of the bytes of a page (#the-input-byte-stream, #preprocessing-the-input-stream). Its places are bytes
    /// of the page, before any line end is changed.
    ///
    /// The fault is `TooLong` if there are more bytes than `limit`, and else the first fault of the page. `OutOfMemory`
    /// is only returned for a page that has a text.
    pub fn read(alloc: Global, bytes: &[u8], limit: u32) -> Result<SourceText, TextFault>
        requires { limit ≤ OUTPUT_LIMIT }
        ensures read { IfOk result (λ text. text ≡ source_of bytes.now) }
        ensures sound { OnOk result (HasText limit bytes.now) }
        ensures refused { IfErr result (λ fault. IsRefusedBy fault limit bytes.now) }
    {
        let page = checked(bytes, limit)?;
        let text = SourceText::of_page(alloc, page)?;
        Ok(text)
    }

    /// As `read`, but takes the bytes over. Nothing is copied if the page has no byte order mark and no CR, since its
    /// bytes then are the text.
    pub fn take(alloc: Global, bytes: Vec<u8>, limit: u32) -> Result<SourceText, TextFault>
        requires { limit ≤ OUTPUT_LIMIT }
        ensures read { IfOk result (λ text. text ≡ source_of bytes.items) }
        ensures sound { OnOk result (HasText limit bytes.items) }
        ensures refused { IfErr result (λ fault. IsRefusedBy fault limit bytes.items) }
    {
        checked(bytes.as_slice(), limit)?;
        if !is_own_text(bytes.as_slice()) {
            return SourceText::read(alloc, bytes.as_slice(), limit);
        }
        match String::from_utf8(bytes) {
            Ok(text) => Ok(SourceText {
                text,
                start: 0,
                pairs: Vec::new(alloc),
            }),
            Err(error) => SourceText::read(alloc, error.into_bytes().as_slice(), limit),
        }
    }

    /// The bytes of the text.
    pub fn text(&self) -> &str
        ensures bytes { result.now ≡ map byte_of self.now.placed }
        ensures len { length result.now ≡ length self.now.placed }
        ensures plain { all_pass is_text_byte result.now ≡ true }
        ensures within { length result.now ≤ self.now.end }
        ensures short { self.now.end ≤ OUTPUT_LIMIT }
    {
        self.text.as_str()
    }

    /// The byte of the page from which byte `index` of the text came. An LF that was CR LF came from the CR. For the
    /// length of the text the result is the length of the page.
    pub fn place_of(&self, index: u32) -> u32
        requires { index ≤ length self.now.placed }
        ensures { result ≡ place_in self.now.placed self.now.end index }
    {
        let before = self.pairs.partition_point(|pair| *pair < index);
        self.start + index + before as u32
    }

    /// Frees the memory.
    ///
    /// After a large block is freed whole, the C library's allocator takes each block up to that size from its heap,
    /// and a long list can't grow in place there. So a long text is shortened in place first, and then freed.
    pub fn release(self) {
        let mut text = self.text;
        text.clear();
        text.shrink_to(1);
    }

    /// An empty text that starts at byte `start` of the page.
    pub fn empty(alloc: Global, start: u32) -> SourceText
        requires { start ≤ OUTPUT_LIMIT }
        ensures { result ≡ source_from start [] [] }
    {
        SourceText {
            text: String::new(alloc),
            start,
            pairs: Vec::new(alloc),
        }
    }

    /// Appends the next bytes of the page, with one LF for each line end.
    pub fn append(&mut self, page: &str) -> Result<(), OutOfMemory>
        requires room { self.old.end + length page.now ≤ OUTPUT_LIMIT }
        requires no_zero { all_pass is_nonzero page.now ≡ true }
        ensures { OnOk result (self.new ≡ with_lines self.old page.now) }
    {
        self.push_lines(page)
    }

    /// The byte of the page after the text.
    pub fn end(&self) -> u32
        ensures { result ≡ self.now.end }
    {
        let _text = self.text();
        self.start + self.text.len() as u32 + self.pairs.len() as u32
    }

    /// Drops the first `n` bytes of the text. The others keep their places in the page. It allocates nothing.
    pub fn drop_front(&mut self, n: u32)
        requires inside { n ≤ length self.old.placed }
        requires boundary { IsCharBoundary (map byte_of self.old.placed) n }
        ensures placed { self.new.placed ≡ drop n self.old.placed }
        ensures end { self.new.end ≡ self.old.end }
    {
        let pairs = self.pairs.len();
        drop_pairs(&mut self.pairs, n);
        self.start = self.start + n + (pairs - self.pairs.len()) as u32;
        match self.text.replace_range(..n as usize, "") {
            Ok(()) => {}
            Err(_) => {}
        }
    }

    /// The text of a page that is UTF-8 and has no zero byte.
    fn of_page(alloc: Global, page: &str) -> Result<SourceText, OutOfMemory>
        requires short { length page.now ≤ OUTPUT_LIMIT }
        requires sound { text_fault page.now ≡ None }
        ensures { IfOk result (λ text. text ≡ source_of page.now) }
    {
        let (has_mark, lines) = without_mark(page);
        let mut text = SourceText {
            text: String::with_capacity(alloc, lines.len())?,
            start: start_of(has_mark),
            pairs: Vec::new(alloc),
        };
        text.push_lines(lines)?;
        Ok(text)
    }

    /// Appends the rest of a page, with one LF for each line end.
    fn push_lines(&mut self, page: &str) -> Result<(), OutOfMemory>
        requires room { self.old.end + length page.now ≤ OUTPUT_LIMIT }
        requires no_zero { all_pass is_nonzero page.now ≡ true }
        ensures { OnOk result (self.new ≡ with_lines self.old page.now) }
    {
        let mut rest = page;
        while let Some((line, after)) = rest.split_once('\r') {
            self.push_bytes(line)?;
            match after.strip_prefix('\n') {
                Some(next) => {
                    self.push_pair()?;
                    rest = next;
                }
                None => {
                    self.push_bytes("\n")?;
                    rest = after;
                }
            }
        }
        self.push_bytes(rest)
    }

    /// Appends bytes that the text takes unchanged from the page, or an LF for a CR.
    fn push_bytes(&mut self, bytes: &str) -> Result<(), OutOfMemory>
        requires room { self.old.end + length bytes.now ≤ OUTPUT_LIMIT }
        requires plain { all_pass is_text_byte bytes.now ≡ true }
        ensures { OnOk result (self.new ≡ with_bytes self.old bytes.now) }
    {
        self.text.push_str(bytes)?;
        Ok(())
    }

    /// Appends an LF for a CR LF.
    fn push_pair(&mut self) -> Result<(), OutOfMemory>
        requires { self.old.end + 2 ≤ OUTPUT_LIMIT }
        ensures { OnOk result (self.new ≡ with_pair self.old) }
    {
        let at = self.text.len() as u32;
        self.text.push('\n')?;
        self.pairs.push(at)?;
        Ok(())
    }
}

/// Drops the pairs in the first `n` bytes of a text, and counts the others from byte `n`.
fn drop_pairs(pairs: &mut Vec<u32>, n: u32)
    ensures { pairs.new.items ≡ pairs_after n pairs.old.items }
{
    let mut kept = 0;
    for i in 0..pairs.len() {
        let pair = pairs[i];
        if n <= pair {
            pairs[kept] = pair - n;
            kept += 1;
        }
    }
    pairs.truncate(kept);
}

/// The byte of the page at which the text starts: after the byte order mark, if there is one.
fn start_of(has_mark: bool) -> u32
    ensures { result ≡ start_of has_mark }
{
    if has_mark { 3 } else { 0 }
}

/// Whether a page without zero bytes is its own text. True only if it has no CR and doesn't start with a byte order
/// mark.
fn is_own_text(page: &[u8]) -> bool
    ensures unmarked { result ≡ true → without_mark (numbered 0 page.now) ≡ numbered 0 page.now }
    ensures plain { result ≡ true → all_pass is_nonzero page.now ≡ true → all_pass is_text_byte page.now ≡ true }
{
    if page.is_empty() || page[0] == 0xEF {
        return false;
    }
    match memchr(b'\r', page) {
        Some(_) => false,
        None => true,
    }
}

/// Whether the page starts with the byte order mark U+FEFF, and the page without it.
fn without_mark(page: &str) -> (bool, &str)
    ensures whole { page.now ≡ mark_of result.0 ++ result.1.now }
    ensures places { without_mark (numbered 0 page.now) ≡ numbered (start_of result.0) result.1.now }
{
    match page.strip_prefix('\u{feff}') {
        Some(rest) => (true, rest),
        None => (false, page),
    }
}

/// The bytes of a page as a `str`, or the first fault. `limit` is the most bytes of a page.
fn checked(bytes: &[u8], limit: u32) -> Result<&str, TextFault>
    requires { limit ≤ OUTPUT_LIMIT }
    ensures text { IfOk result (λ page. page.now ≡ bytes.now) }
    ensures sound { OnOk result (HasText limit bytes.now) }
    ensures refused { IfErr result (λ fault. IsRefusedBy fault limit bytes.now) }
{
    if bytes.len() > limit as usize {
        return Err(TextFault::TooLong);
    }
    match str::from_utf8(bytes) {
        Ok(page) => match memchr(0, bytes) {
            None => Ok(page),
            Some(at) => Err(TextFault::Nul { at: at as u32 }),
        },
        Err(error) => {
            let bad = error.valid_up_to();
            match memchr(0, &bytes[..bad]) {
                None => Err(TextFault::NotUtf8 { at: bad as u32 }),
                Some(at) => Err(TextFault::Nul { at: at as u32 }),
            }
        }
    }
}
