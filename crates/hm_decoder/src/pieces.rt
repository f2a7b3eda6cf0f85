//! The text of a page that is read in pieces.
ghost use Rattle.std.specs.Prelude.{◌≡◌, ◌+◌, ◌≤◌, ◌++◌, ℕ, List, [], ◌∷◌, Option, Some, None, Ok, Err, true, false, length, take, drop, map, IfOk, OnOk, IfErr, OnErr, MatchOption, IsCharBoundary};
ghost use Rattle.hm_base.specs.Bytes.{all_pass};
ghost use Rattle.hm_base.specs.Source.{PlacedByte, byte_of};
ghost use Rattle.hm_base.specs.Places.{is_nonzero};
ghost use Rattle.hm_decoder.specs.Fed.{decided_len, ends_with_return, lasting_fault};
ghost use Rattle.hm_decoder.specs.Pieces.{HasFed, HasPage, before_text, grown, told_at};

use hm_base::{OUTPUT_LIMIT, OutOfMemory, Rule, SourceText};
use memchr::memchr;
use std::alloc::Global;
use std::marker::Model;
use std::{mem, str};

/// A page that is read in pieces, and the text of its bytes so far that later bytes can't change (HTML Standard,
/// #the-input-byte-stream).
///
/// Contracts see the text that is kept, with the places of its bytes in the page, the undecided bytes, how many bytes
/// were read, and the fault.
#[derive(Drop)]
pub struct TextPieces {
    source: SourceText,
    /// A CR, or the first bytes of a character, at the end of what was read.
    undecided: Vec<u8>,
    count: u32,
    limit: u32,
    fault: Option<(Rule, u32)>,
    /// An allocation failed earlier.
    is_broken: bool,
    alloc: Global,
}

impl Model for TextPieces {
    ghost use Rattle.hm_decoder.specs.Pieces.{IsPieces, Pieces};

    ghost Value = { Pieces };

    ghost view = { λ p. record { source = p.source; undecided = p.undecided.items; count = p.count; limit = p.limit; fault = p.fault; is_broken = p.is_broken } };

    ghost invariant = { λ p. IsPieces (record { source = p.source; undecided = p.undecided.items; count = p.count; limit = p.limit; fault = p.fault; is_broken = p.is_broken }) };
}

/// The text without a CR at its end.
fn without_return(text: &str) -> &str
    ensures { result.now ≡ take (decided_len text.now) text.now }
{
    match text.strip_suffix('\r') {
        Some(front) => front,
        None => text,
    }
}

/// The start of some bytes that later bytes can't change, or why they have no text. `place` is the byte of the page at
/// which they start.
fn decide(bytes: &[u8], place: u32) -> Result<&str, (Rule, u32)>
    requires { place + length bytes.now ≤ OUTPUT_LIMIT }
    ensures ok { IfOk result (λ text. text.now ≡ take (decided_len bytes.now) bytes.now) }
    ensures sound { OnOk result (lasting_fault bytes.now ≡ None) }
    ensures err { IfErr result (λ fault. told_at place (lasting_fault bytes.now) ≡ Some fault) }
{
    match str::from_utf8(bytes) {
        Ok(text) => match memchr(0, bytes) {
            None => Ok(without_return(text)),
            Some(at) => Err((Rule::Nul, place + at as u32)),
        },
        Err(error) => {
            let valid = error.valid_up_to();
            if let Some(at) = memchr(0, &bytes[..valid]) {
                return Err((Rule::Nul, place + at as u32));
            }
            if error.error_len().is_some() {
                return Err((Rule::NotUtf8, place + valid as u32));
            }
            match str::from_utf8(&bytes[..valid]) {
                Ok(text) => Ok(text),
                Err(_) => Ok(""),
            }
        }
    }
}

/// Appends the next bytes of the page to the text.
fn grow(alloc: Global, source: &mut SourceText, page: &str) -> Result<(), OutOfMemory>
    requires room { source.old.end + length page.now ≤ OUTPUT_LIMIT }
    requires no_zero { all_pass is_nonzero page.now ≡ true }
    ensures grown { OnOk result (source.new ≡ grown source.old page.now) }
    ensures before { OnOk result (before_text source.old ≤ before_text source.new) }
{
    let _text = source.text();
    if source.end() == 0 {
        if let Some(rest) = page.strip_prefix('\u{feff}') {
            *source = SourceText::empty(alloc, 3);
            return source.append(rest);
        }
    }
    source.append(page)
}

/// Appends the decided part of some bytes to the text, and keeps the rest as undecided. Returns their fault, if they
/// have one.
fn put(
    alloc: Global,
    source: &mut SourceText,
    undecided: &mut Vec<u8>,
    bytes: &[u8],
) -> Result<Option<(Rule, u32)>, OutOfMemory>
    requires room { source.old.end + length bytes.now ≤ OUTPUT_LIMIT }
    requires none { undecided.old.items ≡ [] }
    ensures fault { IfOk result (λ fault. told_at source.old.end (lasting_fault bytes.now) ≡ fault) }
    ensures source { IfOk result (λ fault. fault ≡ None → source.new ≡ grown source.old (take (decided_len bytes.now) bytes.now)) }
    ensures undecided { IfOk result (λ fault. fault ≡ None → undecided.new.items ≡ drop (decided_len bytes.now) bytes.now) }
    ensures before { OnOk result (before_text source.old ≤ before_text source.new) }
{
    match decide(bytes, source.end()) {
        Ok(text) => {
            grow(alloc, source, text)?;
            undecided.extend_from_slice(&bytes[text.len()..])?;
            Ok(None)
        }
        Err(fault) => Ok(Some(fault)),
    }
}

/// Appends the decided part of the next bytes of the page to the text. The bytes that were undecided before come first.
fn take_bytes(
    alloc: Global,
    source: &mut SourceText,
    undecided: &mut Vec<u8>,
    piece: &[u8],
) -> Result<Option<(Rule, u32)>, OutOfMemory>
    requires room { source.old.end + length undecided.old.items + length piece.now ≤ OUTPUT_LIMIT }
    ensures fault { IfOk result (λ fault. told_at source.old.end (lasting_fault (undecided.old.items ++ piece.now)) ≡ fault) }
    ensures source { IfOk result (λ fault. fault ≡ None → source.new ≡ grown source.old (take (decided_len (undecided.old.items ++ piece.now)) (undecided.old.items ++ piece.now))) }
    ensures undecided { IfOk result (λ fault. fault ≡ None → undecided.new.items ≡ drop (decided_len (undecided.old.items ++ piece.now)) (undecided.old.items ++ piece.now)) }
    ensures before { OnOk result (before_text source.old ≤ before_text source.new) }
{
    if undecided.is_empty() {
        return put(alloc, source, undecided, piece);
    }
    let mut bytes = mem::replace(undecided, Vec::new(alloc));
    bytes.extend_from_slice(piece)?;
    put(alloc, source, undecided, bytes.as_slice())
}

impl TextPieces {
    /// Nothing is read yet. At most `limit` bytes of the page may follow.
    pub fn new(alloc: Global, limit: u32) -> TextPieces
        requires { limit ≤ OUTPUT_LIMIT }
        ensures fed { HasFed result [] [] }
        ensures limit { result.limit ≡ limit }
        ensures sound { result.is_broken ≡ false }
    {
        TextPieces {
            source: SourceText::empty(alloc, 0),
            undecided: Vec::new(alloc),
            count: 0,
            limit,
            fault: None,
            is_broken: false,
            alloc,
        }
    }

    /// Reads the next bytes of the page (HTML Standard, #the-input-byte-stream). A piece may end anywhere, also inside
    /// a character or a line end.
    ///
    /// After a failed allocation each later call of this and of `finish` fails. After a fault the bytes are only
    /// counted, for the limit.
    pub fn feed(&mut self, piece: &[u8]) -> Result<(), OutOfMemory>
        ensures fed { OnOk result ((gone : List PlacedByte) (fed : List ℕ) → HasFed self.old gone fed → HasFed self.new gone (fed ++ piece.now)) }
        ensures sound { OnOk result ((self.old.is_broken ≡ false) × (self.new.is_broken ≡ false)) }
        ensures err { OnErr result (self.new.is_broken ≡ true) }
        ensures limit { self.new.limit ≡ self.old.limit }
        ensures before { OnOk result (before_text self.old.source ≤ before_text self.new.source) }
        ensures lasts { OnOk result (self.new.fault ≡ None → self.old.fault ≡ None) }
    {
        if self.is_broken {
            return Err(OutOfMemory);
        }
        if piece.len() > (self.limit - self.count) as usize {
            self.fault = Some((Rule::TooLong, self.limit));
            self.count = self.limit;
            return Ok(());
        }
        self.count += piece.len() as u32;
        if self.fault.is_some() {
            return Ok(());
        }
        self.is_broken = true;
        self.fault = take_bytes(self.alloc, &mut self.source, &mut self.undecided, piece)?;
        self.is_broken = false;
        Ok(())
    }

    /// Ends the page: a CR at its end is a line end, and an incomplete character there is a fault.
    ///
    /// It can fail, since the line end needs a byte.
    pub fn finish(&mut self) -> Result<(), OutOfMemory>
        ensures page { OnOk result ((gone : List PlacedByte) (page : List ℕ) → HasFed self.old gone page → HasPage self.new gone page) }
        ensures sound { OnOk result (self.old.is_broken ≡ false) }
        ensures limit { self.new.limit ≡ self.old.limit }
        ensures before { OnOk result (before_text self.old.source ≤ before_text self.new.source) }
    {
        if self.is_broken {
            return Err(OutOfMemory);
        }
        if self.fault.is_some() || self.undecided.is_empty() {
            return Ok(());
        }
        if self.undecided[0] == b'\r' {
            self.is_broken = true;
            grow(self.alloc, &mut self.source, "\r")?;
            self.undecided.clear();
            self.is_broken = false;
        } else {
            self.fault = Some((Rule::NotUtf8, self.source.end()));
        }
        Ok(())
    }

    /// Why the page has no text, whatever follows: the rule, and its place in bytes of the page. `TooLong` comes before
    /// `NotUtf8` and `Nul`; of these two the first in the page counts.
    pub fn fault(&self) -> Option<(Rule, u32)>
        ensures { result ≡ self.now.fault }
    {
        self.fault
    }

    /// The decided text without its dropped part. It means nothing after a fault.
    pub fn source(&self) -> &SourceText
        ensures { result.now ≡ self.now.source }
    {
        &self.source
    }

    /// Frees the memory: see `SourceText::release`.
    pub fn release(self) {
        self.source.release();
    }

    /// Drops the first `n` bytes of the text. The others keep their places in the page. It allocates nothing.
    pub fn drop_front(&mut self, n: u32)
        requires inside { n ≤ length self.old.source.placed }
        requires boundary { IsCharBoundary (map byte_of self.old.source.placed) n }
        ensures fed { (gone : List PlacedByte) (fed : List ℕ) → HasFed self.old gone fed → HasFed self.new (gone ++ take n self.old.source.placed) fed }
        ensures placed { self.new.source.placed ≡ drop n self.old.source.placed }
        ensures end { self.new.source.end ≡ self.old.source.end }
        ensures limit { self.new.limit ≡ self.old.limit }
        ensures fault { self.new.fault ≡ self.old.fault }
        ensures broken { self.new.is_broken ≡ self.old.is_broken }
    {
        self.source.drop_front(n);
    }
}
