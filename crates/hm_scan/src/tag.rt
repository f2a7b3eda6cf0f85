//! The tag at a place of a text.
ghost use Rattle.std.specs.Prelude.{◌≡◌, ◌≢◌, ℕ, ◌^◌, ◌<◌, ◌≤◌, Bool, List, [], drop, length, slice_index, slice_range, true, false, Some, IfOk, IfErr, IsCharBoundary};
ghost use Rattle.hm_base.specs.Walks.{Attribute};
ghost use Rattle.hm_refs.specs.Names.{Entry};
ghost use Rattle.hm_tree.specs.Lexemes.{token_of};
ghost use Rattle.hm_tree.specs.Tokens.{BeginsAt, Reads, refused};
ghost use Rattle.hm_scan.specs.Collected.{IsCollected};
ghost use Rattle.hm_refs.specs.Reads.{IsEndOf};
ghost use Rattle.hm_base.specs.Forms as forms;
ghost use Rattle.hm_scan.specs.TagPlaces.{IsPlainName};
ghost use Rattle.hm_scan.specs.Tags.{is_name_byte};
ghost use Rattle.hm_scan.specs.Wholes.{IsWhole, fault_at};
ghost use Rattle.hm_scan.specs.Reading.{begins_tag, read_end, read_start, read_tag, tag_fault};

use crate::collected::Collected;
use crate::names::{is_small, is_tag_name, put_name};
use crate::tag_body::read_body;
use crate::tag_runs::{ByteRun, plain_run_end, run_end};
use hm_base::ATTRIBUTE_LIMIT;
use hm_refs::Table;
use hm_tree::{Attrs, Lexeme, ScanFault, Tag, Token};
use std::alloc::Global;

/// What is known of a whole tag beside its name and its attributes: whether a `/` is directly before its `>`, and where
/// the bytes after it start.
#[derive(Clone, Copy)]
struct Whole {
    slash: bool,
    after: u32,
}

/// Whether a name of a tag, in lowercase letters, is allowed. `plain` means that it is.
fn is_read(name: &str, plain: bool) -> bool
    requires { plain ≡ true → forms.is_tag_name name.now ≡ true }
    ensures { result ≡ forms.is_tag_name name.now }
{
    plain || is_tag_name(name.as_bytes())
}

/// Why a tag with this name, in lowercase letters, and these attributes is refused, if it is. `plain` means that the
/// name is allowed.
fn fault_of(name: &str, plain: bool, collected: &Collected) -> Option<ScanFault>
    requires { plain ≡ true → forms.is_tag_name name.now ≡ true }
    ensures { (t : List Entry) (written kept : List Attribute) → IsCollected t written collected.now kept
        → result ≡ tag_fault name.now written }
{
    if !is_read(name, plain) {
        return Some(ScanFault::BadName);
    }
    if collected.has_bad_name {
        return Some(ScanFault::BadName);
    }
    if collected.count > ATTRIBUTE_LIMIT {
        return Some(ScanFault::TooManyAttributes);
    }
    None
}

/// The end of a tag's name. `plain` means that the name is allowed and in lowercase letters.
#[derive(Clone, Copy)]
struct NameEnd {
    to: usize,
    plain: bool,
}

/// Whether the byte at `from` is a lowercase letter, and the one at `to` ends the name of a tag.
#[inline(always)]
fn is_plain_between(bytes: &[u8], from: usize, to: usize) -> bool
    requires { to ≤ length bytes.now }
    ensures from { result ≡ true → from < to }
    ensures to { result ≡ true → to < length bytes.now }
    ensures begins { result ≡ true → forms.is_small (slice_index bytes.now from) ≡ true }
    ensures ends { result ≡ true → is_name_byte (slice_index bytes.now to) ≡ false }
{
    if from >= to || to == bytes.len() {
        return false;
    }
    is_small(bytes[from]) && !ByteRun::TagName.has(bytes[to])
}

/// The end of the tag's name that starts at `from`.
#[inline(always)]
fn name_end(text: &str, from: usize) -> NameEnd
    requires { IsCharBoundary text.now from }
    ensures end { IsEndOf is_name_byte text.now from result.to }
    ensures boundary { IsCharBoundary text.now result.to }
    ensures plain { result.plain ≡ true → IsPlainName (slice_range text.now from result.to) }
{
    let bytes = text.as_bytes();
    let to = plain_run_end(bytes, from);
    if is_plain_between(bytes, from, to) {
        return NameEnd { to, plain: true };
    }
    NameEnd {
        to: run_end(bytes, from, ByteRun::TagName),
        plain: false,
    }
}

/// Whether a tag has a plain name and ends directly after it.
#[inline(always)]
fn is_bare(bytes: &[u8], end: NameEnd) -> bool
    ensures plain { result ≡ true → end.plain ≡ true }
    ensures inside { result ≡ true → end.to < length bytes.now }
    ensures ends { result ≡ true → slice_index bytes.now end.to ≡ 62 }
{
    end.plain && end.to < bytes.len() && bytes[end.to] == b'>'
}

/// Removes the attributes of an earlier tag, if it had any.
#[inline(always)]
fn clear(attrs: &mut Attrs)
    ensures { attrs.new ≡ [] }
{
    if attrs.len() > 0 {
        attrs.clear();
    }
}

/// Reads a tag without attributes. Its name starts at `from` and ends at `to`, where its `>` is.
#[inline(always)]
fn read_bare(text: &str, from: usize, to: usize, tag: &mut Tag) -> Result<Whole, ScanFault>
    requires size { length text.now < 2 ^ 32 }
    requires starts { IsCharBoundary text.now from }
    requires ends { IsCharBoundary text.now to }
    requires name { IsEndOf is_name_byte text.now from to }
    requires plain { IsPlainName (slice_range text.now from to) }
    requires inside { to < length text.now }
    requires greater { slice_index text.now to ≡ 62 }
    ensures ok { IfOk result (λ whole. (t : List Entry) → (keeps : Bool) → IsWhole t keeps text.now from tag.new whole) }
    ensures err { IfErr result (λ fault. fault ≡ ScanFault.OutOfMemory) }
{
    clear(&mut tag.attrs);
    put_name(&mut tag.name, &text[from..to], true)?;
    Ok(Whole {
        slash: false,
        after: to as u32 + 1,
    })
}

/// Reads a tag whose name starts at `from` and ends at `end`. Bytes may follow before its `>`.
fn read_full(
    alloc: Global,
    text: &str,
    from: usize,
    end: NameEnd,
    table: &Table,
    keeps: bool,
    tag: &mut Tag,
) -> Result<Whole, ScanFault>
    requires size { length text.now < 2 ^ 32 }
    requires starts { IsCharBoundary text.now from }
    requires end { IsEndOf is_name_byte text.now from end.to }
    requires ends { IsCharBoundary text.now end.to }
    requires plain { end.plain ≡ true → IsPlainName (slice_range text.now from end.to) }
    ensures ok { IfOk result (IsWhole table.now.entries keeps text.now from tag.new) }
    ensures err { IfErr result
        (λ fault. fault ≢ ScanFault.OutOfMemory → fault_at (drop from text.now) ≡ Some fault) }
{
    let body = read_body(alloc, text, end.to, table, keeps, &mut tag.attrs)?;
    put_name(&mut tag.name, &text[from..end.to], end.plain)?;
    match fault_of(&tag.name, end.plain, &body.collected) {
        Some(fault) => Err(fault),
        None => Ok(Whole {
            slash: body.slash,
            after: body.after as u32,
        }),
    }
}

/// Reads the tag whose name starts at `from`. Puts its name, in lowercase letters, and its attributes into `tag`.
/// `keeps` is false for an end tag, whose attributes are dropped.
#[inline(always)]
fn read_whole(
    alloc: Global,
    text: &str,
    from: usize,
    table: &Table,
    keeps: bool,
    tag: &mut Tag,
) -> Result<Whole, ScanFault>
    requires boundary { IsCharBoundary text.now from }
    requires size { length text.now < 2 ^ 32 }
    ensures ok { IfOk result (IsWhole table.now.entries keeps text.now from tag.new) }
    ensures err { IfErr result
        (λ fault. fault ≢ ScanFault.OutOfMemory → fault_at (drop from text.now) ≡ Some fault) }
{
    let end = name_end(text, from);
    if is_bare(text.as_bytes(), end) {
        return read_bare(text, from, end.to, tag);
    }
    read_full(alloc, text, from, end, table, keeps, tag)
}

/// Reads the start tag whose name starts at `from`.
#[inline(always)]
fn scan_start(
    alloc: Global,
    text: &str,
    from: usize,
    table: &Table,
    tag: &mut Tag,
) -> Result<(Lexeme, u32), ScanFault>
    requires boundary { IsCharBoundary text.now from }
    requires size { length text.now < 2 ^ 32 }
    ensures ok { IfOk result
        (λ r. Reads (read_start table.now.entries (drop from text.now)) text.now (token_of r.0 tag.new) r.1) }
    ensures err { IfErr result
        (λ fault. fault ≢ ScanFault.OutOfMemory → read_start table.now.entries (drop from text.now) ≡ refused fault) }
    ensures forward { IfOk result (λ r. from < r.1) }
    ensures placed { IfOk result (λ r. (place : ℕ) → BeginsAt place (token_of r.0 tag.new)) }
{
    let whole = read_whole(alloc, text, from, table, true, tag)?;
    let lexeme = Lexeme::StartTag { slash: whole.slash };
    Ok((lexeme, whole.after))
}

/// Reads the end tag whose name starts at `from`. Its attributes are checked and dropped, and so is its `/`.
#[inline(always)]
fn scan_end(
    alloc: Global,
    text: &str,
    from: usize,
    table: &Table,
    tag: &mut Tag,
) -> Result<(Lexeme, u32), ScanFault>
    requires boundary { IsCharBoundary text.now from }
    requires size { length text.now < 2 ^ 32 }
    ensures ok { IfOk result (λ r. Reads (read_end (drop from text.now)) text.now (token_of r.0 tag.new) r.1) }
    ensures err { IfErr result
        (λ fault. fault ≢ ScanFault.OutOfMemory → read_end (drop from text.now) ≡ refused fault) }
    ensures forward { IfOk result (λ r. from < r.1) }
    ensures placed { IfOk result (λ r. (place : ℕ) → BeginsAt place (token_of r.0 tag.new)) }
{
    let whole = read_whole(alloc, text, from, table, false, tag)?;
    Ok((Lexeme::EndTag, whole.after))
}

/// Reads the start or end tag that starts at byte `at` of the text (#tag-name-state and #before-attribute-name-state to
/// #self-closing-start-tag-state), and returns the place after it. Names are in lowercase letters, only the first of
/// attributes with the same name is kept, and character references in values are read.
///
/// `Cut` means that the text ends before the tag's `>`. Otherwise `BadName` means that its name isn't an ASCII letter
/// and ASCII letters, digits, `.`, `_`, `:` and `-` after it, or that an attribute's name starts with `=` or has a
/// quote or `<` in it. Otherwise `TooManyAttributes` means that the tag has more than 256 attributes. End tags are
/// checked too.
pub fn scan_tag(
    alloc: Global,
    text: &str,
    at: u32,
    table: &Table,
) -> Result<(Token, u32), ScanFault>
    requires begins { begins_tag (drop at text.now) ≡ true }
    requires size { length text.now < 2 ^ 32 }
    ensures ok { IfOk result
        (λ r. Reads (read_tag table.now.entries (drop at text.now)) text.now r.0 r.1) }
    ensures err { IfErr result
        (λ fault. fault ≢ ScanFault.OutOfMemory → read_tag table.now.entries (drop at text.now) ≡ refused fault) }
    ensures forward { IfOk result (λ r. at < r.1) }
    ensures placed { IfOk result (λ r. (place : ℕ) → BeginsAt place r.0) }
{
    let mut tag = Tag::new(alloc);
    match scan_tag_into(alloc, text, at, table, &mut tag) {
        Ok((lexeme, after)) => Ok((lexeme.token(tag), after)),
        Err(fault) => Err(fault),
    }
}

/// As `scan_tag`, but puts the tag's name and attributes into `tag`, over those of an earlier tag. After an error they
/// may be anything.
#[inline(always)]
pub fn scan_tag_into(
    alloc: Global,
    text: &str,
    at: u32,
    table: &Table,
    tag: &mut Tag,
) -> Result<(Lexeme, u32), ScanFault>
    requires begins { begins_tag (drop at text.now) ≡ true }
    requires size { length text.now < 2 ^ 32 }
    ensures ok { IfOk result
        (λ r. Reads (read_tag table.now.entries (drop at text.now)) text.now (token_of r.0 tag.new) r.1) }
    ensures err { IfErr result
        (λ fault. fault ≢ ScanFault.OutOfMemory → read_tag table.now.entries (drop at text.now) ≡ refused fault) }
    ensures forward { IfOk result (λ r. at < r.1) }
    ensures placed { IfOk result (λ r. (place : ℕ) → BeginsAt place (token_of r.0 tag.new)) }
{
    let start = at as usize;
    if text.as_bytes()[start + 1] == b'/' {
        scan_end(alloc, text, start + 2, table, tag)
    } else {
        scan_start(alloc, text, start + 1, table, tag)
    }
}
