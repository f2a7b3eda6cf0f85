//! Comments and CDATA sections.
ghost use Rattle.std.specs.Prelude.{◌≡◌, ℕ, ◌+◌, ◌^◌, ◌<◌, ◌≤◌, true, codes, drop, length, IfOk, IfErr, IfSome, MatchOption, None};
ghost use Rattle.hm_tree.specs.Tokens.{BeginsAt, Reads, refused};
ghost use Rattle.hm_base.specs.Bytes.{strip};
ghost use Rattle.hm_scan.specs.Comments as comments;
ghost use Rattle.hm_scan.specs.Comments.{comment_at, comment_front, read_comment, read_cdata, cut_comment, cut_where, after_end};
ghost use Rattle.hm_scan.specs.Found.{Finds, IsMarkEnd, IsFoundAfter};

use crate::doctypes::begins_doctype;
use crate::search::{MarkPiece, after_mark, begins_with, up_to_brackets, up_to_greater};
use hm_tree::{ScanFault, Token};
use memchr::memchr2;

/// Whether the bytes start with `</` and then neither a letter nor `>`.
#[tactic(auto, unfolding(hm_base::specs::Bytes::is_letter))]
fn begins_no_tag(bytes: &[u8]) -> bool
    ensures { result ≡ comments.found_and comments.is_no_tag (strip (codes "</") bytes.now) }
{
    match after_mark(bytes, b"</") {
        Some(rest) => match rest.first() {
            Some(byte) => !(byte.is_ascii_alphabetic() || *byte == b'>'),
            None => false,
        },
        None => false,
    }
}

/// Whether a comment starts at byte `at` of the text, where no CDATA section is allowed (#tag-open-state,
/// #end-tag-open-state and #markup-declaration-open-state).
#[tactic(auto, unfolding(crate::specs::Comments::begins_comment))]
pub fn begins_comment(text: &str, at: u32) -> bool
    requires { at ≤ length text.now }
    ensures { result ≡ comments.begins_comment (drop at text.now) }
{
    let rest = &text.as_bytes()[at as usize..];
    begins_with(rest, b"<?")
        || (begins_with(rest, b"<!") && !begins_doctype(text, at))
        || begins_no_tag(rest)
}

/// The length of the comment end that the bytes start with.
fn comment_end(bytes: &[u8]) -> Option<usize>
    ensures { MatchOption result (after_end bytes.now ≡ None) (IsMarkEnd after_end bytes.now) }
{
    if begins_with(bytes, b"-->") {
        Some(3)
    } else if begins_with(bytes, b"--!>") {
        Some(4)
    } else {
        None
    }
}

/// The bytes from a place on up to the first comment end. The third byte of an end is `>` or `!`, so an end is only
/// looked for at the two bytes before one of these.
fn up_to_end(bytes: &[u8], from: usize) -> Option<MarkPiece>
    requires { from ≤ length bytes.now }
    ensures { Finds bytes.now from (cut_where after_end (drop from bytes.now)) result }
{
    let mut at = from;
    'signs: while at + 2 < bytes.len() {
        let Some(found) = memchr2(b'>', b'!', &bytes[at + 2..]) else {
            return None;
        };
        let to = at + found;
        if let Some(len) = comment_end(&bytes[to..]) {
            let after = to + len;
            return Some(MarkPiece { from, to, after });
        }
        at = to + 1;
    }
    None
}

/// The text of a comment from after its `<!--` on.
fn comment_text(bytes: &[u8], from: usize) -> Option<MarkPiece>
    requires { from ≤ length bytes.now }
    ensures { Finds bytes.now from (cut_comment (drop from bytes.now)) result }
{
    let rest = &bytes[from..];
    if begins_with(rest, b">") {
        return Some(MarkPiece {
            from,
            to: from,
            after: from + 1,
        });
    }
    if begins_with(rest, b"->") {
        return Some(MarkPiece {
            from,
            to: from,
            after: from + 2,
        });
    }
    up_to_end(bytes, from)
}

/// The text of the comment that starts at a place. The byte before it is ASCII.
fn comment_piece(bytes: &[u8], start: usize) -> Option<MarkPiece>
    requires inside { start + 2 ≤ length bytes.now }
    requires begins { comments.begins_comment (drop start bytes.now) ≡ true }
    ensures found { MatchOption result (comment_at (drop start bytes.now) ≡ None) (IsFoundAfter bytes.now start (comment_at (drop start bytes.now))) }
    ensures from { IfSome result (λ piece. piece.from ≡ start + comment_front (drop start bytes.now)) }
{
    let rest = &bytes[start..];
    if begins_with(rest, b"<?") {
        return up_to_greater(bytes, start + 1);
    }
    if begins_with(rest, b"<!--") {
        return comment_text(bytes, start + 4);
    }
    up_to_greater(bytes, start + 2)
}

/// Reads the comment that starts at byte `at` of the text (#bogus-comment-state to #comment-end-bang-state). It starts
/// with `<!--`, or is a bogus comment. That starts with `<?`, with `<!` before neither a doctype nor a CDATA section,
/// or with `</` before a byte that is neither a letter nor `>`. `Cut` means that its end is missing.
pub fn scan_comment(text: &str, at: u32) -> Result<(Token, u32), ScanFault>
    requires begins { comments.begins_comment (drop at text.now) ≡ true }
    requires size { length text.now < 2 ^ 32 }
    ensures ok { IfOk result (λ r. Reads (read_comment (drop at text.now)) text.now r.0 r.1) }
    ensures err { IfErr result (λ fault. read_comment (drop at text.now) ≡ refused fault) }
    ensures forward { IfOk result (λ r. at < r.1) }
    ensures placed { IfOk result (λ r. BeginsAt (at + comment_front (drop at text.now)) r.0) }
{
    match comment_piece(text.as_bytes(), at as usize) {
        Some(piece) => Ok((
            Token::Comment {
                from: piece.from as u32,
                to: piece.to as u32,
            },
            piece.after as u32,
        )),
        None => Err(ScanFault::Cut),
    }
}

/// Whether a CDATA section starts at byte `at` of the text. It is only allowed in an SVG element
/// (#markup-declaration-open-state).
#[tactic(auto, unfolding(crate::specs::Comments::begins_cdata))]
pub fn begins_cdata(text: &str, at: u32) -> bool
    requires { at ≤ length text.now }
    ensures { result ≡ comments.begins_cdata (drop at text.now) }
{
    begins_with(&text.as_bytes()[at as usize..], b"<![CDATA[")
}

/// Reads the text of the CDATA section that starts at byte `at` of the text (#cdata-section-state to
/// #cdata-section-end-state). `Cut` means that no `]]>` follows.
pub fn scan_cdata(text: &str, at: u32) -> Result<(Token, u32), ScanFault>
    requires begins { comments.begins_cdata (drop at text.now) ≡ true }
    requires size { length text.now < 2 ^ 32 }
    ensures ok { IfOk result (λ r. Reads (read_cdata (drop at text.now)) text.now r.0 r.1) }
    ensures err { IfErr result (λ fault. read_cdata (drop at text.now) ≡ refused fault) }
    ensures forward { IfOk result (λ r. at < r.1) }
    ensures placed { IfOk result (λ r. BeginsAt (at + 9) r.0) }
{
    match up_to_brackets(text.as_bytes(), at as usize + 9) {
        Some(piece) => Ok((
            Token::Slice {
                from: piece.from as u32,
                to: piece.to as u32,
            },
            piece.after as u32,
        )),
        None => Err(ScanFault::Cut),
    }
}
