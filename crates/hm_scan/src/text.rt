//! The scan of a piece of text.
ghost use Rattle.std.specs.Prelude.{◌≡◌, ◌^◌, ◌<◌, ◌≤◌, drop, false, length, IsCharBoundary};
ghost use Rattle.hm_tree.specs.Tokens.{BeginsAt, Reads};
ghost use Rattle.hm_scan.specs.Texts as texts;
ghost use Rattle.hm_scan.specs.Texts.{read_text};

use crate::plain_text::{markup_here, plain_end, reference_here};
use hm_refs::Table;
use hm_tree::Token;

/// Whether markup starts at byte `at` of ordinary text (#data-state): a tag, a comment, a doctype, a CDATA section, or
/// `</>`, which gives no token (#tag-open-state and #end-tag-open-state).
#[inline(always)]
pub fn begins_markup(text: &str, at: u32) -> bool
    requires { at ≤ length text.now }
    ensures { result ≡ texts.begins_markup (drop at text.now) }
{
    markup_here(&text.as_bytes()[at as usize..])
}

/// Reads the piece of text that starts at byte `at`: one character reference, or the longest piece without reference
/// and markup (#data-state, #rcdata-state and #character-reference-state to #numeric-character-reference-end-state).
/// `rcdata` means that the text is that of a title or a textarea and ends with it: nothing in it is markup. Returns the
/// token and the place after it, in bytes of the text.
pub fn scan_text(text: &str, at: u32, rcdata: bool, table: &Table) -> (Token, u32)
    requires inside { at < length text.now }
    requires boundary { IsCharBoundary text.now at }
    requires size { length text.now < 2 ^ 32 }
    requires markup { rcdata ≡ false → texts.begins_markup (drop at text.now) ≡ false }
    ensures reads { Reads (read_text table.now.entries rcdata (drop at text.now)) text.now result.0 result.1 }
    ensures forward { at < result.1 }
    ensures placed { BeginsAt at result.0 }
{
    let bytes = text.as_bytes();
    let from = at as usize;
    if let Some(reference) = reference_here(table, &bytes[from..]) {
        let points = reference.points;
        return (Token::Points { points }, (from + reference.len) as u32);
    }
    let to = plain_end(table, bytes, from, rcdata) as u32;
    (Token::Slice { from: at, to }, to)
}
