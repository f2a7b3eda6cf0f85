//! The text of a script.
ghost use Rattle.std.specs.Prelude.{◌≡◌, ℕ, ◌^◌, ◌<◌, ◌≤◌, drop, length, IfOk, IfErr, IsCharBoundary, option_map};
ghost use Rattle.hm_base.specs.RawText as raw;
ghost use Rattle.hm_tree.specs.Tokens.{BeginsAt, Reads, refused};
ghost use Rattle.hm_scan.specs.Found.{FindsPlace};
ghost use Rattle.hm_scan.specs.RawTexts.{read_script};
ghost use Rattle.hm_scan.specs.Scripts.{state_of, mark_of, next_state};

use crate::raw_texts::begins_with_name;
use crate::search::begins_with;
use hm_tree::{ScanFault, Token};
use memchr::memchr2;

/// How the text of a script is read from some place on: as it is, in a comment, or in a script in a comment.
#[derive(Clone, Copy)]
enum Escaping {
    Unescaped,
    Escaped,
    DoubleEscaped,
}

/// What changes the state: `<!--`, `-->`, `<script` and `</script`.
#[derive(Clone, Copy)]
enum ScriptMark {
    OpensComment,
    ClosesComment,
    OpensScript,
    ClosesScript,
}

impl Escaping {
    /// The state after a mark. None if the script ends at it.
    fn after(self, mark: Option<ScriptMark>) -> Option<Escaping>
        ensures { option_map state_of result ≡ next_state (state_of self) (option_map mark_of mark) }
    {
        match (self, mark) {
            (Escaping::Unescaped | Escaping::Escaped, Some(ScriptMark::ClosesScript)) => None,
            (Escaping::Unescaped, Some(ScriptMark::OpensComment)) => Some(Escaping::Escaped),
            (Escaping::Escaped, Some(ScriptMark::OpensScript)) => Some(Escaping::DoubleEscaped),
            (Escaping::DoubleEscaped, Some(ScriptMark::ClosesScript)) => Some(Escaping::Escaped),
            (_, Some(ScriptMark::ClosesComment)) => Some(Escaping::Unescaped),
            (state, _) => Some(state),
        }
    }
}

/// The mark that the bytes start with.
#[tactic(auto, unfolding(hm_base::specs::RawText::mark_at))]
fn mark_at(bytes: &[u8]) -> Option<ScriptMark>
    ensures { option_map mark_of result ≡ raw.mark_at bytes.now }
{
    if begins_with(bytes, b"<!--") {
        Some(ScriptMark::OpensComment)
    } else if begins_with(bytes, b"-->") {
        Some(ScriptMark::ClosesComment)
    } else if begins_with_name(bytes, b"<script") {
        Some(ScriptMark::OpensScript)
    } else if begins_with_name(bytes, b"</script") {
        Some(ScriptMark::ClosesScript)
    } else {
        None
    }
}

/// The place of the end tag that ends a script. Its text starts at `from`.
pub fn script_end(bytes: &[u8], from: usize) -> Option<usize>
    requires { from ≤ length bytes.now }
    ensures { FindsPlace bytes.now from (raw.script_end (drop from bytes.now)) result }
{
    let mut state = Escaping::Unescaped;
    let mut at = from;
    'marks: while let Some(found) = memchr2(b'<', b'-', &bytes[at..]) {
        let to = at + found;
        let Some(next) = state.after(mark_at(&bytes[to..])) else {
            return Some(to);
        };
        state = next;
        at = to + 1;
    }
    None
}

/// Reads the text of a script from byte `at` on up to its end tag (#script-data-state and
/// #script-data-less-than-sign-state to #script-data-double-escape-end-state). `Cut` means that no such end tag
/// follows.
pub fn scan_script(text: &str, at: u32) -> Result<(Token, u32), ScanFault>
    requires boundary { IsCharBoundary text.now at }
    requires size { length text.now < 2 ^ 32 }
    ensures ok { IfOk result (λ r. Reads (read_script (drop at text.now)) text.now r.0 r.1) }
    ensures err { IfErr result (λ fault. read_script (drop at text.now) ≡ refused fault) }
    ensures forward { IfOk result (λ r. at ≤ r.1) }
    ensures placed { IfOk result (λ r. BeginsAt at r.0) }
{
    match script_end(text.as_bytes(), at as usize) {
        Some(to) => Ok((
            Token::Slice {
                from: at,
                to: to as u32,
            },
            to as u32,
        )),
        None => Err(ScanFault::Cut),
    }
}
