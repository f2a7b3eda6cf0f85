//! Doctypes.
ghost use Rattle.std.specs.Prelude.{◌≡◌, ℕ, ◌^◌, ◌<◌, ◌≤◌, true, drop, length, codes, Some, IfOk, IfErr};
ghost use Rattle.hm_base.specs.Bytes.{strip_word};
ghost use Rattle.hm_tree.specs.Tokens.{BeginsAt, Reads, refused};
ghost use Rattle.hm_scan.specs.Doctypes as doctypes;

use crate::search::{after_mark, after_space, after_word, up_to_greater};
use hm_base::begins_with_space;
use hm_tree::{ScanFault, Token};

/// Whether a doctype starts at byte `at` of the text: `<!doctype` in any ASCII case (#markup-declaration-open-state).
#[tactic(auto, unfolding(crate::specs::Doctypes::begins_doctype))]
pub fn begins_doctype(text: &str, at: u32) -> bool
    requires { at ≤ length text.now }
    ensures { result ≡ doctypes.begins_doctype (drop at text.now) }
{
    matches!(
        after_word(&text.as_bytes()[at as usize..], b"<!doctype"),
        Some(_)
    )
}

/// Whether the bytes are the identifier of the legacy form, and whitespace or none.
fn is_identifier(bytes: &[u8]) -> bool
    ensures { result ≡ doctypes.is_identifier bytes.now }
{
    match after_mark(bytes, b"\"about:legacy-compat\"") {
        Some(rest) => after_space(rest).is_empty(),
        None => match after_mark(bytes, b"'about:legacy-compat'") {
            Some(rest) => after_space(rest).is_empty(),
            None => false,
        },
    }
}

/// Whether the bytes are `system` in any case, maybe whitespace, and the identifier.
fn is_legacy(bytes: &[u8]) -> bool
    ensures { result ≡ doctypes.is_legacy (strip_word (codes "system") bytes.now) }
{
    match after_word(bytes, b"system") {
        Some(rest) => is_identifier(after_space(rest)),
        None => false,
    }
}

/// Whether a doctype is legacy, by its bytes after `html`. None if it has no form that is allowed.
fn form_after_name(bytes: &[u8]) -> Option<bool>
    ensures { result ≡ doctypes.form_after_name (Some bytes.now) }
{
    let further = after_space(bytes);
    if further.is_empty() {
        Some(false)
    } else if begins_with_space(bytes) && is_legacy(further) {
        Some(true)
    } else {
        None
    }
}

/// Whether a doctype is legacy, by its bytes between `<!doctype` and `>`. None if it has no form that is allowed.
#[tactic(auto, unfolding(crate::specs::Doctypes::doctype_form))]
fn doctype_form(bytes: &[u8]) -> Option<bool>
    ensures { result ≡ doctypes.doctype_form bytes.now }
{
    match after_word(after_space(bytes), b"html") {
        Some(rest) => form_after_name(rest),
        None => None,
    }
}

/// Reads the doctype that starts at byte `at` of the text (#doctype-state to #bogus-doctype-state): `<!doctype html>`,
/// or that with `SYSTEM` and the identifier `about:legacy-compat`. `Cut` means that no `>` follows, and otherwise
/// `BadDoctype` that it has another form.
pub fn scan_doctype(text: &str, at: u32) -> Result<(Token, u32), ScanFault>
    requires begins { doctypes.begins_doctype (drop at text.now) ≡ true }
    requires size { length text.now < 2 ^ 32 }
    ensures ok { IfOk result (λ r. Reads (doctypes.read_doctype (drop at text.now)) text.now r.0 r.1) }
    ensures err { IfErr result (λ fault. doctypes.read_doctype (drop at text.now) ≡ refused fault) }
    ensures forward { IfOk result (λ r. at < r.1) }
    ensures placed { IfOk result (λ r. (place : ℕ) → BeginsAt place r.0) }
{
    let bytes = text.as_bytes();
    match up_to_greater(bytes, at as usize + 9) {
        Some(piece) => match doctype_form(&bytes[piece.from..piece.to]) {
            Some(legacy) => Ok((Token::Doctype { legacy }, piece.after as u32)),
            None => Err(ScanFault::BadDoctype),
        },
        None => Err(ScanFault::Cut),
    }
}
