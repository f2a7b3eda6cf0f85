//! Places in the page: of a refusal, and of the end of `body`.
ghost use Rattle.std.specs.Prelude.{◌≡◌, ◌≤◌, ◌+◌, length};
ghost use Rattle.hm_build.specs.Parsing.{answer_of, closed_here, first_of, place_of, span_of};

use hm_base::{Refused, SourceText};
use hm_insertion::{BuildFault, TreeBuilder};

/// The refusal of a page by a fault of the token that starts at byte `at` of the text.
pub(crate) fn refusal(text: &SourceText, fault: BuildFault, at: u32) -> Refused
    requires { at + span_of fault ≤ length text.now.placed }
    ensures { result ≡ answer_of fault (place_of text.now (at + span_of fault)) }
{
    let _text = text.text();
    match fault {
        BuildFault::Rule { rule, offset } => Refused::Page {
            rule,
            at: text.place_of(at + offset),
        },
        BuildFault::OutOfMemory => Refused::OutOfMemory,
    }
}

/// The byte of the page at which `body` was closed, after the token at byte `from` of the text: `closed`, if it was
/// closed before, or the byte of this token.
#[inline(always)]
pub(crate) fn closed_by(
    text: &SourceText,
    builder: &TreeBuilder,
    closed: Option<u32>,
    from: u32,
) -> Option<u32>
    requires { from ≤ length text.now.placed }
    ensures { result ≡ first_of closed (closed_here builder.now text.now from) }
{
    if builder.is_after_body() && closed.is_none() {
        Some(text.place_of(from))
    } else {
        closed
    }
}

/// The first of two places, if there is one.
pub(crate) fn first_closed(closed: Option<u32>, later: Option<u32>) -> Option<u32>
    ensures { result ≡ first_of closed later }
{
    match closed {
        Some(at) => Some(at),
        None => later,
    }
}
