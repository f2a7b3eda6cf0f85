//! The parts of a tag after its name: attributes and the end.
ghost use Rattle.std.specs.Prelude.{◌≡◌, ◌≤◌, ◌<◌, ◌-◌, ◌&&◌, ◌==◌, nat_lt, length, slice_index, IsUtf8, IsCharBoundary};
ghost use Rattle.hm_scan.specs.Parts.{IsPart};

use crate::attribute::{WrittenAttribute, attribute_at};
use crate::tag_runs::{ByteRun, run_end};

/// The next part of a tag, after whitespace and `/`.
#[derive(Clone, Copy)]
pub(crate) enum TagPart {
    /// Nothing: the text ends.
    Nothing,
    /// The tag's `>`, and whether a `/` is directly before it. The bytes after it start at `after`.
    TagEnd {
        slash: bool,
        after: usize,
    },
    /// An attribute that starts at `at`.
    Pair {
        at: usize,
        attribute: WrittenAttribute,
    },
}

/// Whether the byte before `at` is a `/` that isn't before `from`.
fn ends_in_slash(bytes: &[u8], from: usize, at: usize) -> bool
    requires { at ≤ length bytes.now }
    ensures { result ≡ nat_lt from at && (slice_index bytes.now (at - 1) == 47) }
{
    from < at && bytes[at - 1] == b'/'
}

/// The next part of a tag (#before-attribute-name-state, #after-attribute-name-state,
/// #after-attribute-value-(quoted)-state and #self-closing-start-tag-state).
pub(crate) fn next_part(bytes: &[u8], from: usize) -> TagPart
    requires utf8 { IsUtf8 bytes.now }
    requires boundary { IsCharBoundary bytes.now from }
    ensures { IsPart bytes.now from result }
{
    let at = run_end(bytes, from, ByteRun::Gap);
    if at == bytes.len() {
        return TagPart::Nothing;
    }
    if bytes[at] == b'>' {
        return TagPart::TagEnd {
            slash: ends_in_slash(bytes, from, at),
            after: at + 1,
        };
    }
    TagPart::Pair {
        at,
        attribute: attribute_at(bytes, at),
    }
}
