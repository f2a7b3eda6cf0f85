//! Runs of bytes of one kind.
ghost use Rattle.std.specs.Prelude.{◌≡◌, ◌≤◌, length};
ghost use Rattle.hm_base.specs.Forms as forms;
ghost use Rattle.hm_refs.specs.Reads.{IsEndOf};
ghost use Rattle.hm_scan.specs.TagPlaces.{test_of};

use crate::names::{is_small, is_tag_byte};
use hm_base::is_space_byte;

/// The kind of bytes that a run has.
#[derive(Clone, Copy)]
pub(crate) enum ByteRun {
    /// Whitespace.
    Space,
    /// Whitespace and `/`.
    Gap,
    /// Neither whitespace nor `/` nor `>`.
    TagName,
    /// Lowercase letters.
    Letter,
    /// Neither whitespace nor `/`, `>` or `=`.
    AttributeName,
    /// Neither whitespace nor `>`.
    Unquoted,
}

impl ByteRun {
    /// Whether a run of this kind may have the byte in it.
    #[inline(always)]
    #[tactic(auto, unfolding(crate::specs::TagPlaces::is_gap_byte, crate::specs::Tags::is_name_byte, crate::specs::Tags::is_later_byte, crate::specs::Tags::is_unquoted_byte, hm_base::specs::RawText::is_name_end))]
    pub(crate) fn has(self, byte: u8) -> bool
        ensures { result ≡ test_of self byte }
    {
        match self {
            ByteRun::Space => is_space_byte(byte),
            ByteRun::Gap => is_space_byte(byte) || byte == b'/',
            ByteRun::TagName => !(is_space_byte(byte) || byte == b'/' || byte == b'>'),
            ByteRun::Letter => is_small(byte),
            ByteRun::AttributeName => {
                !(is_space_byte(byte) || byte == b'/' || byte == b'>' || byte == b'=')
            }
            ByteRun::Unquoted => !(is_space_byte(byte) || byte == b'>'),
        }
    }
}

/// Where the run ends that begins at `from`.
#[inline(always)]
pub(crate) fn run_end(bytes: &[u8], from: usize, run: ByteRun) -> usize
    requires { from ≤ length bytes.now }
    ensures { IsEndOf (test_of run) bytes.now from result }
{
    let mut at = from;
    while at < bytes.len() && run.has(bytes[at]) {
        at += 1;
    }
    at
}

/// The end of the run of lowercase letters, digits, `.`, `_`, `:` and `-` that starts at `from`. Most of them are
/// letters, so these are passed first.
#[inline(always)]
pub(crate) fn plain_run_end(bytes: &[u8], from: usize) -> usize
    requires { from ≤ length bytes.now }
    ensures { IsEndOf forms.is_tag_byte bytes.now from result }
{
    let mut at = run_end(bytes, from, ByteRun::Letter);
    while at < bytes.len() && is_tag_byte(bytes[at]) {
        at += 1;
    }
    at
}
