//! Runs of bytes that need no escape inside quotes.
ghost use Rattle.std.specs.Prelude.{◌≡◌, ◌≤◌, ◌<◌, length};
ghost use Rattle.hm_base.specs.Bytes.{some_passes};
ghost use Rattle.hm_dump.specs.Runs as runs;
ghost use Rattle.hm_dump.specs.Runs.{IsPlainRun};

/// Whether the byte is escaped inside quotes. Every comparison is made, without a branch, so that many bytes can be
/// tested at once.
#[tactic(auto, unfolding(crate::specs::Runs::is_escaped))]
fn is_escaped(byte: u8) -> bool
    ensures { result ≡ runs.is_escaped byte }
{
    (byte == b'"') | (byte == b'\\') | (byte == b'\n') | (byte == b'\r') | (byte == b'\t')
}

/// Whether one of the bytes is escaped. All are tested, without a branch.
fn has_escaped(bytes: &[u8]) -> bool
    ensures { result ≡ some_passes runs.is_escaped bytes.now }
{
    let mut found = 0u8;
    for byte in bytes {
        found |= is_escaped(*byte) as u8;
    }
    found != 0
}

/// Advances by `width` bytes at a time, as long as none of them is escaped.
#[inline(always)]
fn skip_plain(bytes: &[u8], from: usize, width: usize) -> usize
    requires inside { from ≤ length bytes.now }
    requires some { 0 < width }
    ensures forward { from ≤ result }
    ensures inside { result ≤ length bytes.now }
    ensures plain { IsPlainRun bytes.now from result }
{
    let mut at = from;
    while bytes.len() - at >= width && !has_escaped(&bytes[at..at + width]) {
        at += width;
    }
    at
}

/// The next byte that is escaped, or the end. Most of the way is by 16 bytes at a time, the rest by 4 and by 1.
pub(crate) fn plain_end(bytes: &[u8], from: usize) -> usize
    requires { from ≤ length bytes.now }
    ensures forward { from ≤ result }
    ensures inside { result ≤ length bytes.now }
    ensures plain { IsPlainRun bytes.now from result }
{
    let at = skip_plain(bytes, from, 16);
    let at = skip_plain(bytes, at, 4);
    skip_plain(bytes, at, 1)
}
