//! Bytes in reverse order.
ghost use Rattle.std.specs.Prelude.{◌≡◌, ◌+◌, ◌-◌, ◌≤◌, ◌++◌, length, take, drop, reverse};

/// Eight bytes in reverse order.
#[inline(always)]
fn turned(bytes: [u8; 8]) -> [u8; 8]
    ensures { result ≡ reverse bytes }
{
    u64::from_le_bytes(bytes).to_be_bytes()
}

/// The eight bytes from index `at` on.
#[inline(always)]
fn eight_at(bytes: &[u8], at: usize) -> [u8; 8]
    requires { at + 8 ≤ length bytes.now }
    ensures { result ≡ take 8 (drop at bytes.now) }
{
    let mut eight = [0; 8];
    eight.copy_from_slice(&bytes[at..at + 8]);
    eight
}

/// Swaps the first eight bytes and the last eight, each in reverse order.
#[inline(always)]
fn turn_ends(bytes: &mut [u8])
    requires { 16 ≤ length bytes.old }
    ensures { bytes.new ≡ reverse (drop (length bytes.old - 8) bytes.old) ++ take (length bytes.old - 16) (drop 8 bytes.old) ++ reverse (take 8 bytes.old) }
{
    let last = bytes.len() - 8;
    let front = turned(eight_at(bytes, 0));
    let last_turned = turned(eight_at(bytes, last));
    bytes[..8].copy_from_slice(&last_turned);
    bytes[last..].copy_from_slice(&front);
}

/// Reverses the bytes in place.
pub(crate) fn turn(bytes: &mut [u8])
    ensures { bytes.new ≡ reverse bytes.old }
{
    let len = bytes.len();
    let mut done = 0;
    while len - done - done >= 16 {
        turn_ends(&mut bytes[done..len - done]);
        done += 8;
    }
    bytes[done..len - done].reverse();
}
