//! Reading and writing a whole file.
ghost use Rattle.std.specs.Prelude.{◌≡◌, ◌+◌, ◌≤◌, ◌<◌, ◌⊎◌, ◌^◌, ◌++◌, ◌==◌, IfOk, OnOk, OnErr, IsOk, IsSome, Ok, Err, true, false, not, length, take, drop};
ghost use Rattle.std.specs.Io.{StartsWith};
ghost use Rattle.hm_store.specs.Causes.{Rose, HasCause};
ghost use Rattle.hm_store.specs.Files.{file_of, with_file, Takes, IsMissing, HasFront};
ghost use Rattle.hm_store.specs.Loading.{FollowsOn};

use crate::{Failed, PIECE_SIZE, Store};
use std::alloc::{AllocError, Global};

/// Why a file isn't loaded.
#[derive(Clone, Copy, PartialEq, Eq)]
pub enum LoadFault {
    /// A call on the store has failed, or the store has no such file.
    Store,
    /// The allocation for the bytes failed.
    OutOfMemory,
}

impl From<AllocError> for LoadFault {
    ghost use Rattle.hm_store.specs.declared.whole_files.LoadFault.{LoadFault};
    ghost use Rattle.hm_store.specs.declared.whole_files.LoadFault.TheVariants.{OutOfMemory};

    ghost from_gives = { λ _ fault. fault ≡ OutOfMemory };

    fn from(_error: AllocError) -> Self {
        LoadFault::OutOfMemory
    }
}

/// Appends the next bytes of the file that is being read to `bytes`, and returns whether there were any. They are
/// pulled into a piece that is used again.
fn pull_more<S: Store>(
    store: &mut S,
    piece: &mut [u8],
    bytes: &mut Vec<u8>,
    limit: usize,
) -> Result<bool, LoadFault>
    requires piece { 0 < length piece.old }
    requires reading { S.is_reading store.old ≡ true }
    requires limit { limit + 1 < 2 ^ 64 }
    requires room { length bytes.old.items ≤ limit }
    ensures same { S.files store.new ≡ S.files store.old }
    ensures reading { S.is_reading store.new ≡ true }
    ensures writing { S.is_writing store.new ≡ S.is_writing store.old }
    ensures target { S.target store.new ≡ S.target store.old }
    ensures follows { IfOk result
        (λ more. FollowsOn bytes.old.items (S.rest store.old) bytes.new.items (S.rest store.new) more) }
    ensures kept { StartsWith bytes.new.items bytes.old.items }
    ensures within { length bytes.new.items ≤ limit + 1 }
    ensures later { S.faults store.old ≤ S.faults store.new }
    ensures failed { result ≡ Err LoadFault.Store → Rose (S.faults store.old) (S.faults store.new) }
    ensures steady { OnOk result (S.faults store.new ≡ S.faults store.old) }
{
    let most = (limit + 1 - bytes.len()).min(piece.len());
    match store.pull(&mut piece[..most]) {
        Ok(count) => {
            bytes.extend_from_slice(&piece[..count])?;
            Ok(count != 0)
        }
        Err(Failed) => Err(LoadFault::Store),
    }
}

/// Reads the rest of the open file into a buffer that starts with `front`. Reads up to `limit + 1` bytes.
fn pull_all<S: Store>(
    alloc: Global,
    store: &mut S,
    front: &[u8],
    limit: usize,
) -> Result<Vec<u8>, LoadFault>
    requires reading { S.is_reading store.old ≡ true }
    requires limit { limit < 2 ^ 32 }
    ensures same { S.files store.new ≡ S.files store.old }
    ensures writing { S.is_writing store.new ≡ S.is_writing store.old }
    ensures target { S.target store.new ≡ S.target store.old }
    ensures front { IfOk result (λ bytes. StartsWith bytes.items front.now) }
    ensures loaded { IfOk result (λ bytes. Takes (S.rest store.old) (limit + 1) (drop (length front.now) bytes.items)) }
    ensures within { IfOk result (λ bytes. length bytes.items ≤ length front.now + (limit + 1)) }
    ensures later { S.faults store.old ≤ S.faults store.new }
    ensures failed { result ≡ Err LoadFault.Store → Rose (S.faults store.old) (S.faults store.new) }
    ensures steady { OnOk result (S.faults store.new ≡ S.faults store.old) }
{
    let mut piece = [0u8; PIECE_SIZE];
    let mut bytes = Vec::new(alloc);
    bytes.extend_from_slice(front)?;
    let most = front.len() + limit;
    while bytes.len() <= most {
        if !pull_more(store, &mut piece, &mut bytes, most)? {
            return Ok(bytes);
        }
    }
    Ok(bytes)
}

/// Writes `piece` over `bytes` from index `at` on, unless the same bytes are already there. Returns whether they were.
fn put_over(bytes: &mut Vec<u8>, at: usize, piece: &[u8]) -> Result<bool, AllocError>
    requires within { at ≤ length bytes.old.items }
    ensures put { IfOk result
        (λ _. (take (at + length piece.now) bytes.new.items ≡ take at bytes.old.items ++ piece.now) × (at + length piece.now ≤ length bytes.new.items)) }
    ensures expected { result ≡ Ok true → bytes.new.items ≡ bytes.old.items }
{
    let end = at + piece.len();
    if end <= bytes.len() && &bytes[at..end] == piece {
        return Ok(true);
    }
    bytes.truncate(at);
    bytes.extend_from_slice(piece)?;
    Ok(false)
}

/// Reads the next bytes of the open file and writes them over `bytes` from index `at` on, up to `limit + 1` bytes in
/// all. Returns how many there were, and whether the same bytes were already there.
fn pull_next_over<S: Store>(
    store: &mut S,
    piece: &mut [u8],
    bytes: &mut Vec<u8>,
    at: usize,
    limit: usize,
) -> Result<(usize, bool), LoadFault>
    requires piece { 0 < length piece.old }
    requires reading { S.is_reading store.old ≡ true }
    requires limit { limit + 1 < 2 ^ 64 }
    requires room { at ≤ limit }
    requires within { at ≤ length bytes.old.items }
    ensures same { S.files store.new ≡ S.files store.old }
    ensures reading { S.is_reading store.new ≡ true }
    ensures writing { S.is_writing store.new ≡ S.is_writing store.old }
    ensures target { S.target store.new ≡ S.target store.old }
    ensures follows { IfOk result
        (λ taken. FollowsOn (take at bytes.old.items) (S.rest store.old) (take (at + taken.0) bytes.new.items) (S.rest store.new) (not (taken.0 == 0))) }
    ensures most { IfOk result (λ taken. at + taken.0 ≤ limit + 1) }
    ensures there { IfOk result (λ taken. at + taken.0 ≤ length bytes.new.items) }
    ensures expected { IfOk result (λ taken. taken.1 ≡ true → bytes.new.items ≡ bytes.old.items) }
    ensures later { S.faults store.old ≤ S.faults store.new }
    ensures failed { result ≡ Err LoadFault.Store → Rose (S.faults store.old) (S.faults store.new) }
    ensures steady { OnOk result (S.faults store.new ≡ S.faults store.old) }
{
    let most = (limit + 1 - at).min(piece.len());
    match store.pull(&mut piece[..most]) {
        Ok(count) => Ok((count, put_over(bytes, at, &piece[..count])?)),
        Err(Failed) => Err(LoadFault::Store),
    }
}

/// Cuts `bytes` to its first `at`, and returns whether none was dropped.
fn cut_at(bytes: &mut Vec<u8>, at: usize) -> bool
    ensures cut { bytes.new.items ≡ take at bytes.old.items }
    ensures whole { result ≡ true → bytes.new.items ≡ bytes.old.items }
{
    let is_whole = bytes.len() <= at;
    bytes.truncate(at);
    is_whole
}

/// Reads the rest of the open file over `bytes`, up to `limit + 1` bytes. Returns whether `bytes` already was the file.
fn pull_over<S: Store>(store: &mut S, bytes: &mut Vec<u8>, limit: usize) -> Result<bool, LoadFault>
    requires reading { S.is_reading store.old ≡ true }
    requires limit { limit < 2 ^ 32 }
    ensures expected { result ≡ Ok true → bytes.new.items ≡ bytes.old.items }
    ensures same { S.files store.new ≡ S.files store.old }
    ensures writing { S.is_writing store.new ≡ S.is_writing store.old }
    ensures target { S.target store.new ≡ S.target store.old }
    ensures loaded { IfOk result (λ _. Takes (S.rest store.old) (limit + 1) bytes.new.items) }
    ensures within { IfOk result (λ _. length bytes.new.items ≤ limit + 1) }
    ensures later { S.faults store.old ≤ S.faults store.new }
    ensures failed { result ≡ Err LoadFault.Store → Rose (S.faults store.old) (S.faults store.new) }
    ensures steady { OnOk result (S.faults store.new ≡ S.faults store.old) }
{
    let mut piece = [0u8; PIECE_SIZE];
    let mut at = 0;
    let mut is_expected = true;
    while at <= limit {
        let (count, is_same) = pull_next_over(store, &mut piece, bytes, at, limit)?;
        is_expected &= is_same;
        if count == 0 {
            return Ok(cut_at(bytes, at) & is_expected);
        }
        at += count;
    }
    Ok(cut_at(bytes, at) & is_expected)
}

/// Reads a file into a buffer that starts with `front`. Reads up to `limit + 1` bytes, so that callers see an oversized
/// file.
pub fn load_with_prefix<S: Store>(
    alloc: Global,
    store: &mut S,
    name: &str,
    front: &[u8],
    limit: u32,
) -> Result<Vec<u8>, LoadFault>
    ensures front { IfOk result (λ bytes. StartsWith bytes.items front.now) }
    ensures loaded { IfOk result
        (λ bytes. Takes (file_of (S.files store.old) name.now) (limit + 1) (drop (length front.now) bytes.items)) }
    ensures within { IfOk result (λ bytes. length bytes.items ≤ length front.now + (limit + 1)) }
    ensures there { IsOk result → IsSome (S.files store.old)
        → IsSome (file_of (S.files store.old) name.now) }

    // Only what is being read changes.
    ensures same { S.files store.new ≡ S.files store.old }
    ensures writing { S.is_writing store.new ≡ S.is_writing store.old }
    ensures target { S.target store.new ≡ S.target store.old }

    // The causes are a failed call and a missing file. If the bytes are returned, no call has failed.
    ensures steady { OnOk result (S.faults store.new ≡ S.faults store.old) }
    ensures later { S.faults store.old ≤ S.faults store.new }
    ensures failed { result ≡ Err LoadFault.Store
        → Rose (S.faults store.old) (S.faults store.new) ⊎ IsMissing (S.files store.old) name.now }
    ensures missing { IsMissing (S.files store.old) name.now → result ≡ Err LoadFault.Store }
{
    match store.open_in(name) {
        Ok(true) => pull_all(alloc, store, front, limit as usize),
        Ok(false) | Err(Failed) => Err(LoadFault::Store),
    }
}

/// Reads a file. Reads up to `limit + 1` bytes, so that callers see an oversized file.
pub fn load<S: Store>(
    alloc: Global,
    store: &mut S,
    name: &str,
    limit: u32,
) -> Result<Vec<u8>, LoadFault>
    ensures loaded { IfOk result
        (λ bytes. Takes (file_of (S.files store.old) name.now) (limit + 1) bytes.items) }
    ensures within { IfOk result (λ bytes. length bytes.items ≤ limit + 1) }
    ensures there { IsOk result → IsSome (S.files store.old)
        → IsSome (file_of (S.files store.old) name.now) }

    // Only what is being read changes.
    ensures same { S.files store.new ≡ S.files store.old }
    ensures writing { S.is_writing store.new ≡ S.is_writing store.old }
    ensures target { S.target store.new ≡ S.target store.old }

    // The causes are a failed call and a missing file. If the bytes are returned, no call has failed.
    ensures steady { OnOk result (S.faults store.new ≡ S.faults store.old) }
    ensures later { S.faults store.old ≤ S.faults store.new }
    ensures failed { result ≡ Err LoadFault.Store
        → Rose (S.faults store.old) (S.faults store.new) ⊎ IsMissing (S.files store.old) name.now }
    ensures missing { IsMissing (S.files store.old) name.now → result ≡ Err LoadFault.Store }
{
    load_with_prefix(alloc, store, name, &[], limit)
}

/// Reads a file over `bytes`, which holds the bytes that the file is expected to have. Nothing is copied as long as
/// they agree. Reads up to `limit + 1` bytes, so that callers see an oversized file. Returns whether `bytes` already
/// was the file.
pub fn load_over<S: Store>(
    store: &mut S,
    name: &str,
    bytes: &mut Vec<u8>,
    limit: u32,
) -> Result<bool, LoadFault>
    ensures expected { result ≡ Ok true → bytes.new.items ≡ bytes.old.items }
    ensures loaded { IfOk result
        (λ _. Takes (file_of (S.files store.old) name.now) (limit + 1) bytes.new.items) }
    ensures within { IfOk result (λ _. length bytes.new.items ≤ limit + 1) }
    ensures there { IsOk result → IsSome (S.files store.old)
        → IsSome (file_of (S.files store.old) name.now) }

    // Only what is being read changes.
    ensures same { S.files store.new ≡ S.files store.old }
    ensures writing { S.is_writing store.new ≡ S.is_writing store.old }
    ensures target { S.target store.new ≡ S.target store.old }

    // The causes are a failed call and a missing file. If the file is loaded, no call has failed.
    ensures steady { OnOk result (S.faults store.new ≡ S.faults store.old) }
    ensures later { S.faults store.old ≤ S.faults store.new }
    ensures failed { result ≡ Err LoadFault.Store
        → Rose (S.faults store.old) (S.faults store.new) ⊎ IsMissing (S.files store.old) name.now }
    ensures missing { IsMissing (S.files store.old) name.now → result ≡ Err LoadFault.Store }
{
    match store.open_in(name) {
        Ok(true) => pull_over(store, bytes, limit as usize),
        Ok(false) | Err(Failed) => Err(LoadFault::Store),
    }
}

/// Writes a whole file: opens it, writes all bytes in one put, and closes it. Stops at the first call that fails.
pub fn write_file<S: Store>(store: &mut S, name: &str, bytes: &[u8]) -> Result<(), Failed>
    ensures ok { OnOk result (S.files store.new ≡ with_file (S.files store.old) name.now bytes.now) }
    ensures err { OnErr result ((S.files store.new ≡ S.files store.old)
        ⊎ HasFront (S.files store.old) (S.files store.new) name.now bytes.now) }
    ensures idle { OnOk result (S.is_writing store.new ≡ false) }
    ensures reading { S.is_reading store.new ≡ S.is_reading store.old }
    ensures source { S.source store.new ≡ S.source store.old }
    ensures cause { HasCause (S.faults store.old) (S.faults store.new) result }
{
    store.open_out(name)?;
    match store.put(bytes) {
        Ok(()) => store.close_out(),
        Err(Failed) => Err(Failed),
    }
}
