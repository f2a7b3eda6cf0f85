//! Bytes that are collected before they are written to a sink.
ghost use Rattle.std.specs.Prelude.{◌≡◌, ◌+◌, ◌≤◌, ◌++◌, [], length, vec_len, vec_capacity};
ghost use Rattle.hm_dump.specs.Given.{Gives, IsFresh, Puts};

use hm_store::Sink;

/// Bytes that are written to a sink together. After a failed put nothing more is written.
#[derive(Drop)]
pub struct Buffer {
    pub bytes: Vec<u8>,
    pub failed: bool,
}

/// Writes bytes, unless a put has failed before. Returns whether one has failed.
fn put_to<O: Sink>(out: &mut O, failed: bool, bytes: &[u8]) -> bool
    ensures { Puts (O.contents out.old) (O.contents out.new) (O.faults out.old) (O.faults out.new) failed result bytes.now }
{
    failed || out.put(bytes).is_err()
}

/// Appends bytes. There is room for them.
fn append(waiting: &mut Vec<u8>, bytes: &[u8])
    requires { vec_len waiting.old + length bytes.now ≤ vec_capacity waiting.old }
    ensures { waiting.new.items ≡ waiting.old.items ++ bytes.now }
{
    waiting.extend_from_slice(bytes).unwrap();
}

impl Buffer {
    /// An empty buffer with the room of a list, whose bytes are dropped.
    pub fn of(mut bytes: Vec<u8>) -> Buffer
        ensures { IsFresh result }
    {
        bytes.clear();
        Buffer {
            bytes,
            failed: false,
        }
    }

    /// Adds bytes. They are kept if there is room. More bytes than the whole room are written at once.
    #[inline(always)]
    pub fn give<O: Sink>(&mut self, out: &mut O, bytes: &[u8])
        ensures { Gives (O.contents out.old) (O.contents out.new) (O.faults out.old) (O.faults out.new) self.old self.new bytes.now }
    {
        if bytes.len() <= self.bytes.capacity() - self.bytes.len() {
            append(&mut self.bytes, bytes);
        } else {
            self.give_after(out, bytes);
        }
    }

    /// Writes the bytes that are kept, and then adds these.
    #[cold]
    #[inline(never)]
    fn give_after<O: Sink>(&mut self, out: &mut O, bytes: &[u8])
        ensures { Gives (O.contents out.old) (O.contents out.new) (O.faults out.old) (O.faults out.new) self.old self.new bytes.now }
    {
        self.flush(out);
        if bytes.len() <= self.bytes.capacity() - self.bytes.len() {
            append(&mut self.bytes, bytes);
        } else {
            self.failed = put_to(out, self.failed, bytes);
        }
    }

    /// Writes the bytes that are kept.
    pub fn flush<O: Sink>(&mut self, out: &mut O)
        ensures gives { Gives (O.contents out.old) (O.contents out.new) (O.faults out.old) (O.faults out.new) self.old self.new [] }
        ensures empty { self.new.bytes.items ≡ [] }
    {
        self.failed = put_to(out, self.failed, self.bytes.as_slice());
        self.bytes.clear();
    }
}
