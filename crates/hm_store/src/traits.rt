//! What the program needs from the outside.
ghost use Rattle.std.specs.Prelude.{◌≡◌, ◌↔◌, ◌⊎◌, ℕ, List, [], Bool, true, false, IsSome, IfOk, OnOk, OnErr};
ghost use Rattle.std.specs.declared.option.Option.{Option};
ghost use Rattle.std.specs.Io.{ReadsAtMost};
ghost use Rattle.std.specs.Io.KnownBytes.{append_known};
ghost use Rattle.hm_store.specs.Causes.{HasCause};
ghost use Rattle.hm_store.specs.Files.{FileMap, IsMissing, Opens, Pulls, PutsFront, AppendsFront, with_file, with_more};

/// A call on a store or a sink has failed.
#[derive(Clone, Copy, PartialEq, Eq)]
pub struct Failed;

/// The most bytes that are pulled from a file at once, and how many bytes of a long output wait to be put together.
pub const PIECE_SIZE: usize = 65_536;

/// A store of files by name, of which at most one is being read and at most one is being written.
pub trait Store {
    // the files, if they are known
    ghost files: { Self → Option FileMap };

    // whether a file is being read
    ghost is_reading: { Self → Bool };

    // its name, if the files are known
    ghost source: { Self → List ℕ };

    // its bytes that are left to read, if the files are known
    ghost rest: { Self → Option (List ℕ) };

    // whether a file is being written
    ghost is_writing: { Self → Bool };

    // its name, if the files are known
    ghost target: { Self → List ℕ };

    // how often a call has failed
    ghost faults: { Self → ℕ };

    /// Opens a file for reading, from its start. False means that the store has no such file.
    fn open_in(&mut self, name: &str) -> Result<bool, Failed>
        ensures same { files self.new ≡ files self.old }
        ensures reads { (is_reading self.new ≡ true) ↔ (result ≡ Ok true) }
        ensures named { result ≡ Ok true → IsSome (files self.old) → source self.new ≡ name.now }
        ensures opens { Opens (files self.old) name.now result (rest self.new) }
        ensures absent { result ≡ Ok false → IsMissing (files self.old) name.now }
        ensures writes { is_writing self.new ≡ is_writing self.old }
        ensures target { target self.new ≡ target self.old }
        ensures cause { HasCause (faults self.old) (faults self.new) result };

    /// Reads the next bytes of the file into the start of `into`, and returns how many there were.
    fn pull(&mut self, into: &mut [u8]) -> Result<usize, Failed>
        requires { is_reading self.old ≡ true }
        ensures same { files self.new ≡ files self.old }
        ensures reads { is_reading self.new ≡ true }
        ensures named { source self.new ≡ source self.old }
        ensures bound { ReadsAtMost result into.new }
        ensures bytes { IfOk result (λ n. Pulls (rest self.old) (rest self.new) n into.new) }
        ensures place { OnErr result (rest self.new ≡ rest self.old) }
        ensures writes { is_writing self.new ≡ is_writing self.old }
        ensures target { target self.new ≡ target self.old }
        ensures cause { HasCause (faults self.old) (faults self.new) result };

    /// Opens a file for writing, and empties it.
    fn open_out(&mut self, name: &str) -> Result<(), Failed>
        ensures ok { OnOk result (files self.new ≡ with_file (files self.old) name.now []) }
        ensures writes { OnOk result (is_writing self.new ≡ true) }
        ensures named { OnOk result (IsSome (files self.old) → target self.new ≡ name.now) }
        ensures err { OnErr result ((files self.new ≡ files self.old)
            ⊎ (files self.new ≡ with_file (files self.old) name.now [])) }
        ensures idle { OnErr result (is_writing self.new ≡ false) }
        ensures reads { is_reading self.new ≡ is_reading self.old }
        ensures source { source self.new ≡ source self.old }
        ensures cause { HasCause (faults self.old) (faults self.new) result };

    /// Appends bytes to the file that is being written. After a failed call some first part of them may have been
    /// appended.
    fn put(&mut self, bytes: &[u8]) -> Result<(), Failed>
        requires { is_writing self.old ≡ true }
        ensures ok { OnOk result
            (files self.new ≡ with_more (files self.old) (target self.old) bytes.now) }
        ensures err { OnErr result ((files self.new ≡ files self.old)
            ⊎ PutsFront (files self.old) (files self.new) (target self.old) bytes.now) }
        ensures writes { is_writing self.new ≡ true }
        ensures named { target self.new ≡ target self.old }
        ensures reads { is_reading self.new ≡ is_reading self.old }
        ensures source { source self.new ≡ source self.old }
        ensures cause { HasCause (faults self.old) (faults self.new) result };

    /// Ends writing the file.
    fn close_out(&mut self) -> Result<(), Failed>
        requires { is_writing self.old ≡ true }
        ensures same { files self.new ≡ files self.old }
        ensures idle { is_writing self.new ≡ false }
        ensures reads { is_reading self.new ≡ is_reading self.old }
        ensures source { source self.new ≡ source self.old }
        ensures rest { rest self.new ≡ rest self.old }
        ensures cause { HasCause (faults self.old) (faults self.new) result };
}

/// A sink of bytes.
pub trait Sink {
    // the bytes, if they are known
    ghost contents: { Self → Option (List ℕ) };

    // how often a call has failed
    ghost faults: { Self → ℕ };

    /// Appends bytes to the sink. After a failed call some first part of them may have been appended.
    fn put(&mut self, bytes: &[u8]) -> Result<(), Failed>
        ensures ok { OnOk result (contents self.new ≡ append_known (contents self.old) bytes.now) }
        ensures err { OnErr result (AppendsFront (contents self.old) (contents self.new) bytes.now) }
        ensures cause { HasCause (faults self.old) (faults self.new) result };
}
