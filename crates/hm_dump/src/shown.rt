//! A tree as lines of text.
ghost use Rattle.std.specs.Prelude.{◌≡◌, IfOk, OnOk, OnErr};
ghost use Rattle.std.specs.Io.KnownBytes.{append_known};
ghost use Rattle.hm_store.specs.Causes.{HasCause};
ghost use Rattle.hm_store.specs.Files.{AppendsFront};
ghost use Rattle.hm_dump.specs.Dump.{dump_of};

use crate::buffer::Buffer;
use crate::lines::give_lines;
use hm_base::OutOfMemory;
use hm_store::{Failed, Sink};
use hm_tree::Tree;
use std::alloc::Global;
use std::marker::Model;

/// The most bytes of lines that are kept before they are written together.
const ROOM: usize = 65_536;

/// A tree as text: a line for each doctype, start, text and comment, after two spaces for each open element, as
/// `doctype`, `element p id="x"`, `text "a"` and `comment "c"`. Contracts see the bytes of the lines.
#[derive(Drop)]
pub struct Shown {
    tree: Tree,
    room: Vec<u8>,
}

impl Model for Shown {
    ghost use Rattle.std.specs.Prelude.{ℕ, List};
    ghost use Rattle.hm_dump.specs.Dump.{dump_of};

    ghost Value = { List ℕ };

    ghost view = { λ s. dump_of s.tree };
}

impl Shown {
    /// The lines of a tree. All memory that `put` needs is taken here, the same for each tree.
    pub fn of(alloc: Global, tree: Tree) -> Result<Shown, OutOfMemory>
        ensures { IfOk result (λ shown. shown ≡ dump_of tree) }
    {
        let room = Vec::with_capacity(alloc, ROOM)?;
        Ok(Shown { tree, room })
    }

    /// Writes the lines one after the other. They are never in memory all together.
    pub fn put<O: Sink>(self, out: &mut O) -> Result<(), Failed>
        ensures ok { OnOk result (O.contents out.new ≡ append_known (O.contents out.old) self) }
        ensures err { OnErr result (AppendsFront (O.contents out.old) (O.contents out.new) self) }
        ensures cause { HasCause (O.faults out.old) (O.faults out.new) result }
    {
        let Shown { tree, room } = self;
        let mut buffer = Buffer::of(room);
        give_lines(&mut buffer, out, &tree);
        buffer.flush(out);
        if buffer.failed { Err(Failed) } else { Ok(()) }
    }
}
