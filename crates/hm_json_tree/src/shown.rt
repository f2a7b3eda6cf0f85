//! A tree as JSON.
ghost use Rattle.std.specs.Prelude.{◌≡◌, ◌++◌, ◌∷◌, [], IfOk, OnOk, OnErr};
ghost use Rattle.std.specs.Io.KnownBytes.{append_known};
ghost use Rattle.hm_store.specs.Causes.{HasCause};
ghost use Rattle.hm_store.specs.Files.{AppendsFront};
ghost use Rattle.hm_json_tree.specs.Texts.{json_text};

use crate::write::give_tree;
use hm_base::OutOfMemory;
use hm_dump::Buffer;
use hm_store::{Failed, MemSink, Sink};
use hm_tree::Tree;
use std::alloc::Global;
use std::marker::Model;

/// The most bytes that are kept before they are written together.
const ROOM: usize = 65_536;

/// A tree as compact JSON, and an LF. Contracts see these bytes.
#[derive(Drop)]
pub struct JsonShown {
    tree: Tree,
    room: Vec<u8>,
}

impl Model for JsonShown {
    ghost use Rattle.std.specs.Prelude.{ℕ, List, ◌++◌, ◌∷◌, []};
    ghost use Rattle.hm_json_tree.specs.Texts.{json_text};

    ghost Value = { List ℕ };

    ghost view = { λ s. json_text s.tree ++ 10 ∷ [] };
}

impl JsonShown {
    /// The JSON of a tree. All memory that `put` needs is taken here, the same for each tree.
    pub fn of(alloc: Global, tree: Tree) -> Result<JsonShown, OutOfMemory>
        ensures { IfOk result (λ shown. shown ≡ json_text tree ++ 10 ∷ []) }
    {
        let room = Vec::with_capacity(alloc, ROOM)?;
        Ok(JsonShown { tree, room })
    }

    /// Writes the bytes one after the other. They are never in memory all together.
    pub fn put<O: Sink>(self, out: &mut O) -> Result<(), Failed>
        ensures ok { OnOk result (O.contents out.new ≡ append_known (O.contents out.old) self) }
        ensures err { OnErr result (AppendsFront (O.contents out.old) (O.contents out.new) self) }
        ensures cause { HasCause (O.faults out.old) (O.faults out.new) result }
    {
        let JsonShown { tree, room } = self;
        let mut buffer = Buffer::of(room);
        give_tree(&mut buffer, out, &tree);
        buffer.give(out, b"\n");
        buffer.flush(out);
        if buffer.failed { Err(Failed) } else { Ok(()) }
    }
}

/// The JSON of a tree in memory, without an LF. For tests.
pub fn write_tree(alloc: Global, tree: &Tree) -> Result<Vec<u8>, OutOfMemory>
    ensures { IfOk result (λ bytes. bytes.items ≡ json_text tree.now) }
{
    let room = Vec::with_capacity(alloc, ROOM)?;
    let mut buffer = Buffer::of(room);
    let mut out = MemSink::new(alloc);
    give_tree(&mut buffer, &mut out, tree);
    buffer.flush(&mut out);
    if buffer.failed {
        return Err(OutOfMemory);
    }
    copied(alloc, out.bytes())
}

/// A copy of the bytes.
#[inline(always)]
fn copied(alloc: Global, bytes: &[u8]) -> Result<Vec<u8>, OutOfMemory>
    ensures { IfOk result (λ copy. copy.items ≡ bytes.now) }
{
    let mut copy = Vec::new(alloc);
    copy.extend_from_slice(bytes)?;
    Ok(copy)
}
