//! Compares the program's built-in table with the one that `entities.json` gives, and prints how many names they have
//! and how many differ.
//!
//! It compares for each character the names that start with it, their bytes and their code points, and whether the
//! character is plain. Each name is also looked up by its node, and as the longest one of a text.
#![tactic(auto)]

ghost use Rattle.std.specs.Prelude.{◌<◌, length};

use hm_html_names::html_table;
use hm_refs::{NameId, Table};
use std::alloc::Global;
use std::{fs, io};

/// What was compared up to here.
#[derive(Drop)]
struct Counts {
    names: u32,
    differ: u32,
}

impl Counts {
    /// Counts one more comparison.
    fn take(&mut self, is_alike: bool) {
        self.names = self.names.saturating_add(1);
        if !is_alike {
            self.differ = self.differ.saturating_add(1);
        }
    }
}

/// Whether the node of a name gives that name, and so does the text of the name with one byte more.
fn is_found(alloc: Global, table: &Table, id: NameId) -> io::Result<bool>
    requires { id < length table.now.entries }
{
    let mut text = Vec::from_slice(alloc, table.name(id))?;
    text.push(b'!')?;
    let by_node = table.name_at(table.node_of(id));
    let by_text = table.longest(text.as_slice());
    Ok(by_node == Some(id) && by_text == Some(id))
}

/// Compares the names that start with a character.
fn compare(
    alloc: Global,
    ready: &Table,
    read: &Table,
    first: char,
    counts: &mut Counts,
) -> io::Result<()> {
    let ours = ready.names_for(first);
    let theirs = read.names_for(first);
    if ours.len() != theirs.len() || ready.is_plain(first) != read.is_plain(first) {
        counts.differ = counts.differ.saturating_add(1);
    }
    for number in 0..ours.len().min(theirs.len()) {
        let our = ours[number];
        let their = theirs[number];
        let is_alike = ready.name(our) == read.name(their)
            && ready.points(our) == read.points(their)
            && is_found(alloc, ready, our)?
            && is_found(alloc, read, their)?;
        counts.take(is_alike);
    }
    Ok(())
}

/// Compares the two tables and prints the counts.
fn main(rt: HostRuntime) -> io::Result<()> {
    let alloc = rt.alloc();
    let text = fs::read(&rt, "entities.json")?;
    let (Ok(ready), Ok(read)) = (html_table(alloc), Table::read(alloc, text.as_slice())) else {
        return println!(rt; "no table");
    };
    let mut counts = Counts {
        names: 0,
        differ: 0,
    };
    for first in '\0'..=char::MAX {
        compare(alloc, &ready, &read, first, &mut counts)?;
    }
    let (names, differ) = (counts.names, counts.differ);
    println!(rt; "{names} names, {differ} differ")
}
