//! Plain characters: see `Table::is_plain`.
ghost use Rattle.std.specs.Prelude.{◌≡◌, [], IfOk};
ghost use Rattle.hm_refs.specs.Plain.{is_long};
ghost use Rattle.hm_refs.specs.Flags.{IsFlagged};
ghost use Rattle.hm_refs.specs.Nodes.{entries_of, entry_of};

use crate::nodes::ReferenceName;

/// The characters that are plain in a table without names.
const PLAIN: [u8; 87] =
    *b"ABCDEFGHIJKLMNOPQRSTUVWXYZabcdefghijklmnopqrstuvwxyz0123456789!#$%()*+,-./:;?@[\\]^_{|}~";

/// For each ASCII character whether it is plain in a table with these names.
///
/// A writer asks this about almost every character, so a table keeps the answers.
pub(crate) fn plain_flags(names: &[ReferenceName]) -> [bool; 128]
    ensures { IsFlagged (entries_of names.now) result }
{
    let mut flags = without_names();
    for name in names {
        let first = name.points.first as usize;
        if first < flags.len() && !is_long(name) {
            flags[first] = false;
        }
    }
    flags
}

/// For each ASCII character whether it is plain in a table without names.
fn without_names() -> [bool; 128]
    ensures { IsFlagged [] result }
{
    let mut flags = [false; 128];
    for byte in PLAIN {
        flags[byte as usize] = true;
    }
    flags
}

/// Whether the name has one code point, and at least four bytes.
fn is_long(name: &ReferenceName) -> bool
    ensures { result ≡ is_long (entry_of name.now) }
{
    name.points.second.is_none() && name.text.as_str().len() >= 4
}
