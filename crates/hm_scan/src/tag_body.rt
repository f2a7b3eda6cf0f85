//! A tag after its name.
ghost use Rattle.std.specs.Prelude.{◌^◌, ◌<◌, length, IsCharBoundary, IfOk, IfErr};
ghost use Rattle.hm_scan.specs.Collected.{HasNoBody, IsTagBody};

use crate::collected::Collected;
use crate::tag_parts::{TagPart, next_part};
use hm_refs::Table;
use hm_tree::{Attrs, ScanFault};
use std::alloc::Global;

/// What was read of a tag's attributes, whether a `/` is directly before its `>`, and where the bytes after it start.
#[derive(Clone, Copy)]
pub(crate) struct TagBody {
    pub(crate) collected: Collected,
    pub(crate) slash: bool,
    pub(crate) after: usize,
}

/// Reads a tag from the end of its name, `from`, on. Its attributes are put into `attrs`, over those of an earlier tag.
/// `keeps` is false for an end tag, whose attributes are dropped.
pub(crate) fn read_body(
    alloc: Global,
    text: &str,
    from: usize,
    table: &Table,
    keeps: bool,
    attrs: &mut Attrs,
) -> Result<TagBody, ScanFault>
    requires boundary { IsCharBoundary text.now from }
    requires size { length text.now < 2 ^ 32 }
    ensures ok { IfOk result (IsTagBody table.now.entries keeps text.now from attrs.new) }
    ensures err { IfErr result (HasNoBody text.now from) }
{
    let bytes = text.as_bytes();
    attrs.clear();
    let mut collected = Collected::new(keeps);
    let mut at = from;
    loop {
        match next_part(bytes, at) {
            TagPart::Nothing => return Err(ScanFault::Cut),
            TagPart::TagEnd { slash, after } => {
                return Ok(TagBody {
                    collected,
                    slash,
                    after,
                });
            }
            TagPart::Pair {
                at: start,
                attribute,
            } => {
                let name = &text[start..attribute.name_to];
                let value = &text[attribute.value.from..attribute.value.to];
                let plain = attribute.value.plain;
                collected.take(alloc, name, attribute.plain, value, plain, table, attrs)?;
                at = attribute.value.after;
            }
        }
    }
}
