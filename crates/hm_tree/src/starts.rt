//! The rows of starts. The length of the name and the number of attributes take a byte each. If that is too little, the
//! name is a piece in the list of attributes, directly before the start's own.
ghost use Rattle.std.specs.Prelude.{◌≡◌, ◌+◌, ◌^◌, ◌<◌, ◌≤◌, true, length, string_bytes, string_len, string_capacity, vec_len, vec_capacity, IfSome, IfOk, OnErr};
ghost use Rattle.hm_base.specs.Walks.{attributes_size};
ghost use Rattle.hm_tree.specs.Attributes.{are_texts};
ghost use Rattle.hm_tree.specs.Rows.{IsStartAppended};
ghost use Rattle.hm_tree.specs.Sources.{listed};
ghost use Rattle.hm_tree.specs.Starts as parts;
ghost use Rattle.hm_tree.specs.Starts.{HasName};

use crate::appended::{append, append_attributes};
use crate::pieces::{AttributePieces, TextRange};
use crate::rows::RowPart;
use crate::sources::AttributeSource;
use hm_base::OutOfMemory;

/// The index of a start's first attribute, and how many it has.
#[derive(Clone, Copy)]
pub(crate) struct AttributeRange {
    pub(crate) first: u32,
    pub(crate) count: u16,
}

/// The attributes of a row, if it is a start.
#[inline(always)]
pub(crate) fn own_of(part: RowPart) -> Option<AttributeRange>
    ensures { result ≡ parts.own_of part }
{
    match part {
        RowPart::Start { count, first, .. } => Some(AttributeRange {
            first,
            count: u16::from(count),
        }),
        RowPart::LongStart { count, first, .. } => Some(AttributeRange { first, count }),
        _ => None,
    }
}

/// The same start without its last attribute.
pub(crate) fn fewer(part: RowPart) -> RowPart
    requires { IfSome (parts.own_of part) (λ own. 0 < own.count) }
    ensures { result ≡ parts.fewer part }
{
    match part {
        RowPart::Start {
            foreign,
            len,
            count,
            from,
            first,
        } => RowPart::Start {
            foreign,
            len,
            count: count - 1,
            from,
            first,
        },
        RowPart::LongStart {
            foreign,
            count,
            first,
        } => {
            let count = count - 1;
            RowPart::LongStart {
                foreign,
                count,
                first,
            }
        }
        _ => part,
    }
}

/// The end of the element of a start.
#[inline(always)]
pub(crate) fn end_part(attributes: &[AttributePieces], part: RowPart) -> RowPart
    requires { HasName attributes.now part }
    ensures { result ≡ parts.end_part attributes.now part }
{
    match part {
        RowPart::Start {
            foreign,
            len,
            from,
            ..
        } => RowPart::End {
            foreign,
            name: TextRange {
                from,
                to: from + u32::from(len),
            },
        },
        RowPart::LongStart { foreign, first, .. } => RowPart::End {
            foreign,
            name: attributes[first as usize - 1].name(),
        },
        _ => part,
    }
}

/// Appends the name and the attributes of a start, and returns its row. There is room for them.
#[inline(always)]
pub(crate) fn start_part(
    text: &mut String,
    attributes: &mut Vec<AttributePieces>,
    name: &str,
    foreign: bool,
    count: u16,
    attrs: &AttributeSource<'_>,
) -> Result<RowPart, OutOfMemory>
    requires count { count ≡ length (listed attrs.now) }
    requires texts { are_texts (listed attrs.now) ≡ true }
    requires room { string_len text.old + (length name.now + attributes_size (listed attrs.now)) ≤ string_capacity text.old }
    requires places { length (string_bytes text.old) + (length name.now + attributes_size (listed attrs.now)) < 2 ^ 32 }
    requires rows { vec_len attributes.old + length (listed attrs.now) ≤ vec_capacity attributes.old }
    requires indices { length attributes.old.items + length (listed attrs.now) + 1 < 2 ^ 32 }
    ensures ok { IfOk result (λ part. IsStartAppended (string_bytes text.old) attributes.old.items name.now foreign (listed attrs.now) (string_bytes text.new) attributes.new.items part) }
    ensures err { OnErr result ((string_bytes text.new ≡ string_bytes text.old) × (attributes.new.items ≡ attributes.old.items)) }
{
    if !is_short(name.len(), count) {
        return long_part(text, attributes, name, foreign, count, attrs);
    }
    let len = name.len() as u8;
    let from = append(text, name).from;
    let first = append_attributes(text, attributes, attrs);
    Ok(RowPart::Start {
        foreign,
        len,
        count: count as u8,
        from,
        first,
    })
}

/// Whether the length of a name and the number of attributes each fit in a byte.
fn is_short(len: usize, count: u16) -> bool
    ensures { result ≡ true → (len < 256) × (count < 256) }
{
    len < 256 && count < 256
}

/// As `start_part`, but with the name as a piece in the list of attributes, which takes room for one more.
fn long_part(
    text: &mut String,
    attributes: &mut Vec<AttributePieces>,
    name: &str,
    foreign: bool,
    count: u16,
    attrs: &AttributeSource<'_>,
) -> Result<RowPart, OutOfMemory>
    requires count { count ≡ length (listed attrs.now) }
    requires texts { are_texts (listed attrs.now) ≡ true }
    requires room { string_len text.old + (length name.now + attributes_size (listed attrs.now)) ≤ string_capacity text.old }
    requires places { length (string_bytes text.old) + (length name.now + attributes_size (listed attrs.now)) < 2 ^ 32 }
    requires indices { length attributes.old.items + length (listed attrs.now) + 1 < 2 ^ 32 }
    ensures ok { IfOk result (λ part. IsStartAppended (string_bytes text.old) attributes.old.items name.now foreign (listed attrs.now) (string_bytes text.new) attributes.new.items part) }
    ensures err { OnErr result ((string_bytes text.new ≡ string_bytes text.old) × (attributes.new.items ≡ attributes.old.items)) }
{
    attributes.reserve(usize::from(count) + 1)?;
    let TextRange { from, to } = append(text, name);
    let piece = AttributePieces {
        from,
        middle: to,
        to,
    };
    attributes.push(piece).unwrap();
    let first = append_attributes(text, attributes, attrs);
    Ok(RowPart::LongStart {
        foreign,
        count,
        first,
    })
}
