//! The attributes of a tag, collected while it is read.
ghost use Rattle.std.specs.Prelude.{◌≡◌, ◌+◌, ◌^◌, ◌<◌, ◌≤◌, ◌&&◌, nat_le, not, true, false, [], ◌∷◌, ◌++◌, List, length, map, OnOk};
ghost use Rattle.hm_base.specs.Walks.{Attribute};
ghost use Rattle.hm_scan.specs.Collected.{IsCollected, added};
ghost use Rattle.hm_base.specs.Bytes.{lower};
ghost use Rattle.hm_scan.specs.TagPlaces.{IsOrdinaryName, IsPlainValue};
ghost use Rattle.hm_scan.specs.Reading as reading;

use crate::names::{is_bad_name, lowered};
use crate::values::{has_reference, read_value};
use hm_base::{ATTRIBUTE_LIMIT, OutOfMemory};
use hm_refs::Table;
use hm_tree::Attrs;
use std::alloc::Global;

/// How many attributes the tag has so far, and whether one of them has a name that isn't allowed. The first attribute
/// of each name is kept in an `Attrs` beside it, unless the tag is refused anyway. An end tag keeps none.
#[derive(Clone, Copy)]
pub(crate) struct Collected {
    pub(crate) keeps: bool,
    pub(crate) count: u32,
    pub(crate) has_bad_name: bool,
}

impl Collected {
    /// No attributes. `keeps` is true for a start tag.
    pub(crate) fn new(keeps: bool) -> Collected
        ensures { result ≡ record { keeps = keeps; count = 0; has_bad_name = false } }
    {
        Collected {
            keeps,
            count: 0,
            has_bad_name: false,
        }
    }

    /// Whether the next attribute is kept.
    fn wants(&self) -> bool
        ensures { result
            ≡ (self.now.keeps && not self.now.has_bad_name && nat_le self.now.count ATTRIBUTE_LIMIT) }
    {
        self.keeps && !self.has_bad_name && self.count <= ATTRIBUTE_LIMIT
    }

    /// Takes one more attribute, with name and value as the page has them (#attribute-name-state). `plain` means that
    /// the name is allowed and its bytes are its text; `plain_value` that the value has no `&`.
    pub(crate) fn take(
        &mut self,
        alloc: Global,
        name: &str,
        plain: bool,
        value: &str,
        plain_value: bool,
        table: &Table,
        attrs: &mut Attrs,
    ) -> Result<(), OutOfMemory>
        requires room { self.old.count + 1 < 2 ^ 32 }
        requires plain { plain ≡ true → IsOrdinaryName name.now }
        requires plain_value { plain_value ≡ true → IsPlainValue value.now }
        requires few { length attrs.old ≤ self.old.count }
        ensures taken { OnOk result
            ((written : List Attribute) → IsCollected table.now.entries written self.old attrs.old
            → IsCollected table.now.entries (written ++ record { name = name.now; value = value.now } ∷ []) self.new attrs.new) }
        ensures keeps { self.new.keeps ≡ self.old.keeps }
    {
        self.count += 1;
        self.has_bad_name = self.has_bad_name || is_refused(name, plain);
        if self.wants() {
            keep(attrs, alloc, name, plain, value, plain_value, table)?;
        }
        Ok(())
    }
}

/// Whether this name of an attribute isn't allowed. `plain` means that it is.
fn is_refused(name: &str, plain: bool) -> bool
    requires { plain ≡ true → IsOrdinaryName name.now }
    ensures { result ≡ reading.is_bad_name name.now }
{
    !plain && is_bad_name(name.as_bytes())
}

/// Adds an attribute with its name in lowercase letters and its value without references, unless the name is already
/// there. A plain name isn't copied first.
fn keep(
    attrs: &mut Attrs,
    alloc: Global,
    name: &str,
    plain: bool,
    value: &str,
    plain_value: bool,
    table: &Table,
) -> Result<(), OutOfMemory>
    requires room { length attrs.old + 1 < 2 ^ 32 }
    requires plain { plain ≡ true → IsOrdinaryName name.now }
    requires plain_value { plain_value ≡ true → IsPlainValue value.now }
    ensures { OnOk result
        (attrs.new ≡ added attrs.old (reading.read_attribute table.now.entries (record { name = name.now; value = value.now }))) }
{
    if plain {
        return keep_plain(attrs, alloc, name, value, plain_value, table);
    }
    let name = lowered(alloc, name)?;
    let value = read_value(alloc, value, table)?;
    attrs.add(name, value)?;
    Ok(())
}

/// As `keep`, for a plain name. A plain value isn't copied first either.
fn keep_plain(
    attrs: &mut Attrs,
    alloc: Global,
    name: &str,
    value: &str,
    plain_value: bool,
    table: &Table,
) -> Result<(), OutOfMemory>
    requires room { length attrs.old + 1 < 2 ^ 32 }
    requires plain { map lower name.now ≡ name.now }
    requires plain_value { plain_value ≡ true → IsPlainValue value.now }
    ensures { OnOk result
        (attrs.new ≡ added attrs.old (reading.read_attribute table.now.entries (record { name = name.now; value = value.now }))) }
{
    if plain_value || !has_reference(value, table) {
        attrs.put(name, value)?;
        return Ok(());
    }
    let value = read_value(alloc, value, table)?;
    attrs.put(name, value.as_str())?;
    Ok(())
}
