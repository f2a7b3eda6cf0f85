//! Whether an attribute of some name is there.
ghost use Rattle.std.specs.Prelude.{◌≡◌, ◌++◌, ◌∷◌, [], List, bytes_eq, All, IfSome, IfOk, OnOk, OnErr};
ghost use Rattle.hm_base.specs.Walks.{Attribute, has_name};
ghost use Rattle.hm_tree.specs.Names.{HasNames};
ghost use Rattle.hm_tree.specs.Pairs.{HasPair, attributes_of};

use crate::pieces::{Pair, name_in};
use hm_base::OutOfMemory;
use indexmap::IndexSet;
use std::alloc::Global;

/// Up to this many names are compared one by one. More are kept in a set.
const FEW: usize = 32;

/// Adds a name to a set.
fn add(table: &mut IndexSet<String>, name: &str) -> Result<(), OutOfMemory>
    ensures ok { OnOk result ((attributes : List Attribute) (a : Attribute) → a.name ≡ name.now → HasNames table.old attributes → HasNames table.new (attributes ++ a ∷ [])) }
    ensures err { OnErr result ((attributes : List Attribute) → HasNames table.old attributes → HasNames table.new attributes) }
{
    let alloc = *table.allocator();
    let name = String::from_str(alloc, name)?;
    table.insert(name)?;
    Ok(())
}

/// Whether two names are the same. Most names that aren't have another length or another last byte.
fn is_same(name: &str, other: &str) -> bool
    ensures { result ≡ bytes_eq name.now other.now }
{
    let len = name.len();
    if len != other.len() {
        return false;
    }
    if len > 0 && name.as_bytes()[len - 1] != other.as_bytes()[len - 1] {
        return false;
    }
    name == other
}

/// Whether one of the attributes has a name.
pub(crate) fn has_among(text: &str, pairs: &[Pair], name: &str) -> bool
    requires { All (HasPair text.now) pairs.now }
    ensures { result ≡ has_name name.now (attributes_of text.now pairs.now) }
{
    for pair in pairs {
        if is_same(name_in(text, *pair), name) {
            return true;
        }
    }
    false
}

/// The set of the names of the attributes.
fn table_of(alloc: Global, text: &str, pairs: &[Pair]) -> Result<IndexSet<String>, OutOfMemory>
    requires { All (HasPair text.now) pairs.now }
    ensures { IfOk result (λ table. HasNames table (attributes_of text.now pairs.now)) }
{
    let mut table = IndexSet::new(alloc);
    for i in 0..pairs.len() {
        add(&mut table, name_in(text, pairs[i]))?;
    }
    Ok(table)
}

/// The set of the names of the attributes and of one more name.
#[inline(always)]
fn table_with(
    alloc: Global,
    text: &str,
    pairs: &[Pair],
    name: &str,
) -> Result<IndexSet<String>, OutOfMemory>
    requires { All (HasPair text.now) pairs.now }
    ensures { IfOk result (λ table. (a : Attribute) → a.name ≡ name.now → HasNames table (attributes_of text.now pairs.now ++ a ∷ [])) }
{
    let mut table = table_of(alloc, text, pairs)?;
    add(&mut table, name)?;
    Ok(table)
}

/// Notes the name of one more attribute: makes the set if there are more than `FEW` names, or adds the name to it.
pub(crate) fn note(
    alloc: Global,
    table: &mut Option<IndexSet<String>>,
    text: &str,
    pairs: &[Pair],
    name: &str,
) -> Result<(), OutOfMemory>
    requires pieces { All (HasPair text.now) pairs.now }
    requires noted { IfSome table.old (λ names. HasNames names (attributes_of text.now pairs.now)) }
    ensures ok { OnOk result ((a : Attribute) → a.name ≡ name.now → IfSome table.new (λ names. HasNames names (attributes_of text.now pairs.now ++ a ∷ []))) }
    ensures err { OnErr result (IfSome table.new (λ names. HasNames names (attributes_of text.now pairs.now))) }
{
    match table {
        Some(table) => add(table, name)?,
        None => {
            if pairs.len() >= FEW {
                *table = Some(table_with(alloc, text, pairs, name)?);
            }
        }
    }
    Ok(())
}
