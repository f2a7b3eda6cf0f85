//! A view of the attributes of an element of a tree.
ghost use Rattle.hm_tree.specs.Pieces.{ArePiecesShown};

use crate::pieces::{AttributePieces, cut};

/// A view of the attributes of an element of a tree, in order. Names are distinct.
///
/// Contracts see the list of them as `attributes_shown`.
#[derive(Clone, Copy)]
pub struct AttrsView<'t> {
    text: &'t str,
    pieces: &'t [AttributePieces],
    ghost is_shown: { ArePiecesShown text.now pieces.now },
}

impl<'t> AttrsView<'t> {
    ghost use Rattle.std.specs.Prelude.{◌≡◌, ◌<◌, ◌↔◌, length, slice_get, true, Some, IsTrue};
    ghost use Rattle.hm_base.specs.Walks.{has_distinct_names};
    ghost use Rattle.hm_tree.specs.Attributes.{are_texts};
    ghost use Rattle.hm_tree.specs.Pieces.{attributes_in};
    ghost use Rattle.hm_tree.specs.Views.{attributes_shown};

    /// The view of these pieces of a text.
    pub(crate) fn of(text: &'t str, pieces: &'t [AttributePieces]) -> AttrsView<'t>
        requires { ArePiecesShown text.now pieces.now }
        ensures { attributes_shown result ≡ attributes_in text.now pieces.now }
    {
        AttrsView { text, pieces }
    }

    /// How many attributes there are. Their names are distinct, and names and values are UTF-8.
    pub fn len(&self) -> u32
        ensures len { result ≡ length (attributes_shown self.now) }
        ensures distinct { has_distinct_names (attributes_shown self.now) ≡ true }
        ensures texts { are_texts (attributes_shown self.now) ≡ true }
    {
        self.pieces.len() as u32
    }

    /// The name and the value of attribute `i`.
    pub fn at(&self, i: u32) -> (&'t str, &'t str)
        requires { i < length (attributes_shown self.now) }
        ensures { slice_get (attributes_shown self.now) i ≡ Some (record { name = result.0.now; value = result.1.now }) }
    {
        let attribute = self.pieces[i as usize];
        (
            cut(self.text, attribute.name()),
            cut(self.text, attribute.value()),
        )
    }

    /// Whether both have the same attributes in the same order.
    pub fn same(&self, other: &AttrsView<'_>) -> bool
        ensures { IsTrue result ↔ (attributes_shown self.now ≡ attributes_shown other.now) }
    {
        if self.len() != other.len() {
            return false;
        }
        for i in 0..self.len() {
            let (name, value) = self.at(i);
            let (other_name, other_value) = other.at(i);
            if name != other_name || value != other_value {
                return false;
            }
        }
        true
    }
}
