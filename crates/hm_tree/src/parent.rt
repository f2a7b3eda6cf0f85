//! The start of the element that an event is in.
ghost use Rattle.std.specs.Prelude.{◌≡◌, ◌≢◌, Some};

use std::marker::Model;

/// The index of an event, or None, in four bytes.
#[derive(Clone, Copy)]
pub(crate) struct Parent {
    at: u32,
}

impl Model for Parent {
    ghost use Rattle.std.specs.Prelude.{ℕ, Option};

    ghost Value = { Option ℕ };

    ghost use Rattle.hm_tree.specs.Parents.{parent_in, place_in, place_of};

    ghost view = { λ p. parent_in p.at };

    ghost inverse = { λ o. record { at = place_of o } };

    ghost inverse_ok = { λ p h. place_in p.at (λ at. record { at = at }) };
}

impl Parent {
    /// None is the greatest number. No table has so many events that it is an index.
    pub(crate) fn of(parent: Option<u32>) -> Parent
        requires { parent ≢ Some 4294967295 }
        ensures { result ≡ parent }
    {
        match parent {
            Some(at) => Parent { at },
            None => Parent { at: u32::MAX },
        }
    }

    /// The index, if there is one.
    pub(crate) fn index(self) -> Option<u32>
        ensures { result ≡ self }
    {
        if self.at == u32::MAX {
            None
        } else {
            Some(self.at)
        }
    }
}
