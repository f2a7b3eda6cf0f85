//! Laws over states. The functions do nothing.
ghost use Rattle.hm_edges.specs.States.{LikeStatesAreEqual};

/// Two states of a table are equal exactly if they mean the same.
pub fn like_states_are_equal()
    ensures { LikeStatesAreEqual }
{}
