//! The elements in which whitespace is kept.
ghost use Rattle.std.specs.Prelude.{◌≡◌};
ghost use Rattle.hm_options.specs.Space as space;

use hm_elements::{is_preformatted, same_name};

/// Whether all whitespace in this element is rendered.
#[tactic(auto, unfolding(crate::specs::Space::keeps_space))]
pub(crate) fn keeps_space(name: &str, foreign: bool) -> bool
    ensures { result ≡ space.keeps_space (record { name = name.now; foreign = foreign }) }
{
    if foreign {
        same_name(name, "svg")
    } else {
        is_preformatted(name)
    }
}
