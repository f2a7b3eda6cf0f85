//! After which omitted end tags some start tags are kept.
ghost use Rattle.std.specs.Prelude.{◌≡◌};
ghost use Rattle.hm_graph_laws.specs.Units as units;

use crate::likely::may_be_page_part;
use hm_elements::{is_section, same_name};

/// Whether `tbody` and `colgroup` keep their start tags directly after the omitted end tag of this name: that of a
/// section of a table or of `colgroup`.
pub(crate) fn is_omission_noted(name: &str) -> bool
    ensures { result ≡ units.is_omission_noted name.now }
{
    may_be_page_part(name) && (is_section(name) || same_name(name, "colgroup"))
}
