//! Laws over a value without quotes, in double quotes and in single quotes. The functions do nothing.
ghost use Rattle.hm_optimality_laws.specs.Forms.{FormsAreBounded};

/// If new quotes can hold as itself each character that the old ones can, then some way with the new quotes, over the
/// value and all that follows, has at most one byte more. It has at least three fewer if a character with costly
/// references can now be written as itself.
pub fn forms_are_bounded()
    ensures { FormsAreBounded }
{}
