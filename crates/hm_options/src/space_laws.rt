//! The law of collapsed whitespace. The function does nothing: its contract is the law.
ghost use Rattle.hm_options.specs.SpaceLaws.{CollapsedIsSettled};

/// A settled walk stays settled when its whitespace is collapsed.
pub fn collapsed_is_settled()
    ensures { CollapsedIsSettled }
{}
