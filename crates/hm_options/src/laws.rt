//! The law of the tree options. The function does nothing: its contract is the law.
ghost use Rattle.hm_options.specs.Laws.{RewrittenIsSettled};

/// A settled walk stays settled, whatever the options are.
pub fn rewritten_is_settled()
    ensures { RewrittenIsSettled }
{}
