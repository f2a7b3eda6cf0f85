//! Laws over what is pending. The functions do nothing.
ghost use Rattle.hm_graph_laws.specs.PendingLaws.{ClosingsTell, MarkupTells, StepsTell};

/// Bytes keep what is pending exactly if each step over them gives a state.
pub fn steps_tell()
    ensures { StepsTell }
{}

/// After a value the closing byte keeps what is pending exactly if the value may end.
pub fn closings_tell()
    ensures { ClosingsTell }
{}

/// After a text, `<` keeps whatever is pending.
pub fn markup_tells()
    ensures { MarkupTells }
{}
