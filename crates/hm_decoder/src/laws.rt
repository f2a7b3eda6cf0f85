//! Laws over pages that are read in pieces. The functions do nothing.
ghost use Rattle.hm_decoder.specs.Laws.{DecidedTextsLast, FaultsLast, WholeTextsFollow};

/// A fault that lasts is the fault of each page that starts with these bytes.
pub fn faults_last()
    ensures { FaultsLast }
{}

/// A decided text is the start of the decided text of more bytes, and of the text of the page.
pub fn decided_texts_last()
    ensures longer { DecidedTextsLast }
    ensures whole { WholeTextsFollow }
{}
