//! Laws over the definitions. The functions do nothing.
ghost use Rattle.hm_cert.specs.Laws.{ReadIsWritten, WrittenIsRead};

/// The text of a certificate is read as that certificate, if its rows can be written.
pub fn written_is_read()
    ensures { WrittenIsRead }
{}

/// Any text that is read as a certificate is the text of that certificate, and its rows can be written.
pub fn read_is_written()
    ensures { ReadIsWritten }
{}
