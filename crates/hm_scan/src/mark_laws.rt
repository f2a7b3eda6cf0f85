//! Laws over the marks that are read. The functions do nothing.
ghost use Rattle.hm_scan.specs.MarkLaws.{CommentsExtend, CdataExtends, DoctypesExtend, RawTextExtends, ScriptsExtend, CommentsAreRead, DoctypesAreRead, RawTextIsRead, ScriptsAreRead};

/// A comment with its end is read the same, whatever follows it.
pub fn comments_extend()
    ensures { CommentsExtend }
{}

/// A CDATA section with its end is read the same, whatever follows it.
pub fn cdata_extends()
    ensures { CdataExtends }
{}

/// A doctype with its `>` is read or refused the same, whatever follows it.
pub fn doctypes_extend()
    ensures { DoctypesExtend }
{}

/// Raw text with its end tag is read the same, whatever follows it.
pub fn raw_text_extends()
    ensures { RawTextExtends }
{}

/// The text of a script with its end tag is read the same, whatever follows it.
pub fn scripts_extend()
    ensures { ScriptsExtend }
{}

/// Each text that is allowed in a comment is read back, whatever follows the comment.
pub fn comments_are_read()
    ensures { CommentsAreRead }
{}

/// A written doctype is read back, whatever follows it.
pub fn doctypes_are_read()
    ensures { DoctypesAreRead }
{}

/// Raw text that one end tag of its element ends is read back before each such end tag.
pub fn raw_text_is_read()
    ensures { RawTextIsRead }
{}

/// The text of a script that one end tag ends is read back before each such end tag.
pub fn scripts_are_read()
    ensures { ScriptsAreRead }
{}
