//! What each scan reads, after the tokenization of the HTML Standard (#tokenization).
ghost use Rattle.std.specs.Prelude.{◌^◌, ◌<◌, length, IsTrue, IsCharBoundary};

use crate::printed::{after, is_value};
use crate::rows::{cut, expect};
use hm_scan::{
    begins_cdata, begins_comment, begins_doctype, scan_cdata, scan_comment, scan_doctype, scan_raw,
    scan_script,
};
use hm_tree::{ScanFault, Token};

/// Whether a text is short enough for every scan, and can be cut at its start.
fn is_short(text: &str) -> bool
    ensures { IsTrue result → (length text.now < 2 ^ 32) × IsCharBoundary text.now 0 }
{
    text.len() < 1000 && text.is_char_boundary(0)
}

/// Whether a piece of the text and the rest after it are as expected, with ` ⇒ ` between them.
fn is_piece(text: &str, from: u32, to: u32, place: u32, wanted: &str) -> bool {
    let piece = text.get(from as usize..to as usize).unwrap_or("?");
    let rest = text.get(place as usize..).unwrap_or("?");
    after(after(after(wanted, piece), " ⇒ "), rest).is_empty()
}

/// Whether a token and the rest after it are as expected: its piece of the text and ` ⇒ ` before that rest, or, for a
/// doctype, whether it is the legacy one and the place of the rest.
fn is_read(text: &str, token: &Token, place: u32, wanted: &str) -> bool {
    match token {
        Token::Comment { from, to } | Token::Slice { from, to } => {
            is_piece(text, *from, *to, place, wanted)
        }
        Token::Doctype { legacy } => is_value(wanted, &(*legacy, place)),
        _ => false,
    }
}

/// Whether an answer is as expected: a token and the rest after it, or a fault.
fn is_answer(text: &str, answer: Result<(Token, u32), ScanFault>, wanted: &str) -> bool {
    match answer {
        Ok((token, place)) => is_read(text, &token, place, wanted),
        Err(fault) => is_value(wanted, &fault),
    }
}

/// Whether the comment at the start of a text is this, or `none`.
fn is_comment(text: &str, wanted: &str) -> bool {
    if is_short(text) && begins_comment(text, 0) {
        is_answer(text, scan_comment(text, 0), wanted)
    } else {
        wanted == "none"
    }
}

/// Whether the doctype at the start of a text is this, or `none`.
fn is_doctype(text: &str, wanted: &str) -> bool {
    if is_short(text) && begins_doctype(text, 0) {
        is_answer(text, scan_doctype(text, 0), wanted)
    } else {
        wanted == "none"
    }
}

/// Whether the CDATA section at the start of a text is this, or `none`.
fn is_cdata(text: &str, wanted: &str) -> bool {
    if is_short(text) && begins_cdata(text, 0) {
        is_answer(text, scan_cdata(text, 0), wanted)
    } else {
        wanted == "none"
    }
}

/// Whether the script at the start of a text is this.
fn is_script(text: &str, wanted: &str) -> bool {
    is_short(text) && is_answer(text, scan_script(text, 0), wanted)
}

/// Whether the text of an element at the start of a text is this.
fn is_raw(name: &str, text: &str, wanted: &str) -> bool {
    is_short(text) && is_answer(text, scan_raw(text, 0, name), wanted)
}

/// In each line a text, ` ⇒ `, and what is read at its start: a piece, ` ⇒ ` and the rest after it, or a fault.
const COMMENTS: &str = "\
    <!-->x ⇒  ⇒ x\n\
    <!--->--> ⇒  ⇒ -->\n\
    <!---->x ⇒  ⇒ x\n\
    <!----!>x ⇒  ⇒ x\n\
    <!--a--!>b ⇒ a ⇒ b\n\
    <!--a--!-->b ⇒ a--! ⇒ b\n\
    <!--a->--> ⇒ a-> ⇒ \n\
    <!--a-b--->c ⇒ a-b- ⇒ c\n\
    <!-- <!-- -->x--> ⇒  <!--  ⇒ x-->\n\
    <!--<!-->x ⇒ <! ⇒ x\n\
    <?x>y ⇒ ?x ⇒ y\n\
    </ x> ⇒  x ⇒ \n\
    <!x>y ⇒ x ⇒ y\n\
    <!>y ⇒  ⇒ y\n\
    <!-x>y ⇒ -x ⇒ y\n\
    <![CDATA[x]]>y ⇒ [CDATA[x]] ⇒ y\n\
    <!-- ⇒ Cut\n\
    <!--a-- ⇒ Cut\n\
    <!--a-> ⇒ Cut\n\
    <? ⇒ Cut\n\
    <! ⇒ Cut\n\
    </ x ⇒ Cut\n\
    </> ⇒ none\n\
    </a> ⇒ none\n\
    </ ⇒ none\n\
    <a> ⇒ none\n\
    <!DOCTYPE ⇒ none\n";

/// Comments end as the standard says.
#[test]
fn comments(rt: HostRuntime) {
    for line in COMMENTS.lines() {
        let (text, wanted) = cut(line, " ⇒ ");
        expect(&rt, is_comment(text, wanted), line);
    }
}

/// In each line a text, ` ⇒ `, and the doctype that is read at its start: whether it is the legacy one, and the place after it.
const DOCTYPES: &str = "\
    <!doctype html>x ⇒ (false, 15)\n\
    <!DOCTYPE html SYSTEM 'about:legacy-compat'> ⇒ (true, 44)\n\
    <!doctype x> ⇒ BadDoctype\n\
    <!doctype> ⇒ BadDoctype\n\
    <!doctype html x> ⇒ BadDoctype\n\
    <!doctype htmlSYSTEM\"about:legacy-compat\"> ⇒ BadDoctype\n\
    <!doctype html SYSTEM 'about:legacy-compat\"> ⇒ BadDoctype\n\
    <!doctype html SYSTEM 'About:legacy-compat'> ⇒ BadDoctype\n\
    <!doctype html SYSTEM 'about:legacy-compat' x> ⇒ BadDoctype\n\
    <!doctype html ⇒ Cut\n\
    <!doctype x ⇒ Cut\n";

/// Doctypes have the forms that a page may have.
#[test]
fn doctypes(rt: HostRuntime) {
    for line in DOCTYPES.lines() {
        let (text, wanted) = cut(line, " ⇒ ");
        expect(&rt, is_doctype(text, wanted), line);
    }
    let text = "<!DocTypehtml\u{c}\n>>";
    expect(&rt, is_doctype(text, "(false, 16)"), text);
    let text = "<!DOCTYPE\t\r HTML>";
    expect(&rt, is_doctype(text, "(false, 17)"), text);
    let text = "<!doctype html\nsystem\"about:legacy-compat\" >x";
    expect(&rt, is_doctype(text, "(true, 44)"), text);
}

/// As `COMMENTS`, for sections.
const SECTIONS: &str = "\
    <![CDATA[]]> ⇒  ⇒ \n\
    <![CDATA[a]>b]]]>c]]> ⇒ a]>b] ⇒ c]]>\n\
    <![CDATA[a]] ⇒ Cut\n\
    <![cdata[ ⇒ none\n";

/// CDATA sections end at the first `]]>`.
#[test]
fn cdata_sections(rt: HostRuntime) {
    for line in SECTIONS.lines() {
        let (text, wanted) = cut(line, " ⇒ ");
        expect(&rt, is_cdata(text, wanted), line);
    }
}

/// As `COMMENTS`, for the texts of elements, with the name of the element first.
const RAW_TEXTS: &str = "\
    title </Title/> ⇒  ⇒ </Title/>\n\
    iframe <!--</iframe>--> ⇒ <!-- ⇒ </iframe>-->\n\
    textarea \u{e9}<</textarea  ⇒ \u{e9}< ⇒ </textarea \n\
    style a</ style></style ⇒ Cut\n\
    style  ⇒ Cut\n";

/// The texts of elements end at their end tags.
#[test]
fn raw_texts(rt: HostRuntime) {
    for line in RAW_TEXTS.lines() {
        let (name, rest) = cut(line, " ");
        let (text, wanted) = cut(rest, " ⇒ ");
        expect(&rt, is_raw(name, text, wanted), line);
    }
    let text = "a</styles></STYLE\n>b";
    let wanted = "a</styles> ⇒ </STYLE\n>b";
    expect(&rt, is_raw("style", text, wanted), text);
}

/// As `COMMENTS`, for scripts.
const SCRIPTS: &str = "\
    <!--<script></script>--></script> ⇒ <!--<script></script>--> ⇒ </script>\n\
    <script>a</SCRIPT\t>b ⇒ <script>a ⇒ </SCRIPT\t>b\n\
    <!--</script>--> ⇒ <!-- ⇒ </script>-->\n\
    <!--><script></script> ⇒ <!--><script> ⇒ </script>\n\
    <!-- <scriptx></script> ⇒ <!-- <scriptx> ⇒ </script>\n\
    <!--<Script/></scripts></Script></script> ⇒ <!--<Script/></scripts></Script> ⇒ </script>\n\
    <!--<script>--></script> ⇒ <!--<script>--> ⇒ </script>\n\
    <!-<script></script> ⇒ <!-<script> ⇒ </script>\n\
    <!--<script></script>--> ⇒ Cut\n\
    </script ⇒ Cut\n";

/// Scripts end as the standard says.
#[test]
fn scripts(rt: HostRuntime) {
    for line in SCRIPTS.lines() {
        let (text, wanted) = cut(line, " ⇒ ");
        expect(&rt, is_script(text, wanted), line);
    }
}
