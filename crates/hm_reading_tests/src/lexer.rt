//! Pages, and what is printed of their tokens.
mod cases;

use crate::printed::{after, after_attributes, after_shown, after_value, is_value};
use crate::rows::{cut, expect};
use cases::{ELEMENTS, ORDINARY, TAGS};
use hm_base::{OUTPUT_LIMIT, Points, Refused, SourceText};
use hm_lexer::{Lexer, Mode, RawName, RcdataName};
use hm_refs::Table;
use hm_tree::{Attrs, Token};
use std::alloc::Global;
use std::process::Abort;
use std::test::Fail;

/// A table with a few names.
const NAMES: &str =
    "{\"&amp\":{\"codepoints\":[38]},\"&amp;\":{\"codepoints\":[38]},\"&lt\":{\"codepoints\":[60]},\"&lt;\":{\"codepoints\":[60]},\"&not\":{\"codepoints\":[172]},\"&not;\":{\"codepoints\":[172]},\"&notin;\":{\"codepoints\":[8713]},\"&nesim;\":{\"codepoints\":[8770,824]}}";

/// The mode after a token, as the element that it opens or closes sets it.
fn mode_after(token: &Token, mode: Mode) -> Mode {
    match token {
        Token::StartTag { name, .. } if mode == Mode::Html => opened_mode(name.text.as_str()),
        Token::EndTag { name } if mode != Mode::Foreign || name.text.as_str() == "svg" => {
            Mode::Html
        }
        _ => mode,
    }
}

/// The mode in an element.
fn opened_mode(name: &str) -> Mode {
    match name {
        "title" => Mode::Rcdata {
            name: RcdataName::Title,
        },
        "textarea" => Mode::Rcdata {
            name: RcdataName::Textarea,
        },
        "style" => Mode::Raw {
            name: RawName::Style,
        },
        "iframe" => Mode::Raw {
            name: RawName::Iframe,
        },
        "script" => Mode::Script,
        "svg" => Mode::Foreign,
        _ => Mode::Html,
    }
}

/// The bytes of a piece of the text.
fn piece(text: &str, from: u32, to: u32) -> &str {
    text.get(from as usize..to as usize).unwrap_or("?")
}

/// The rest of the expected text after one or two code points.
fn after_points<'w>(wanted: &'w str, points: Points) -> &'w str {
    let rest = after_shown(wanted, &points.first);
    match points.second {
        Some(second) => after_shown(rest, &second),
        None => rest,
    }
}

/// The rest of the expected text after a start tag with its attributes.
fn after_start<'w>(wanted: &'w str, name: &str, attrs: &Attrs, slash: bool) -> &'w str {
    let rest = after_attributes(after(after(wanted, "<"), name), attrs);
    after(rest, if slash { "/>" } else { ">" })
}

/// The rest of the expected text after a token: a tag with its attributes, a comment with its text, a doctype by its
/// form, or the text itself.
fn text_after_token<'w>(wanted: &'w str, text: &str, token: &Token) -> &'w str {
    match token {
        Token::Doctype { legacy } => after(wanted, if *legacy { "<!legacy>" } else { "<!html>" }),
        Token::StartTag { name, attrs, slash } => {
            after_start(wanted, name.text.as_str(), attrs, *slash)
        }
        Token::EndTag { name } => after(after(after(wanted, "</"), name.text.as_str()), ">"),
        Token::Slice { from, to } => after(wanted, piece(text, *from, *to)),
        Token::Points { points } => after_points(wanted, *points),
        Token::Comment { from, to } => {
            after(after(after(wanted, "<!--"), piece(text, *from, *to)), "-->")
        }
    }
}

/// The state of a comparison: the mode of the next token, whether text is before it, whether there is no next one, and
/// the rest of the expected text.
#[derive(Clone, Copy)]
struct Stand<'w> {
    mode: Mode,
    in_text: bool,
    over: bool,
    wanted: &'w str,
}

/// The rest of the expected text after the bar, if text starts or ends here.
fn after_bar<'w>(stand: Stand<'w>, is_text: bool) -> &'w str {
    after(
        stand.wanted,
        if stand.in_text == is_text { "" } else { "|" },
    )
}

/// The state of the comparison after a token.
fn after_token<'w>(stand: Stand<'w>, text: &str, token: &Token) -> Stand<'w> {
    let in_text = matches!(token, Token::Slice { .. } | Token::Points { .. });
    let wanted = after_bar(stand, in_text);
    Stand {
        mode: mode_after(token, stand.mode),
        in_text,
        over: false,
        wanted: text_after_token(wanted, text, token),
    }
}

/// The rest of the expected text after a refusal: its rule and its place.
fn after_refusal<'w>(wanted: &'w str, refusal: Refused) -> &'w str {
    match refusal {
        Refused::Page { rule, at } => {
            let place = after(after(after(wanted, "!"), rule.name()), " at ");
            after_value(place, &at)
        }
        Refused::OutOfMemory => "?",
    }
}

/// The state of the comparison after the next token, the end or the refusal; it is over after the last two.
fn after_next<'w>(alloc: Global, lexer: &mut Lexer<'_>, text: &str, stand: Stand<'w>) -> Stand<'w> {
    if stand.over {
        return stand;
    }
    let wanted = after_bar(stand, false);
    match lexer.next(alloc, stand.mode) {
        Ok(Some(spanned)) => after_token(stand, text, &spanned.token),
        Ok(None) => Stand {
            over: true,
            wanted,
            ..stand
        },
        Err(refusal) => Stand {
            over: true,
            wanted: after_refusal(wanted, refusal),
            ..stand
        },
    }
}

/// Whether the tokens of a text up to its end or its refusal are printed so. There are at most 99.
fn are_printed(alloc: Global, table: &Table, source: &SourceText, wanted: &str) -> bool {
    let mut lexer = Lexer::new(source, table);
    let mut stand = Stand {
        mode: Mode::Html,
        in_text: false,
        over: false,
        wanted,
    };
    for _ in 0..100 {
        stand = after_next(alloc, &mut lexer, source.text(), stand);
    }
    stand.over & stand.wanted.is_empty()
}

/// Whether the tokens of a page are printed so. Adjacent texts are one, between two bars.
fn is_printed(alloc: Global, table: &Table, page: &str, wanted: &str) -> bool {
    match SourceText::read(alloc, page.as_bytes(), OUTPUT_LIMIT) {
        Ok(source) => are_printed(alloc, table, &source, wanted),
        Err(_) => false,
    }
}

/// Whether the page in a line has the tokens there.
fn is_line(alloc: Global, table: &Table, line: &str) -> bool {
    let (page, wanted) = cut(line, " ⇒ ");
    is_printed(alloc, table, page, wanted)
}

/// Asserts each line of a table.
fn expect_lines(rt: &impl Abort, alloc: Global, table: &Table, lines: &str) {
    for line in lines.lines() {
        expect(rt, is_line(alloc, table, line), line);
    }
}

/// Asserts the lines of each table.
fn expect_tables(rt: &impl Abort, alloc: Global, table: &Table) {
    expect_lines(rt, alloc, table, ORDINARY);
    expect_lines(rt, alloc, table, TAGS);
    expect_lines(rt, alloc, table, ELEMENTS);
}

/// Pages have their tokens or their refusal.
#[test]
fn tokens(rt: HostRuntime) -> Result<(), Fail> {
    let table = Table::read(rt.alloc(), NAMES.as_bytes())?;
    expect_tables(&rt, rt.alloc(), &table);
    Ok(())
}

/// Asserts what is printed of a page.
fn expect_page(rt: &impl Abort, alloc: Global, table: &Table, page: &str, wanted: &str) {
    expect(rt, is_printed(alloc, table, page, wanted), page);
}

/// Asserts places in pages with line ends or a byte order mark.
fn expect_places(rt: &impl Abort, alloc: Global, table: &Table) {
    expect_page(rt, alloc, table, "\u{feff}a\r\n<b =>", "|a\n|!BadName at 6");
    let wanted = "<pre>|\n\nx|</pre>!Cut at 17";
    expect_page(rt, alloc, table, "<pre></>\r\rx</pre><!", wanted);
    expect_page(rt, alloc, table, "\r\n<title>\r\n", "|\n|<title>!Cut at 9");
    expect_page(rt, alloc, table, "é\r\n</></b '>", "|é\n|!BadName at 7");
}

/// Whether a page of a tag with these attributes, and of what follows them, is printed so.
fn is_tag(alloc: Global, table: &Table, attributes: &str, rest: &str, wanted: &str) -> bool {
    match format!(in alloc; "<a{attributes}{rest}") {
        Ok(page) => is_printed(alloc, table, page.as_str(), wanted),
        Err(_) => false,
    }
}

/// As `is_tag`, with `count` attributes of one name.
fn is_crowded(alloc: Global, table: &Table, count: usize, rest: &str, wanted: &str) -> bool {
    match " b".repeat(alloc, count) {
        Ok(attributes) => is_tag(alloc, table, attributes.as_str(), rest, wanted),
        Err(_) => false,
    }
}

/// Asserts `is_crowded`.
fn expect_crowded(
    rt: &impl Abort,
    alloc: Global,
    table: &Table,
    count: usize,
    rest: &str,
    wanted: &str,
) {
    expect(rt, is_crowded(alloc, table, count, rest, wanted), wanted);
}

/// Asserts what is printed of many attributes, and of what follows them.
fn expect_counts(rt: &impl Abort, alloc: Global, table: &Table) {
    expect_crowded(rt, alloc, table, 256, ">", "<a b=[]>");
    expect_crowded(rt, alloc, table, 257, ">", "!TooManyAttributes at 0");
    expect_crowded(rt, alloc, table, 257, " '>", "!BadName at 0");
    expect_crowded(rt, alloc, table, 257, "", "!Cut at 0");
    expect_crowded(rt, alloc, table, 256, "></a b>", "<a b=[]></a>");
}

/// A page whose tokens are read one after the other in the modes of [`BYTES`].
const TOKENS: &str = "</></></b>x<title>y&#65;</title></>";

/// In each line the element in whose mode a token is read, and after ` ⇒ ` the bytes of the token, or its refusal.
const BYTES: &str = "\
    body ⇒ Ok(Some((6, 10)))\n\
    body ⇒ Ok(Some((10, 11)))\n\
    body ⇒ Ok(Some((11, 18)))\n\
    title ⇒ Ok(Some((18, 19)))\n\
    title ⇒ Ok(Some((19, 24)))\n\
    script ⇒ Err(Page { rule: Cut, at: 24 })\n\
    title ⇒ Ok(Some((24, 32)))\n\
    body ⇒ Ok(None)\n\
    title ⇒ Err(Page { rule: Cut, at: 32 })\n";

/// The bytes of the text that the next token was read from.
fn next_bytes(
    alloc: Global,
    lexer: &mut Lexer<'_>,
    mode: Mode,
) -> Result<Option<(u32, u32)>, Refused> {
    match lexer.next(alloc, mode) {
        Ok(Some(spanned)) => Ok(Some((spanned.from, spanned.to))),
        Ok(None) => Ok(None),
        Err(refusal) => Err(refusal),
    }
}

/// Whether the next token has the bytes in a line, in its mode.
fn is_next(alloc: Global, lexer: &mut Lexer<'_>, line: &str) -> bool {
    let (element, wanted) = cut(line, " ⇒ ");
    is_value(wanted, &next_bytes(alloc, lexer, opened_mode(element)))
}

/// Asserts the bytes of each token of a text.
fn expect_each(rt: &impl Abort, alloc: Global, source: &SourceText, table: &Table) {
    let mut lexer = Lexer::new(source, table);
    for line in BYTES.lines() {
        expect(rt, is_next(alloc, &mut lexer, line), line);
    }
}

/// Asserts the bytes of each token of [`TOKENS`].
fn expect_tokens(rt: &impl Abort, alloc: Global, table: &Table) {
    match SourceText::read(alloc, TOKENS.as_bytes(), OUTPUT_LIMIT) {
        Ok(source) => expect_each(rt, alloc, &source, table),
        Err(_) => expect(rt, false, TOKENS),
    }
}

/// Tokens with an empty table: places in the page, attributes that are counted, and the bytes of tokens.
#[test]
fn tokens_without_names(rt: HostRuntime) -> Result<(), Fail> {
    let table = Table::empty(rt.alloc())?;
    expect_places(&rt, rt.alloc(), &table);
    expect_counts(&rt, rt.alloc(), &table);
    expect_tokens(&rt, rt.alloc(), &table);
    Ok(())
}
