//! Takes a token into a tree.
ghost use Rattle.std.specs.Prelude.{◌≡◌, ◌^◌, ◌<◌, length};
ghost use Rattle.hm_tree.specs.Lexemes.{token_of};
ghost use Rattle.hm_tree.specs.Tokens.{IsInText, seen};
ghost use Rattle.hm_lexer.specs.Modes.{mode_of};
ghost use Rattle.hm_construction_laws.specs.Steps.{step};
ghost use Rattle.hm_construction_laws.specs.Trees as trees;
ghost use Rattle.hm_insertion.specs.Building.{Answers, Fits};
ghost use Rattle.hm_build.specs.Parsing.{IsReadUnder};

use hm_insertion::{BuildFault, TreeBuilder};
use hm_lexer::{Mode, RawName, RcdataName};
use hm_tree::{Lexeme, Tag};
use std::alloc::Global;

/// How the text in an HTML element of this name is read (#parsing-elements-that-contain-only-text and #parsing-main-inhtml).
#[tactic(auto, unfolding(hm_elements::specs::Tables::is_rcdata, hm_elements::specs::Tables::is_raw, hm_elements::specs::Tables::rcdata_names, hm_elements::specs::Tables::raw_names, hm_elements::specs::Names::is_among))]
fn mode_of_name(name: &str) -> Mode
    ensures { mode_of result ≡ trees.mode_of_name name.now }
{
    match name {
        "title" => Mode::Rcdata {
            name: RcdataName::Title,
        },
        "textarea" => Mode::Rcdata {
            name: RcdataName::Textarea,
        },
        "style" => Mode::Raw {
            name: RawName::Style,
        },
        "iframe" => Mode::Raw {
            name: RawName::Iframe,
        },
        "script" => Mode::Script,
        _ => Mode::Html,
    }
}

/// How the next text is read (HTML Standard, #parsing-elements-that-contain-only-text). It looks up only the name of an
/// element that holds one text.
#[inline(always)]
pub(crate) fn mode(builder: &TreeBuilder) -> Mode
    ensures { mode_of result ≡ trees.mode_of builder.now.state.path }
{
    if builder.is_in_svg() {
        Mode::Foreign
    } else if builder.is_in_text() {
        mode_of_name(builder.current())
    } else {
        Mode::Html
    }
}

/// Takes a token of this text. The name and the attributes of a tag are in `tag`.
#[inline(always)]
pub(crate) fn take(
    alloc: Global,
    builder: &mut TreeBuilder,
    text: &str,
    lexeme: Lexeme,
    tag: &Tag,
) -> Result<(), BuildFault>
    requires piece { IsInText text.now (token_of lexeme tag.now) }
    requires under { IsReadUnder builder.old.state.path (seen text.now (token_of lexeme tag.now)) }
    requires short { length text.now < 2 ^ 32 }
    requires room { Fits (step builder.old.state (seen text.now (token_of lexeme tag.now))) builder.old.walk }
    ensures { Answers (step builder.old.state (seen text.now (token_of lexeme tag.now))) result builder.old builder.new }
{
    match lexeme {
        Lexeme::Doctype { legacy } => builder.doctype(legacy),
        Lexeme::StartTag { slash } => {
            builder.start_tag(alloc, tag.name.as_str(), &tag.attrs, slash)
        }
        Lexeme::EndTag => builder.end_tag(alloc, tag.name.as_str()),
        Lexeme::Slice { from, to } => builder.text(alloc, &text[from as usize..to as usize]),
        Lexeme::Points { points } => builder.points(alloc, points),
        Lexeme::Comment { from, to } => builder.comment(alloc, &text[from as usize..to as usize]),
    }
}
