//! The tree of a page.
ghost use Rattle.std.specs.Prelude.{◌≡◌, false, IfOk, OnOk, IfErr};
ghost use Rattle.hm_elements.specs.Settled.{Settled};
ghost use Rattle.hm_refs.specs.Tables.{IsTable};
ghost use Rattle.hm_token_laws.specs.Laws.{SoundNames};
ghost use Rattle.hm_construction_laws.specs.Closing.{closed_of_source, is_after_body};
ghost use Rattle.hm_construction_laws.specs.Trees.{built, tree_of_source};
ghost use Rattle.hm_decoder.specs.Pieces.{before_text};
ghost use Rattle.hm_build.specs.Feeding.{IsPartway};
ghost use Rattle.hm_build.specs.Parsing.{IsParsing, IsRead, IsRefusedAs, IsTurned, IsWithin, closed_left, left_tree, reads, taken_by};

use crate::places::{closed_by, first_closed, refusal};
use crate::ready::part_turns;
use crate::tokens::{mode, take};
use hm_base::{OutOfMemory, Refused, SourceText};
use hm_insertion::TreeBuilder;
use hm_lexer::Lexer;
use hm_refs::Table;
use hm_refs::laws::every_table;
use hm_tree::{Lexeme, Tag, Tree};
use std::alloc::Global;

/// What one turn of the reader took.
enum Taken {
    /// Nothing: no token is left.
    Over,
    /// A token other than an end tag. It doesn't close body.
    Other,
    /// An end tag that starts at byte `from` of the text.
    EndTag { from: u32 },
}

/// What a turn took with a token that starts at byte `from` of the text.
fn taken_of(lexeme: Lexeme, from: u32) -> Taken
    ensures { result ≡ taken_by lexeme from }
{
    match lexeme {
        Lexeme::EndTag => Taken::EndTag { from },
        _ => Taken::Other,
    }
}

/// Takes the next token, if there is one. A tag is read into `tag`.
fn turn<'a>(
    alloc: Global,
    text: &SourceText,
    lexer: &mut Lexer<'a>,
    builder: &mut TreeBuilder,
    tag: &mut Tag,
) -> Result<Taken, Refused>
    requires names { SoundNames lexer.old.names }
    requires source { lexer.old.source ≡ text.now }
    requires parsing { IsParsing lexer.old builder.old }
    ensures ok { IfOk result (λ turn. IsTurned turn lexer.old builder.old lexer.new builder.new) }
    ensures err { IfErr result (IsRefusedAs (left_tree lexer.old builder.old)) }
{
    match lexer.next_into(alloc, mode(builder), tag) {
        Ok(None) => Ok(Taken::Over),
        Ok(Some(placed)) => match take(alloc, builder, text.text(), placed.lexeme, tag) {
            Ok(()) => Ok(taken_of(placed.lexeme, placed.from)),
            Err(fault) => Err(refusal(text, fault, placed.from)),
        },
        Err(refused) => Err(refused),
    }
}

/// Takes all tokens up to the end of the text, and returns the byte of the page at which the first token that closes
/// `body` starts. Each tag is read into `tag`.
fn turns<'a>(
    alloc: Global,
    text: &SourceText,
    lexer: &mut Lexer<'a>,
    builder: &mut TreeBuilder,
    tag: &mut Tag,
) -> Result<Option<u32>, Refused>
    requires names { SoundNames lexer.old.names }
    requires source { lexer.old.source ≡ text.now }
    requires parsing { IsParsing lexer.old builder.old }
    ensures ok { OnOk result (IsRead lexer.new builder.new) }
    ensures tree { OnOk result (left_tree lexer.old builder.old ≡ left_tree lexer.new builder.new) }
    ensures closed { is_after_body builder.old.state.insertion_mode ≡ false → IfOk result (λ closed. closed_left lexer.old builder.old ≡ closed) }
    ensures names { OnOk result (lexer.new.names ≡ lexer.old.names) }
    ensures same { OnOk result (lexer.new.source ≡ lexer.old.source) }
    ensures err { IfErr result (IsRefusedAs (left_tree lexer.old builder.old)) }
{
    let mut closed = None;
    loop {
        match turn(alloc, text, lexer, builder, tag) {
            Ok(Taken::Other) => {}
            Ok(Taken::EndTag { from }) => closed = closed_by(text, builder, closed, from),
            Ok(Taken::Over) => return Ok(closed),
            Err(refused) => return Err(refused),
        }
    }
}

/// Ends the page: the tree with all that was missing, and the byte of the page at which `body` was closed.
fn finish<'a>(
    alloc: Global,
    text: &SourceText,
    lexer: &Lexer<'a>,
    builder: TreeBuilder,
    closed: Option<u32>,
) -> Result<(Tree, Option<u32>), Refused>
    requires source { lexer.now.source ≡ text.now }
    requires read { IsRead lexer.now builder }
    ensures built { IfOk result (λ parsed. left_tree lexer.now builder ≡ built parsed.0) }
    ensures closed { IfOk result (λ parsed. closed ≡ parsed.1) }
    ensures refused { IfErr result (IsRefusedAs (left_tree lexer.now builder)) }
{
    let end = text.text().len() as u32;
    match builder.finish(alloc) {
        Ok(tree) => Ok((tree, closed)),
        Err(fault) => Err(refusal(text, fault, end)),
    }
}

/// Takes all tokens that follow in the text, and returns the byte of the page at which the first token that closes
/// `body` starts.
///
/// The ready tokens are taken first, as for a page that is read in pieces. These are nearly all.
#[inline(always)]
fn read_rest<'a>(
    alloc: Global,
    text: &SourceText,
    lexer: &mut Lexer<'a>,
    builder: &mut TreeBuilder,
    tag: &mut Tag,
) -> Result<Option<u32>, Refused>
    requires names { IsTable lexer.old.names }
    requires source { lexer.old.source ≡ text.now }
    requires partway { IsPartway lexer.old builder.old }
    ensures read { OnOk result (IsRead lexer.new builder.new) }
    ensures tree { OnOk result (left_tree lexer.old builder.old ≡ left_tree lexer.new builder.new) }
    ensures closed { is_after_body builder.old.state.insertion_mode ≡ false → IfOk result (λ closed. closed_left lexer.old builder.old ≡ closed) }
    ensures same { OnOk result (lexer.new.source ≡ lexer.old.source) }
    ensures err { IfErr result (IsRefusedAs (left_tree lexer.old builder.old)) }
{
    let _bytes = text.text();
    let mut closed = None;
    match part_turns(alloc, text, lexer, builder, tag, &mut closed) {
        Ok(()) => {}
        Err(refused) => return Err(refused),
    }
    match turns(alloc, text, lexer, builder, tag) {
        Ok(later) => Ok(first_closed(closed, later)),
        Err(refused) => Err(refused),
    }
}

/// The tree of what was built so far and of the rest of the text, and the byte of the page at which that text closes
/// `body`. Each tag is read into `tag`.
#[inline(always)]
fn parse_on(
    alloc: Global,
    text: &SourceText,
    table: &Table,
    builder: TreeBuilder,
    tag: &mut Tag,
) -> Result<(Tree, Option<u32>), Refused>
    requires { IsWithin (before_text text.now) builder.walk builder.state }
    ensures built { IfOk result (λ parsed. left_tree (reads table.now.entries text.now) builder ≡ built parsed.0) }
    ensures closed { is_after_body builder.state.insertion_mode ≡ false → IfOk result (λ parsed. closed_left (reads table.now.entries text.now) builder ≡ parsed.1) }
    ensures refused { IfErr result (IsRefusedAs (left_tree (reads table.now.entries text.now) builder)) }
{
    every_table(table);
    let mut lexer = Lexer::new(text, table);
    let mut builder = builder;
    match read_rest(alloc, text, &mut lexer, &mut builder, tag) {
        Ok(closed) => finish(alloc, text, &lexer, builder, closed),
        Err(refused) => Err(refused),
    }
}

/// As `parse_on`, but drops the tag at the end.
pub(crate) fn parse_rest(
    alloc: Global,
    text: &SourceText,
    table: &Table,
    builder: TreeBuilder,
    tag: Tag,
) -> Result<(Tree, Option<u32>), Refused>
    requires { IsWithin (before_text text.now) builder.walk builder.state }
    ensures built { IfOk result (λ parsed. left_tree (reads table.now.entries text.now) builder ≡ built parsed.0) }
    ensures closed { is_after_body builder.state.insertion_mode ≡ false → IfOk result (λ parsed. closed_left (reads table.now.entries text.now) builder ≡ parsed.1) }
    ensures refused { IfErr result (IsRefusedAs (left_tree (reads table.now.entries text.now) builder)) }
{
    let mut tag = tag;
    parse_on(alloc, text, table, builder, &mut tag)
}

/// The tree of a page, as `parse`, and where the page closes its body: the byte of the page at which the first token
/// starts after which only whitespace, comments and `</html>` may follow (#parsing-main-afterbody). None for a page
/// without `</body>` and `</html>`.
pub fn parse_closed(
    alloc: Global,
    text: &SourceText,
    table: &Table,
) -> Result<(Tree, Option<u32>), Refused>
    ensures built { IfOk result (λ parsed. tree_of_source table.now.entries text.now ≡ built parsed.0) }
    ensures settled { IfOk result (λ parsed. Settled parsed.0) }
    ensures closed { IfOk result (λ parsed. closed_of_source table.now.entries text.now ≡ parsed.1) }
    ensures refused { IfErr result (IsRefusedAs (tree_of_source table.now.entries text.now)) }
{
    every_table(table);
    let _plain = text.text();
    match TreeBuilder::new(alloc) {
        Ok(builder) => parse_rest(alloc, text, table, builder, Tag::new(alloc)),
        Err(OutOfMemory) => Err(Refused::OutOfMemory),
    }
}

/// The tree of a page (#overview-of-the-parsing-model, #tree-construction), or its first refusal, with its rule and its
/// byte of the page.
///
/// It takes time linear in the page. The tree is settled: some page gives it without any repair.
pub fn parse(alloc: Global, text: &SourceText, table: &Table) -> Result<Tree, Refused>
    ensures built { IfOk result (λ tree. tree_of_source table.now.entries text.now ≡ built tree) }
    ensures settled { IfOk result (λ tree. Settled tree) }
    ensures refused { IfErr result (IsRefusedAs (tree_of_source table.now.entries text.now)) }
{
    match parse_closed(alloc, text, table) {
        Ok((tree, _closed)) => Ok(tree),
        Err(refused) => Err(refused),
    }
}
