//! The ready tokens of a text of which more may follow.
ghost use Rattle.std.specs.Prelude.{◌≡◌, Ok, true, false, IfErr, OnOk};
ghost use Rattle.hm_refs.specs.Tables.{IsTable};
ghost use Rattle.hm_build.specs.Feeding.{Comes, IsPartway, IsWaiting, StopsAs, left};
ghost use Rattle.hm_build.specs.Parsing.{ClosesOn, IsFurther, KnowsClosed};

use crate::places::{closed_by, refusal};
use crate::tokens::{mode, take};
use hm_base::{Refused, SourceText};
use hm_insertion::TreeBuilder;
use hm_lexer::Lexer;
use hm_tree::Tag;
use std::alloc::Global;

/// Takes the next token or piece of text, if one is ready. A tag is read into `tag`. If it is the first that closes
/// `body`, its byte of the page is put into `closed`.
fn part_turn<'a>(
    alloc: Global,
    text: &SourceText,
    lexer: &mut Lexer<'a>,
    builder: &mut TreeBuilder,
    tag: &mut Tag,
    closed: &mut Option<u32>,
) -> Result<bool, Refused>
    requires names { IsTable lexer.old.names }
    requires source { lexer.old.source ≡ text.now }
    requires partway { IsPartway lexer.old builder.old }
    ensures partway { result ≡ Ok true → IsPartway lexer.new builder.new × IsFurther lexer.old lexer.new }
    ensures more { result ≡ Ok true → Comes lexer.old.names builder.old (left lexer.old) builder.new (left lexer.new) }
    ensures closed { result ≡ Ok true → KnowsClosed closed.old builder.old → ClosesOn closed.old lexer.old builder.old closed.new lexer.new builder.new }
    ensures done { result ≡ Ok false → IsWaiting lexer.old builder.old × (lexer.new ≡ lexer.old) × (builder.new ≡ builder.old) × (closed.new ≡ closed.old) }
    ensures err { IfErr result (StopsAs lexer.old.names builder.old (left lexer.old)) }
{
    match lexer.part_into(alloc, mode(builder), tag) {
        Ok(None) => Ok(false),
        Ok(Some(placed)) => match take(alloc, builder, text.text(), placed.lexeme, tag) {
            Ok(()) => {
                *closed = closed_by(text, builder, *closed, placed.from);
                Ok(true)
            }
            Err(fault) => Err(refusal(text, fault, placed.from)),
        },
        Err(refused) => Err(refused),
    }
}

/// Takes all ready tokens.
pub(crate) fn part_turns<'a>(
    alloc: Global,
    text: &SourceText,
    lexer: &mut Lexer<'a>,
    builder: &mut TreeBuilder,
    tag: &mut Tag,
    closed: &mut Option<u32>,
) -> Result<(), Refused>
    requires names { IsTable lexer.old.names }
    requires source { lexer.old.source ≡ text.now }
    requires partway { IsPartway lexer.old builder.old }
    ensures partway { OnOk result (IsPartway lexer.new builder.new) }
    ensures names { OnOk result (lexer.new.names ≡ lexer.old.names) }
    ensures same { OnOk result (lexer.new.source ≡ lexer.old.source) }
    ensures more { OnOk result (Comes lexer.old.names builder.old (left lexer.old) builder.new (left lexer.new)) }
    ensures closed { OnOk result (KnowsClosed closed.old builder.old → ClosesOn closed.old lexer.old builder.old closed.new lexer.new builder.new) }
    ensures waits { OnOk result (IsWaiting lexer.new builder.new) }
    ensures err { IfErr result (StopsAs lexer.old.names builder.old (left lexer.old)) }
{
    loop {
        match part_turn(alloc, text, lexer, builder, tag, closed) {
            Ok(true) => {}
            Ok(false) => return Ok(()),
            Err(refused) => return Err(refused),
        }
    }
}
