//! Items of the array, read token by token. An item in another form than an event's gives None.
ghost use Rattle.std.specs.Prelude.{◌≡◌, [], true, Some, IfSome, codes, map};
ghost use Rattle.json.specs.Json.{after_end_array};
ghost use Rattle.hm_json_tree.specs.Pairs.{text_attribute};
ghost use Rattle.hm_json_tree.specs.Tokens.{ArePairs, IsItem, IsPair, IsText, Says};

use crate::form::JsonEvent;
use crate::pairs::Pairs;
use json::{Reader, Token};
use std::alloc::Global;

/// The next item, if it is an event. None also if the allocation for its attributes fails.
pub(crate) fn next_form<'a>(alloc: Global, tokens: &mut Reader<'a>) -> Option<JsonEvent<'a>>
    ensures { IfSome result (λ form. IsItem tokens.old form tokens.new) }
{
    let Token::BeginArray = tokens.next()? else {
        return None;
    };
    let kind = text(tokens)?;
    let form = form_of_kind(alloc, kind, tokens)?;
    closed(tokens, form)
}

/// The event, if the bracket that closes its item is next.
#[inline(always)]
fn closed<'a>(tokens: &mut Reader<'a>, form: JsonEvent<'a>) -> Option<JsonEvent<'a>>
    ensures { IfSome result (λ same. (same ≡ form.entry) × (after_end_array tokens.old ≡ Some tokens.new)) }
{
    if tokens.take_end_array() {
        Some(form)
    } else {
        None
    }
}

/// The event of a kind, with the next tokens.
fn form_of_kind<'a>(alloc: Global, kind: &str, tokens: &mut Reader<'a>) -> Option<JsonEvent<'a>>
    ensures { IfSome result (λ form. Says kind.now tokens.old form tokens.new) }
{
    match kind {
        "start" => start(alloc, tokens),
        "end" => Some(JsonEvent::End),
        "text" => Some(JsonEvent::Text {
            text: text(tokens)?,
        }),
        "comment" => Some(JsonEvent::Comment {
            text: text(tokens)?,
        }),
        "doctype" => doctype(tokens),
        _ => None,
    }
}

/// A start: its name and its attributes.
fn start<'a>(alloc: Global, tokens: &mut Reader<'a>) -> Option<JsonEvent<'a>>
    ensures { IfSome result (λ form. Says (codes "start") tokens.old form tokens.new) }
{
    let name = text(tokens)?;
    let texts = pairs(alloc, tokens)?;
    Some(JsonEvent::Start {
        name,
        attrs: Pairs::of_texts(texts),
    })
}

/// A doctype: one word.
fn doctype<'a>(tokens: &mut Reader<'a>) -> Option<JsonEvent<'a>>
    ensures { IfSome result (λ form. Says (codes "doctype") tokens.old form tokens.new) }
{
    let word = text(tokens)?;
    match word {
        "plain" => Some(JsonEvent::Doctype { legacy: false }),
        "legacy" => Some(JsonEvent::Doctype { legacy: true }),
        _ => None,
    }
}

/// The names and values of an array of pairs.
fn pairs<'a>(alloc: Global, tokens: &mut Reader<'a>) -> Option<Vec<(&'a str, &'a str)>>
    ensures { IfSome result (λ found. ArePairs tokens.old (map text_attribute found.items) tokens.new) }
{
    let Token::BeginArray = tokens.next()? else {
        return None;
    };
    let mut found = Vec::new(alloc);
    while !tokens.take_end_array() {
        let read = pair(tokens)?;
        found.push(read).ok()?;
    }
    Some(found)
}

/// A name and a value in an array.
fn pair<'a>(tokens: &mut Reader<'a>) -> Option<(&'a str, &'a str)>
    ensures { IfSome result (λ read. IsPair tokens.old (text_attribute read) tokens.new) }
{
    let Token::BeginArray = tokens.next()? else {
        return None;
    };
    let name = text(tokens)?;
    let value = text(tokens)?;
    if !tokens.take_end_array() {
        return None;
    }
    Some((name, value))
}

/// A text.
fn text<'a>(tokens: &mut Reader<'a>) -> Option<&'a str>
    ensures { IfSome result (λ text. IsText tokens.old text.now tokens.new) }
{
    match tokens.next()? {
        Token::String(text) => Some(text),
        _ => None,
    }
}

/// Whether no token is left.
pub(crate) fn is_at_end(tokens: &mut Reader<'_>) -> bool
    ensures { result ≡ true → tokens.old ≡ [] }
{
    tokens.next().is_none()
}
