//! The lines that a run prints.
ghost use Rattle.std.specs.Prelude.{◌≡◌, IfOk, string_bytes};
ghost use Rattle.hm_minify.specs.Lines as spec;

use hm_base::Rule;
use hm_check::Why;
use hm_json_tree::JsonFault;
use hm_refs::TableFault;
use std::alloc::{AllocError, Global};

/// The line for arguments without a meaning.
pub const USAGE: &[u8] =
    b"usage: hminify minify, check, fragment, checkfragment or minifyjson TABLE PAGE OUT CERT, tree, json or explain TABLE PAGE, measure TABLE NUMBER SIZE, help, version\n";

/// The line if a call on the store failed, or a file isn't there.
pub const STORE_FAULT: &[u8] = b"store fault\n";

/// The line for a page that was minified to `length` bytes.
pub fn length_line(alloc: Global, length: usize) -> Result<String, AllocError>
    ensures { IfOk result (λ line. string_bytes line ≡ spec.length_line length) }
{
    format!(in alloc; "length {length}\n")
}

/// The line for a page that is refused.
pub fn refused_line(alloc: Global, rule: Rule, at: u32) -> Result<String, AllocError>
    ensures { IfOk result (λ line. string_bytes line ≡ spec.refused_line rule at) }
{
    let name = rule.name();
    format!(in alloc; "page refused: {name} at {at}\n")
}

/// The line for JSON that isn't that of a tree.
pub fn json_line(alloc: Global, fault: JsonFault) -> Result<String, AllocError>
    ensures { IfOk result (λ line. string_bytes line ≡ spec.json_line fault) }
{
    match fault {
        JsonFault::TooLong => String::from_str(alloc, "json refused: TooLong\n"),
        JsonFault::NotJson => String::from_str(alloc, "json refused: NotJson\n"),
        JsonFault::NotArray => String::from_str(alloc, "json refused: NotArray\n"),
        JsonFault::BadEvent { event } => format!(in alloc;
            "json refused: BadEvent event {event}\n"
        ),
        JsonFault::Open { count } => format!(in alloc; "json refused: Open open {count}\n"),
        JsonFault::NotSettled { event, point } => {
            format!(in alloc; "json refused: NotSettled event {event} point {point}\n")
        }
        JsonFault::OutOfMemory => String::from_str(alloc, "json refused: Memory\n"),
    }
}

/// The line for a text of `length` bytes that is shown to be the shortest.
pub fn yes_line(alloc: Global, length: u64) -> Result<String, AllocError>
    ensures { IfOk result (λ line. string_bytes line ≡ spec.yes_line length) }
{
    format!(in alloc; "yes {length}\n")
}

/// The line for a page of `page` bytes whose shortest text of `out` bytes, over `layers` layers, was written and
/// checked.
pub fn measured_line(
    alloc: Global,
    page: usize,
    out: usize,
    layers: usize,
) -> Result<String, AllocError>
    ensures { IfOk result (λ line. string_bytes line ≡ spec.measured_line page out layers) }
{
    format!(in alloc; "page {page} output {out} layers {layers} yes\n")
}

/// The line for a certificate with more bytes than the limit.
pub fn too_long_line(alloc: Global) -> Result<String, AllocError>
    ensures { IfOk result (λ line. string_bytes line ≡ spec.too_long_line) }
{
    String::from_str(alloc, "no 0 certificate too long\n")
}

/// The line for a certificate with a bad line. Lines are counted from 1.
pub fn bad_line_line(alloc: Global, number: u32) -> Result<String, AllocError>
    ensures { IfOk result (λ line. string_bytes line ≡ spec.bad_line_line number) }
{
    format!(in alloc; "no 0 certificate line {number}\n")
}

/// A price or a bound as it is printed: `-` if there is none.
fn price_word(alloc: Global, price: Option<u64>) -> Result<String, AllocError>
    ensures { IfOk result (λ word. string_bytes word ≡ spec.price_word price) }
{
    match price {
        None => String::from_str(alloc, "-"),
        Some(price) => format!(in alloc; "{price}"),
    }
}

/// The line for a price above its bound.
fn too_high_line(
    alloc: Global,
    layer: u64,
    state: u64,
    price: Option<u64>,
    bound: Option<u64>,
) -> Result<String, AllocError>
    ensures { IfOk result (λ line. string_bytes line ≡ spec.why_line (Why.TooHigh layer state price bound)) }
{
    let price = price_word(alloc, price)?;
    let bound = price_word(alloc, bound)?;
    let (price, bound) = (price.as_str(), bound.as_str());
    format!(in alloc; "no 6 layer {layer} state {state}: price {price} above {bound}\n")
}

/// The line for the first condition that fails.
pub fn why_line(alloc: Global, why: Why) -> Result<String, AllocError>
    ensures { IfOk result (λ line. string_bytes line ≡ spec.why_line why) }
{
    match why {
        Why::RulesDiffer => String::from_str(alloc, "no 1 rules differ\n"),
        Why::OutRefused { rule, at } => {
            let name = rule.name();
            format!(in alloc; "no 2 output refused: {name} at {at}\n")
        }
        Why::TreesDiffer { event } => format!(in alloc; "no 3 trees differ at event {event}\n"),
        Why::WrongLayers { got, want } => format!(in alloc; "no 4 layers {got}, wanted {want}\n"),
        Why::WrongWidth { layer, got, want } => {
            format!(in alloc; "no 5 layer {layer}: prices {got}, wanted {want}\n")
        }
        Why::TooHigh {
            layer,
            state,
            price,
            bound,
        } => too_high_line(alloc, layer, state, price, bound),
        Why::TooLong { length, first } => {
            format!(in alloc; "no 7 output {length} bytes, first price {first}\n")
        }
    }
}

/// The line for a table that is refused.
pub fn table_line(alloc: Global, fault: &TableFault) -> Result<String, AllocError>
    ensures { IfOk result (λ line. string_bytes line ≡ spec.table_line fault.now) }
{
    let name = fault.name();
    match fault {
        TableFault::BadName { key } | TableFault::BadPoints { key } | TableFault::Lone { key } => {
            let key = key.text.as_str();
            format!(in alloc; "table refused: {name} {key}\n")
        }
        TableFault::TooManyFor { point } => { format!(in alloc; "table refused: {name} {point}\n") }
        _ => format!(in alloc; "table refused: {name}\n"),
    }
}
