//! Whether a text follows the graph of a tree.
ghost use Rattle.std.specs.Prelude.{◌≡◌, ◌++◌, ◌∷◌, ◌⊎◌, ℕ, List, [], codes, encode_utf8, if◌then◌else◌, length, slice_index_or, IfOk, IfSome, IsTrue, OnOk};
ghost use Rattle.std.specs.Str.{IsAscii};
ghost use Rattle.hm_edges.specs.Pieces.{HasName, own_bytes, piece_bytes, piece_text, with_gap, with_opening};
ghost use Rattle.hm_graph.specs.Copied.{Copies};
ghost use Rattle.hm_graph.specs.Graphs.{AreNamedHops, IsNamedStep};
ghost use Rattle.hm_event_parts.specs.Parts.{comment_bytes};
ghost use Rattle.hm_event_parts.specs.UnitText.{own_text};
ghost use Rattle.hm_refs.specs.Names.{Entry};
ghost use Rattle.hm_graph.specs.Steps.{Step as Hops};
ghost use Rattle.hm_graph.specs.Ways.{WayOver};
ghost use Rattle.hm_graph_laws.specs.Units as units;
ghost use Rattle.hm_graph_laws.specs.Units.{units_of};
ghost use Rattle.hm_check.specs.Following.{GoesOverAlike, IsOver, IsWayOn, LeadsTo};

use hm_base::{Format, OutOfMemory, SpellRules};
use hm_edges::{Piece, Quoting};
use hm_event_parts::{UnitText, put_piece};
use hm_graph::{Graph, Hop, Step, Visitor};
use hm_refs::Table;
use hm_tree::Tree;
use std::alloc::Global;

/// Why a text isn't followed to its end.
#[derive(Drop)]
enum Stop {
    /// It leaves the graph.
    Leaves,
    /// No memory could be allocated.
    OutOfMemory,
}

impl From<OutOfMemory> for Stop {
    fn from(_error: OutOfMemory) -> Self
        ensures { result ≡ Stop.OutOfMemory }
    {
        Stop::OutOfMemory
    }
}

/// How far a text follows the graph.
#[derive(Drop)]
struct Followed<'o> {
    /// The rest of the text.
    rest: &'o [u8],
    /// The index of the state in its layer.
    place: usize,
    /// A buffer for the bytes of a piece that are compared.
    spare: Vec<u8>,
}

/// Where a hop leads, and the rest of the text after its bytes.
#[derive(Clone, Copy)]
struct Taken<'o> {
    to: usize,
    rest: &'o [u8],
}

/// The text after a byte, if the text starts with it.
#[inline(always)]
fn after_byte(text: &[u8], byte: u8) -> Option<&[u8]>
    ensures { IfSome result (λ rest. text.now ≡ byte ∷ rest.now) }
{
    match text {
        [first, rest @ ..] if *first == byte => Some(rest),
        _ => None,
    }
}

/// The text after a byte, if the text starts with it. The whole text if the byte isn't wanted.
#[inline(always)]
fn after_where(text: &[u8], wanted: bool, byte: u8) -> Option<&[u8]>
    ensures { IfSome result (λ rest. text.now ≡ (if wanted then byte ∷ [] else []) ++ rest.now) }
{
    if wanted {
        after_byte(text, byte)
    } else {
        Some(text)
    }
}

/// Whether two texts of the same length are equal. Meant for short ones.
#[inline(always)]
fn are_short_same(text: &[u8], bytes: &[u8]) -> bool
    requires { length text.now ≡ length bytes.now }
    ensures { IsTrue result → text.now ≡ bytes.now }
{
    for i in 0..bytes.len() {
        if text[i] != bytes[i] {
            return false;
        }
    }
    true
}

/// The text after these bytes, if it starts with them.
fn after<'o>(text: &'o [u8], bytes: &[u8]) -> Option<&'o [u8]>
    ensures { IfSome result (λ rest. text.now ≡ bytes.now ++ rest.now) }
{
    if bytes.len() > 12 {
        return text.strip_prefix(bytes);
    }
    if text.len() >= bytes.len() && are_short_same(&text[..bytes.len()], bytes) {
        return Some(&text[bytes.len()..]);
    }
    None
}

/// The text after a character of several bytes, if it starts with it.
#[inline(never)]
fn after_wide(text: &[u8], c: char) -> Option<&[u8]>
    ensures { IfSome result (λ rest. text.now ≡ encode_utf8 c ++ rest.now) }
{
    let mut buffer = [0; 4];
    after(text, c.encode_utf8(&mut buffer).as_bytes())
}

/// The text after a character, if it starts with it.
#[inline(always)]
fn after_character(text: &[u8], c: char) -> Option<&[u8]>
    ensures { IfSome result (λ rest. text.now ≡ encode_utf8 c ++ rest.now) }
{
    if c.is_ascii() {
        after_byte(text, c as u8)
    } else {
        after_wide(text, c)
    }
}

/// The text after a comment, if it starts with it.
fn after_comment<'o>(text: &'o [u8], comment: &str) -> Option<&'o [u8]>
    ensures { IfSome result (λ rest. text.now ≡ comment_bytes comment.now ++ rest.now) }
{
    let inside = after(text, b"<!--")?;
    let end = after(inside, comment.as_bytes())?;
    after(end, b"-->")
}

/// The text after a unit's own text, if it starts with that.
#[inline(always)]
fn after_own<'o>(text: &'o [u8], own: UnitText) -> Option<&'o [u8]>
    ensures { IfSome result (λ rest. text.now ≡ own_text own.entry ++ rest.now) }
{
    match own {
        UnitText::Bytes { text: own } => after(text, own.as_bytes()),
        UnitText::Comment { text: comment } => after_comment(text, comment),
        UnitText::Character { c } => after_character(text, c),
    }
}

/// The text after `>` or `/>`, if it starts with that.
#[inline(always)]
fn after_close(text: &[u8], closes: bool) -> Option<&[u8]>
    ensures { IfSome result (λ rest. text.now ≡ (if closes then codes "/>" else codes ">") ++ rest.now) }
{
    after_byte(after_where(text, closes, b'/')?, b'>')
}

/// The text after a quote, if it starts with it.
#[inline(always)]
fn after_quote(text: &[u8], double: bool) -> Option<&[u8]>
    ensures { IfSome result (λ rest. text.now ≡ (if double then 34 ∷ [] else 39 ∷ []) ++ rest.now) }
{
    if double {
        after_byte(text, b'"')
    } else {
        after_byte(text, b'\'')
    }
}

/// The text after `>` or `/>` and the space before it, if it starts with them.
#[inline(always)]
fn after_tag_close(text: &[u8], space: bool, closes: bool) -> Option<&[u8]>
    ensures { IfSome result (λ rest. text.now ≡ with_gap space (if closes then codes "/>" else codes ">") ++ rest.now) }
{
    after_close(after_where(text, space, b' ')?, closes)
}

/// The text after `<` and the name of a tag, if it starts with them.
#[inline(always)]
fn after_tag_name<'o>(text: &'o [u8], own: UnitText) -> Option<&'o [u8]>
    ensures { IfSome result (λ rest. text.now ≡ (60 ∷ own_text own.entry) ++ rest.now) }
{
    after_own(after_byte(text, b'<')?, own)
}

/// The text after the bytes that open a value, if it starts with them.
#[inline(always)]
fn after_opening(text: &[u8], form: Quoting) -> Option<&[u8]>
    ensures { IfSome result (λ rest. text.now ≡ with_opening form [] ++ rest.now) }
{
    match form {
        Quoting::Bare => Some(text),
        Quoting::Unquoted => after_byte(text, b'='),
        Quoting::Double => after_byte(after_byte(text, b'=')?, b'"'),
        Quoting::Single => after_byte(after_byte(text, b'=')?, b'\''),
    }
}

/// The text after an attribute up to what opens its value, if it starts with that.
#[inline(always)]
fn after_attribute<'o>(text: &'o [u8], own: UnitText, gap: bool, form: Quoting) -> Option<&'o [u8]>
    ensures { IfSome result (λ rest. text.now ≡ with_gap gap (with_opening form (own_text own.entry)) ++ rest.now) }
{
    let name = after_where(text, gap, b' ')?;
    after_opening(after_own(name, own)?, form)
}

/// The text after an end tag, if it starts with it.
#[inline(always)]
fn after_end_tag<'o>(text: &'o [u8], own: UnitText) -> Option<&'o [u8]>
    ensures { IfSome result (λ rest. text.now ≡ (codes "</" ++ (own_text own.entry ++ codes ">")) ++ rest.now) }
{
    let name = after_byte(after_byte(text, b'<')?, b'/')?;
    after_byte(after_own(name, own)?, b'>')
}

/// The text after the bytes that a piece writes for a unit, if it starts with them. The bytes of a reference or of a
/// section are written to the buffer `spare` first.
fn after_other<'o>(
    text: &'o [u8],
    spare: &mut Vec<u8>,
    table: &Table,
    piece: Piece,
    own: UnitText,
) -> Result<Option<&'o [u8]>, OutOfMemory>
    requires { HasName table.now.entries piece }
    ensures { IfOk result (λ found. IfSome found (λ rest. text.now ≡ piece_text table.now.entries (own_text own.entry) piece ++ rest.now)) }
{
    spare.clear();
    put_piece(spare, table, piece, own)?;
    Ok(after(text, spare.as_slice()))
}

/// The text after the bytes that a piece writes for a unit, if it starts with them.
#[inline(always)]
fn after_piece<'o>(
    text: &'o [u8],
    spare: &mut Vec<u8>,
    table: &Table,
    piece: Piece,
    own: UnitText,
) -> Result<Option<&'o [u8]>, OutOfMemory>
    requires { HasName table.now.entries piece }
    ensures { IfOk result (λ found. IfSome found (λ rest. text.now ≡ piece_text table.now.entries (own_text own.entry) piece ++ rest.now)) }
{
    match piece {
        Piece::Nothing => Ok(Some(text)),
        Piece::Itself => Ok(after_own(text, own)),
        Piece::TagName => Ok(after_tag_name(text, own)),
        Piece::Attribute { gap, form } => Ok(after_attribute(text, own, gap, form)),
        Piece::Quote { double } => Ok(after_quote(text, double)),
        Piece::TagClose { space, closes } => Ok(after_tag_close(text, space, closes)),
        Piece::EndTag => Ok(after_end_tag(text, own)),
        other => after_other(text, spare, table, other, own),
    }
}

/// Where a hop leads, if the text starts with its bytes.
#[inline(always)]
fn over_hop<'o>(
    text: &'o [u8],
    spare: &mut Vec<u8>,
    table: &Table,
    hop: Hop,
    own: UnitText,
) -> Result<Option<Taken<'o>>, OutOfMemory>
    requires { HasName table.now.entries hop.piece }
    ensures { IfOk result (λ found. IfSome found (LeadsTo (piece_text table.now.entries (own_text own.entry)) hop text.now)) }
{
    match after_piece(text, spare, table, hop.piece, own)? {
        Some(rest) => Ok(Some(Taken { to: hop.to, rest })),
        None => Ok(None),
    }
}

/// Whether the text from byte `at` on may be what opens a value with these quotes.
#[inline(always)]
fn may_open(text: &[u8], at: usize, form: Quoting) -> bool {
    match text.get(at..) {
        Some([b'=', quote, ..]) => {
            match form {
                Quoting::Bare => true,
                Quoting::Unquoted => *quote != b'"' && *quote != b'\'',
                Quoting::Double => *quote == b'"',
                Quoting::Single => *quote == b'\'',
            }
        }
        _ => matches!(form, Quoting::Bare),
    }
}

/// Whether a text may start with the bytes of a piece. Attributes whose value the text opens with other quotes are
/// skipped before their names are compared.
#[inline(always)]
fn may_begin(text: &[u8], piece: Piece, own: UnitText) -> bool {
    match (piece, own) {
        (Piece::Attribute { gap, form }, UnitText::Bytes { text: name }) => {
            may_open(text, if gap { name.len() + 1 } else { name.len() }, form)
        }
        _ => true,
    }
}

/// As `over_hop`, but never inlined.
#[inline(never)]
fn over_one<'o>(
    text: &'o [u8],
    spare: &mut Vec<u8>,
    table: &Table,
    hop: Hop,
    own: UnitText,
) -> Result<Option<Taken<'o>>, OutOfMemory>
    requires { HasName table.now.entries hop.piece }
    ensures { IfOk result (λ found. IfSome found (LeadsTo (piece_text table.now.entries (own_text own.entry)) hop text.now)) }
{
    over_hop(text, spare, table, hop, own)
}

/// The one with less of the text left, if there are both.
fn further<'o>(one: Option<Taken<'o>>, other: Option<Taken<'o>>) -> Option<Taken<'o>>
    ensures { (result ≡ one.entry) ⊎ (result ≡ other.entry) }
{
    match (one, other) {
        (Some(first), Some(second)) => {
            if second.rest.len() < first.rest.len() {
                other
            } else {
                one
            }
        }
        (Some(_), None) => one,
        (None, _) => other,
    }
}

/// Where the hop leads with whose bytes the text starts. If there are several, the one with the most bytes.
#[inline(never)]
fn over_several<'o>(
    text: &'o [u8],
    spare: &mut Vec<u8>,
    table: &Table,
    hops: &[Hop],
    own: UnitText,
) -> Result<Option<Taken<'o>>, OutOfMemory>
    requires { AreNamedHops table.now.entries hops.now }
    ensures { IfOk result (λ found. IfSome found (IsOver (piece_text table.now.entries (own_text own.entry)) hops.now text.now)) }
{
    let mut found = None;
    for hop in hops {
        if may_begin(text, hop.piece, own) {
            found = further(found, over_one(text, spare, table, *hop, own)?);
        }
    }
    Ok(found)
}

/// As `over_several`, with a fast path for one hop, which most states have.
#[inline(always)]
fn over_hops<'o>(
    text: &'o [u8],
    spare: &mut Vec<u8>,
    table: &Table,
    hops: &[Hop],
    own: UnitText,
) -> Result<Option<Taken<'o>>, OutOfMemory>
    requires { AreNamedHops table.now.entries hops.now }
    ensures { IfOk result (λ found. IfSome found (IsOver (piece_text table.now.entries (own_text own.entry)) hops.now text.now)) }
{
    match hops {
        [hop] => over_hop(text, spare, table, *hop, own),
        _ => over_several(text, spare, table, hops, own),
    }
}

/// Where the text leads over a step, from the state with this index.
#[inline(always)]
fn over_step<'o>(
    text: &'o [u8],
    spare: &mut Vec<u8>,
    table: &Table,
    step: &Step,
    place: usize,
    own: UnitText,
) -> Result<Option<Taken<'o>>, OutOfMemory>
    requires { IsNamedStep table.now.entries step.now }
    ensures { IfOk result (λ found. IfSome found (IsOver (piece_text table.now.entries (own_text own.entry)) (slice_index_or step.now place []) text.now)) }
{
    if place >= step.width() {
        return Ok(None);
    }
    over_hops(text, spare, table, step.hops(place), own)
}

/// Follows the text over the step of a unit with these bytes of its own.
#[inline(never)]
fn go_over(way: &mut Followed, table: &Table, step: &Step, own: UnitText) -> Result<(), Stop>
    requires named { IsNamedStep table.now.entries step.now }
    ensures { OnOk result ((u : units.Unit) (more : List units.Unit) (steps : List Hops) → own_bytes u ≡ own_text own.entry → IsWayOn table.now.entries more steps way.new → IsWayOn table.now.entries (u ∷ more) (step.now ∷ steps) way.old) }
{
    match over_step(way.rest, &mut way.spare, table, step, way.place, own)? {
        Some(taken) => {
            way.rest = taken.rest;
            way.place = taken.to;
            Ok(())
        }
        None => Err(Stop::Leaves),
    }
}

/// Follows the text over the step of a character that copies it.
#[inline(always)]
fn go_over_character(way: &mut Followed, step: &Step, c: char) -> Result<(), Stop>
    requires { Copies way.old.place (slice_index_or step.now way.old.place []) }
    ensures { OnOk result ((t : List Entry) (u : units.Unit) (more : List units.Unit) (steps : List Hops) → own_bytes u ≡ encode_utf8 c → IsWayOn t more steps way.new → IsWayOn t (u ∷ more) (step.now ∷ steps) way.old) }
{
    let _width = step.width();
    match after_character(way.rest, c) {
        Some(rest) => {
            way.rest = rest;
            Ok(())
        }
        None => Err(Stop::Leaves),
    }
}

/// Follows the text over the steps of characters with these bytes, one by one.
fn go_over_each(way: &mut Followed, table: &Table, step: &Step, bytes: &[u8]) -> Result<(), Stop>
    requires named { IsNamedStep table.now.entries step.now }
    ensures { OnOk result (GoesOverAlike table.now.entries step.now bytes.now way.old way.new) }
{
    for byte in bytes {
        go_over(way, table, step, UnitText::Character { c: *byte as char })?;
    }
    Ok(())
}

/// Follows the text over the steps of characters with these bytes, which copy them.
#[inline(always)]
fn go_over_copied(way: &mut Followed, step: &Step, bytes: &[u8]) -> Result<(), Stop>
    requires copied { Copies way.old.place (slice_index_or step.now way.old.place []) }
    requires ascii { IsAscii bytes.now }
    ensures { OnOk result ((t : List Entry) → GoesOverAlike t step.now bytes.now way.old way.new) }
{
    let _width = step.width();
    match after(way.rest, bytes) {
        Some(rest) => {
            way.rest = rest;
            Ok(())
        }
        None => Err(Stop::Leaves),
    }
}

impl<'o> Visitor for Followed<'o> {
    type Stop = Stop;

    ghost goes_on = { λ _ t more steps way. IsWayOn t more steps way };

    #[inline(always)]
    fn take(&mut self, table: &Table, step: &Step, own: UnitText) -> Result<(), Stop> {
        match own {
            UnitText::Character { c } if step.copies(self.place) => go_over_character(
                self, step, c,
            ),
            own => go_over(self, table, step, own),
        }
    }

    #[inline(always)]
    fn take_alike(&mut self, table: &Table, step: &Step, bytes: &[u8]) -> Result<(), Stop> {
        if step.copies(self.place) {
            go_over_copied(self, step, bytes)
        } else {
            go_over_each(self, table, step, bytes)
        }
    }
}

/// The graph of a tree in a format, if a text follows it to its end. A text that doesn't may still have the tree.
pub(crate) fn graph_followed<'t>(
    alloc: Global,
    tree: &'t Tree,
    table: &'t Table,
    rules: SpellRules,
    format: Format,
    out: &[u8],
) -> Result<Option<Graph<'t>>, OutOfMemory>
    ensures source { IfOk result (λ found. IfSome found (λ graph. graph.source ≡ record { tree = tree.now; table = table.now; rules = rules; format = format })) }
    ensures way { IfOk result (λ found. IfSome found (λ graph. WayOver (piece_bytes table.now.entries) (units_of rules tree.now) graph.steps 0 out.now)) }
{
    let start = Followed {
        rest: out,
        place: 0,
        spare: Vec::new(alloc),
    };
    match Graph::visited(alloc, tree, table, rules, format, start) {
        Ok((graph, way)) => {
            if way.rest.is_empty() {
                Ok(Some(graph))
            } else {
                Ok(None)
            }
        }
        Err(Stop::Leaves) => Ok(None),
        Err(Stop::OutOfMemory) => Err(OutOfMemory),
    }
}
