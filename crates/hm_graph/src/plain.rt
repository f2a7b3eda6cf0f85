//! Steps of plain characters, in rows.
ghost use Rattle.std.specs.Prelude.{◌≡◌, ◌+◌, ◌<◌, ◌≤◌, ℕ, Bool, length, take, slice_index_or, IfOk, IfSome, IsTrue};
ghost use Rattle.std.specs.List.{All};
ghost use Rattle.hm_graph.specs.Interned.{IsKnown, IsRow, IsToward, Leads, InternedView, unknown};

use crate::made::{Reached, is_kind};
use hm_base::OutOfMemory;
use hm_edges::TextKind;
use std::alloc::Global;

/// The number of entries of a row: one for each byte, so that no byte has to be tested for ASCII. The others stay
/// unknown.
const WIDTH: usize = 256;

/// Where characters of ASCII lead from a list in such a text, each at its byte, as far as it is known.
#[derive(Drop)]
pub(crate) struct PlainRow {
    pub(crate) list: u32,
    pub(crate) kind: TextKind,
    pub(crate) steps: Vec<Reached>,
}

/// Where some characters lead, each from the list that the one before leads to, and how many they are.
#[derive(Clone, Copy)]
pub(crate) struct Alike {
    pub(crate) to: Reached,
    pub(crate) count: usize,
}

/// The entry of a character of which it isn't known where it leads: no step has this number.
#[inline(always)]
fn no_step() -> Reached
    ensures { result ≡ unknown }
{
    Reached {
        number: u32::MAX,
        after: 0,
    }
}

/// Whether it is known where a character leads.
#[inline(always)]
fn is_known(to: Reached) -> bool
    ensures { IsTrue result → IsKnown to }
{
    to.number < u32::MAX
}

/// Where a character leads.
#[inline(always)]
fn step_at(steps: &[Reached], byte: u8) -> Reached
    ensures { result ≡ slice_index_or steps.now byte unknown }
{
    match steps.get(byte as usize) {
        Some(to) => *to,
        None => no_step(),
    }
}

/// Whether a character leads there. One step leads to one list, so only its number is compared.
#[inline(always)]
fn is_toward(steps: &[Reached], to: Reached, byte: u8) -> bool
    requires { 256 ≤ length steps.now }
    ensures { IsTrue result → IsToward steps.now to byte }
{
    steps[byte as usize].number == to.number
}

/// Whether four characters of a text, from byte `from` on, lead there.
#[inline(always)]
fn are_toward(steps: &[Reached], to: Reached, text: &[u8], from: usize) -> bool
    requires wide { 256 ≤ length steps.now }
    requires room { from + 4 < length text.now }
    ensures { IsTrue result → All (IsToward steps.now to) (take from text.now) → All (IsToward steps.now to) (take (from + 4) text.now) }
{
    if !is_toward(steps, to, text[from]) {
        return false;
    }
    if !is_toward(steps, to, text[from + 1]) {
        return false;
    }
    if !is_toward(steps, to, text[from + 2]) {
        return false;
    }
    is_toward(steps, to, text[from + 3])
}

/// How many characters at the start of a text lead where the first one does, each with another one after it. Four are
/// compared at a time, as far as all four lead there, and then single ones.
#[inline(always)]
fn alike_run(steps: &[Reached], to: Reached, text: &[u8]) -> usize
    requires wide { 256 ≤ length steps.now }
    requires some { 1 < length text.now }
    requires first { IsToward steps.now to (slice_index_or text.now 0 0) }
    ensures some { 0 < result }
    ensures short { result < length text.now }
    ensures toward { All (IsToward steps.now to) (take result text.now) }
{
    let mut count = 1;
    'fours: while count + 4 < text.len() && are_toward(steps, to, text, count) {
        count += 4;
    }
    while count + 1 < text.len() && is_toward(steps, to, text[count]) {
        count += 1;
    }
    count
}

/// No characters.
pub(crate) fn none_alike() -> Alike
    ensures { result.count ≡ 0 }
{
    Alike {
        to: no_step(),
        count: 0,
    }
}

impl PlainRow {
    /// A row in which nothing is known.
    fn of(alloc: Global, list: u32, kind: TextKind) -> Result<PlainRow, OutOfMemory>
        ensures list { IfOk result (λ row. row.list ≡ list) }
        ensures kind { IfOk result (λ row. row.kind ≡ kind) }
        ensures row { IfOk result (λ row. (m : InternedView) (more : Bool) → IsRow m more row) }
    {
        Ok(PlainRow {
            list,
            kind,
            steps: vec![in alloc; no_step(); WIDTH]?,
        })
    }

    /// Whether this is the row of this list and this kind of text.
    #[inline(always)]
    pub(crate) fn is_of(&self, list: u32, kind: TextKind) -> bool
        ensures list { IsTrue result → self.now.list ≡ list }
        ensures kind { IsTrue result → self.now.kind ≡ kind }
    {
        self.list == list && is_kind(self.kind, kind)
    }

    /// Sets where a character leads.
    fn put(&mut self, c: char, to: Reached)
        ensures { (m : InternedView) (more : Bool) → IsRow m more self.old → Leads m self.old.list self.old.kind more to c → IsRow m more self.new }
    {
        if let Some(step) = self.steps.get_mut(c as usize) {
            *step = to;
        }
    }

    /// Where a character leads, if that is known.
    #[inline(always)]
    pub(crate) fn step(&self, c: char) -> Option<Reached>
        ensures { IfSome result (λ to. (m : InternedView) (more : Bool) → IsRow m more self.now → Leads m self.now.list self.now.kind more to c) }
    {
        let to = *self.steps.get(c as usize)?;
        if is_known(to) { Some(to) } else { None }
    }

    /// Where the characters at the start of a text lead, as far as they lead to one place, each with another one after
    /// it. They are more than one only if that place is the list itself.
    #[inline(always)]
    pub(crate) fn alike(&self, text: &[u8]) -> Alike
        ensures within { result.count ≤ length text.now }
        ensures short { 0 < result.count → result.count < length text.now }
        ensures back { 1 < result.count → result.to.after ≡ self.now.list }
        ensures leads { (m : InternedView) (more : Bool) → IsRow m more self.now → All (Leads m self.now.list self.now.kind more result.to) (take result.count text.now) }
    {
        if text.len() < 2 || self.steps.len() < WIDTH {
            return none_alike();
        }
        let to = step_at(self.steps.as_slice(), text[0]);
        if !is_known(to) {
            return none_alike();
        }
        if to.after != self.list {
            return Alike { to, count: 1 };
        }
        let count = alike_run(self.steps.as_slice(), to, text);
        Alike { to, count }
    }
}

/// The number of rows for the characters of texts.
const ROWS: usize = 128;

/// The list number of a row that belongs to no list.
const NO_LIST: u32 = u32::MAX;

/// Rows in which nothing is known.
pub(crate) fn no_rows(alloc: Global) -> Result<Vec<PlainRow>, OutOfMemory>
    ensures { IfOk result (λ rows. (m : InternedView) (more : Bool) → All (IsRow m more) rows.items) }
{
    let mut rows = Vec::with_capacity(alloc, ROWS)?;
    for _place in 0..ROWS {
        rows.push(PlainRow {
            list: NO_LIST,
            kind: TextKind::Text,
            steps: Vec::new(alloc),
        })?;
    }
    Ok(rows)
}

/// A number for each kind of text.
#[inline(always)]
fn kind_place(kind: TextKind) -> u32 {
    match kind {
        TextKind::Text => 0,
        TextKind::Rcdata => 1,
        TextKind::Foreign => 2,
        TextKind::Value => 3,
    }
}

/// The index of the row of a list.
#[inline(always)]
pub(crate) fn row_place(list: u32, kind: TextKind) -> usize {
    (list.wrapping_mul(4) ^ kind_place(kind)) as usize % ROWS
}

/// The row of a list, if it is kept.
#[inline(always)]
pub(crate) fn row_of(rows: &[PlainRow], list: u32, kind: TextKind) -> Option<&PlainRow>
    ensures list { IfSome result (λ row. row.now.list ≡ list) }
    ensures kind { IfSome result (λ row. row.now.kind ≡ kind) }
    ensures row { IfSome result (λ row. (m : InternedView) (more : Bool) → All (IsRow m more) rows.now → IsRow m more row.now) }
{
    let row = rows.get(row_place(list, kind))?;
    if row.is_of(list, kind) {
        Some(row)
    } else {
        None
    }
}

/// Keeps where a character leads from a list, in its row. If the row belongs to another list, that list's steps are
/// dropped.
fn keep_in(
    alloc: Global,
    row: &mut PlainRow,
    list: u32,
    kind: TextKind,
    c: char,
    to: Reached,
) -> Result<(), OutOfMemory>
    ensures { (m : InternedView) (more : Bool) → IsRow m more row.old → Leads m list kind more to c → IsRow m more row.new }
{
    if row.is_of(list, kind) {
        row.put(c, to);
        return Ok(());
    }
    let mut own = PlainRow::of(alloc, list, kind)?;
    own.put(c, to);
    *row = own;
    Ok(())
}

/// Keeps where a character leads from a list.
pub(crate) fn keep(
    alloc: Global,
    rows: &mut Vec<PlainRow>,
    list: u32,
    kind: TextKind,
    c: char,
    to: Reached,
) -> Result<(), OutOfMemory>
    ensures { (m : InternedView) (more : Bool) → All (IsRow m more) rows.old.items → Leads m list kind more to c → All (IsRow m more) rows.new.items }
{
    let place = row_place(list, kind);
    if place >= rows.len() {
        return Ok(());
    }
    keep_in(alloc, &mut rows[place], list, kind, c, to)
}
