//! Interned lists of states and steps: each is made once and numbered while a graph is built.
ghost use Rattle.std.specs.Prelude.{◌≡◌, ◌<◌, ◌≤◌, ◌∷◌, [], Bool, false, true, None, Some, length, map, take, IfOk, IfSome, IsTrue};
ghost use Rattle.std.specs.List.{All, HoldsAt};
ghost use Rattle.std.specs.Str.{chars};
ghost use Rattle.hm_edges.specs.Units as units;
ghost use Rattle.hm_graph.specs.Layers.{HaveNodes, IsLayer};
ghost use Rattle.hm_edges.specs.declared.units.Unit.TheVariants.{Character};
ghost use Rattle.hm_graph.specs.Interned.{BeginsNoPair, Grows, InternedView, IsListOf, IsRow, Leads, IsStepOf, list_at, first_states, made_at, only_first};

use crate::equal::is_state;
use crate::layer::{Layer, States, find_layer};
use crate::made::{KnownStep, MadeStep, Reached, StepKey, equal_made};
use crate::pairs::pair_of;
use crate::plain::{Alike, PlainRow, keep, no_rows, none_alike, row_of};
use crate::rules::EdgeRules;
use crate::step::Step;
use crate::told::{EntityFacts, entity_facts_of};
use crate::values::needs_of;
use hm_base::OutOfMemory;
use hm_edges::{Need, Needs, Pending, State, TextKind, Unit, Where};
use hm_refs::Table;
use smallvec::SmallVec;
use std::alloc::Global;
use std::collections::HashMap;
use std::marker::Model;

/// With this many lists, steps or layers the graph fails with `OutOfMemory`.
pub(crate) const LIMIT: usize = 1 << 29;

/// How many lists are searched for an equal one.
const SEARCHED: usize = 256;

/// Numbered lists of states and the numbered steps from them, each made once.
#[derive(Drop)]
pub(crate) struct Interned<'t> {
    alloc: Global,
    table: &'t Table,
    rules: EdgeRules,
    lists: Vec<States>,
    steps: Vec<MadeStep>,
    /// The steps of lists and units that were looked up before.
    memo: Vec<KnownStep>,
    /// Where the memo may have a list and a unit. The entry there is compared before it is used.
    memo_index: HashMap<StepKey, u32>,
    /// As `memo_index`, for lists and units that share a slot.
    hint_slots: Vec<u32>,
    /// Facts about ASCII characters from the names of the table.
    told: EntityFacts,
    /// Where ASCII characters lead that have another one after them.
    text_rows: Vec<PlainRow>,
    /// Where the last characters of texts lead.
    last_rows: Vec<PlainRow>,
}

impl<'t> Model for Interned<'t> {
    ghost use Rattle.hm_graph.specs.Interned.{InternedView};

    ghost Value = { InternedView };

    ghost use Rattle.std.specs.Prelude.{false, map, true};
    ghost use Rattle.std.specs.List.{All};
    ghost use Rattle.hm_graph.specs.Interned.{AreTold, IsInterned, IsRow, IsMemo};

    ghost view = { λ m. record { table = m.table.now; rules = m.rules; lists = map (λ l. l.items) m.lists.items; steps = m.steps.items } };

    ghost invariant = { λ m. IsInterned (record { table = m.table.now; rules = m.rules; lists = map (λ l. l.items) m.lists.items; steps = m.steps.items })
        × All (IsMemo (record { table = m.table.now; rules = m.rules; lists = map (λ l. l.items) m.lists.items; steps = m.steps.items })) m.memo.items
        × AreTold m.table.now.entries m.told
        × All (IsRow (record { table = m.table.now; rules = m.rules; lists = map (λ l. l.items) m.lists.items; steps = m.steps.items }) true) m.text_rows.items
        × All (IsRow (record { table = m.table.now; rules = m.rules; lists = map (λ l. l.items) m.lists.items; steps = m.steps.items }) false) m.last_rows.items };
}

/// The number of slots for hints.
const HINTS: usize = 1 << 14;

/// A number below three for a need.
#[inline(always)]
fn need_number(need: Need) -> u32 {
    match need {
        Need::Absent => 0,
        Need::Cheap => 1,
        Need::Dear => 2,
    }
}

/// A number of four bits for what a value needs. Few values need both kinds of quotes.
#[inline(always)]
fn needs_number(needs: Needs) -> u32 {
    need_number(needs.double) ^ need_number(needs.single) << 1 ^ need_number(needs.other) << 2
}

/// The slot of the hint for a list and a unit.
#[inline(always)]
fn hint_place(list: u32, unit: &Unit) -> usize {
    let own = match *unit {
        Unit::Character {
            kind: _,
            c,
            pair: _,
            more,
        } => { if more { c as u32 } else { c as u32 ^ 1024 } }
        Unit::Fixed { len } => len ^ 2048,
        Unit::StartTag {
            len,
            omits,
            required_after_omission,
            closes,
        } => {
            len ^ 2304
                ^ u32::from(omits) << 5
                ^ u32::from(required_after_omission) << 6
                ^ u32::from(closes) << 7
        }
        Unit::TagName { len } => len ^ 2560,
        Unit::BareAttribute { len } => len ^ 2816,
        Unit::AttributeName { len, needs } => len ^ 3072 ^ needs_number(needs) << 4,
        Unit::AttributeEnd => 3328,
        Unit::TagClose { closes } => 3329 ^ u32::from(closes) << 1,
        Unit::EndTag {
            len,
            omits,
            notes_omission,
        } => len ^ 3584 ^ u32::from(omits) << 5 ^ u32::from(notes_omission) << 6,
    };
    (own ^ list.wrapping_mul(0x9E37_79B1) >> 18) as usize % HINTS
}

/// Empty slots for hints.
fn no_hints(alloc: Global) -> Result<Vec<u32>, OutOfMemory> {
    Ok(vec![in alloc; 0; HINTS]?)
}

/// Writes a hint into its slot.
fn put_hint(hints: &mut Vec<u32>, at: usize, place: u32) {
    if let Some(hint) = hints.get_mut(at) {
        *hint = place;
    }
}

/// Whether the lists are equal.
fn are_same(one: &[State], other: &[State]) -> bool
    ensures { IsTrue result → one.now ≡ other.now }
{
    if one.len() != other.len() {
        return false;
    }
    for i in 0..one.len() {
        if !is_state(&one[i], &other[i]) {
            return false;
        }
    }
    true
}

/// The number of the list with exactly these states, if it is one of the first lists.
fn number_of(lists: &[States], states: &[State]) -> Option<u32>
    ensures there { IfSome result (λ k. k < length lists.now) }
    ensures list { IfSome result (HoldsAt (λ l. l.items ≡ states.now) lists.now) }
{
    for (place, list) in lists.iter().enumerate() {
        if place >= SEARCHED {
            return None;
        }
        if are_same(list.as_slice(), states) {
            return Some(place as u32);
        }
    }
    None
}

/// The list of the state before the first unit.
fn first_lists(alloc: Global) -> Result<Vec<States>, OutOfMemory>
    ensures { IfOk result (λ lists. map (λ l. l.items) lists.items ≡ first_states ∷ []) }
{
    let mut states = SmallVec::new(alloc);
    states.push(State {
        at: Where::Outside,
        pending: Pending::Nothing,
    })?;
    let mut lists = Vec::new(alloc);
    lists.push(states)?;
    Ok(lists)
}

/// A character that another one follows in the same text.
#[inline(always)]
fn character_in_front(kind: TextKind, c: char, pair: Option<char>) -> Unit
    ensures { result ≡ Character kind c pair true }
{
    Unit::Character {
        kind,
        c,
        pair,
        more: true,
    }
}

/// Two sets of empty rows: for characters that others follow, and for the last ones.
fn no_rows_twice(alloc: Global) -> Result<(Vec<PlainRow>, Vec<PlainRow>), OutOfMemory>
    ensures text { IfOk result (λ rows. (m : InternedView) (more : Bool) → All (IsRow m more) rows.0.items) }
    ensures last { IfOk result (λ rows. (m : InternedView) (more : Bool) → All (IsRow m more) rows.1.items) }
{
    let text_rows = no_rows(alloc)?;
    Ok((text_rows, no_rows(alloc)?))
}

/// The steps that were made, without the lists after them.
fn steps_of(alloc: Global, all: Vec<MadeStep>) -> Result<Vec<Step>, OutOfMemory>
    ensures { IfOk result (λ steps. steps.items ≡ map (λ made. made.step) all.items) }
{
    let mut steps = Vec::new(alloc);
    for made in all {
        let MadeStep { step, after: _ } = made;
        steps.push(step)?;
    }
    Ok(steps)
}

impl<'t> Interned<'t> {
    /// No steps, and one list, number 0, of the state before the first unit.
    pub(crate) fn new(
        alloc: Global,
        table: &'t Table,
        rules: EdgeRules,
    ) -> Result<Interned<'t>, OutOfMemory>
        ensures { IfOk result (λ interned. interned ≡ only_first table.now rules) }
    {
        let lists = first_lists(alloc)?;
        let hint_slots = no_hints(alloc)?;
        let told = entity_facts_of(alloc, table)?;
        let (text_rows, last_rows) = no_rows_twice(alloc)?;
        Ok(Interned {
            alloc,
            table,
            rules,
            lists,
            steps: Vec::new(alloc),
            memo: Vec::new(alloc),
            memo_index: HashMap::new(alloc),
            hint_slots,
            told,
            text_rows,
            last_rows,
        })
    }

    /// The table of names.
    #[inline(always)]
    pub(crate) fn table(&self) -> &'t Table
        ensures { result.now ≡ self.now.table }
    {
        self.table
    }

    /// The rules by which edges are found.
    pub(crate) fn rules(&self) -> EdgeRules
        ensures { result ≡ self.now.rules }
    {
        self.rules
    }

    /// True only if no name for two code points starts with the character. It may be false for such a character too.
    fn is_lone(&self, c: char) -> bool
        ensures { IsTrue result → BeginsNoPair self.now.table.entries c }
    {
        self.told.is_lone(c)
    }

    /// The next character, if some name gives the two; else None.
    fn pair_of(&self, c: char, next: char) -> Option<char>
        ensures { result ≡ units.pair_of self.now.table.entries c (Some next) }
    {
        match self.told.lone.get(c as usize) {
            Some(true) => None,
            _ => pair_of(self.table, c, next),
        }
    }

    /// Which characters of a value can't be written as themselves, by its quotes.
    pub(crate) fn needs_of(&self, value: &str) -> Needs
        ensures { result ≡ units.needs_of self.now.table.entries (chars value.now) }
    {
        needs_of(self.table, &self.told, value)
    }

    /// The states of a list.
    pub(crate) fn list(&self, list: u32) -> &[State]
        requires { list < length self.now.lists }
        ensures states { result.now ≡ list_at self.now list }
        ensures nodes { HaveNodes self.now.table result.now }
    {
        self.lists[list as usize].as_slice()
    }

    /// The number of the list after a step.
    #[inline(always)]
    pub(crate) fn after(&self, number: u32) -> u32
        requires { number < length self.now.steps }
        ensures { result ≡ (made_at self.now number).after }
    {
        self.steps[number as usize].after
    }

    /// The step with this number.
    #[inline(always)]
    pub(crate) fn made_step(&self, number: u32) -> &Step
        requires { number < length self.now.steps }
        ensures { result.now ≡ (made_at self.now number).step }
    {
        &self.steps[number as usize].step
    }

    /// The steps in the order of their numbers.
    pub(crate) fn into_steps(self) -> Result<Vec<Step>, OutOfMemory>
        ensures { IfOk result (λ steps. steps.items ≡ map (λ made. made.step) self.entry.steps) }
    {
        let Interned {
            alloc,
            table: _,
            rules: _,
            lists: _,
            steps,
            memo: _,
            memo_index: _,
            hint_slots: _,
            told: _,
            text_rows: _,
            last_rows: _,
        } = self;
        steps_of(alloc, steps)
    }

    /// The number of the step of this list and unit, if entry `place` of the memo has them.
    #[inline(always)]
    fn memo_at(&self, place: u32, list: u32, unit: &Unit) -> Option<u32>
        ensures { IfSome result (IsStepOf self.now list unit.now) }
    {
        let known = self.memo.get(place as usize)?;
        if known.is_from(list, unit) {
            Some(known.number)
        } else {
            None
        }
    }

    /// The number of the step of this list and unit, if their hint leads to it.
    #[inline(always)]
    fn hinted(&self, list: u32, unit: &Unit) -> Option<u32>
        ensures { IfSome result (IsStepOf self.now list unit.now) }
    {
        let place = *self.hint_slots.get(hint_place(list, unit))?;
        self.memo_at(place, list, unit)
    }

    /// The entry of the memo for this list and unit and the number of their step, if they are known.
    fn known_step(&self, front: &StepKey) -> Option<(u32, u32)>
        ensures { IfSome result (λ known. IsStepOf self.now front.now.list front.now.unit known.1) }
    {
        let place = *self.memo_index.get(front)?;
        let number = self.memo_at(place, front.list, &front.unit)?;
        Some((place, number))
    }

    /// Points the hint of a list and a unit to their entry in the memo.
    fn point_hint(&mut self, front: &StepKey, place: u32)
        ensures { self.new ≡ self.old }
    {
        put_hint(
            &mut self.hint_slots,
            hint_place(front.list, &front.unit),
            place,
        );
    }

    /// The number of a list with these states, if it is one of the first lists.
    fn found_list(&self, states: &States) -> Option<u32>
        ensures { IfSome result (IsListOf self.now states.now.items) }
    {
        number_of(self.lists.as_slice(), states.as_slice())
    }

    /// Adds a list with these states and gives its number.
    fn add_list(&mut self, states: States) -> Result<u32, OutOfMemory>
        requires { HaveNodes self.old.table states.items }
        ensures list { IfOk result (IsListOf self.new states.items) }
        ensures kept { Grows self.old self.new }
    {
        let number = self.lists.len();
        if number >= LIMIT {
            return Err(OutOfMemory);
        }
        self.lists.push(states)?;
        Ok(number as u32)
    }

    /// The number of a list with these states. It is added if there is none.
    fn list_of(&mut self, states: States) -> Result<u32, OutOfMemory>
        requires { HaveNodes self.old.table states.items }
        ensures list { IfOk result (IsListOf self.new states.items) }
        ensures kept { Grows self.old self.new }
    {
        if let Some(number) = self.found_list(&states) {
            return Ok(number);
        }
        self.add_list(states)
    }

    /// The number of a step with these hops and this list after it, if it is one of the first steps.
    fn found_made(&self, made: &MadeStep) -> Option<u32>
        ensures there { IfSome result (λ n. n < length self.now.steps) }
        ensures made { IfSome result (λ n. made_at self.now n ≡ made.now) }
    {
        equal_made(self.steps.as_slice(), &made.step, made.after)
    }

    /// Adds a step with the list after it and gives its number.
    fn add_made(&mut self, made: MadeStep) -> Result<u32, OutOfMemory>
        ensures there { IfOk result (λ n. n < length self.new.steps) }
        ensures made { IfOk result (λ n. made_at self.new n ≡ made) }
        ensures kept { Grows self.old self.new }
    {
        let number = self.steps.len();
        if number >= LIMIT {
            return Err(OutOfMemory);
        }
        self.steps.push(made)?;
        Ok(number as u32)
    }

    /// The number of a step with these hops and this list after it. It is added if there is none.
    fn made_of(&mut self, made: MadeStep) -> Result<u32, OutOfMemory>
        ensures there { IfOk result (λ n. n < length self.new.steps) }
        ensures made { IfOk result (λ n. made_at self.new n ≡ made) }
        ensures kept { Grows self.old self.new }
    {
        if let Some(number) = self.found_made(&made) {
            return Ok(number);
        }
        self.add_made(made)
    }

    /// Adds the number of the step of a list and a unit to the memo.
    fn note(&mut self, front: StepKey, number: u32) -> Result<(), OutOfMemory>
        requires list { front.list < length self.old.lists }
        requires step { IsStepOf self.old front.list front.unit number }
        ensures { self.new ≡ self.old }
    {
        let place = self.memo.len();
        if place >= LIMIT {
            return Err(OutOfMemory);
        }
        self.memo.push(KnownStep {
            list: front.list,
            unit: front.unit,
            number,
        })?;
        self.memo_index.insert(front, place as u32)?;
        Ok(())
    }

    /// The step of a unit from the states of a list, and the states after it.
    fn layer_of(&self, front: &StepKey) -> Result<(Step, States), OutOfMemory>
        requires { front.now.list < length self.now.lists }
        ensures { IfOk result (λ layer. IsLayer self.now.table self.now.rules front.now.unit (list_at self.now front.now.list) layer.1.items layer.0) }
    {
        let Layer { hops, after } = find_layer(
            self.alloc,
            self.table,
            self.rules,
            front.unit,
            self.list(front.list),
        )?;
        let step = Step::new(self.alloc, hops)?;
        Ok((step, after))
    }

    /// Interns a step and the states after it, and gives the number of the step.
    fn keep_layer(&mut self, step: Step, after: States) -> Result<u32, OutOfMemory>
        requires { HaveNodes self.old.table after.items }
        ensures there { IfOk result (λ n. n < length self.new.steps) }
        ensures after { IfOk result (λ n. IsListOf self.new after.items (made_at self.new n).after) }
        ensures step { IfOk result (λ n. (made_at self.new n).step ≡ step) }
        ensures kept { Grows self.old self.new }
    {
        let list = self.list_of(after)?;
        self.made_of(MadeStep { step, after: list })
    }

    /// Makes the step of a unit from the states of a list, and gives its number.
    fn make(&mut self, front: StepKey) -> Result<u32, OutOfMemory>
        requires { front.list < length self.old.lists }
        ensures step { IfOk result (IsStepOf self.new front.list front.unit) }
        ensures kept { Grows self.old self.new }
    {
        let (step, after) = self.layer_of(&front)?;
        let number = self.keep_layer(step, after)?;
        self.note(front, number)?;
        Ok(number)
    }

    /// The number of the step of a unit from the states of a list that has no hint. The step is made if there is none.
    #[inline(never)]
    fn step_without_hint(&mut self, front: StepKey) -> Result<u32, OutOfMemory>
        requires { front.list < length self.old.lists }
        ensures step { IfOk result (IsStepOf self.new front.list front.unit) }
        ensures kept { Grows self.old self.new }
    {
        if let Some((place, number)) = self.known_step(&front) {
            self.point_hint(&front, place);
            return Ok(number);
        }
        self.make(front)
    }

    /// The number of the step of a unit from the states of a list. The step is made if there is none.
    #[inline(always)]
    pub(crate) fn step(&mut self, list: u32, unit: &Unit) -> Result<u32, OutOfMemory>
        requires { list < length self.old.lists }
        ensures step { IfOk result (IsStepOf self.new list unit.now) }
        ensures kept { Grows self.old self.new }
    {
        if let Some(number) = self.hinted(list, unit) {
            return Ok(number);
        }
        self.step_without_hint(StepKey { list, unit: *unit })
    }

    /// Where the plain characters at the start of a text lead, as far as they are known to lead to one place, each with
    /// another one after it. They are more than one only if that place is the list itself.
    #[inline(always)]
    pub(crate) fn alike(&self, list: u32, kind: TextKind, text: &[u8]) -> Alike
        ensures within { result.count ≤ length text.now }
        ensures short { 0 < result.count → result.count < length text.now }
        ensures back { 1 < result.count → result.to.after ≡ list }
        ensures leads { All (Leads self.now list kind true result.to) (take result.count text.now) }
    {
        match row_of(self.text_rows.as_slice(), list, kind) {
            Some(row) => row.alike(text),
            None => none_alike(),
        }
    }

    /// Keeps where a character leads that another one follows, if no name for two code points starts with it.
    fn keep_text(
        &mut self,
        list: u32,
        kind: TextKind,
        c: char,
        to: Reached,
    ) -> Result<(), OutOfMemory>
        requires { c < 128 → Leads self.old list kind true to c }
        ensures { self.new ≡ self.old }
    {
        if c as u32 >= 128 {
            return Ok(());
        }
        keep(self.alloc, &mut self.text_rows, list, kind, c, to)
    }

    /// Keeps where the last character of a text leads.
    fn keep_last(
        &mut self,
        list: u32,
        kind: TextKind,
        c: char,
        to: Reached,
    ) -> Result<(), OutOfMemory>
        requires { c < 128 → Leads self.old list kind false to c }
        ensures { self.new ≡ self.old }
    {
        if c as u32 >= 128 {
            return Ok(());
        }
        keep(self.alloc, &mut self.last_rows, list, kind, c, to)
    }

    /// Where the step of a character leads from the states of a list, if `next` follows it in the same text.
    pub(crate) fn character_step(
        &mut self,
        list: u32,
        kind: TextKind,
        c: char,
        next: char,
    ) -> Result<Reached, OutOfMemory>
        requires { list < length self.old.lists }
        ensures step { IfOk result (λ to. IsStepOf self.new list (Character kind c (units.pair_of self.old.table.entries c (Some next)) true) to.number) }
        ensures after { IfOk result (λ to. to.after ≡ (made_at self.new to.number).after) }
        ensures kept { Grows self.old self.new }
    {
        let pair = self.pair_of(c, next);
        let unit = character_in_front(kind, c, pair);
        let number = self.step(list, &unit)?;
        let after = self.after(number);
        let to = Reached { number, after };
        if !self.is_lone(c) {
            return Ok(to);
        }
        self.keep_text(list, kind, c, to)?;
        Ok(to)
    }

    /// Where the step of the last character of a text leads from the states of a list, if it is kept.
    #[inline(always)]
    fn kept_last(&self, list: u32, kind: TextKind, c: char) -> Option<Reached>
        ensures { IfSome result (λ to. Leads self.now list kind false to c) }
    {
        let row = row_of(self.last_rows.as_slice(), list, kind)?;
        row.step(c)
    }

    /// Finds where the last character of a text leads as for any unit, and keeps it if there is room for it.
    #[inline(never)]
    fn found_last(&mut self, list: u32, kind: TextKind, c: char) -> Result<Reached, OutOfMemory>
        requires { list < length self.old.lists }
        ensures step { IfOk result (λ to. IsStepOf self.new list (Character kind c None false) to.number) }
        ensures after { IfOk result (λ to. to.after ≡ (made_at self.new to.number).after) }
        ensures kept { Grows self.old self.new }
    {
        let unit = Unit::Character {
            kind,
            c,
            pair: None,
            more: false,
        };
        let number = self.step(list, &unit)?;
        let after = self.after(number);
        let to = Reached { number, after };
        self.keep_last(list, kind, c, to)?;
        Ok(to)
    }

    /// Where the step of the last character of a text leads from the states of a list.
    #[inline(always)]
    pub(crate) fn last_step(
        &mut self,
        list: u32,
        kind: TextKind,
        c: char,
    ) -> Result<Reached, OutOfMemory>
        requires { list < length self.old.lists }
        ensures step { IfOk result (λ to. IsStepOf self.new list (Character kind c None false) to.number) }
        ensures after { IfOk result (λ to. to.after ≡ (made_at self.new to.number).after) }
        ensures kept { Grows self.old self.new }
    {
        if let Some(to) = self.kept_last(list, kind, c) {
            return Ok(to);
        }
        self.found_last(list, kind, c)
    }
}
