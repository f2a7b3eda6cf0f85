//! The tree of a page that is read in pieces.
ghost use Rattle.std.specs.Prelude.{◌≡◌, ◌≤◌, ◌+◌, ◌++◌, ℕ, List, [], None, Err, true, false, length, drop, map, IfOk, IfErr, OnOk, OnErr, IsCharBoundary};
ghost use Rattle.std.specs.Option.{option_or};
ghost use Rattle.hm_base.specs.Source.{byte_of};
ghost use Rattle.hm_elements.specs.Settled.{Settled};
ghost use Rattle.hm_construction_laws.specs.Trees.{built, mode_of};
ghost use Rattle.hm_decoder.specs.Pieces.{HasFed, before_text};
ghost use Rattle.hm_lexer.specs.Ready.{ready};
ghost use Rattle.hm_base.specs.Source.{PlacedByte};
ghost use Rattle.hm_build.specs.Feeding as feeding;
ghost use Rattle.hm_build.specs.Feeding.{Comes, Ends, EndsAs, HasCome, HasRead, StopsAs, page_outcome_within};
ghost use Rattle.hm_build.specs.Parsing.{IsRefusedAs, IsWithin, left_tree, reads};

use crate::page::parse_rest;
use crate::ready::part_turns;
use hm_base::{OUTPUT_LIMIT, OutOfMemory, Refused, Rule, SourceText};
use hm_decoder::TextPieces;
use hm_insertion::TreeBuilder;
use hm_lexer::Lexer;
use hm_refs::Table;
use hm_refs::laws::every_table;
use hm_tree::{Tag, Tree};
use std::alloc::Global;
use std::marker::Model;

/// Takes all ready tokens of a text, and returns how many bytes they have.
fn take_ready(
    alloc: Global,
    text: &SourceText,
    table: &Table,
    tree: &mut TreeBuilder,
    tag: &mut Tag,
) -> Result<u32, Refused>
    requires { IsWithin (before_text text.now) tree.old.walk tree.old.state }
    ensures inside { IfOk result (λ n. n ≤ length text.now.placed) }
    ensures boundary { IfOk result (λ n. IsCharBoundary (map byte_of text.now.placed) n) }
    ensures comes { IfOk result (λ n. Comes table.now.entries tree.old text.now.placed tree.new (drop n text.now.placed)) }
    ensures waits { IfOk result (λ n. ready table.now.entries (mode_of tree.new.state.path) (map byte_of (drop n text.now.placed)) ≡ false) }
    ensures within { IfOk result (λ n. IsWithin (before_text text.now + n) tree.new.walk tree.new.state) }
    ensures err { IfErr result (StopsAs table.now.entries tree.old text.now.placed) }
    ensures short { length text.now.placed ≤ text.now.end }
{
    every_table(table);
    let _text = text.text();
    let mut lexer = Lexer::new(text, table);
    let mut closed = None;
    match part_turns(alloc, text, &mut lexer, tree, tag, &mut closed) {
        Ok(()) => Ok(lexer.at()),
        Err(refused) => Err(refused),
    }
}

/// Drops all of the text.
fn drop_all(text: &mut TextPieces)
    ensures fed { (gone : List PlacedByte) (fed : List ℕ) → HasFed text.old gone fed → HasFed text.new (gone ++ text.old.source.placed) fed }
    ensures fault { text.new.fault ≡ text.old.fault }
    ensures limit { text.new.limit ≡ text.old.limit }
    ensures broken { text.new.is_broken ≡ text.old.is_broken }
    ensures empty { text.new.source.placed ≡ [] }
    ensures before { before_text text.old.source ≤ before_text text.new.source }
{
    let len = text.source().text().len() as u32;
    text.drop_front(len);
}

/// Ends a page, and returns its first refusal. `refused` is the first refusal of a token.
#[inline(always)]
fn take_end(
    text: &mut TextPieces,
    refused: Option<(Rule, u32)>,
    is_broken: bool,
) -> Result<(), Refused>
    ensures page { OnOk result (Ends text.old text.new) }
    ensures none { OnOk result (option_or text.new.fault refused ≡ None) }
    ensures limit { text.new.limit ≡ text.old.limit }
    ensures before { OnOk result (before_text text.old.source ≤ before_text text.new.source) }
    ensures err { IfErr result (EndsAs text.old text.new refused) }
    ensures sound { OnOk result (is_broken ≡ false) }
    ensures broken { is_broken ≡ true → result ≡ Err Refused.OutOfMemory }
{
    if is_broken {
        return Err(Refused::OutOfMemory);
    }
    match text.finish() {
        Ok(()) => {}
        Err(OutOfMemory) => return Err(Refused::OutOfMemory),
    }
    match text.fault().or(refused) {
        Some((rule, at)) => Err(Refused::Page { rule, at }),
        None => Ok(()),
    }
}

/// The tree of what was built so far and of the rest of the text, which is freed.
#[inline(always)]
fn build_rest(
    alloc: Global,
    text: TextPieces,
    table: &Table,
    tree: TreeBuilder,
    tag: Tag,
) -> Result<Tree, Refused>
    requires { IsWithin (before_text text.source) tree.walk tree.state }
    ensures built { IfOk result (λ built_tree. left_tree (reads table.now.entries text.source) tree ≡ built built_tree) }
    ensures refused { IfErr result (IsRefusedAs (left_tree (reads table.now.entries text.source) tree)) }
{
    let parsed = parse_rest(alloc, text.source(), table, tree, tag);
    text.release();
    match parsed {
        Ok((tree, _closed)) => Ok(tree),
        Err(refused) => Err(refused),
    }
}

/// Builds the tree of a page while it is read, piece by piece.
///
/// Contracts see the named character references, what is known of the page, what is built, and the first refusal of a
/// token. `feed` and `scan` take all ready tokens before they return, and drop their text. `gather` looks for no token,
/// so that a long one that is read in many pieces can be looked at less often.
#[derive(Drop)]
pub struct PageParser<'t> {
    text: TextPieces,
    table: &'t Table,
    tree: TreeBuilder,
    tag: Tag,
    /// The first refusal of a token.
    refused: Option<(Rule, u32)>,
    /// An allocation failed earlier.
    is_broken: bool,
    alloc: Global,
}

impl<'t> Model for PageParser<'t> {
    ghost use Rattle.hm_build.specs.Feeding.{Feeding, IsFeeding};

    ghost Value = { Feeding };

    ghost view = { λ b. record { names = b.table.now.entries; pieces = b.text; building = b.tree; refused = b.refused; is_broken = b.is_broken } };

    ghost invariant = { λ b. IsFeeding (record { names = b.table.now.entries; pieces = b.text; building = b.tree; refused = b.refused; is_broken = b.is_broken }) };
}

impl<'t> PageParser<'t> {
    /// Nothing is read yet. At most `limit` bytes of the page may follow.
    pub fn new(alloc: Global, table: &'t Table, limit: u32) -> Result<PageParser<'t>, OutOfMemory>
        requires { limit ≤ OUTPUT_LIMIT }
        ensures read { IfOk result (λ builder. HasRead builder []) }
        ensures names { IfOk result (λ builder. builder.names ≡ table.now.entries) }
        ensures limit { IfOk result (λ builder. builder.pieces.limit ≡ limit) }
        ensures sound { IfOk result (λ builder. builder.is_broken ≡ false) }
    {
        let text = TextPieces::new(alloc, limit);
        let tree = match TreeBuilder::new(alloc) {
            Ok(tree) => tree,
            Err(OutOfMemory) => return Err(OutOfMemory),
        };
        Ok(PageParser {
            text,
            table,
            tree,
            tag: Tag::new(alloc),
            refused: None,
            is_broken: false,
            alloc,
        })
    }

    /// Reads the next bytes of the page. Their ready tokens are taken by `scan`.
    ///
    /// After a failed allocation each later call fails too.
    pub fn gather(&mut self, piece: &[u8]) -> Result<(), OutOfMemory>
        ensures come { OnOk result ((fed : List ℕ) → HasCome self.old fed → HasCome self.new (fed ++ piece.now)) }
        ensures building { self.new.building ≡ self.old.building }
        ensures refused { self.new.refused ≡ self.old.refused }
        ensures names { self.new.names ≡ self.old.names }
        ensures limit { self.new.pieces.limit ≡ self.old.pieces.limit }
        ensures sound { OnOk result ((self.old.is_broken ≡ false) × (self.new.is_broken ≡ false)) }
        ensures err { OnErr result (self.new.is_broken ≡ true) }
    {
        if self.is_broken {
            return Err(OutOfMemory);
        }
        self.is_broken = true;
        self.text.feed(piece)?;
        if self.refused.is_some() || self.text.fault().is_some() {
            drop_all(&mut self.text);
            self.is_broken = false;
            return Ok(());
        }
        self.is_broken = false;
        Ok(())
    }

    /// Takes all ready tokens of the bytes so far, and drops their text.
    ///
    /// After a failed allocation each later call fails too.
    pub fn scan(&mut self) -> Result<(), OutOfMemory>
        ensures read { OnOk result ((fed : List ℕ) → HasCome self.old fed → HasRead self.new fed) }
        ensures names { self.new.names ≡ self.old.names }
        ensures limit { self.new.pieces.limit ≡ self.old.pieces.limit }
        ensures sound { OnOk result ((self.old.is_broken ≡ false) × (self.new.is_broken ≡ false)) }
        ensures err { OnErr result (self.new.is_broken ≡ true) }
    {
        if self.is_broken {
            return Err(OutOfMemory);
        }
        if self.refused.is_some() || self.text.fault().is_some() {
            return Ok(());
        }
        self.is_broken = true;
        match take_ready(
            self.alloc,
            self.text.source(),
            self.table,
            &mut self.tree,
            &mut self.tag,
        ) {
            Ok(len) => {
                self.text.drop_front(len);
                self.is_broken = false;
                return Ok(());
            }
            Err(Refused::Page { rule, at }) => {
                self.refused = Some((rule, at));
                drop_all(&mut self.text);
                self.is_broken = false;
                return Ok(());
            }
            Err(Refused::OutOfMemory) => return Err(OutOfMemory),
        }
    }

    /// Reads the next bytes of the page, and takes all ready tokens.
    ///
    /// After a failed allocation each later call fails too.
    pub fn feed(&mut self, piece: &[u8]) -> Result<(), OutOfMemory>
        ensures read { OnOk result ((fed : List ℕ) → HasCome self.old fed → HasRead self.new (fed ++ piece.now)) }
        ensures names { self.new.names ≡ self.old.names }
        ensures limit { self.new.pieces.limit ≡ self.old.pieces.limit }
        ensures sound { OnOk result ((self.old.is_broken ≡ false) × (self.new.is_broken ≡ false)) }
        ensures err { OnErr result (self.new.is_broken ≡ true) }
    {
        match self.gather(piece) {
            Ok(()) => self.scan(),
            Err(OutOfMemory) => Err(OutOfMemory),
        }
    }

    /// Ends the page, and returns its tree or its first refusal, with its rule and its byte of the page.
    ///
    /// A page that is too long, isn't UTF-8 or has a zero byte is refused for that, whatever its tokens are.
    pub fn end(self) -> Result<Tree, Refused>
        ensures built { IfOk result (λ tree. (page : List ℕ) → HasCome self.entry page → page_outcome_within self.entry.pieces.limit self.entry.names page ≡ built tree) }
        ensures settled { IfOk result (λ tree. (page : List ℕ) → HasCome self.entry page → Settled tree) }
        ensures refused { IfErr result (λ refused. (page : List ℕ) → HasCome self.entry page → IsRefusedAs (page_outcome_within self.entry.pieces.limit self.entry.names page) refused) }
        ensures broken { self.entry.is_broken ≡ true → result ≡ Err Refused.OutOfMemory }
    {
        every_table(self.table);
        let PageParser {
            text,
            table,
            tree,
            tag,
            refused,
            is_broken,
            alloc,
        } = self;
        let mut text = text;
        match take_end(&mut text, refused, is_broken) {
            Ok(()) => build_rest(alloc, text, table, tree, tag),
            Err(refused) => Err(refused),
        }
    }

    /// How many elements are open after all ready tokens of the bytes so far. 0 if the page is already refused.
    pub fn depth(&self) -> u32
        ensures { (fed : List ℕ) → HasRead self.now fed → result ≡ feeding.depth self.now.names self.now.pieces.limit fed }
    {
        if self.refused.is_some() || self.text.fault().is_some() {
            return 0;
        }
        self.tree.depth()
    }

    /// How many bytes of the text are kept, since they aren't ready. 0 if the page is already refused.
    pub fn kept(&self) -> u32
        ensures { (fed : List ℕ) → HasRead self.now fed → result ≡ feeding.kept self.now.names self.now.pieces.limit fed }
    {
        self.text.source().text().len() as u32
    }
}
