//! A builder that looks for ready tokens at growing intervals.
ghost use Rattle.std.specs.Prelude.{◌≡◌, ◌≤◌, ◌++◌, ℕ, List, [], IfOk, IfErr, OnOk};
ghost use Rattle.hm_elements.specs.Settled.{Settled};
ghost use Rattle.hm_build.specs.Trees.{built};
ghost use Rattle.hm_build.specs.Feeding.{page_outcome_within};
ghost use Rattle.hm_build.specs.Parsing.{IsRefusedAs};
ghost use Rattle.hm_page_loading.specs.Spacing.{HasTaken, IsSpaced};

use hm_base::{OUTPUT_LIMIT, OutOfMemory, Refused};
use hm_build::PageParser;
use hm_refs::Table;
use hm_tree::Tree;
use std::alloc::Global;
use std::marker::Model;

/// A scan waits until this many times the kept bytes have been read.
const SPACING: usize = 3;

/// Builds the tree of a page from its bytes, and scans them at growing intervals.
///
/// Each scan reads again what is kept, the start of an incomplete token. So it waits until three times as many bytes
/// have been read. For a page of n bytes, at most n / 3 bytes are read again before the last scan, whatever its tokens
/// and its pieces are. At the end what is kept is read once or twice more.
#[derive(Drop)]
pub struct SpacedBuilder<'t> {
    builder: PageParser<'t>,
    /// How many bytes of the text were kept by the last scan.
    kept: u32,
    /// How many bytes of the page were read since then.
    since: usize,
}

impl<'t> Model for SpacedBuilder<'t> {
    ghost use Rattle.hm_page_loading.specs.Spacing.{IsSpacedWithin, Spaced};

    ghost Value = { Spaced };

    ghost view = { λ s. record { feeding = s.builder; kept = s.kept; since = s.since } };

    ghost invariant = { λ s. IsSpacedWithin (record { feeding = s.builder; kept = s.kept; since = s.since }) };
}

impl<'t> SpacedBuilder<'t> {
    /// Nothing is read yet. At most `limit` bytes of the page may follow.
    pub fn new(
        alloc: Global,
        table: &'t Table,
        limit: u32,
    ) -> Result<SpacedBuilder<'t>, OutOfMemory>
        requires { limit ≤ OUTPUT_LIMIT }
        ensures taken { IfOk result (λ builder. HasTaken builder []) }
        ensures names { IfOk result (λ builder. builder.feeding.names ≡ table.now.entries) }
        ensures limit { IfOk result (λ builder. builder.feeding.pieces.limit ≡ limit) }
    {
        let builder = PageParser::new(alloc, table, limit)?;
        let kept = builder.kept();
        Ok(SpacedBuilder {
            builder,
            kept,
            since: 0,
        })
    }

    /// Reads the next bytes of the page, and takes the ready tokens once enough bytes were read.
    pub fn take(&mut self, piece: &[u8]) -> Result<(), OutOfMemory>
        ensures taken { OnOk result ((taken : List ℕ) → HasTaken self.old taken → HasTaken self.new (taken ++ piece.now)) }
        ensures spaced { OnOk result (IsSpaced self.new) }
        ensures names { self.new.feeding.names ≡ self.old.feeding.names }
        ensures limit { self.new.feeding.pieces.limit ≡ self.old.feeding.pieces.limit }
    {
        let left = SPACING * self.kept as usize - self.since;
        self.builder.gather(piece)?;
        if piece.len() < left {
            self.since += piece.len();
            return Ok(());
        }
        self.builder.scan()?;
        self.since = 0;
        self.kept = self.builder.kept();
        Ok(())
    }

    /// The tree of the page, of which all bytes were taken, or its first refusal, with its rule and its byte of the page.
    pub fn end(self) -> Result<Tree, Refused>
        ensures built { IfOk result (λ tree. (page : List ℕ) → HasTaken self.entry page → page_outcome_within self.entry.feeding.pieces.limit self.entry.feeding.names page ≡ built tree) }
        ensures settled { IfOk result (λ tree. (page : List ℕ) → HasTaken self.entry page → Settled tree) }
        ensures refused { IfErr result (λ refused. (page : List ℕ) → HasTaken self.entry page → IsRefusedAs (page_outcome_within self.entry.feeding.pieces.limit self.entry.feeding.names page) refused) }
    {
        let SpacedBuilder {
            builder,
            kept: _,
            since: _,
        } = self;
        builder.end()
    }
}
