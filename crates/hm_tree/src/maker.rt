//! Making a tree, event by event.
ghost use Rattle.std.specs.Prelude.{◌≡◌, ◌<◌, [], ◌∷◌, ◌++◌, length, true, OnOk, OnErr};
ghost use Rattle.hm_base.specs.Walks.{start, doctype, comment, path_after, with_text};
ghost use Rattle.hm_tree.specs.Sources.{listed};
ghost use Rattle.hm_tree.specs.Trees.{HasRoom, IsBegun, end_of, last_agrees};
ghost use Rattle.hm_tree.specs.Views.{attributes_shown};

use crate::rows::Rows;
use crate::sources::AttributeSource;
use crate::{Attrs, AttrsView, Tree};
use hm_base::OutOfMemory;
use std::alloc::Global;
use std::marker::Model;

/// Makes a tree, event by event. Contracts see the list of its events so far.
#[derive(Drop)]
pub struct Maker {
    rows: Rows,
    parent: Option<u32>,
    depth: u32,
}

impl Model for Maker {
    ghost use Rattle.std.specs.Prelude.{List};
    ghost use Rattle.hm_base.specs.Walks.{Event};

    ghost Value = { List Event };

    ghost use Rattle.hm_tree.specs.Trees.{IsMaking};

    ghost view = { λ m. m.rows };

    ghost invariant = { λ m. IsMaking m.rows m.parent m.depth };
}

impl Maker {
    /// No events. It allocates nothing until one is added.
    pub(crate) fn new(alloc: Global) -> Maker
        ensures { result ≡ [] }
    {
        Maker {
            rows: Rows::new(alloc),
            parent: None,
            depth: 0,
        }
    }

    /// How many elements are open. Each end so far matches its start, names and texts are UTF-8, and
    /// there is room for the ends of the open elements.
    pub fn depth(&self) -> u32
        ensures depth { result ≡ length (path_after [] self.now) }
        ensures begun { IsBegun self.now }
    {
        // Asked only for its contract: what is true of each event of the table.
        let _len = self.rows.len();
        self.depth
    }

    /// Appends a doctype.
    pub fn doctype(&mut self, legacy: bool) -> Result<(), OutOfMemory>
        requires { HasRoom (self.old ++ doctype legacy ∷ []) }
        ensures ok { OnOk result (self.new ≡ self.old ++ doctype legacy ∷ []) }
        ensures err { OnErr result (self.new ≡ self.old) }
    {
        self.rows.push_doctype(legacy, self.parent)?;
        Ok(())
    }

    /// Appends the start of an element, which then is open. With more than 65,535 attributes it fails with
    /// `OutOfMemory`.
    pub fn start(&mut self, name: &str, foreign: bool, attrs: Attrs) -> Result<(), OutOfMemory>
        requires { HasRoom (self.old ++ start name.now foreign attrs ∷ []) }
        ensures ok { OnOk result (self.new ≡ self.old ++ start name.now foreign attrs ∷ []) }
        ensures err { OnErr result (self.new ≡ self.old) }
    {
        self.start_from(name, foreign, &attrs)
    }

    /// Appends the start of an element, as `start`. The attributes stay with the caller.
    pub fn start_from(
        &mut self,
        name: &str,
        foreign: bool,
        attrs: &Attrs,
    ) -> Result<(), OutOfMemory>
        requires { HasRoom (self.old ++ start name.now foreign attrs.now ∷ []) }
        ensures ok { OnOk result (self.new ≡ self.old ++ start name.now foreign attrs.now ∷ []) }
        ensures err { OnErr result (self.new ≡ self.old) }
    {
        self.start_of(name, foreign, &AttributeSource::Tag { attrs })
    }

    /// Appends the start of an element, as `start`, with the attributes of an element of another tree.
    pub fn start_as(
        &mut self,
        name: &str,
        foreign: bool,
        attrs: &AttrsView<'_>,
    ) -> Result<(), OutOfMemory>
        requires { HasRoom (self.old ++ start name.now foreign (attributes_shown attrs.now) ∷ []) }
        ensures ok { OnOk result (self.new ≡ self.old ++ start name.now foreign (attributes_shown attrs.now) ∷ []) }
        ensures err { OnErr result (self.new ≡ self.old) }
    {
        self.start_of(name, foreign, &AttributeSource::Element { attrs: *attrs })
    }

    /// Appends the start of an element, with attributes of either kind. With more than 65,535 it fails with
    /// `OutOfMemory`.
    #[inline(always)]
    fn start_of(
        &mut self,
        name: &str,
        foreign: bool,
        attrs: &AttributeSource<'_>,
    ) -> Result<(), OutOfMemory>
        requires { HasRoom (self.old ++ start name.now foreign (listed attrs.now) ∷ []) }
        ensures ok { OnOk result (self.new ≡ self.old ++ start name.now foreign (listed attrs.now) ∷ []) }
        ensures err { OnErr result (self.new ≡ self.old) }
    {
        let start = self.rows.len();
        self.rows.push_start(name, foreign, attrs, self.parent)?;
        self.parent = Some(start);
        self.depth += 1;
        Ok(())
    }

    /// Appends a text (HTML Standard, #creating-and-inserting-nodes). Directly after another text it becomes part of
    /// that one. An empty text adds nothing.
    pub fn text(&mut self, text: &str, raw: bool) -> Result<(), OutOfMemory>
        requires room { HasRoom (with_text self.old text.now raw) }
        requires same_raw { last_agrees self.old raw ≡ true }
        ensures ok { OnOk result (self.new ≡ with_text self.old text.now raw) }
        ensures err { OnErr result (self.new ≡ self.old) }
    {
        self.rows.put_text(text, raw, self.parent)?;
        Ok(())
    }

    /// Appends a comment.
    pub fn comment(&mut self, text: &str) -> Result<(), OutOfMemory>
        requires { HasRoom (self.old ++ comment text.now ∷ []) }
        ensures ok { OnOk result (self.new ≡ self.old ++ comment text.now ∷ []) }
        ensures err { OnErr result (self.new ≡ self.old) }
    {
        self.rows.push_comment(text, self.parent)?;
        Ok(())
    }

    /// Appends the end of the innermost open element. There is always room for it.
    #[inline(always)]
    pub fn end(&mut self) -> Result<(), OutOfMemory>
        requires { 0 < length (path_after [] self.old) }
        ensures ok { OnOk result (self.new ≡ self.old ++ end_of (path_after [] self.old)) }
        ensures err { OnErr result (self.new ≡ self.old) }
    {
        let start = self.parent.unwrap();
        let parent = self.rows.parent(start);
        self.rows.push_end(start)?;
        self.parent = parent;
        self.depth -= 1;
        Ok(())
    }

    /// The tree of these events. No element is open.
    pub fn finish(self) -> Tree
        requires { path_after [] self ≡ [] }
        ensures { result ≡ self }
    {
        Tree::of(self.rows.finish())
    }
}
