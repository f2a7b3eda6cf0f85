//! Builds a tree from tokens.
ghost use Rattle.std.specs.Prelude.{◌≡◌, ◌^◌, ◌<◌, false, length, IfOk};
ghost use Rattle.hm_construction_laws.specs.Closing as closing;
ghost use Rattle.hm_construction_laws.specs.Steps.{step, step_over};
ghost use Rattle.hm_elements.specs.Paths as paths;
ghost use Rattle.hm_tree.specs.Tokens as tokens;
ghost use Rattle.hm_tree.specs.Tokens.{points_of};
ghost use Rattle.hm_insertion.specs.Building.{Builds, Answers, Fits, first_building};

use crate::BuildFault;
use crate::insertion::BuilderMode;
use crate::parts::{Parts, current, depth, is_in_svg, is_in_text};
use hm_base::{OutOfMemory, Points};
use hm_open_elements::Path;
use hm_tree::{Attrs, Tree};
use std::alloc::Global;
use std::marker::Model;

/// Builds a tree, token by token (HTML Standard, #tree-construction). Contracts see the state of tree construction and
/// the events so far.
#[derive(Drop)]
pub struct TreeBuilder {
    parts: Parts,
    /// A token was refused, or an allocation failed. No token is taken any more.
    is_broken: bool,
}

impl Model for TreeBuilder {
    ghost use Rattle.hm_insertion.specs.Building.{Builds, Answers, Building};

    ghost Value = { Building };

    ghost use Rattle.hm_insertion.specs.Inside.{IsSound, Takes, building_of};

    ghost view = { λ b. building_of b.parts };

    ghost invariant = { λ b. IsSound b.is_broken b.parts };
}

impl TreeBuilder {
    /// No token was taken yet.
    pub fn new(alloc: Global) -> Result<TreeBuilder, OutOfMemory>
        ensures { IfOk result (λ builder. builder ≡ first_building) }
    {
        let parts = Parts {
            maker: Tree::maker(alloc),
            insertion_mode: BuilderMode::Initial,
            path: Path::new(alloc)?,
            drops_line_feed: false,
            comments_after_body: Vec::new(alloc),
            comments_after_html: Vec::new(alloc),
        };
        Ok(TreeBuilder {
            parts,
            is_broken: false,
        })
    }

    /// Whether the innermost open element is one of SVG.
    pub fn is_in_svg(&self) -> bool
        ensures { result ≡ paths.is_in_svg self.now.state.path }
    {
        is_in_svg(self.parts.insertion_mode, &self.parts.path)
    }

    /// Whether the innermost open element is one of HTML that holds one text and nothing else. It looks up no name.
    pub fn is_in_text(&self) -> bool
        ensures { result ≡ paths.is_in_text self.now.state.path }
    {
        is_in_text(self.parts.insertion_mode, &self.parts.path)
    }

    /// How many elements are open.
    pub fn depth(&self) -> u32
        ensures { result ≡ length self.now.state.path }
    {
        depth(self.parts.insertion_mode, &self.parts.path)
    }

    /// The name of the innermost open element, or no bytes if none is open.
    pub fn current(&self) -> &str
        ensures { result.now ≡ paths.current self.now.state.path }
    {
        current(self.parts.insertion_mode, &self.parts.path)
    }

    /// Whether `body` is closed, so that only whitespace, comments and `</html>` may follow (#parsing-main-afterbody).
    pub fn is_after_body(&self) -> bool
        ensures { result ≡ closing.is_after_body self.now.state.insertion_mode }
    {
        matches!(
            self.parts.insertion_mode,
            BuilderMode::AfterBody | BuilderMode::AfterHtml
        )
    }

    /// Takes a doctype (#the-initial-insertion-mode). After any fault, each later call of any method fails with
    /// `OutOfMemory`.
    pub fn doctype(&mut self, legacy: bool) -> Result<(), BuildFault>
        requires { Fits (step self.old.state (tokens.doctype legacy)) self.old.walk }
        ensures { Answers (step self.old.state (tokens.doctype legacy)) result self.old self.new }
    {
        if self.is_broken {
            return Err(BuildFault::OutOfMemory);
        }
        self.is_broken = true;
        self.parts.doctype(legacy)?;
        self.is_broken = false;
        Ok(())
    }

    /// Takes a start tag (#parsing-main-inhtml). None may come inside an element that holds one text.
    #[inline(always)]
    pub fn start_tag(
        &mut self,
        alloc: Global,
        name: &str,
        attrs: &Attrs,
        slash: bool,
    ) -> Result<(), BuildFault>
        requires not_text { paths.is_in_text self.old.state.path ≡ false }
        requires room { Fits (step self.old.state (tokens.start_tag name.now attrs.now slash)) self.old.walk }
        ensures { Answers (step self.old.state (tokens.start_tag name.now attrs.now slash)) result self.old self.new }
    {
        if self.is_broken {
            return Err(BuildFault::OutOfMemory);
        }
        self.is_broken = true;
        self.parts.start_tag(alloc, name, attrs, slash)?;
        self.is_broken = false;
        Ok(())
    }

    /// Takes an end tag (#parsing-main-inhtml).
    #[inline(always)]
    pub fn end_tag(&mut self, alloc: Global, name: &str) -> Result<(), BuildFault>
        requires { Fits (step self.old.state (tokens.end_tag name.now)) self.old.walk }
        ensures { Answers (step self.old.state (tokens.end_tag name.now)) result self.old self.new }
    {
        if self.is_broken {
            return Err(BuildFault::OutOfMemory);
        }
        self.is_broken = true;
        self.parts.end_tag(alloc, name)?;
        self.is_broken = false;
        Ok(())
    }

    /// Takes a text of fewer than 2^32 bytes, in which no character reference is read (#parsing-main-inhtml).
    #[tactic(auto, unfolding(hm_construction_laws::specs::Steps::step))]
    pub fn text(&mut self, alloc: Global, text: &str) -> Result<(), BuildFault>
        requires short { length text.now < 2 ^ 32 }
        requires room { Fits (step self.old.state (tokens.slice text.now)) self.old.walk }
        ensures { Answers (step self.old.state (tokens.slice text.now)) result self.old self.new }
    {
        if self.is_broken {
            return Err(BuildFault::OutOfMemory);
        }
        self.is_broken = true;
        self.parts.text(alloc, text)?;
        self.is_broken = false;
        Ok(())
    }

    /// Takes a comment (#parsing-main-inhtml).
    pub fn comment(&mut self, alloc: Global, text: &str) -> Result<(), BuildFault>
        requires { Fits (step self.old.state (tokens.comment text.now)) self.old.walk }
        ensures { Answers (step self.old.state (tokens.comment text.now)) result self.old self.new }
    {
        if self.is_broken {
            return Err(BuildFault::OutOfMemory);
        }
        self.is_broken = true;
        self.parts.comment(alloc, text)?;
        self.is_broken = false;
        Ok(())
    }

    /// Takes the code points of a character reference (#parsing-main-inhtml). A refusal is at the start of the
    /// reference.
    pub fn points(&mut self, alloc: Global, points: Points) -> Result<(), BuildFault>
        requires { Fits (step self.old.state (tokens.points (points_of points))) self.old.walk }
        ensures { Answers (step self.old.state (tokens.points (points_of points))) result self.old self.new }
    {
        if self.is_broken {
            return Err(BuildFault::OutOfMemory);
        }
        self.is_broken = true;
        self.parts.points(alloc, points)?;
        self.is_broken = false;
        Ok(())
    }

    /// Ends the page: makes what is missing, closes all elements, and returns the tree (#parsing-main-inhtml,
    /// #the-end).
    pub fn finish(self, alloc: Global) -> Result<Tree, BuildFault>
        requires { Fits (step_over self.state) self.walk }
        ensures { Builds (step_over self.state) result self.walk }
    {
        let TreeBuilder { parts, is_broken } = self;
        if is_broken {
            return Err(BuildFault::OutOfMemory);
        }
        parts.finish(alloc)
    }
}
