//! All rewrites in their order.
ghost use Rattle.std.specs.Prelude.{◌≡◌, true, IfOk};
ghost use Rattle.hm_elements.specs.Settled.{Settled};
ghost use Rattle.hm_options.specs.Passes.{all_but_space};
ghost use Rattle.hm_options.specs.Rewrites as rewrites;
ghost use Rattle.hm_options.specs.Rewrites.{where_set};
ghost use Rattle.hm_options.specs.Space.{collapsed};

use crate::collapse;
use crate::rules::rewritten;
use hm_base::{OutOfMemory, TreeOptions};
use hm_tree::Tree;
use std::alloc::Global;

/// The tree rewritten by the options. It is returned unchanged if no option is set.
pub fn rewrite(alloc: Global, tree: Tree, options: &TreeOptions) -> Result<Tree, OutOfMemory>
    ensures ok { IfOk result (λ made. made ≡ rewrites.rewrite options.now tree) }
    ensures settled { Settled tree → IfOk result (λ made. Settled made) }
{
    let tree = by_events(alloc, tree, options)?;
    let tree = by_space(alloc, tree, options.space, options.conservative)?;
    Ok(tree)
}

/// All rewrites but that of whitespace, in one pass.
fn by_events(alloc: Global, tree: Tree, options: &TreeOptions) -> Result<Tree, OutOfMemory>
    ensures { IfOk result (λ made. made ≡ all_but_space options.now tree) }
{
    if options.doctype
        || options.comments
        || options.booleans
        || options.empty
        || options.redundant
    {
        // Asked only for its contract: no two texts are neighbours.
        tree.len();
        let made = rewritten(alloc, tree, options)?;
        Ok(made)
    } else {
        Ok(tree)
    }
}

/// The rewrite of whitespace, if it is set.
fn by_space(alloc: Global, tree: Tree, set: bool, conservative: bool) -> Result<Tree, OutOfMemory>
    ensures { IfOk result (λ made. made ≡ where_set set (collapsed conservative) tree) }
{
    if set {
        collapse(alloc, tree, conservative)
    } else {
        Ok(tree)
    }
}
