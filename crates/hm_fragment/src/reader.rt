//! Reads fragments.
ghost use Rattle.std.specs.Io.{StartsWith};
ghost use Rattle.std.specs.Prelude.{◌≡◌, ◌≤◌, length, IfOk, IfErr};
ghost use Rattle.hm_elements.specs.Settled.{Settled};
ghost use Rattle.hm_construction_laws.specs.Trees.{built};
ghost use Rattle.hm_build.specs.Parsing.{IsRefusedAs};
ghost use Rattle.hm_fragment.specs.Fragments.{fragment_tree, refusal_of};
ghost use Rattle.hm_fragment.specs.Frames as frames;
ghost use Rattle.hm_fragment.specs.Frames.{IsFramed, unframed};

use hm_base::{OUTPUT_LIMIT, Refused, Rule, SourceText};
use hm_build::parse_closed;
use hm_refs::Table;
use hm_refs::laws::every_table;
use hm_tree::Tree;
use std::alloc::Global;

/// The text that makes a page of a fragment after it.
const FRAGMENT_PREFIX: &str = "<!doctype html><body>";

/// The bytes of `<!doctype html><body>`, which a fragment is read after.
pub fn front() -> &'static [u8]
    ensures { result.now ≡ frames.front }
{
    FRAGMENT_PREFIX.as_bytes()
}

/// The refusal of a fragment whose page has this refusal. Its place is in bytes of the fragment, without `front()`.
fn refusal(refused: Refused) -> Refused
    ensures { result ≡ refusal_of refused }
{
    match refused {
        Refused::Page { rule, at } => Refused::Page {
            rule,
            at: at.saturating_sub(FRAGMENT_PREFIX.len() as u32),
        },
        Refused::OutOfMemory => Refused::OutOfMemory,
    }
}

/// Reads the tree of a fragment (#parsing-html-fragments), the content of `body` alone. `page` is `front()` and then
/// the fragment. Or gives the fragment's first refusal, with its rule and its byte of the fragment.
///
/// It is refused if the page is (#tree-construction), and else, by `FrameEnd`, at the first token that closes body
/// (#parsing-main-inbody, `</body>` and `</html>`). The page's memory is freed. Takes time linear in the page.
pub fn read_fragment(alloc: Global, page: Vec<u8>, table: &Table) -> Result<Tree, Refused>
    requires front { StartsWith page.items frames.front }
    requires short { length page.items ≤ OUTPUT_LIMIT }
    ensures built { IfOk result (λ tree. fragment_tree table.now.entries (unframed page.items) ≡ built tree) }
    ensures settled { IfOk result (λ tree. Settled tree) }
    ensures framed { IfOk result (λ tree. IsFramed tree) }
    ensures refused { IfErr result (IsRefusedAs (fragment_tree table.now.entries (unframed page.items))) }
{
    every_table(table);
    let text = match SourceText::take(alloc, page, OUTPUT_LIMIT) {
        Ok(text) => text,
        Err(fault) => return Err(refusal(fault.refusal(OUTPUT_LIMIT))),
    };
    let parsed = parse_closed(alloc, &text, table);
    text.release();
    match parsed {
        Ok((tree, closed)) => match closed {
            None => Ok(tree),
            Some(at) => Err(refusal(Refused::Page {
                rule: Rule::FrameEnd,
                at,
            })),
        },
        Err(refused) => Err(refusal(refused)),
    }
}
