//! The state of a builder, and which elements are open.
ghost use Rattle.std.specs.Prelude.{◌≡◌, length};
ghost use Rattle.hm_elements.specs.Paths as paths;
ghost use Rattle.hm_insertion.specs.Inside.{inside_head, open_path, text_name};

use crate::insertion::{BuilderMode, HeadText};
use hm_base::OwnedText;
use hm_elements::is_raw;
use hm_open_elements::Path;
use hm_tree::Maker;

/// The state of a builder between two tokens. The open elements are those of the events so far.
#[derive(Drop)]
pub(crate) struct Parts {
    pub maker: Maker,
    pub insertion_mode: BuilderMode,
    /// The open elements of the body. Before the body is open: `html` and `body`.
    pub path: Path,
    /// Whether an LF is dropped if it comes next.
    pub drops_line_feed: bool,
    /// The comments after `</body>` and after `</html>`.
    pub comments_after_body: Vec<OwnedText>,
    pub comments_after_html: Vec<OwnedText>,
}

impl HeadText {
    /// The name of the element.
    pub(crate) fn name(self) -> &'static str
        ensures { result.now ≡ text_name self }
    {
        match self {
            HeadText::Title => "title",
            HeadText::Style => "style",
            HeadText::Script => "script",
        }
    }
}

/// The name of the innermost element, or no bytes if none is open.
pub(crate) fn current(insertion_mode: BuilderMode, path: &Path) -> &str
    ensures { result.now ≡ paths.current (open_path insertion_mode path.now) }
{
    match insertion_mode {
        BuilderMode::Initial | BuilderMode::BeforeHtml => "",
        BuilderMode::BeforeHead | BuilderMode::AfterHead => "html",
        BuilderMode::InHead { noscript, text } => current_in_head(noscript, text),
        BuilderMode::InBody | BuilderMode::AfterBody | BuilderMode::AfterHtml => path.current(),
    }
}

/// The name of the innermost element while `head` is open. `noscript` says whether it is open in `head`.
pub(crate) fn current_in_head(noscript: bool, text: Option<HeadText>) -> &'static str
    ensures { result.now ≡ paths.current (inside_head noscript text) }
{
    match text {
        Some(inner) => inner.name(),
        None => { if noscript { "noscript" } else { "head" } }
    }
}

/// How many elements are open.
pub(crate) fn depth(insertion_mode: BuilderMode, path: &Path) -> u32
    ensures { result ≡ length (open_path insertion_mode path.now) }
{
    match insertion_mode {
        BuilderMode::Initial | BuilderMode::BeforeHtml => 0,
        BuilderMode::BeforeHead | BuilderMode::AfterHead => 1,
        BuilderMode::InHead { noscript, text } => depth_in_head(noscript, text),
        BuilderMode::InBody | BuilderMode::AfterBody | BuilderMode::AfterHtml => path.len(),
    }
}

/// How many elements are open while `head` is open. `noscript` says whether it is open in `head`.
fn depth_in_head(noscript: bool, text: Option<HeadText>) -> u32
    ensures { result ≡ length (inside_head noscript text) }
{
    let outer = if noscript { 3 } else { 2 };
    match text {
        Some(_) => outer + 1,
        None => outer,
    }
}

/// Whether the innermost element is one of SVG.
pub(crate) fn is_in_svg(insertion_mode: BuilderMode, path: &Path) -> bool
    ensures { result ≡ paths.is_in_svg (open_path insertion_mode path.now) }
{
    matches!(
        insertion_mode,
        BuilderMode::InBody | BuilderMode::AfterBody | BuilderMode::AfterHtml
    ) && path.is_in_svg()
}

/// Whether the innermost element is one of HTML that holds one text and nothing else. It looks up no name.
pub(crate) fn is_in_text(insertion_mode: BuilderMode, path: &Path) -> bool
    ensures { result ≡ paths.is_in_text (open_path insertion_mode path.now) }
{
    match insertion_mode {
        BuilderMode::Initial
        | BuilderMode::BeforeHtml
        | BuilderMode::BeforeHead
        | BuilderMode::AfterHead => false,
        BuilderMode::InHead { text, .. } => text.is_some(),
        BuilderMode::InBody | BuilderMode::AfterBody | BuilderMode::AfterHtml => path.is_in_text(),
    }
}

/// Whether a text here is raw. It looks up only the name of an element that holds one text.
pub(crate) fn is_in_raw(insertion_mode: BuilderMode, path: &Path) -> bool
    ensures { result ≡ paths.is_in_raw (open_path insertion_mode path.now) }
{
    is_in_text(insertion_mode, path) && is_raw(current(insertion_mode, path))
}
