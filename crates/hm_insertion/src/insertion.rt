//! Insertion modes, and what is open in `head`.

/// The elements of `head` that hold one text.
#[derive(Clone, Copy, PartialEq, Eq)]
pub(crate) enum HeadText {
    Title,
    Style,
    Script,
}

/// The insertion modes (HTML Standard, #the-insertion-mode), as far as they differ here. Before the body the mode also
/// says which elements are open.
#[derive(Clone, Copy, PartialEq, Eq)]
pub(crate) enum BuilderMode {
    Initial,
    BeforeHtml,
    BeforeHead,
    InHead {
        /// Whether `noscript` is open.
        noscript: bool,
        /// The innermost element, if it holds one text.
        text: Option<HeadText>,
    },
    AfterHead,
    InBody,
    AfterBody,
    AfterHtml,
}
