//! Events as a tree shows them.
ghost use Rattle.std.specs.Prelude.{◌≡◌, ◌↔◌, IsTrue};
ghost use Rattle.hm_base.specs.Walks as walks;
ghost use Rattle.hm_tree.specs.Views.{event_of, attributes_shown};

use crate::AttrsView;

/// One event of a tree. A void element is a start directly before its end.
#[derive(Clone, Copy)]
pub enum EventView<'t> {
    Doctype {
        legacy: bool,
    },
    Start {
        name: &'t str,
        foreign: bool,
        attrs: AttrsView<'t>,
    },
    Text {
        text: &'t str,
        raw: bool,
    },
    Comment {
        text: &'t str,
    },
    End {
        name: &'t str,
        foreign: bool,
    },
}

impl EventView<'_> {
    /// Whether both views show the same event.
    pub fn same(&self, other: &EventView<'_>) -> bool
        ensures { IsTrue result ↔ (event_of self.now ≡ event_of other.now) }
    {
        match self {
            EventView::Doctype { legacy } => other.is_doctype(*legacy),
            EventView::Start {
                name,
                foreign,
                attrs,
            } => other.is_start(name, *foreign, attrs),
            EventView::Text { text, raw } => other.is_text(text, *raw),
            EventView::Comment { text } => other.is_comment(text),
            EventView::End { name, foreign } => other.is_end(name, *foreign),
        }
    }

    /// Whether this is a doctype with this value of `legacy`.
    fn is_doctype(&self, legacy: bool) -> bool
        ensures { IsTrue result ↔ (event_of self.now ≡ walks.doctype legacy) }
    {
        match self {
            EventView::Doctype { legacy: mine } => *mine == legacy,
            _ => false,
        }
    }

    /// Whether this is a start with this name and these attributes. `foreign` is true in SVG.
    fn is_start(&self, name: &str, foreign: bool, attrs: &AttrsView<'_>) -> bool
        ensures { IsTrue result ↔ (event_of self.now ≡ walks.start name.now foreign (attributes_shown attrs.now)) }
    {
        match self {
            EventView::Start {
                name: mine,
                foreign: in_svg,
                attrs: own,
            } => *mine == name && *in_svg == foreign && own.same(attrs),
            _ => false,
        }
    }

    /// Whether this is a text with these bytes. `raw` is true in elements whose text has no character references.
    fn is_text(&self, text: &str, raw: bool) -> bool
        ensures { IsTrue result ↔ (event_of self.now ≡ walks.text text.now raw) }
    {
        match self {
            EventView::Text {
                text: mine,
                raw: is_raw,
            } => *mine == text && *is_raw == raw,
            _ => false,
        }
    }

    /// Whether this is a comment with this text.
    fn is_comment(&self, text: &str) -> bool
        ensures { IsTrue result ↔ (event_of self.now ≡ walks.comment text.now) }
    {
        match self {
            EventView::Comment { text: mine } => *mine == text,
            _ => false,
        }
    }

    /// Whether this is an end with this name. `foreign` is true in SVG.
    fn is_end(&self, name: &str, foreign: bool) -> bool
        ensures { IsTrue result ↔ (event_of self.now ≡ walks.end name.now foreign) }
    {
        match self {
            EventView::End {
                name: mine,
                foreign: in_svg,
            } => *mine == name && *in_svg == foreign,
            _ => false,
        }
    }
}
