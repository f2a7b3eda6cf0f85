//! What the rules need from earlier events: those at the top, those directly in `html`, and the last one.
ghost use Rattle.std.specs.Prelude.{◌≡◌, [], ◌∷◌, List, Some, option_map};
ghost use Rattle.hm_base.specs.Walks.{Element, Event};
ghost use Rattle.hm_elements.specs.Paths.{is_in_svg};
ghost use Rattle.hm_elements.specs.Settled as settled;
ghost use Rattle.hm_elements.specs.Settled.{next_frame, next_top, starts_inner_root};
ghost use Rattle.hm_json_tree.specs.Breaks.{Past, first_past, frame_after, is_after_void, past_after, top_after};
ghost use Rattle.hm_json_tree.specs.Forms.{told};
ghost use Rattle.hm_json_tree.specs.Seen.{IsSeen, frame_of, top_of};

use crate::form::JsonEvent;
use crate::rules::is_foreign;
use crate::texts::is_blank;
use hm_elements::{is_root, is_void, same_name};
use hm_open_elements::OpenElements;

/// What there was at the top.
#[derive(Clone, Copy)]
pub(crate) enum Top {
    NoDoctype,
    NoHtml,
    AllThere,
}

/// What there was directly in `html`.
#[derive(Clone, Copy)]
pub(crate) enum Frame {
    NoHead,
    NoBody,
    HasBody,
}

/// What is kept of earlier events, beside the open elements.
#[derive(Clone, Copy)]
pub(crate) struct Seen {
    pub top: Top,
    pub frame: Frame,
    /// The event directly before is the start of a void element.
    pub void: bool,
    /// The event directly before is a text.
    pub text: bool,
}

impl Top {
    /// What there was at the top, with one more event. None if it isn't allowed there.
    pub(crate) fn after(self, path: &OpenElements, form: &JsonEvent<'_>) -> Option<Top>
        ensures { option_map top_of result ≡ top_after (top_of self) path.now (told path.now form.now) }
    {
        if path.len() == 0 {
            return self.next(form);
        }
        match form {
            JsonEvent::Doctype { .. } => None,
            _ => Some(self),
        }
    }

    /// As `after`, for an event while no element is open.
    fn next(self, form: &JsonEvent<'_>) -> Option<Top>
        ensures { option_map top_of result ≡ next_top (top_of self) (told [] form.now) }
    {
        match (self, form) {
            (_, JsonEvent::Comment { .. }) => Some(self),
            (Top::NoDoctype, JsonEvent::Doctype { .. }) => Some(Top::NoHtml),
            (Top::NoHtml, JsonEvent::Start { name, .. }) => if same_name(name, "html") {
                Some(Top::AllThere)
            } else {
                None
            },
            _ => None,
        }
    }
}

impl Frame {
    /// What there was directly in `html`, with one more event. None if it isn't allowed there.
    pub(crate) fn after(self, path: &OpenElements, form: &JsonEvent<'_>) -> Option<Frame>
        ensures { option_map frame_of result ≡ frame_after (frame_of self) path.now (told path.now form.now) }
    {
        match path.len() {
            0 => if starts_head_or_body(form) {
                None
            } else {
                Some(Frame::NoHead)
            },
            1 => self.next(path.is_in_svg(), form),
            _ => if starts_root(path.is_in_svg(), form) {
                None
            } else {
                Some(self)
            },
        }
    }

    /// As `after`, for an event directly in the outermost element. `svg` says whether that is one of SVG.
    fn next(self, svg: bool, form: &JsonEvent<'_>) -> Option<Frame>
        ensures { (m : Element) → svg ≡ m.foreign → option_map frame_of result ≡ next_frame (frame_of self) (told (m ∷ []) form.now) }
    {
        match (self, form) {
            (_, JsonEvent::Comment { .. }) => Some(self),
            (Frame::NoHead, JsonEvent::Start { name, .. }) => if !svg && same_name(name, "head") {
                Some(Frame::NoBody)
            } else {
                None
            },
            (Frame::NoBody, JsonEvent::Start { name, .. }) => if !svg && same_name(name, "body") {
                Some(Frame::HasBody)
            } else {
                None
            },
            (Frame::NoBody, JsonEvent::Text { text }) => if is_blank(text.as_bytes()) {
                Some(Frame::NoBody)
            } else {
                None
            },
            (Frame::HasBody, JsonEvent::End) => Some(Frame::HasBody),
            _ => None,
        }
    }
}

/// Whether this is the start of `head` or `body` while no element is open.
fn starts_head_or_body(form: &JsonEvent<'_>) -> bool
    ensures { result ≡ starts_inner_root (told [] form.now) }
{
    match form {
        JsonEvent::Start { name, .. } => same_name(name, "head") || same_name(name, "body"),
        _ => false,
    }
}

/// Whether this is the start of `html`, `head` or `body`. `svg` says whether the innermost element is one of SVG.
fn starts_root(svg: bool, form: &JsonEvent<'_>) -> bool
    ensures { (path : List Element) → svg ≡ is_in_svg path → result ≡ settled.starts_root (told path form.now) }
{
    match form {
        JsonEvent::Start { name, .. } => !svg && is_root(name),
        _ => false,
    }
}

impl Seen {
    /// There was no event yet.
    pub(crate) fn new() -> Seen
        ensures { IsSeen result first_past }
    {
        Seen {
            top: Top::NoDoctype,
            frame: Frame::NoHead,
            void: false,
            text: false,
        }
    }

    /// What is kept, with one more event.
    pub(crate) fn after(self, path: &OpenElements, form: &JsonEvent<'_>) -> Seen
        ensures { (p : Past) → IsSeen self p → p.path ≡ path.now → IsSeen result (past_after p (told path.now form.now)) }
    {
        Seen {
            top: self.top.after(path, form).unwrap_or(self.top),
            frame: self.frame.after(path, form).unwrap_or(self.frame),
            void: starts_void(path, form),
            text: matches!(form, JsonEvent::Text { .. }),
        }
    }
}

/// Whether this is the start of a void element.
fn starts_void(path: &OpenElements, form: &JsonEvent<'_>) -> bool
    ensures { result ≡ is_after_void (Some (told path.now form.now)) }
{
    match form {
        JsonEvent::Start { name, .. } => !is_foreign(path, name) && is_void(name),
        _ => false,
    }
}
