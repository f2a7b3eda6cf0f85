//! Reads one construct of a page at a place of its text: a comment, a doctype, a CDATA section, raw text, a script, a
//! tag, or a piece of text with its character references.
//!
//! A scan returns what it read and the place after it, in bytes of the text, or why it read nothing.
#![tactic(auto)]

mod attribute;
mod collected;
mod comments;
mod doctypes;
pub mod mark_laws;
mod names;
mod plain_text;
mod raw_texts;
mod scripts;
mod search;
mod tag;
mod tag_begins;
mod tag_body;
pub mod tag_laws;
mod tag_parts;
mod tag_runs;
mod text;
mod values;

pub use comments::{begins_cdata, begins_comment, scan_cdata, scan_comment};
pub use doctypes::{begins_doctype, scan_doctype};
pub use names::is_tag_name;
pub use raw_texts::{end_tag_place, scan_raw};
pub use scripts::{scan_script, script_end};
pub use tag::{scan_tag, scan_tag_into};
pub use tag_begins::begins_tag;
pub use text::{begins_markup, scan_text};
