//! Trees as walks: a tree and its maker, the attributes of a tag, and the tokens that the scans give.
#![tactic(auto)]

mod appended;
mod attrs;
mod attrs_view;
mod editor;
mod events;
mod maker;
mod names;
mod parent;
mod pieces;
mod rows;
mod shown;
mod sources;
mod starts;
mod table;
mod tokens;
mod tree;

pub use attrs::Attrs;
pub use attrs_view::AttrsView;
pub use editor::Editor;
pub use events::EventView;
pub use maker::Maker;
pub use tokens::{Lexeme, Placed, ScanFault, Spanned, Tag, Token};
pub use tree::Tree;
