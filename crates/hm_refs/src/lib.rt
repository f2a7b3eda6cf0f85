//! Character references: the table of names with its trie, the code points of numeric references, and reading a
//! reference.
#![tactic(auto)]

mod fault;
mod firsts;
mod ids;
mod index;
pub mod laws;
mod limits;
mod nodes;
mod numbers;
mod ordered;
mod plain;
mod reading;
mod ready;
mod scan;
mod table;
mod text;
mod trie;

pub use fault::TableFault;
pub use ids::{NameId, Node};
pub use limits::{ALIKE_LIMIT, LENGTH_LIMIT, NAMES_LIMIT, OPEN_LIMIT};
pub use numbers::{best_number, number_value};
pub use ready::{ReadyIndex, ReadyNames, ReadyNodes};
pub use scan::{Reference, blocks, is_closed, read_reference};
pub use table::Table;
