//! The outside of hminify: stores of files and sinks of bytes, by what is known of them.
//!
//! `Store` and `Sink` are what the program asks of the outside. `load` and `write_file` read and write
//! a whole file. `MemStore` and `MemSink` keep bytes in memory and fail at listed calls. `FileStore` and
//! `WriteSink` are the trusted edge to the files and the output of the system.
#![tactic(auto)]

mod calls;
mod faults;
mod file_table;
mod mem_sink;
mod mem_store;
mod outside;
mod tears;
mod traits;
mod whole_files;

pub use mem_sink::MemSink;
pub use mem_store::MemStore;
pub use outside::{FileStore, WriteSink};
pub use traits::{Failed, PIECE_SIZE, Sink, Store};
pub use whole_files::{LoadFault, load, load_over, load_with_prefix, write_file};
