//! One whole run: the top call `run` over any files and any output, with its endings, lines and statuses.
#![tactic(auto)]

mod checked;
mod ended;
pub mod laws;
mod lines;
mod measured;
mod notices;
mod saved;
mod status;
mod top;
mod wanted;
mod work;

pub use status::Status;
pub use top::run;
