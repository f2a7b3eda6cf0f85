//! The text of a certificate: how prices of layers are written and read. It knows nothing of graphs.
#![tactic(auto)]

mod certificate;
mod hundreds;
mod kept;
pub mod laws;
mod leading;
mod lines;
mod prices;
mod reversed;
mod short;
mod text;

pub use certificate::Certificate;
pub use kept::{RowPlace, WrittenRows};
pub use lines::{CertificateFault, Head, Lines, read_head};
pub use prices::{INFINITE, Prices, add_each, more, price_of};
pub use reversed::ReversedText;
pub use text::{put_head, put_line, write_certificate};
