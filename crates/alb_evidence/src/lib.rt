//! Evidence for the answer to a claim: blocks of lines that are a derivation or a table.
#![tactic(auto)]

mod basis;
mod block;
mod derivation;
mod error;
mod evidence;
mod flaw;
mod inside;
pub mod laws;
mod lines;
mod pieces;
mod read;
mod said;
mod skip;
mod table;
mod words;

pub use basis::write_table;
pub use derivation::write_lines;
pub use error::{EvidenceError, SkipError};
pub use evidence::Evidence;
pub use read::read_evidence;
pub use skip::skip_evidence;
