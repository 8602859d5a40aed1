//! The judgement of evidence: what the block of a claim says of it, and the line that tells it.
#![tactic(auto)]

mod judging;
pub mod laws;
mod verdict;
mod write;

pub use judging::{Judged, judge};
pub use verdict::{Rejection, Verdict};
pub use write::write_verdict;
