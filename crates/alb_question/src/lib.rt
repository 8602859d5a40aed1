//! Questions about an accepted problem, what is found for them by a right table, and how it prints. Nothing here knows of scripts.
#![tactic(auto)]

mod answering;
mod finding;
pub mod laws;
mod question;
mod topic;
mod write;

pub use answering::{answer_question, build_topic};
pub use finding::Finding;
pub use question::Question;
pub use topic::Topic;
pub use write::{write_finding, write_topic};
