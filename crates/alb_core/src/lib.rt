//! The machine of a build as plain data: workers take and give the blocks of a degree, the builder publishes degrees and keeps
//! an end, and sessions ask. Its events come in any order, so what holds of all its runs holds of all interleavings of threads.
#![tactic(auto)]

mod event;
pub mod laws;
mod machine;

pub use event::{Cell, Ended, Event, Reply};
pub use machine::State;
