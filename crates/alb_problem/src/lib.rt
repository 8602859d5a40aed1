//! Problems: a field, generators with their counts, and identities; how they are put together; and the laws that tie their
//! consequences to the textbook's.
#![tactic(auto)]

mod builder;
mod error;
mod generators;
pub mod laws;
mod problem;

pub use builder::{FinishError, ProblemBuilder};
pub use error::ProblemError;
pub use problem::Problem;
