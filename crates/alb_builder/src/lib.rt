//! The building of a table that is published while it grows, degree by degree.
#![tactic(auto)]

mod build;
mod next;

pub use build::build_on_board;
