//! Nonassociative monomials, their types, the order of both, and the letters of generators.
#![tactic(auto)]

mod error;
pub mod laws;
mod letters;
mod mono;
mod multi;
mod side;
mod types;

pub use error::NoMemory;
pub use letters::Letters;
pub use mono::Mono;
pub use multi::Multi;
pub use side::Side;
pub use types::{splits, types_of_degree};
