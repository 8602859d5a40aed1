//! A large input made from a number: polynomials about the free alternative algebra with two generators, each drawn by a
//! generator of numbers, and how many of them are answered zero.
#![tactic(auto)]

mod choice;
mod draws;
mod element;
pub mod laws;
mod polynomial;
mod rules;
mod tally;
mod values;

pub use draws::Draws;
pub use polynomial::sample_poly;
pub use rules::sample_rules;
pub use tally::{Tally, count_answers};
