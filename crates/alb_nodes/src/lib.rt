//! Monomials by numbers: each different monomial has one number, and a product is found by the numbers of its factors.
#![tactic(auto)]

mod node;
mod numbers;

pub use node::Node;
pub use numbers::Numbers;
