//! Tokens as polynomials and as monomials.
#![tactic(auto)]

mod error;
pub mod laws;
mod monomial;
mod operations;
mod reading;
mod setting;
mod sums;

pub use error::SyntaxError;
pub use monomial::read_mono;
pub use reading::read_poly;
