//! Derivations: proofs that a polynomial is a consequence of identities, and their judgement.
#![tactic(auto)]

mod check;
mod error;
pub mod laws;
mod line;
mod numbered;
mod tally;
mod types;
mod values;

pub use check::{check_claim, check_lines};
pub use error::DerivError;
pub use line::Line;
