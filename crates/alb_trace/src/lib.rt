//! What shows an answer: derivations out of the table of a relatively free algebra, of a product of two basis elements less its
//! entry, of a monomial less its value, and of a polynomial whose value is zero; and the table of the basis elements up to a
//! type, where the value is not zero.
#![tactic(auto)]

mod answers;
mod factors;
mod first;
mod ground;
mod instances;
pub mod laws;
mod lines;
mod origins;
mod products;
mod proving;
mod row_key;
mod sums;
mod trace;

pub use answers::{Deriver, derive, derive_entry, derive_monomial};
pub use proving::{Proof, prove};
