//! Polynomials of the free nonassociative algebra over a field of `p` elements, and what is built of them: linearized
//! identities, their instances and consequences. See Zhevlakov, Slinko, Shestakov and Shirshov, *Rings That Are Nearly
//! Associative*, chapter 1.
#![tactic(auto)]

pub mod laws;
mod lists;
mod normal;
mod poly;
mod rules;
mod runs;
mod substitution;
mod term;

pub use poly::Poly;
pub use rules::{Linear, Rules};
pub use term::Term;
