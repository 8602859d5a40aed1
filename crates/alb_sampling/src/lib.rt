//! The mode `sample` of the program: many polynomials, made from a number, are answered by a table, and a line counts them.
#![tactic(auto)]

mod sample;

pub use sample::run_sample;
