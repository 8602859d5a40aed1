//! Combinations of indices with coefficients, as definitions and laws.
//!
//! A combination is a list of coefficients at indices, an index being a column, the number of a basis element or a
//! monomial. Polynomials, rows and vectors over a table are combinations. The definitions stand in `specs/Sums.antt`;
//! nothing here runs.
#![tactic(auto)]

pub mod laws;
