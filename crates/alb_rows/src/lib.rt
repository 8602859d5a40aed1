//! Rows of a matrix over a field, and the reduced form of their spans, as definitions and laws.
//!
//! A row is a list of cells, each a column with a residue that is not 0, ascending by column. Contracts see the list, and
//! read it as the vector of its entries. The definitions of spans, pivots and reduced forms stand in `specs/Span.antt`.
#![tactic(auto)]

pub mod laws;
mod merge;
mod row;
mod search;

pub use row::Row;
