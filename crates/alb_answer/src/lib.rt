//! The lines that answer questions: about polynomials, about the building of a table, and about its types and products.
#![tactic(auto)]

mod answer;
mod products;

pub use answer::{write_answer, write_built};
pub use products::{write_dimensions, write_products};
