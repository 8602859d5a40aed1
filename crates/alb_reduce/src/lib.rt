//! The reduced form of a list of rows, with recipes.
//!
//! Rows are offered one by one to an `Echelon`, which keeps them fully reduced. `Reduced` has the pivots and the rows of
//! the reduced form, and on demand for each row its recipe: how it is a combination of the offered rows. Column 0 is the
//! greatest, so the lead of a row is its least column.
#![tactic(auto)]

mod drops;
mod echelon;
mod kept;
mod lanes;
pub mod laws;
mod order;
mod places;
mod recipes;
mod reduced;
mod steps;

pub use echelon::{Echelon, Offered};
pub use reduced::Reduced;
