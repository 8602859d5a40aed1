//! Monomials, polynomials, types and numbers as text.
#![tactic(auto)]

mod behind;
pub mod laws;
mod mono;
mod multi;
mod number;
mod poly;

pub use mono::write_mono;
pub use multi::write_type;
pub use number::{write_count, write_named, write_number};
pub use poly::{write_later_coefficient, write_leading_coefficient, write_poly};
