//! Tables as evidence: finite algebras that satisfy identities and where a polynomial has a value that is not zero.
#![tactic(auto)]

mod check;
mod error;
pub mod laws;
mod product;
mod raw;
mod shape;
mod sub;
mod value;
mod walk;

pub use check::{Counter, check_table};
pub use error::TableError;
pub use raw::{RawEntry, RawTable};
pub use sub::sub_table;
