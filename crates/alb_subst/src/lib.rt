//! What the block of a type is made of: its columns, the tuples of basis elements that an identity is tried at, and the rows of
//! the instances.
#![tactic(auto)]

mod columns;
mod error;
mod instances;
pub mod laws;
mod products;
mod range;
mod row;
mod sums;
mod tuples;

pub use columns::Columns;
pub use error::ColumnsStop;
pub use instances::Instances;
pub use products::count_of_type;
pub use row::row_of;
