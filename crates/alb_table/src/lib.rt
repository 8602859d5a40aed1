//! The table of a relatively free algebra: for each type up to a degree the basis elements, and for each product of two
//! basis elements its entry, a row over basis elements. A table is extended degree by degree. See Hentzel and Jacobs,
//! *A dynamic programming method for building free algebras*, Computers and Mathematics with Applications 22 (1991).
#![tactic(auto)]

mod build;
mod count;
mod end;
mod find;
mod grid;
mod held;
pub mod laws;
mod part;
mod store;
mod stored;
mod tables;
mod value;

pub use count::count_cells;
pub use end::BuildEnd;
pub use grid::Grid;
pub use held::Held;
pub use part::{Elem, Origin, Part};
pub use tables::Tables;
