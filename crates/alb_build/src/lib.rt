//! Growing a table of a relatively free algebra degree by degree, from the reduced forms of the blocks of the next degree
//! (Hentzel and Jacobs, *A dynamic programming method for building free algebras*, Computers and Mathematics with Applications
//! 22, 1991).
#![tactic(auto)]

mod ahead;
mod build;
mod count;
mod entry;
mod growth;
pub mod laws;
mod part;
mod step;
mod stop;

pub use ahead::limit_ahead;
pub use build::{Built, build_all};
pub use growth::grow;
pub use stop::GrowStop;
