//! The block of a type: the reduced form of the span of all instances of the identities that have the type, over the products
//! of two basis elements of a table. For a right table it gives the basis and the entries of the next degree (Hentzel and
//! Jacobs, *A dynamic programming method for building free algebras*, Computers and Mathematics with Applications 22, 1991).
#![tactic(auto)]

mod block;
mod error;
pub mod laws;
mod offers;

pub use block::{Block, reduce_block};
pub use error::BlockStop;
