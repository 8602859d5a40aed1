//! The board, where a builder publishes tables degree by degree and sessions read them: a lock by tickets, which are served in
//! turn, over a table of three words with one slot. What the slot keeps changes only in a pass's turn.
#![tactic(auto)]

mod board;
mod kept;
pub mod laws;
mod plays;
mod rule;
mod turn;

pub use kept::{PassView, Published, Shot};
pub use rule::{Board, Pass};
