//! The words of a command line: how many workers they name, and the other words. Which of these name a form is the program's.
#![tactic(auto)]

pub mod laws;
mod numbers;
mod read;

pub use numbers::number;
pub use read::{Words, WordsFault, read_words};
