//! The top call of the program `albert`: words, a desk, an input and an output in, a status out.
#![tactic(auto)]

mod asks;
pub mod laws;
mod mode;
mod response;
mod run;
mod script;
mod statement;
mod turn;
mod workers;
mod write;

pub use run::run_albert;
