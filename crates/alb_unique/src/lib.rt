//! What is determined by the rules of a problem: where the building of its tables ends, the answers to questions, and what the
//! tables print. It has laws alone.
#![tactic(auto)]

pub mod laws;
