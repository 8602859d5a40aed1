//! Numbers that several passes draw from one word, each number once, and the blocks that the first numbers name.
#![tactic(auto)]

mod claims;
mod rule;

pub use claims::Draw;
pub use rule::{Claim, ClaimPass, Claims};
