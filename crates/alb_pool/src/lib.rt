//! The blocks of one degree by several workers, each in a thread of its own, and the building of a table by them. The answers
//! are those of one worker.
#![tactic(auto)]

mod blocks;
mod build;
mod claimed;
mod gate;
mod workers;

pub use alb_claims::{Claim, ClaimPass, Claims, Draw};
pub use blocks::par_blocks;
pub use build::build_with;
pub use claimed::claimed_blocks;
pub use gate::{Gate, NoGate};
