//! Tidy derivations: no line is idle, and none stands twice.
#![tactic(auto)]

mod copy;
mod keeping;
mod key;
mod ledger;
mod marks;

pub use keeping::tidy;
pub use key::LineKey;
pub use ledger::Ledger;
