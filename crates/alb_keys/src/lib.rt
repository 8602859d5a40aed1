//! Monomials as keys of maps and sets: owned ones, and ones that are lent.
#![tactic(auto)]

mod feed;
mod lent;
mod owned;

pub use feed::feed_mono;
pub use lent::LentMono;
pub use owned::MonoKey;
