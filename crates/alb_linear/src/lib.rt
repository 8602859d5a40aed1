//! Homogeneous identities, their full linearizations, and the instances of these.
#![tactic(auto)]

mod error;
mod identity;
mod instances;
pub mod laws;
mod linearization;
mod orders;
mod positions;
mod runs;

pub use error::IdentityError;
pub use identity::Identity;
pub use instances::instance;
pub use linearization::linearize;
pub use runs::places;
