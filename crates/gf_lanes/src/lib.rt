//! Kernels over slices of residues, 32 of them at a step.
//!
//! Each is equal to its plain definition at every length: what follows the last whole vector is done one by one. A vector shows in
//! contracts as the list of its 32 lanes.
#![tactic(auto)]

mod lazy;
mod sums;
mod vectors;
mod zeros;

pub use lazy::{axpy_lazy, reduce_all};
pub use sums::{axpy, scale};
pub use zeros::{count_nonzero, first_nonzero};
