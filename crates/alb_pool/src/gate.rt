//! What is called between the claim of a block and its making.

/// It is called after a block is claimed and before it is reduced.
pub trait Gate: Sync {
    fn at(&self, worker: u32, degree: u32, block: u32);
}

/// It does nothing.
pub struct NoGate;

impl Gate for NoGate {
    fn at(&self, _worker: u32, _degree: u32, _block: u32) {}
}
