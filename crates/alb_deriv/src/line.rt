use alb_mono::{Mono, Side};
use gf_field::Residue;

/// A line of a derivation. Identities and lines are numbered from 1.
#[derive(Drop)]
pub enum Line {
    /// The instance of an identity at monomials, one for each of its positions.
    Instance(u64, Vec<Mono>),
    /// An earlier line times a monomial, which stands on the named side.
    Times(u64, Side, Mono),
    /// A sum of multiples of earlier lines.
    Sum(Vec<(Residue, u64)>),
}
