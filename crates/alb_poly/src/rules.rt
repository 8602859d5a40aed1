use crate::Poly;
use alb_mono::Multi;
use gf_field::Field;

/// A multilinear form: monomials over the positions 0 to `degree - 1`, each of which stands once in each of them.
/// The first positions belong to the first variable in the alphabet, and so on.
#[derive(Drop)]
pub struct Linear {
    /// The number of positions.
    pub degree: u32,
    /// The terms; generator `k` stands for position `k`.
    pub terms: Poly,
}

/// What a problem means to the engine: a field, how often each generator may occur, and the linearized identities.
#[derive(Drop)]
pub struct Rules {
    /// The field of the coefficients.
    pub field: Field,
    /// How often each generator may occur in a product.
    pub target: Multi,
    /// The full linearizations of the identities, in their order.
    pub linears: Vec<Linear>,
}
