use alb_poly::Poly;

/// A question to a table of a relatively free algebra.
#[derive(Drop)]
pub enum Question {
    /// Whether a polynomial over the generators is zero, and what its normal form is if it is not.
    Polynomial(Poly),
    /// The same, with what shows the answer.
    Prove(Poly),
    /// The dimension of each type.
    Dimensions,
    /// The products of basis elements.
    Products,
}
