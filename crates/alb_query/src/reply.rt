use alb_mono::Mono;
use alb_poly::Poly;

/// The answer to a question about a polynomial.
#[derive(Drop)]
pub enum Reply {
    /// It follows from the identities.
    Zero,
    /// It does not; its normal form.
    NotZero(Poly),
    /// Its degree is above the table's; its degree.
    NotBuilt(u32),
    /// Its first monomial, descending, whose type is not at most the target.
    OutOfType(Mono),
}
