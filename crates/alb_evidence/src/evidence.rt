use alb_check::RawTable;
use alb_deriv::Line;

/// What a block says.
#[derive(Drop)]
pub enum Evidence {
    /// The lines of a derivation: the claimed polynomial is zero.
    Zero(Vec<Line>),
    /// A table where it has a value that is not zero.
    NotZero(RawTable),
}
