//! The laws of the sample. Each is the contract of a function that does nothing.

ghost use Rattle.alb_sample.specs.Laws.{ParityDecides, CountIsByParity};

/// By a right table of degree 7 or more each polynomial with an even number is zero, and each with an odd number is not.
pub fn parity_decides()
    ensures { ParityDecides }
{}

/// So half of the polynomials are zero, and the others are not.
pub fn count_is_by_parity()
    ensures { CountIsByParity }
{}
