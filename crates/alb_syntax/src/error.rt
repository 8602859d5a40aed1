//! Why tokens denote nothing.

ghost use Rattle.std.specs.Prelude.{◌≡◌};
ghost use Rattle.alb_syntax.specs.declared.error.SyntaxError.TheVariants.{NoMemory as OutOfMemory};

use alb_mono::NoMemory;
use std::alloc::{AllocError, AllocFailed};
use thiserror::Error;

/// The first fault in reading order. Places count the bytes of the line from 1; the end place is the place after the
/// last byte.
#[derive(Clone, Copy, Debug, PartialEq, Eq, Error)]
pub enum SyntaxError {
    /// The token at this place, or the end, cannot go on in the grammar, or is an exponent that is not 1 to 64.
    #[error("unexpected at byte {place}")]
    Expected { place: u32 },
    /// The letter at this place names no generator.
    #[error("unknown letter at byte {place}")]
    UnknownLetter { place: u32 },
    /// With the opening bracket at this place brackets would nest 65 deep.
    #[error("the bracket at byte {place} is nested too deep")]
    TooDeep { place: u32 },
    /// The operation at this place has more than 65,536 terms.
    #[error("more than 65536 terms at byte {place}")]
    TooManyTerms { place: u32 },
    /// The product at this place has a monomial of a degree above 64.
    #[error("a degree above 64 at byte {place}")]
    TooHigh { place: u32 },
    /// There was no memory for the value.
    #[error("out of memory")]
    NoMemory,
}

impl From<NoMemory> for SyntaxError {
    ghost from_gives = { λ _ e. e ≡ OutOfMemory };

    fn from(_e: NoMemory) -> SyntaxError {
        SyntaxError::NoMemory
    }
}

impl From<AllocError> for SyntaxError {
    ghost from_gives = { λ _ e. e ≡ OutOfMemory };

    fn from(_e: AllocError) -> SyntaxError {
        SyntaxError::NoMemory
    }
}

impl<T: Drop> From<AllocFailed<T>> for SyntaxError {
    ghost from_gives = { λ _ e. e ≡ OutOfMemory };

    fn from(_e: AllocFailed<T>) -> SyntaxError {
        SyntaxError::NoMemory
    }
}
