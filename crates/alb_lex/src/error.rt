//! Why a line has no tokens.

ghost use Rattle.std.specs.Prelude.{◌≡◌};
ghost use Rattle.alb_lex.specs.declared.error.LexError.TheVariants.{NoMemory};

use std::alloc::{AllocError, AllocFailed};
use thiserror::Error;

/// The leftmost fault of a line. Places count the bytes of the line from 1.
#[derive(Clone, Copy, Debug, PartialEq, Eq, Error)]
pub enum LexError {
    /// The byte at this place is no part of a token.
    #[error("no token begins at byte {place}")]
    BadByte { place: u32 },
    /// The number that begins at this place has more than 18 digits.
    #[error("the number at byte {place} has more than 18 digits")]
    NumberTooLong { place: u32 },
    /// There was no memory for the tokens.
    #[error("out of memory")]
    NoMemory,
}

impl From<AllocError> for LexError {
    ghost from_gives = { λ _ e. e ≡ NoMemory };

    fn from(_e: AllocError) -> LexError {
        LexError::NoMemory
    }
}

impl<T: Drop> From<AllocFailed<T>> for LexError {
    ghost from_gives = { λ _ e. e ≡ NoMemory };

    fn from(_e: AllocFailed<T>) -> LexError {
        LexError::NoMemory
    }
}
