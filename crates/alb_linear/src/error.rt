ghost use Rattle.std.specs.Prelude.{◌≡◌};
ghost use Rattle.alb_linear.specs.declared.error.IdentityError.TheVariants as errors;

use alb_mono::Mono;
use std::alloc::{AllocError, AllocFailed};

/// Why a polynomial is no identity, or why it is not linearized.
#[derive(Drop)]
pub enum IdentityError {
    /// The zero polynomial.
    Zero,
    /// The first term in descending order whose type differs from that of the leading term.
    NotHomogeneous { term: Mono },
    /// The degree is 1.
    DegreeOne,
    /// The degree is above 8.
    DegreeOver8,
    /// The linearization would have this many terms, more than 100,000.
    TooManyLinear { count: u64 },
    /// There was no memory.
    NoMemory,
}

impl From<alb_mono::NoMemory> for IdentityError {
    ghost from_gives = { λ _ e. e ≡ errors.NoMemory };

    fn from(_e: alb_mono::NoMemory) -> IdentityError {
        IdentityError::NoMemory
    }
}

impl From<AllocError> for IdentityError {
    ghost from_gives = { λ _ e. e ≡ errors.NoMemory };

    fn from(_e: AllocError) -> IdentityError {
        IdentityError::NoMemory
    }
}

impl<T: Drop> From<AllocFailed<T>> for IdentityError {
    ghost from_gives = { λ _ e. e ≡ errors.NoMemory };

    fn from(_e: AllocFailed<T>) -> IdentityError {
        IdentityError::NoMemory
    }
}
