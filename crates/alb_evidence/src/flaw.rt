//! Why a line is faulty.

ghost use Rattle.std.specs.Prelude.{◌≡◌};
ghost use Rattle.alb_evidence.specs.declared.flaw.Flaw.TheVariants.{NoMemory as OutOfMemory};

use alb_mono::NoMemory;
use std::alloc::{AllocError, AllocFailed};

/// The first departure of a line, from left to right, from the forms that may stand there.
#[derive(Clone, Copy, Debug, PartialEq, Eq)]
pub enum Flaw {
    /// It has none of the forms.
    BadLine,
    /// A number has more than 18 digits.
    BadNumber,
    /// There was no memory for what it says.
    NoMemory,
}

impl From<NoMemory> for Flaw {
    ghost from_gives = { λ _ e. e ≡ OutOfMemory };

    fn from(_e: NoMemory) -> Flaw {
        Flaw::NoMemory
    }
}

impl From<AllocError> for Flaw {
    ghost from_gives = { λ _ e. e ≡ OutOfMemory };

    fn from(_e: AllocError) -> Flaw {
        Flaw::NoMemory
    }
}

impl<T: Drop> From<AllocFailed<T>> for Flaw {
    ghost from_gives = { λ _ e. e ≡ OutOfMemory };

    fn from(_e: AllocFailed<T>) -> Flaw {
        Flaw::NoMemory
    }
}
