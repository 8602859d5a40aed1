ghost use Rattle.std.specs.Prelude.{◌≡◌};
ghost use Rattle.alb_check.specs.declared.error.TableError.TheVariants as errors;

use thiserror::Error;

/// Why a table does not refute a polynomial.
#[derive(Debug, Drop, Error)]
pub enum TableError {
    /// The first rule of shape that fails, from 1 to 6.
    #[error("rule {rule} of shape fails")]
    BadShape { rule: u8 },
    /// The first identity, counted from 1, and the first tuple of elements at which its linearization is not zero.
    #[error("identity {identity} fails at the elements {tuple:?}")]
    Fails { identity: u32, tuple: Vec<u64> },
    /// The value of the polynomial is zero.
    #[error("the value is zero")]
    ValueZero,
    /// There was no memory.
    #[error("no memory")]
    NoMemory,
}

impl From<alb_mono::NoMemory> for TableError {
    ghost from_gives = { λ _ e. e ≡ errors.NoMemory };

    fn from(_e: alb_mono::NoMemory) -> TableError {
        TableError::NoMemory
    }
}
