ghost use Rattle.std.specs.Prelude.{◌≡◌};
ghost use Rattle.alb_subst.specs.declared.error.ColumnsStop.TheVariants as stops;

use std::alloc::AllocFailed;
use thiserror::Error;

/// Why there are no columns.
#[derive(Clone, Copy, Debug, PartialEq, Eq, Error)]
pub enum ColumnsStop {
    /// The type has this many products, more than 4,096.
    #[error("a type has {products} products")]
    TooWide { products: u64 },
    /// There was no memory.
    #[error("no memory")]
    NoMemory,
}

impl From<alb_mono::NoMemory> for ColumnsStop {
    ghost from_gives = { λ _ e. e ≡ stops.NoMemory };

    fn from(_e: alb_mono::NoMemory) -> ColumnsStop {
        ColumnsStop::NoMemory
    }
}

impl<T: Drop> From<AllocFailed<T>> for ColumnsStop {
    ghost from_gives = { λ _ e. e ≡ stops.NoMemory };

    fn from(_e: AllocFailed<T>) -> ColumnsStop {
        ColumnsStop::NoMemory
    }
}
