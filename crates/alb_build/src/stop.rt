ghost use Rattle.std.specs.Prelude.{◌≡◌};
ghost use Rattle.alb_build.specs.declared.stop.GrowStop.TheVariants as stops;

/// Why a table does not grow.
#[derive(Drop)]
pub enum GrowStop {
    /// The table of the next degree would have this many products, more than 1,000,000.
    TooManyProducts { count: u64 },
    /// The table of the next degree would have this many coefficients that are not 0, more than 16,777,216.
    TooManyCoefficients { count: u64 },
    /// There was no memory.
    NoMemory,
}

impl From<alb_mono::NoMemory> for GrowStop {
    ghost from_gives = { λ _ e. e ≡ stops.NoMemory };

    fn from(_e: alb_mono::NoMemory) -> GrowStop {
        GrowStop::NoMemory
    }
}
