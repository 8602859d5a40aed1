ghost use Rattle.std.specs.Prelude.{◌≡◌};
ghost use Rattle.alb_block.specs.declared.error.BlockStop.TheVariants as stops;

use alb_mono::Multi;

/// Why there is no block.
#[derive(Drop)]
pub enum BlockStop {
    /// A type has this many products, more than 4,096.
    TooWide { at: Multi, products: u64 },
    /// There was no memory.
    NoMemory,
}

impl From<alb_mono::NoMemory> for BlockStop {
    ghost from_gives = { λ _ e. e ≡ stops.NoMemory };

    fn from(_e: alb_mono::NoMemory) -> BlockStop {
        BlockStop::NoMemory
    }
}
