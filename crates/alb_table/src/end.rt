use alb_mono::Multi;

/// How the building of a table ended.
#[derive(Drop)]
pub enum BuildEnd {
    /// The table reached the degree of its target.
    Complete,
    /// A type has more products than a block may have columns.
    TooWide {
        /// The type.
        at: Multi,
        /// The number of its products.
        products: u64,
    },
    /// The table would have too many products.
    TooManyProducts {
        /// Their number.
        count: u64,
    },
    /// The table would have too many coefficients that are not 0.
    TooManyCoefficients {
        /// Their number.
        count: u64,
    },
    /// There was no memory.
    NoMemory,
}
