use alb_mono::Multi;
use alb_rows::Row;
use arrayvec::ArrayVec;

/// A basis element.
#[derive(Clone, Copy, PartialEq, Eq, Debug)]
pub enum Elem {
    /// A generator, by its number.
    Gen(u8),
    /// The product of two basis elements, by their numbers.
    Prod(u32, u32),
}

/// An instance of an identity.
#[derive(Drop)]
pub struct Origin {
    /// The number of the identity.
    pub identity: u32,
    /// The basis elements at the positions of its linearization.
    pub args: ArrayVec<u32, 8>,
}

/// What a table has of one type.
#[derive(Drop)]
pub struct Part {
    /// The type.
    pub at: Multi,
    /// The basis elements, ascending.
    pub basis: Vec<Elem>,
    /// For each product of this type its entry, a row over the basis numbers of this type. The products ascend.
    pub entries: Vec<Row>,
    /// The instances that made the pivots.
    pub origins: Vec<Origin>,
}
