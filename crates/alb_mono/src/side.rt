/// A side of a product.
#[derive(Clone, Copy, Debug, PartialEq, Eq)]
pub enum Side {
    /// Before the other factor.
    Left,
    /// After the other factor.
    Right,
}
