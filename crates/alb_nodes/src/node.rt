/// How a monomial is made: a generator, or the product of two monomials that have numbers.
#[derive(Clone, Copy, PartialEq, Eq, Hash)]
pub enum Node {
    /// A generator, by its number.
    Letter(u8),
    /// The product of a left and a right factor, by their numbers.
    Product(usize, usize),
}
