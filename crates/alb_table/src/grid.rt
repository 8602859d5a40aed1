/// The products of one left type and one right type: where the numbers of both begin, how many there are, and the
/// place of the first product among the products of the type.
#[derive(Clone, Copy)]
pub struct Grid {
    /// The number of the first left factor.
    pub left: u32,
    /// How many left factors there are.
    pub lefts: u32,
    /// The number of the first right factor.
    pub right: u32,
    /// How many right factors there are.
    pub rights: u32,
    /// The place of the first product.
    pub offset: u32,
}
