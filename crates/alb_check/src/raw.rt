use alb_mono::Multi;
use gf_field::Residue;

/// One coefficient of the product of two elements. Elements are numbered from 1.
#[derive(Clone, Copy, Debug, PartialEq, Eq)]
pub struct RawEntry {
    /// The left factor.
    pub left: u64,
    /// The right factor.
    pub right: u64,
    /// The element that the product has the coefficient at.
    pub to: u64,
    /// The coefficient, a residue.
    pub coef: Residue,
}

/// An algebra with a finite basis, as it is read: the elements have types, and the product of two of them is given by
/// entries; what is not listed is zero. Nothing is known of it but that types have a count for each generator.
#[derive(Drop)]
pub struct RawTable {
    /// The type that all others are to be at most.
    pub top: Multi,
    /// The type of each element; element `k` stands at the place `k - 1`.
    pub elements: Vec<Multi>,
    /// The element of each generator; the value of a generator without one is zero.
    pub generators: Vec<Option<u64>>,
    /// The coefficients of the products.
    pub entries: Vec<RawEntry>,
}
