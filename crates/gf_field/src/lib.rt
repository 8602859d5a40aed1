//! The fields of `p` elements, for the primes `p` of a table.
//!
//! An element is kept as its residue, the number from 0 to `p - 1`. Contracts see a `Field` as the number `p`.
#![tactic(auto)]

ghost use Rattle.std.specs.Prelude.{◌≡◌, ◌+◌, ◌-◌, ◌*◌, ◌%◌, ◌<◌, ◌≤◌, ◌≢◌, ◌↔◌, ◌^◌, ◌==◌, IsTrue, MatchResult, pos, ◌-ℤ◌};
ghost use Rattle.std.specs.List.{list_any};
ghost use Rattle.std.specs.Int.{int_rem_euclid};
ghost use Rattle.gf_field.specs.Modular.{IsInTable, IsSameMod};

use std::marker::Model;
use thiserror::Error;

pub mod laws;

/// An element of a field: a number below the field's `p`.
pub type Residue = u16;

// The table of fields: the primes up to 251.
const PRIMES: [u16; 54] = [
    2, 3, 5, 7, 11, 13, 17, 19, 23, 29, 31, 37, 41, 43, 47, 53, 59, 61, 67, 71, 73, 79, 83, 89, 97,
    101, 103, 107, 109, 113, 127, 131, 137, 139, 149, 151, 157, 163, 167, 173, 179, 181, 191, 193,
    197, 199, 211, 223, 227, 229, 233, 239, 241, 251,
];

/// The field of `p` elements, where `p` stands in the table.
#[derive(Clone, Copy)]
pub struct Field {
    p: u16,
}

impl Model for Field {
    ghost use Rattle.std.specs.Prelude.{ℕ};
    ghost use Rattle.gf_field.specs.Modular.{IsInTable};

    ghost Value = { ℕ };

    ghost view = { λ f. f.p };

    ghost invariant = { λ f. IsInTable f.p };

    ghost inverse = { λ n. record { p = n } };
}

/// Why there is no field.
#[derive(Clone, Copy, PartialEq, Eq, Debug, Error)]
pub enum FieldError {
    /// The number is no prime of the table.
    #[error("the number of elements is not in the table of fields")]
    NotInTable,
}

// Whether `p` stands in a list.
fn is_listed(list: &[u16], p: u64) -> bool
    ensures listed { result ≡ list_any (λ q. q == p) list.now }
    ensures small { IsTrue result → p < 2 ^ 16 }
{
    list.iter().any(|q| *q as u64 == p)
}

impl Field {
    /// The field of `p` elements, or `NotInTable` exactly where `p` is not in the table.
    pub fn of(p: u64) -> Result<Field, FieldError>
        ensures { MatchResult result (λ f. (f ≡ p) × IsInTable p) (λ e. (e ≡ FieldError.NotInTable) × (IsInTable p → ⊥)) }
    {
        if is_listed(&PRIMES, p) {
            Ok(Field { p: p as u16 })
        } else {
            Err(FieldError::NotInTable)
        }
    }

    /// The number of elements.
    pub fn p(&self) -> u64
        ensures value { result ≡ self.now }
        ensures listed { IsInTable self.now }
        ensures above_one { 1 < self.now }
        ensures small { self.now < 2 ^ 16 }
    {
        self.p as u64
    }

    /// The sum modulo `p` of two residues.
    pub fn add(&self, x: Residue, y: Residue) -> Residue
        requires left { x < self.now }
        requires right { y < self.now }
        ensures value { result ≡ (x + y) % self.now }
        ensures residue { result < self.now }
    {
        let p = self.p as u32;
        let sum = x as u32 + y as u32;
        if sum < p {
            sum as u16
        } else {
            (sum - p) as u16
        }
    }

    /// The difference modulo `p` of two residues: what `y` has to be added to, to give `x`.
    pub fn sub(&self, x: Residue, y: Residue) -> Residue
        requires left { x < self.now }
        requires right { y < self.now }
        ensures value { IsSameMod self.now (result + y) x }
        ensures residue { result < self.now }
    {
        if y <= x { x - y } else { x + (self.p - y) }
    }

    /// The product modulo `p` of two residues.
    pub fn mul(&self, x: Residue, y: Residue) -> Residue
        requires left { x < self.now }
        requires right { y < self.now }
        ensures value { result ≡ (x * y) % self.now }
        ensures residue { result < self.now }
    {
        ((x as u32 * y as u32) % self.p as u32) as u16
    }

    /// The negative modulo `p` of a residue.
    pub fn neg(&self, x: Residue) -> Residue
        requires { x < self.now }
        ensures value { IsSameMod self.now (result + x) 0 }
        ensures residue { result < self.now }
    {
        if x == 0 { 0 } else { self.p - x }
    }

    /// The representative of least size: `x` where `2x <= p`, and else `x - p`.
    pub fn signed(&self, x: Residue) -> i64
        requires { x < self.now }
        ensures low { 2 * x ≤ self.now → result ≡ pos x }
        ensures high { self.now < 2 * x → result ≡ pos x -ℤ pos self.now }
    {
        if 2 * (x as u32) <= self.p as u32 {
            x as i64
        } else {
            x as i64 - self.p as i64
        }
    }

    /// The residue modulo `p` of a whole number.
    pub fn residue(&self, n: i64) -> Residue
        ensures value { pos result ≡ int_rem_euclid n (pos self.now) }
        ensures residue { result < self.now }
    {
        n.rem_euclid(self.p as i64) as u16
    }

    /// The inverse modulo `p` of a residue that is not 0.
    pub fn inv(&self, x: Residue) -> Residue
        requires residue { x < self.now }
        requires not_zero { 0 < x }
        ensures value { IsSameMod self.now (x * result) 1 }
        ensures residue { result < self.now }
    {
        inverse(*self, x)
    }
}

// One step of Euclid's algorithm: `p = (p / x) x + p % x`, so the inverse of `x` is that of `p % x` times `p - p / x`.
fn inverse(field: Field, x: u16) -> u16
    requires residue { x < field }
    requires not_zero { 0 < x }
    ensures value { IsSameMod field (x * result) 1 }
    ensures residue { result < field }
{
    let p = field.p;
    if x == 1 {
        1
    } else {
        let below = inverse(field, p % x);
        ((below as u32 * (p - p / x) as u32) % p as u32) as u16
    }
}
