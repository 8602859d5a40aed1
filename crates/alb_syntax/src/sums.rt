//! Sums in the making.
//!
//! A line can hold thousands of terms. While its sum is read, they are loose: a list in any order, in which monomials may
//! repeat, and which stands for the polynomial with these coefficients. The list is put in order once, at the end, and before
//! that only where it would grow past the greatest number of terms.

ghost use Rattle.std.specs.Prelude.{◌≡◌, ◌++◌, Ok, IfOk};
ghost use Rattle.alb_poly.specs.Poly.{normal};
ghost use Rattle.alb_poly.specs.Terms.{terms};
ghost use Rattle.alb_syntax.specs.Gives.{Gives};
ghost use Rattle.alb_syntax.specs.Reading.{IsCanonicalPoly, AreLoose, sum, difference};

use crate::error::SyntaxError;
use crate::operations::{self, MAX_TERMS};
use alb_poly::{Poly, Term};
use gf_field::Field;
use std::alloc::Global;

/// The polynomial that loose terms stand for.
pub fn put_together(alloc: Global, field: &Field, list: Vec<Term>) -> Result<Poly, SyntaxError>
    requires { AreLoose field.now (terms list.items) }
    ensures value { Gives (λ h. h) result (Ok (normal field.now (terms list.items))) }
    ensures kept { IfOk result (λ h. IsCanonicalPoly field.now h) }
{
    let f = Poly::from_terms(alloc, field, list)?;
    Ok(f)
}

// The terms of a polynomial after the others.
fn appended(list: Vec<Term>, x: Poly) -> Result<Vec<Term>, SyntaxError>
    ensures { Gives (λ v. terms v.items) result (Ok (terms list.items ++ x)) }
{
    let mut longer = list;
    let mut more = x.into_terms();
    longer.append(&mut more)?;
    Ok(longer)
}

/// The sum with one more polynomial.
pub fn added(
    alloc: Global,
    field: &Field,
    place: u32,
    list: Vec<Term>,
    x: Poly,
) -> Result<Vec<Term>, SyntaxError>
    requires so_far { AreLoose field.now (terms list.items) }
    requires more { IsCanonicalPoly field.now x }
    ensures value { Gives (λ v. normal field.now (terms v.items)) result (sum field.now place (normal field.now (terms list.items)) x) }
    ensures loose { IfOk result (λ v. AreLoose field.now (terms v.items)) }
{
    let count = list.len() as u64 + x.terms().len() as u64;
    if count <= MAX_TERMS {
        let longer = appended(list, x)?;
        return Ok(longer);
    }
    let f = put_together(alloc, field, list)?;
    let h = operations::sum(alloc, field, place, &f, &x)?;
    Ok(h.into_terms())
}

/// The difference with one more polynomial.
pub fn subtracted(
    alloc: Global,
    field: &Field,
    place: u32,
    list: Vec<Term>,
    x: &Poly,
) -> Result<Vec<Term>, SyntaxError>
    requires so_far { AreLoose field.now (terms list.items) }
    requires more { IsCanonicalPoly field.now x.now }
    ensures value { Gives (λ v. normal field.now (terms v.items)) result (difference field.now place (normal field.now (terms list.items)) x.now) }
    ensures loose { IfOk result (λ v. AreLoose field.now (terms v.items)) }
{
    let turned = operations::negative(alloc, field, x)?;
    added(alloc, field, place, list, turned)
}
