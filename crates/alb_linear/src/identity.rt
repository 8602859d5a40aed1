ghost use Rattle.std.specs.Prelude.{◌≡◌, ◌<◌, ◌≤◌, ℕ, IfSome, MatchOption, length, slice_index_or, sum};
ghost use Rattle.alb_mono.specs.Tree.{tree, Tree};
ghost use Rattle.alb_poly.specs.Terms.{terms};
ghost use Rattle.alb_linear.specs.Identity.{leading_type, other_term, variables};

use crate::IdentityError;
use alb_mono::{Mono, Multi};
use alb_poly::{Poly, Term};
use arrayvec::ArrayVec;

/// A homogeneous identity of degree 2 to 8, with its variables and their degrees, ascending by letter.
#[derive(Drop)]
pub struct Identity {
    /// The polynomial.
    pub poly: Poly,
    /// Each letter that occurs, as the number of its generator, with its degree.
    pub degrees: ArrayVec<(u8, u8), 8>,
}

/// The type of the first term over the 26 letters.
pub(crate) fn leading_type(list: &[Term]) -> Multi
    requires { 0 < length list.now }
    ensures { result ≡ leading_type (terms list.now) }
{
    list[0].mono.type_of(26)
}

// The place of the first term whose type is not `e`.
fn other_place(list: &[Term], e: &Multi) -> Option<usize>
    ensures none { MatchOption result (other_term e.now (terms list.now) ≡ None) (λ k. k < length list.now) }
    ensures found { IfSome result (λ k. (d : ℕ × Tree) → other_term e.now (terms list.now) ≡ Some (slice_index_or (terms list.now) k d).1) }
{
    for (k, t) in list.iter().enumerate() {
        if !t.mono.type_of(26).is_same(e) {
            return Some(k);
        }
    }
    None
}

// The monomial of a term, taken out of the polynomial.
fn taken(poly: Poly, k: usize) -> Mono
    requires { k < length poly }
    ensures { (d : ℕ × Tree) → tree result ≡ (slice_index_or poly k d).1 }
{
    let mut list = poly.into_terms();
    let term = list.swap_remove(k);
    term.mono
}

// The letters that occur, with their degrees.
fn variables(e: &[u8]) -> ArrayVec<(u8, u8), 8>
    requires few { length e.now ≤ 26 }
    requires small { sum e.now ≤ 8 }
    ensures { result.items ≡ variables 0 e.now }
{
    let mut found = ArrayVec::new();
    for (k, n) in e.iter().enumerate() {
        if *n > 0 {
            found.push((k as u8, *n));
        }
    }
    found
}

impl Identity {
    ghost use Rattle.alb_linear.specs.Identity.{Accepts};

    /// The polynomial as an identity, or the first rule that it breaks: it is not zero, all its terms are of one type, its
    /// degree is not 1, and its degree is at most 8.
    pub fn of(poly: Poly) -> Result<Identity, IdentityError>
        ensures { Accepts result poly }
    {
        if poly.terms().is_empty() {
            return Err(IdentityError::Zero);
        }
        let e = leading_type(poly.terms());
        if let Some(k) = other_place(poly.terms(), &e) {
            let term = taken(poly, k);
            return Err(IdentityError::NotHomogeneous { term });
        }
        let degree = e.degree();
        if degree == 1 {
            return Err(IdentityError::DegreeOne);
        }
        if degree > 8 {
            return Err(IdentityError::DegreeOver8);
        }
        let degrees = variables(e.counts());
        Ok(Identity { poly, degrees })
    }
}
