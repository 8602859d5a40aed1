ghost use Rattle.std.specs.Prelude.{◌≡◌, ◌+◌, ◌*◌, ◌<◌, ◌≤◌, ◌++◌, ℕ, IsTrue, IsPermutation, IfOk, OnOk, All, length, map, slice_index, sum};
ghost use Rattle.std.specs.List.{flat_map};
ghost use Rattle.alb_mono.specs.Tree.{tree, are_below, count, degree, leaf};
ghost use Rattle.alb_poly.specs.Poly.{AreResidues, normal};
ghost use Rattle.alb_poly.specs.Terms.{terms};
ghost use Rattle.alb_poly.specs.Instance.{fill, first_number, numbered};
ghost use Rattle.alb_linear.specs.Identity.{IsIdentity, Linearizes, factorial, factorials};

use crate::identity::leading_type;
use crate::orders::arrangements;
use crate::positions::Places;
use crate::{Identity, IdentityError};
use alb_mono::{Mono, NoMemory};
use alb_poly::{Linear, Poly, Term};
use gf_field::Field;
use std::alloc::Global;

/// The greatest number of terms of a linearization.
const MOST_TERMS: u64 = 100_000;

// The number of orders of `n` things.
fn factorial(n: u8) -> u64
    requires { n ≤ 8 }
    ensures value { result ≡ factorial n }
    ensures small { result ≤ 40320 }
{
    if n == 0 {
        1
    } else {
        n as u64 * factorial(n - 1)
    }
}

// The number of all orders of blocks of these lengths.
fn factorials(e: &[u8]) -> u64
    requires { sum e.now ≤ 8 }
    ensures value { result ≡ factorials e.now }
    ensures small { result ≤ 40320 }
{
    match e.split_first() {
        None => 1,
        Some((n, rest)) => factorial(*n) * factorials(rest),
    }
}

// For each variable the first of its positions: the sum of the degrees of the variables before it.
fn first_numbers(e: &[u8]) -> [u8; 26]
    requires few { length e.now ≤ 26 }
    requires small { sum e.now ≤ 8 }
    ensures { (v : ℕ) → v < length e.now → slice_index result v ≡ first_number e.now v }
{
    let mut numbers = [0u8; 26];
    let mut next = 0;
    for (v, n) in e.iter().enumerate() {
        numbers[v] = next;
        next += *n;
    }
    numbers
}

// The monomial whose leaves are positions: the first `v` from the left becomes the position that stands at `next[v]`, the
// second one that at the place after it, and so on.
fn placed(alloc: Global, m: &Mono, places: &[u8], next: &mut [u8]) -> Result<Mono, NoMemory>
    requires letters { IsTrue (are_below (length next.old) (tree m.now)) }
    requires within { (v : ℕ) → v < length next.old → slice_index next.old v + count v (tree m.now) ≤ length places.now }
    requires few { length places.now ≤ 8 }
    requires small { All (λ k. k < 26) places.now }
    ensures value { IfOk result (λ r. tree r ≡ fill (map leaf places.now) (numbered (λ v. slice_index next.old v) (tree m.now))) }
    ensures known { IfOk result (λ r. IsTrue (are_below 26 (tree r))) }
    ensures degree { IfOk result (λ r. degree (tree r) ≡ degree (tree m.now)) }
    ensures counted { OnOk result ((v : ℕ) → v < length next.old → slice_index next.new v ≡ slice_index next.old v + count v (tree m.now)) }
{
    match m {
        Mono::Gen(v) => {
            let k = next[*v as usize];
            next[*v as usize] = k + 1;
            Ok(Mono::Gen(places[k as usize]))
        }
        Mono::Prod(left, right) => {
            let left = placed(alloc, left, places, next)?;
            let right = placed(alloc, right, places, next)?;
            Mono::product(alloc, left, right)
        }
    }
}

// Appends the terms that one term gives, one for each arrangement of the positions.
fn push_linearized(
    alloc: Global,
    t: &Term,
    numbers: &[u8; 26],
    all: &[Places],
    out: &mut Vec<Term>,
) -> Result<(), NoMemory>
    requires { All (λ a. (v : ℕ) → v < 26 → slice_index numbers.now v + count v (tree t.now.mono) ≤ length a) all.now }
    ensures { OnOk result (terms out.new.items ≡ terms out.old.items ++ map (λ a. (t.now.coef, fill (map leaf a) (numbered (λ v. slice_index numbers.now v) (tree t.now.mono)))) all.now) }
{
    for places in all {
        let mut next = *numbers;
        let mono = placed(alloc, &t.mono, places.list(), &mut next)?;
        out.push(Term { coef: t.coef, mono })?;
    }
    Ok(())
}

// The terms of the linearization, before like ones are put together.
fn linearized_terms(
    alloc: Global,
    list: &[Term],
    numbers: &[u8; 26],
    all: &[Places],
) -> Result<Vec<Term>, NoMemory>
    requires { All (λ t. All (λ a. (v : ℕ) → v < 26 → slice_index numbers.now v + count v (tree t.mono) ≤ length a) all.now) list.now }
    ensures { IfOk result (λ r. terms r.items ≡ flat_map (λ t. map (λ a. (t.0, fill (map leaf a) (numbered (λ v. slice_index numbers.now v) t.1))) all.now) (terms list.now)) }
{
    let mut out = Vec::new(alloc);
    for t in list {
        push_linearized(alloc, t, numbers, all, &mut out)?;
    }
    Ok(out)
}

// The positions below 8 that occur in a monomial, the first one as the highest of 8 bits.
fn positions(m: &Mono) -> u8 {
    match m {
        Mono::Gen(k) => 128 >> (*k).min(7),
        Mono::Prod(left, right) => positions(left) | positions(right),
    }
}

// A number after another one: for each product in the monomial, how many leaves its left factor has and which positions. By
// these numbers monomials of at most 8 different positions come in ascending order.
fn number_behind(m: &Mono, number: u128) -> u128 {
    match m {
        Mono::Gen(_) => number,
        Mono::Prod(left, right) => {
            let at = positions(left);
            let own = u128::from(at.count_ones()) * 256 + u128::from(255 - at);
            let with_own = number.wrapping_mul(4096).wrapping_add(own);
            number_behind(right, number_behind(left, with_own))
        }
    }
}

// Brings terms near their order, by numbers that are quickly compared.
fn bring_near(list: &mut Vec<Term>) -> Result<(), NoMemory>
    ensures { IsPermutation list.old.items list.new.items }
{
    list.sort_by_cached_key(|t| u128::MAX - number_behind(&t.mono, 0))?;
    Ok(())
}

// The polynomial of some terms. They are brought near their order first, so that little is left to compare as monomials.
fn ordered(alloc: Global, field: &Field, list: Vec<Term>) -> Result<Poly, NoMemory>
    requires { All (λ t. t.coef < field.now) list.items }
    ensures value { IfOk result (λ f. f ≡ normal field.now (terms list.items)) }
    ensures residues { IfOk result (λ f. AreResidues field.now f) }
{
    let mut list = list;
    bring_near(&mut list)?;
    Poly::from_terms(alloc, field, list)
}

/// The full linearization (Zhevlakov, Slinko, Shestakov and Shirshov, *Rings That Are Nearly Associative*, chapter 1): a
/// variable of degree `e` is replaced by `e` new ones in all orders. It is refused where it would have more than 100,000
/// terms, before any work.
pub fn linearize(alloc: Global, field: &Field, f: &Identity) -> Result<Linear, IdentityError>
    requires identity { IsIdentity f.now }
    requires residues { AreResidues field.now f.now.poly }
    requires few { length f.now.poly ≤ 65536 }
    ensures { Linearizes field.now result f.now.poly }
{
    let list = f.poly.terms();
    let e = leading_type(list);
    let count = list.len() as u64 * factorials(e.counts());
    if count > MOST_TERMS {
        return Err(IdentityError::TooManyLinear { count });
    }
    let degree = e.degree();
    let all = arrangements(alloc, e.counts(), Places::first(degree as u8).list())?;
    let linearized = linearized_terms(alloc, list, &first_numbers(e.counts()), &all)?;
    let terms = ordered(alloc, field, linearized)?;
    Ok(Linear { degree, terms })
}
