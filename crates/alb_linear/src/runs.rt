//! The runs of positions of a linearized identity: neighbours that may be exchanged.
ghost use Rattle.std.specs.Prelude.{◌≡◌, ◌↔◌, ◌+◌, ◌<◌, ◌≤◌, ◌==◌, ℕ, suc, true, false, IfOk, All, if◌then◌else◌, map, sum};
ghost use Rattle.std.specs.List.{range_with_len};
ghost use Rattle.alb_mono.specs.Tree.{tree, leaf};
ghost use Rattle.alb_poly.specs.Terms.{terms};
ghost use Rattle.alb_poly.specs.Consequence.{form};
ghost use Rattle.alb_linear.specs.Identity.{IsLinearized};
ghost use Rattle.alb_linear.specs.Runs.{exchanged, AreExchangeable, AreRuns, goes_on, same_terms};

use crate::instances::instance;
use alb_mono::{Mono, NoMemory};
use alb_poly::{Linear, Term};
use arrayvec::ArrayVec;
use gf_field::Field;
use std::alloc::Global;

// The position `k`, where `j` and the next one are exchanged.
fn exchanged(j: u8, k: u8) -> u8
    requires { j < 8 }
    ensures { result ≡ exchanged j k }
{
    if k == j {
        return j + 1;
    }
    if k == j + 1 {
        return j;
    }
    k
}

// The positions 0 to `n - 1` as monomials, where `j` and the next one are exchanged.
fn exchanged_positions(alloc: Global, n: u8, j: u8) -> Result<Vec<Mono>, NoMemory>
    requires few { n ≤ 8 }
    requires next { j + 1 < n }
    ensures { IfOk result (λ v. map tree v.items ≡ map (λ k. leaf (exchanged j k)) (range_with_len 0 n)) }
{
    let mut out = Vec::new(alloc);
    for k in 0..n {
        out.push(Mono::Gen(exchanged(j, k)))?;
    }
    Ok(out)
}

// Whether two lists of terms are one.
fn are_same(f: &[Term], g: &[Term]) -> bool
    ensures { result ≡ same_terms (terms f.now) (terms g.now) }
{
    if f.len() != g.len() {
        return false;
    }
    for i in 0..f.len() {
        if f[i].coef != g[i].coef || !f[i].mono.is_same(&g[i].mono) {
            return false;
        }
    }
    true
}

// Whether exchanging the position `j` and the next one in every term gives an equal polynomial.
fn are_exchangeable(alloc: Global, field: &Field, f: &Linear, j: u8) -> Result<bool, NoMemory>
    requires form { IsLinearized field.now (form f.now) }
    requires few { f.now.degree ≤ 8 }
    requires next { j + 1 < f.now.degree }
    ensures { IfOk result (λ b. (b ≡ true) ↔ AreExchangeable field.now (form f.now) j) }
{
    let positions = exchanged_positions(alloc, f.degree as u8, j)?;
    let other = instance(alloc, field, f, &positions)?;
    prove!(field.p() > 1);
    Ok(are_same(other.terms(), f.terms.terms()))
}

// Whether the position `k` belongs to the run of the one before it.
fn joins(alloc: Global, field: &Field, f: &Linear, k: u32) -> Result<bool, NoMemory>
    requires form { IsLinearized field.now (form f.now) }
    requires few { f.now.degree ≤ 8 }
    requires within { k < f.now.degree }
    ensures first { IfOk result (λ b. k ≡ 0 → b ≡ false) }
    ensures later { IfOk result (λ b. (j : ℕ) → k ≡ suc j → (b ≡ true) ↔ AreExchangeable field.now (form f.now) j) }
{
    if k == 0 {
        return Ok(false);
    }
    are_exchangeable(alloc, field, f, (k - 1) as u8)
}

// The runs with one position more, which belongs to the last run or begins one.
fn longer(runs: ArrayVec<u8, 8>, joins: bool) -> ArrayVec<u8, 8>
    requires positive { All (λ n. 0 < n) runs.items }
    requires few { sum runs.items < 8 }
    requires begun { joins ≡ true → 0 < sum runs.items }
    ensures positive { All (λ n. 0 < n) result.items }
    ensures whole { sum result.items ≡ sum runs.items + 1 }
    ensures joins { (k : ℕ) → goes_on result.items k ≡ (if k == sum runs.items then joins else goes_on runs.items k) }
{
    let mut runs = runs;
    if joins {
        match runs.pop() {
            None => runs.push(1),
            Some(n) => runs.push(n + 1),
        }
        return runs;
    }
    runs.push(1);
    runs
}

/// The lengths of the runs of positions, in order: a position and the next one stand in one run exactly where exchanging them
/// in every term gives an equal polynomial.
pub fn places(alloc: Global, field: &Field, f: &Linear) -> Result<ArrayVec<u8, 8>, NoMemory>
    requires form { IsLinearized field.now (form f.now) }
    requires few { f.now.degree ≤ 8 }
    ensures { IfOk result (λ r. AreRuns field.now (form f.now) r.items) }
{
    let mut runs = ArrayVec::new();
    for k in 0..f.degree {
        let joins = joins(alloc, field, f, k)?;
        runs = longer(runs, joins);
    }
    Ok(runs)
}
