//! The list of a polynomial, from terms in any order.
ghost use Rattle.std.specs.Prelude.{◌≡◌, ◌<◌, IfOk, OnOk, IsPermutation, reverse};
ghost use Rattle.alb_mono.specs.Tree.{tree};
ghost use Rattle.alb_poly.specs.Poly.{AreResidues, IsDescending, before, normal};
ghost use Rattle.alb_poly.specs.Sorted.{AreSorted, in_front};
ghost use Rattle.alb_poly.specs.Terms.{term, terms};

use crate::Term;
use alb_mono::NoMemory;
use gf_field::Field;
use std::alloc::Global;

// Sorts the terms, the greatest monomial first.
fn sort_terms(list: &mut Vec<Term>) -> Result<(), NoMemory>
    ensures moved { IsPermutation list.old.items list.new.items }
    ensures sorted { OnOk result (AreSorted list.new.items) }
{
    list.sort_by(|a, b| b.mono.compare(&a.mono))?;
    Ok(())
}

// Appends a term, unless its coefficient is 0.
fn push_nonzero(kept: &mut Vec<Term>, t: Term) -> Result<(), NoMemory>
    ensures { OnOk result (reverse (terms kept.new.items) ≡ before t.coef (tree t.mono) (reverse (terms kept.old.items))) }
{
    if t.coef != 0 {
        kept.push(t)?;
    }
    Ok(())
}

// Appends a term that comes before all others, or joins it to the last one where that has its monomial.
fn push_term(field: &Field, kept: &mut Vec<Term>, t: Term) -> Result<(), NoMemory>
    requires residue { t.coef < field.now }
    requires residues { AreResidues field.now (reverse (terms kept.old.items)) }
    ensures { OnOk result (reverse (terms kept.new.items) ≡ in_front field.now (term t) (reverse (terms kept.old.items))) }
{
    match kept.pop() {
        None => push_nonzero(kept, t),
        Some(last) => {
            if last.mono.is_same(&t.mono) {
                let coef = field.add(t.coef, last.coef);
                let Term { coef: _, mono } = t;
                push_nonzero(kept, Term { coef, mono })
            } else {
                kept.push(last)?;
                push_nonzero(kept, t)
            }
        }
    }
}

// The list of a polynomial, from terms in order.
pub(crate) fn collected(
    alloc: Global,
    field: &Field,
    list: Vec<Term>,
) -> Result<Vec<Term>, NoMemory>
    requires residues { AreResidues field.now (terms list.items) }
    requires sorted { AreSorted list.items }
    ensures value { IfOk result (λ v. terms v.items ≡ normal field.now (terms list.items)) }
    ensures residues { IfOk result (λ v. AreResidues field.now (terms v.items)) }
    ensures descending { IfOk result (λ v. IsDescending (terms v.items)) }
{
    let mut left = list;
    let mut kept = Vec::new(alloc);
    while let Some(t) = left.pop() {
        push_term(field, &mut kept, t)?;
    }
    kept.as_mut_slice().reverse();
    Ok(kept)
}

// The list of a polynomial, from terms in any order.
pub(crate) fn normalised(
    alloc: Global,
    field: &Field,
    list: Vec<Term>,
) -> Result<Vec<Term>, NoMemory>
    requires { AreResidues field.now (terms list.items) }
    ensures value { IfOk result (λ v. terms v.items ≡ normal field.now (terms list.items)) }
    ensures residues { IfOk result (λ v. AreResidues field.now (terms v.items)) }
    ensures descending { IfOk result (λ v. IsDescending (terms v.items)) }
{
    let mut list = list;
    sort_terms(&mut list)?;
    collected(alloc, field, list)
}
