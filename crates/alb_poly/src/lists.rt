//! Lists of terms, one term after another.
ghost use Rattle.std.specs.Prelude.{◌≡◌, ◌+◌, ◌*◌, ◌<◌, ◌≤◌, ◌++◌, IfOk, OnOk, IsTrue, map};
ghost use Rattle.gf_sums.specs.Sums.{reindex};
ghost use Rattle.alb_mono.specs.Tree.{tree, degree, are_below};
ghost use Rattle.alb_poly.specs.Consequence.{beside};
ghost use Rattle.alb_poly.specs.Poly.{AreResidues, greatest_degree};
ghost use Rattle.alb_poly.specs.Terms.{term, terms, term_product, products, multiples};

use crate::Term;
use alb_mono::{Mono, NoMemory, Side};
use gf_field::{Field, Residue};
use std::alloc::Global;

// The greatest degree of a monomial, 0 where there is none.
pub(crate) fn greatest(list: &[Term]) -> u32
    ensures value { result ≡ greatest_degree (terms list.now) }
    ensures small { result ≤ 64 }
{
    let mut most = 0;
    for t in list {
        most = most.max(t.mono.degree());
    }
    most
}

// Appends copies.
pub(crate) fn push_copies(alloc: Global, list: &[Term], out: &mut Vec<Term>) -> Result<(), NoMemory>
    ensures { OnOk result (terms out.new.items ≡ terms out.old.items ++ terms list.now) }
{
    for t in list {
        out.push(t.try_copy(alloc)?)?;
    }
    Ok(())
}

// A copy.
pub(crate) fn copied(alloc: Global, list: &[Term]) -> Result<Vec<Term>, NoMemory>
    ensures { IfOk result (λ v. terms v.items ≡ terms list.now) }
{
    let mut out = Vec::new(alloc);
    push_copies(alloc, list, &mut out)?;
    Ok(out)
}

// Appends the multiples of the terms.
pub(crate) fn push_multiples(
    alloc: Global,
    field: &Field,
    c: Residue,
    list: &[Term],
    out: &mut Vec<Term>,
) -> Result<(), NoMemory>
    requires residue { c < field.now }
    requires residues { AreResidues field.now (terms list.now) }
    ensures { OnOk result (terms out.new.items ≡ terms out.old.items ++ multiples field.now c (terms list.now)) }
{
    for t in list {
        let mono = t.mono.try_copy(alloc)?;
        out.push(Term {
            coef: field.mul(c, t.coef),
            mono,
        })?;
    }
    Ok(())
}

// The multiples of the terms.
pub(crate) fn all_multiples(
    alloc: Global,
    field: &Field,
    c: Residue,
    list: &[Term],
) -> Result<Vec<Term>, NoMemory>
    requires residue { c < field.now }
    requires residues { AreResidues field.now (terms list.now) }
    ensures { IfOk result (λ v. terms v.items ≡ multiples field.now c (terms list.now)) }
{
    let mut out = Vec::new(alloc);
    push_multiples(alloc, field, c, list, &mut out)?;
    Ok(out)
}

// Appends the products of a term with those of a list.
fn push_products(
    alloc: Global,
    field: &Field,
    s: &Term,
    list: &[Term],
    out: &mut Vec<Term>,
) -> Result<(), NoMemory>
    requires left { s.now.coef < field.now }
    requires right { AreResidues field.now (terms list.now) }
    requires small { degree (tree s.now.mono) + greatest_degree (terms list.now) ≤ 64 }
    ensures { OnOk result (terms out.new.items ≡ terms out.old.items ++ map (term_product field.now (term s.now)) (terms list.now)) }
{
    for t in list {
        out.push(s.times(alloc, field, t)?)?;
    }
    Ok(())
}

// The products of the terms of two lists.
pub(crate) fn all_products(
    alloc: Global,
    field: &Field,
    lefts: &[Term],
    rights: &[Term],
) -> Result<Vec<Term>, NoMemory>
    requires left { AreResidues field.now (terms lefts.now) }
    requires right { AreResidues field.now (terms rights.now) }
    requires small { greatest_degree (terms lefts.now) + greatest_degree (terms rights.now) ≤ 64 }
    ensures { IfOk result (λ v. terms v.items ≡ products field.now (terms lefts.now) (terms rights.now)) }
{
    let mut out = Vec::new(alloc);
    for s in lefts {
        push_products(alloc, field, s, rights, &mut out)?;
    }
    Ok(out)
}

// The product of two monomials, the first of which stands on the named side.
fn joined(alloc: Global, side: Side, m: &Mono, n: &Mono) -> Result<Mono, NoMemory>
    ensures { IfOk result (λ r. tree r ≡ beside (side, tree m.now) (tree n.now)) }
{
    let m = m.try_copy(alloc)?;
    let n = n.try_copy(alloc)?;
    match side {
        Side::Left => Mono::product(alloc, m, n),
        Side::Right => Mono::product(alloc, n, m),
    }
}

// The terms with a monomial on the named side of each.
pub(crate) fn all_beside(
    alloc: Global,
    side: Side,
    m: &Mono,
    list: &[Term],
) -> Result<Vec<Term>, NoMemory>
    requires small { greatest_degree (terms list.now) + degree (tree m.now) ≤ 64 }
    requires known { IsTrue (are_below 26 (tree m.now)) }
    ensures { IfOk result (λ v. terms v.items ≡ reindex (beside (side, tree m.now)) (terms list.now)) }
{
    let mut out = Vec::new(alloc);
    for t in list {
        let mono = joined(alloc, side, m, &t.mono)?;
        out.push(Term { coef: t.coef, mono })?;
    }
    Ok(out)
}
