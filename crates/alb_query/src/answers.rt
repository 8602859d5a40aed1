ghost use Rattle.std.specs.Prelude.{◌≡◌, ◌<◌, ◌≤◌, ◌++◌, ℕ, Some, None, All, IfOk, IsTrue, MatchOption, length, map};
ghost use Rattle.gf_sums.specs.Sums.{reindex};
ghost use Rattle.alb_mono.specs.Listing.{Each};
ghost use Rattle.alb_mono.specs.Tree.{tree, degree, are_below};
ghost use Rattle.alb_poly.specs.Poly.{normal, AreResidues};
ghost use Rattle.alb_poly.specs.Consequence.{forms};
ghost use Rattle.alb_poly.specs.Terms.{terms};
ghost use Rattle.alb_rows.specs.Row.{comb};
ghost use Rattle.alb_table.specs.Table.{elems, mono_at};
ghost use Rattle.alb_table.specs.RightTable.{rules_view, IsRightFor};
ghost use Rattle.alb_table.specs.Value.{IsBasisRow};
ghost use Rattle.alb_query.specs.Answer.{fits_target, misfit, IsAnswer, IsOver};
ghost use Rattle.alb_query.specs.Views.{answer_of};

use crate::Reply;
use alb_mono::{Mono, Multi, NoMemory};
use alb_poly::{Poly, Rules, Term};
use alb_rows::Row;
use alb_table::Tables;
use std::alloc::Global;

// Whether the monomial's type is at most the target.
fn fits(target: &Multi, m: &Mono) -> bool
    requires few { length target.now ≤ 26 }
    requires small { degree (tree m.now) ≤ 64 }
    requires known { IsTrue (are_below (length target.now) (tree m.now)) }
    ensures { result ≡ fits_target target.now (tree m.now) }
{
    m.type_of(target.counts().len() as u8).le(target)
}

// The first monomial whose type is not at most the target.
fn misfit<'a>(target: &Multi, list: &'a [Term]) -> Option<&'a Mono>
    requires few { length target.now ≤ 26 }
    requires known { All (λ t. IsTrue (are_below (length target.now) (tree t.mono))) list.now }
    ensures { MatchOption result (misfit target.now (terms list.now) ≡ None) (λ m. misfit target.now (terms list.now) ≡ Some (tree m.now)) }
{
    for t in list {
        if !fits(target, &t.mono) {
            return Some(&t.mono);
        }
    }
    None
}

// The terms of a row over the basis elements of a right table.
fn row_terms(
    alloc: Global,
    rules: &Rules,
    tables: &Tables,
    row: &Row,
) -> Result<Vec<Term>, NoMemory>
    requires right { IsRightFor (rules_view rules.now) tables.now }
    requires row { IsBasisRow tables.now.p (length (elems tables.now.parts)) row.now }
    ensures value { IfOk result (λ v. terms v.items ≡ reindex (mono_at tables.now.parts) (comb row.now)) }
{
    let mut list = Vec::new(alloc);
    for cell in row.cells() {
        let mono = tables.basis_mono(alloc, cell.0)?;
        list.push(Term { coef: cell.1, mono })?;
    }
    Ok(list)
}

/// The answer to the question whether a polynomial follows from the identities, by a table that is right for them: its normal
/// form is the value by the entries (Jacobs, *The Albert nonassociative algebra system*, 1994).
pub fn answer(alloc: Global, rules: &Rules, tables: &Tables, g: &Poly) -> Result<Reply, NoMemory>
    requires right { IsRightFor (rules_view rules.now) tables.now }
    requires residues { AreResidues tables.now.p g.now }
    requires known { All (λ t. IsTrue (are_below (length tables.now.target) t.1)) g.now }
    // The answer is that of the definition.
    ensures answer { IfOk result (λ r. IsAnswer tables.now.p (forms rules.now) tables.now.target tables.now.degree g.now (answer_of r)) }
    // It can be printed with the letters of the generators.
    ensures over { IfOk result (λ r. IsOver tables.now.p (length tables.now.target) (answer_of r)) }
{
    if let Some(m) = misfit(tables.target(), g.terms()) {
        return Ok(Reply::OutOfType(m.try_copy(alloc)?));
    }
    let degree = g.degree();
    if degree > tables.degree() {
        return Ok(Reply::NotBuilt(degree));
    }
    let value = tables.value(alloc, g)?;
    if value.is_zero() {
        return Ok(Reply::Zero);
    }
    let list = row_terms(alloc, rules, tables, &value)?;
    Ok(Reply::NotZero(Poly::from_terms(alloc, tables.field(), list)?))
}
