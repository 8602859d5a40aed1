ghost use Rattle.std.specs.Prelude.{◌≡◌, ◌≤◌, IsTrue, IfOk, All, length, map, sum_by};
ghost use Rattle.gf_sums.specs.Sums.{reindex};
ghost use Rattle.alb_mono.specs.Tree.{tree, are_below, degree};
ghost use Rattle.alb_poly.specs.Poly.{AreResidues, normal};
ghost use Rattle.alb_poly.specs.Consequence.{form};
ghost use Rattle.alb_poly.specs.Terms.{terms};
ghost use Rattle.alb_poly.specs.Instance.{fill, instance};
ghost use Rattle.alb_linear.specs.Identity.{IsLinearized};

use alb_mono::{Mono, NoMemory};
use alb_poly::{Linear, Poly, Term};
use gf_field::Field;
use std::alloc::Global;

// The monomial with each position replaced by its monomial.
fn filled(alloc: Global, m: &Mono, ms: &[Mono]) -> Result<Mono, NoMemory>
    requires { IsTrue (are_below (length ms.now) (tree m.now)) }
    ensures { IfOk result (λ r. tree r ≡ fill (map tree ms.now) (tree m.now)) }
{
    match m {
        Mono::Gen(k) => ms[*k as usize].try_copy(alloc),
        Mono::Prod(left, right) => {
            let left = filled(alloc, left, ms)?;
            let right = filled(alloc, right, ms)?;
            Mono::product(alloc, left, right)
        }
    }
}

// The terms with each position replaced by its monomial, before like ones are put together.
fn filled_terms(alloc: Global, list: &[Term], ms: &[Mono]) -> Result<Vec<Term>, NoMemory>
    requires positions { All (λ t. IsTrue (are_below (length ms.now) (tree t.mono))) list.now }
    requires small { All (λ t. degree (fill (map tree ms.now) (tree t.mono)) ≤ 64) list.now }
    requires known { All (λ t. IsTrue (are_below 26 (fill (map tree ms.now) (tree t.mono)))) list.now }
    ensures { IfOk result (λ r. terms r.items ≡ reindex (fill (map tree ms.now)) (terms list.now)) }
{
    let mut out = Vec::new(alloc);
    for t in list {
        let mono = filled(alloc, &t.mono, ms)?;
        out.push(Term { coef: t.coef, mono })?;
    }
    Ok(out)
}

/// The instance of a linearized identity at monomials, one for each position.
pub fn instance(alloc: Global, field: &Field, f: &Linear, ms: &[Mono]) -> Result<Poly, NoMemory>
    requires linearized { IsLinearized field.now (form f.now) }
    requires full { length ms.now ≡ f.now.degree }
    requires small { sum_by (λ m. degree (tree m)) ms.now ≤ 64 }
    requires known { All (λ m. IsTrue (are_below 26 (tree m))) ms.now }
    ensures value { IfOk result (λ g. g ≡ normal field.now (instance (form f.now) (map tree ms.now))) }
    ensures residues { IfOk result (λ g. AreResidues field.now g) }
{
    let list = filled_terms(alloc, f.terms.terms(), ms)?;
    Poly::from_terms(alloc, field, list)
}
