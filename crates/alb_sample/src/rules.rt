ghost use Rattle.std.specs.Prelude.{◌≡◌, ◌<◌, [], ◌∷◌, IfOk, slice_index_or};
ghost use Rattle.alb_mono.specs.Tree.{tree, leaf, node};
ghost use Rattle.alb_poly.specs.Consequence.{form};
ghost use Rattle.alb_poly.specs.Terms.{term, terms};
ghost use Rattle.alb_table.specs.RightTable.{rules_view, AreRules};
ghost use Rattle.alb_sample.specs.Problem.{sample_forms, sample_view};

use alb_mono::{Mono, Multi, NoMemory};
use alb_poly::{Linear, Poly, Rules, Term};
use gf_field::Field;
use std::alloc::Global;

// The number -1 in the field of 251 elements.
const MINUS_ONE: u16 = 250;

// The field of 251 elements.
fn field_251() -> Field
    ensures { result ≡ 251 }
{
    match Field::of(251) {
        Ok(field) => field,
        Err(_) => unreachable!(),
    }
}

// The product of three positions, the first two of them first.
fn left_term(alloc: Global, at: (u8, u8, u8)) -> Result<Term, NoMemory>
    requires { (at.0 < 3) × (at.1 < 3) × (at.2 < 3) }
    ensures { IfOk result (λ t. term t ≡ (1, node (node (leaf at.0) (leaf at.1)) (leaf at.2))) }
{
    let pair = Mono::product(alloc, Mono::Gen(at.0), Mono::Gen(at.1))?;
    let mono = Mono::product(alloc, pair, Mono::Gen(at.2))?;
    Ok(Term { coef: 1, mono })
}

// Minus the product of three positions, the last two of them first.
fn right_term(alloc: Global, at: (u8, u8, u8)) -> Result<Term, NoMemory>
    requires { (at.0 < 3) × (at.1 < 3) × (at.2 < 3) }
    ensures { IfOk result (λ t. term t ≡ (250, node (leaf at.0) (node (leaf at.1) (leaf at.2)))) }
{
    let pair = Mono::product(alloc, Mono::Gen(at.1), Mono::Gen(at.2))?;
    let mono = Mono::product(alloc, Mono::Gen(at.0), pair)?;
    Ok(Term {
        coef: MINUS_ONE,
        mono,
    })
}

// The terms of the associators of three positions in two orders.
fn associators(alloc: Global, one: (u8, u8, u8), other: (u8, u8, u8)) -> Result<Vec<Term>, NoMemory>
    requires one { (one.0 < 3) × (one.1 < 3) × (one.2 < 3) }
    requires other { (other.0 < 3) × (other.1 < 3) × (other.2 < 3) }
    ensures { IfOk result (λ v. terms v.items ≡ (1, node (node (leaf one.0) (leaf one.1)) (leaf one.2)) ∷ (1, node (node (leaf other.0) (leaf other.1)) (leaf other.2))
        ∷ (250, node (leaf one.0) (node (leaf one.1) (leaf one.2))) ∷ (250, node (leaf other.0) (node (leaf other.1) (leaf other.2))) ∷ []) }
{
    let mut list = Vec::new(alloc);
    list.push(left_term(alloc, one)?)?;
    list.push(left_term(alloc, other)?)?;
    list.push(right_term(alloc, one)?)?;
    list.push(right_term(alloc, other)?)?;
    Ok(list)
}

// The linearization of (x,x,y): the positions 0 and 1 are those of x.
fn left_alternative(alloc: Global) -> Result<Linear, NoMemory>
    ensures { IfOk result (λ f. form f ≡ slice_index_or sample_forms 0 (form f)) }
{
    let list = associators(alloc, (0, 1, 2), (1, 0, 2))?;
    let terms = Poly::from_terms(alloc, &field_251(), list)?;
    Ok(Linear { degree: 3, terms })
}

// The linearization of (y,x,x).
fn right_alternative(alloc: Global) -> Result<Linear, NoMemory>
    ensures { IfOk result (λ f. form f ≡ slice_index_or sample_forms 1 (form f)) }
{
    let list = associators(alloc, (2, 0, 1), (2, 1, 0))?;
    let terms = Poly::from_terms(alloc, &field_251(), list)?;
    Ok(Linear { degree: 3, terms })
}

/// The problem of the sample: the alternative laws (x,x,y) and (y,x,x) over the field of 251 elements, and two generators, each
/// four times.
pub fn sample_rules(alloc: Global) -> Result<Rules, NoMemory>
    ensures value { IfOk result (λ r. rules_view r ≡ sample_view) }
    ensures rules { IfOk result (λ r. AreRules (rules_view r)) }
{
    let mut linears = Vec::new(alloc);
    linears.push(left_alternative(alloc)?)?;
    linears.push(right_alternative(alloc)?)?;
    Ok(Rules {
        field: field_251(),
        target: Multi::of(&[4, 4]),
        linears,
    })
}
