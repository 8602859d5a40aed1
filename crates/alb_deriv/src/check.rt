ghost use Rattle.std.specs.Prelude.{[], ◌≡◌, ◌<◌, ◌≤◌, ◌^◌, All, IfOk, OnOk, None, Err, length, map, IsErrOf};
ghost use Rattle.alb_poly.specs.Poly.{AreResidues, IsSamePoly, normal};
ghost use Rattle.alb_poly.specs.Consequence.{forms, IsConsequence};
ghost use Rattle.alb_poly.specs.Terms.{terms};
ghost use Rattle.alb_deriv.specs.Derivation.{same_terms, first_fault, claim_fault, last_value, IsDerivation};
ghost use Rattle.alb_deriv.specs.Views.{line, IsLine};
ghost use Rattle.alb_deriv.specs.Answers.{AreDerivationRules, DerivationAnswers, ClaimAnswers};

use crate::numbered::{Numbered, poly_of};
use crate::values::value_of;
use crate::{DerivError, Line};
use alb_mono::NoMemory;
use alb_nodes::Numbers;
use alb_poly::{Poly, Rules, Term};
use std::alloc::Global;

/// The polynomial of the last line of a derivation, zero where there is no line; or the first faulty line, counted from
/// 1, by its first fault.
pub fn check_lines(alloc: Global, rules: &Rules, lines: &[Line]) -> Result<Poly, DerivError>
    requires rules { AreDerivationRules rules.now.field rules.now.target (forms rules.now) }
    requires lines { All (λ l. IsLine rules.now.field (length rules.now.target) l) lines.now }
    ensures exact { DerivationAnswers result (first_fault rules.now.field rules.now.target (forms rules.now) [] (map line lines.now))
        (normal rules.now.field (last_value (forms rules.now) (map line lines.now))) }
    ensures residues { IfOk result (λ g. AreResidues rules.now.field g) }
{
    let mut numbers = Numbers::new(alloc);
    let mut values: Vec<Numbered> = Vec::new(alloc);
    for (k, entry) in lines.iter().enumerate() {
        match value_of(alloc, rules, &mut numbers, &values, entry) {
            Ok(value) => {
                if values.push(value).is_err() {
                    return Err(DerivError::NoMemory);
                }
            }
            Err(fault) => return Err(fault.at(k as u64 + 1)),
        }
    }
    let Some(value) = values.pop() else {
        return Ok(Poly::zero(alloc));
    };
    match poly_of(alloc, &rules.field, &numbers, &value) {
        Ok(last) => Ok(last),
        Err(NoMemory) => Err(DerivError::NoMemory),
    }
}

// Whether two lists of terms are one.
fn are_same(f: &[Term], g: &[Term]) -> bool
    ensures { result ≡ same_terms (terms f.now) (terms g.now) }
{
    if f.len() != g.len() {
        return false;
    }
    for i in 0..f.len() {
        if f[i].coef != g[i].coef || !f[i].mono.is_same(&g[i].mono) {
            return false;
        }
    }
    true
}

/// Whether the lines are a derivation of the polynomial; otherwise the first faulty line, or that they derive another
/// polynomial. What has a derivation is a consequence of the rules.
pub fn check_claim(alloc: Global, rules: &Rules, lines: &[Line], g: &Poly) -> Result<(), DerivError>
    requires rules { AreDerivationRules rules.now.field rules.now.target (forms rules.now) }
    requires lines { All (λ l. IsLine rules.now.field (length rules.now.target) l) lines.now }
    requires residues { AreResidues rules.now.field g.now }
    ensures exact { ClaimAnswers result (claim_fault rules.now.field rules.now.target (forms rules.now) g.now (map line lines.now)) }
    ensures derivation { OnOk result (IsDerivation rules.now.field rules.now.target (forms rules.now) g.now (map line lines.now)) }
    ensures consequence { OnOk result (IsConsequence rules.now.field (forms rules.now) g.now) }
{
    let last = check_lines(alloc, rules, lines)?;
    if are_same(last.terms(), g.terms()) {
        Ok(())
    } else {
        Err(DerivError::NotTheClaim)
    }
}
