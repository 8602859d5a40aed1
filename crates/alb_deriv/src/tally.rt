//! Sums of many polynomials, collected by the numbers of their monomials.
ghost use Rattle.std.specs.Prelude.{◌≡◌, ◌<◌, ◌++◌, [], ◌∷◌, ℕ, List, All, IfOk, OnOk, length};
ghost use Rattle.gf_sums.specs.Sums.{scale};
ghost use Rattle.alb_mono.specs.Listing.{Each};
ghost use Rattle.alb_mono.specs.Tree.{Tree};
ghost use Rattle.alb_deriv.specs.Numbered.{AreAlike, AreApart, IsFit, IsCoefficient, before};
ghost use Rattle.alb_deriv.specs.Tally.{tallied, paired, nonzero, IsTally};

use crate::numbered::Numbered;
use alb_mono::NoMemory;
use gf_field::{Field, Residue};
use indexmap::IndexSet;
use std::alloc::Global;

// The coefficients of monomials by their numbers, each number once. A coefficient stands at its number's place.
#[derive(Drop)]
pub(crate) struct Tally {
    numbers: IndexSet<usize>,
    coefs: Vec<Residue>,
}

// Appends the term, unless its coefficient is 0.
fn push_nonzero(
    coef: Residue,
    number: usize,
    list: &mut Vec<(Residue, usize)>,
) -> Result<(), NoMemory>
    ensures { OnOk result (list.new.items ≡ list.old.items ++ before coef number) }
{
    if coef != 0 {
        list.push((coef, number))?;
    }
    Ok(())
}

// The terms with a coefficient that is not 0.
fn nonzero_terms(
    alloc: Global,
    coefs: &[Residue],
    numbers: &[usize],
) -> Result<Vec<(Residue, usize)>, NoMemory>
    requires long { length coefs.now ≡ length numbers.now }
    ensures { IfOk result (λ v. v.items ≡ nonzero (paired coefs.now numbers.now)) }
{
    let mut list = Vec::new(alloc);
    for k in 0..coefs.len() {
        push_nonzero(coefs[k], numbers[k], &mut list)?;
    }
    Ok(list)
}

impl Tally {
    // Zero.
    pub(crate) fn new(alloc: Global) -> Tally
        ensures value { tallied result ≡ [] }
        ensures keys { result.numbers.keys ≡ [] }
        ensures tally { (p : ℕ) → IsTally p result }
    {
        Tally {
            numbers: IndexSet::new(alloc),
            coefs: Vec::new(alloc),
        }
    }

    // Adds a term.
    fn add(&mut self, field: &Field, c: Residue, number: usize) -> Result<(), NoMemory>
        requires residue { c < field.now }
        requires tally { IsTally field.now self.old }
        ensures value { OnOk result (AreAlike field.now (tallied self.new) (tallied self.old ++ (c, number) ∷ [])) }
        ensures tally { OnOk result (IsTally field.now self.new) }
        ensures fit { (target : List ℕ) (ts : List Tree) → Each (IsFit target ts) self.old.numbers.keys → IsFit target ts number → OnOk result (Each (IsFit target ts) self.new.numbers.keys) }
    {
        let (place, is_new) = self.numbers.insert_full(number)?;
        if is_new {
            self.coefs.push(c)?;
            return Ok(());
        }
        self.coefs[place] = field.add(self.coefs[place], c);
        Ok(())
    }

    // Adds a multiple of the terms.
    pub(crate) fn add_multiple(
        &mut self,
        field: &Field,
        c: Residue,
        list: &[(Residue, usize)],
    ) -> Result<(), NoMemory>
        requires residue { c < field.now }
        requires residues { All (λ t. t.0 < field.now) list.now }
        requires tally { IsTally field.now self.old }
        ensures value { OnOk result (AreAlike field.now (tallied self.new) (tallied self.old ++ scale c list.now)) }
        ensures tally { OnOk result (IsTally field.now self.new) }
        ensures fit { (target : List ℕ) (ts : List Tree) → Each (IsFit target ts) self.old.numbers.keys → All (λ t. IsFit target ts t.1) list.now → OnOk result (Each (IsFit target ts) self.new.numbers.keys) }
    {
        for t in list {
            self.add(field, field.mul(c, t.0), t.1)?;
        }
        Ok(())
    }

    // The terms with a coefficient that is not 0.
    pub(crate) fn close(&self, alloc: Global) -> Result<Numbered, NoMemory>
        requires long { length self.now.coefs.items ≡ length self.now.numbers.keys }
        ensures value { IfOk result (λ f. f ≡ nonzero (tallied self.now)) }
        ensures apart { IfOk result (λ f. AreApart f) }
        ensures coefs { (p : ℕ) → IsTally p self.now → IfOk result (λ f. Each (IsCoefficient p) f) }
    {
        let list = nonzero_terms(alloc, &self.coefs, self.numbers.as_slice())?;
        Ok(Numbered { list })
    }
}
