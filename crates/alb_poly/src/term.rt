ghost use Rattle.std.specs.Prelude.{◌≡◌, ◌+◌, ◌<◌, ◌≤◌, IfOk, IsTrue};
ghost use Rattle.alb_mono.specs.Tree.{tree, degree, are_below};

use alb_mono::{Mono, NoMemory};
use gf_field::{Field, Residue};
use std::alloc::Global;

/// A coefficient and a monomial, of degree at most 64 over at most 26 generators.
#[derive(Drop)]
pub struct Term {
    /// The coefficient, a residue.
    pub coef: Residue,
    /// The monomial.
    pub mono: Mono,
    ghost small: { degree (tree mono) ≤ 64 },
    ghost letters: { IsTrue (are_below 26 (tree mono)) },
}

impl Term {
    ghost use Rattle.alb_poly.specs.Terms.{term, term_product};

    // A copy.
    pub(crate) fn try_copy(&self, alloc: Global) -> Result<Term, NoMemory>
        ensures { IfOk result (λ t. term t ≡ term self.now) }
    {
        let mono = self.mono.try_copy(alloc)?;
        Ok(Term {
            coef: self.coef,
            mono,
        })
    }

    // The product of two terms.
    pub(crate) fn times(&self, alloc: Global, field: &Field, other: &Term) -> Result<Term, NoMemory>
        requires left { self.now.coef < field.now }
        requires right { other.now.coef < field.now }
        requires small { degree (tree self.now.mono) + degree (tree other.now.mono) ≤ 64 }
        ensures { IfOk result (λ t. term t ≡ term_product field.now (term self.now) (term other.now)) }
    {
        let left = self.mono.try_copy(alloc)?;
        let right = other.mono.try_copy(alloc)?;
        let mono = Mono::product(alloc, left, right)?;
        Ok(Term {
            coef: field.mul(self.coef, other.coef),
            mono,
        })
    }
}
