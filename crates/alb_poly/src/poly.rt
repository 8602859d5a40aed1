ghost use Rattle.std.specs.Prelude.{◌≡◌, ◌+◌, ◌*◌, ◌<◌, ◌≤◌, ◌++◌, ◌==◌, [], ◌∷◌, ℕ, IsTrue, IfOk, All, MatchOption, if◌then◌else◌, length, slice_get, slice_index_or};
ghost use Rattle.gf_sums.specs.Sums.{scale, reindex, coefficient};
ghost use Rattle.alb_mono.specs.Tree.{tree, degree, are_below, same_tree};
ghost use Rattle.alb_poly.specs.Poly.{AreResidues, IsDescending, greatest_degree, product, normal};
ghost use Rattle.alb_mono.specs.Listing.{IsListing};
ghost use Rattle.alb_poly.specs.Components.{IsComponent, by_type};
ghost use Rattle.alb_poly.specs.Terms.{term, terms};
ghost use Rattle.alb_poly.specs.Consequence.{beside};
ghost use Rattle.alb_poly.specs.Textbook.{evaluate, evaluate_poly, free_product};

use crate::normal::{collected, normalised};
use crate::runs::run_start;
use crate::substitution::image;
use crate::{Term, lists};
use alb_mono::{Mono, Multi, NoMemory, Side};
use gf_field::{Field, Residue};
use std::alloc::Global;
use std::marker::Model;

/// A polynomial of the free nonassociative algebra: one descending list of terms, types first, without a coefficient 0 and
/// with no monomial twice. Contracts see the list of its coefficients with their monomials.
#[derive(Drop)]
pub struct Poly {
    list: Vec<Term>,
}

impl Model for Poly {
    ghost use Rattle.std.specs.Prelude.{List, ℕ};
    ghost use Rattle.alb_mono.specs.Tree.{Tree};
    ghost use Rattle.alb_mono.specs.TreeCode.{tree_code};
    ghost use Rattle.std.specs.Coded.{coded_list, coded_ℕ, coded×};
    ghost use Rattle.alb_poly.specs.Poly.{IsDescending};
    ghost use Rattle.alb_poly.specs.Terms.{terms};

    ghost Value = { List (ℕ × Tree) };

    ghost coded = { coded_list (coded× coded_ℕ tree_code) };

    ghost view = { λ f. terms f.list.items };

    ghost invariant = { λ f. IsDescending (terms f.list.items) };
}

// The coefficient at a monomial, 0 where it does not occur.
fn coefficient_in(list: &[Term], m: &Mono) -> Residue
    requires { IsDescending (terms list.now) }
    ensures { result ≡ coefficient same_tree (terms list.now) (tree m.now) }
{
    for t in list {
        if t.mono.is_same(m) {
            return t.coef;
        }
    }
    0
}

impl Poly {
    /// The zero polynomial.
    pub fn zero(alloc: Global) -> Poly
        ensures { result ≡ [] }
    {
        Poly {
            list: Vec::new(alloc),
        }
    }

    /// The terms, the greatest monomial first. Each monomial has degree at most 64 and letters from a to z.
    pub fn terms(&self) -> &[Term]
        ensures value { terms result.now ≡ self.now }
        ensures descending { IsDescending self.now }
        ensures small { All (λ t. degree t.1 ≤ 64) self.now }
        ensures letters { All (λ t. IsTrue (are_below 26 t.1)) self.now }
    {
        self.list.as_slice()
    }

    /// The terms by themselves, the greatest monomial first.
    pub fn into_terms(self) -> Vec<Term>
        ensures { terms result.items ≡ self }
    {
        self.list
    }

    /// The greatest degree of a monomial, 0 for the zero polynomial.
    pub fn degree(&self) -> u32
        ensures value { result ≡ greatest_degree self.now }
        ensures small { result ≤ 64 }
    {
        lists::greatest(self.list.as_slice())
    }

    /// The term with the greatest monomial; `None` exactly for the zero polynomial.
    pub fn leading(&self) -> Option<&Term>
        ensures { MatchOption result (self.now ≡ []) (λ t. slice_get self.now 0 ≡ Some (term t.now)) }
    {
        self.list.as_slice().first()
    }

    /// The coefficient at a monomial, 0 where it does not occur.
    pub fn coefficient(&self, m: &Mono) -> Residue
        ensures { result ≡ coefficient same_tree self.now (tree m.now) }
    {
        coefficient_in(self.list.as_slice(), m)
    }

    /// One term; zero where the coefficient is 0.
    pub fn term(alloc: Global, c: Residue, m: Mono) -> Result<Poly, NoMemory>
        requires small { degree (tree m) ≤ 64 }
        requires known { IsTrue (are_below 26 (tree m)) }
        ensures { IfOk result (λ f. f ≡ (if c == 0 then [] else (c, tree m) ∷ [])) }
    {
        let mut list = Vec::new(alloc);
        if c != 0 {
            list.push(Term { coef: c, mono: m })?;
        }
        Ok(Poly { list })
    }

    /// The polynomial of a list of terms, in any order and with monomials that may repeat.
    pub fn from_terms(alloc: Global, field: &Field, list: Vec<Term>) -> Result<Poly, NoMemory>
        requires { All (λ t. t.coef < field.now) list.items }
        ensures value { IfOk result (λ f. f ≡ normal field.now (terms list.items)) }
        ensures residues { IfOk result (λ f. AreResidues field.now f) }
    {
        let list = normalised(alloc, field, list)?;
        Ok(Poly { list })
    }

    /// The same polynomial in memory of its own.
    pub fn try_copy(&self, alloc: Global) -> Result<Poly, NoMemory>
        ensures value { IfOk result (λ f. f ≡ self.now) }
        ensures descending { IsDescending self.now }
    {
        let list = lists::copied(alloc, self.list.as_slice())?;
        Ok(Poly { list })
    }

    /// The sum of two polynomials over the field.
    pub fn add(&self, alloc: Global, field: &Field, other: &Poly) -> Result<Poly, NoMemory>
        requires left { AreResidues field.now self.now }
        requires right { AreResidues field.now other.now }
        ensures value { IfOk result (λ f. f ≡ normal field.now (self.now ++ other.now)) }
        ensures residues { IfOk result (λ f. AreResidues field.now f) }
    {
        let mut list = lists::copied(alloc, self.list.as_slice())?;
        lists::push_copies(alloc, other.list.as_slice(), &mut list)?;
        let list = normalised(alloc, field, list)?;
        Ok(Poly { list })
    }

    /// The multiple by a residue; zero for the residue 0.
    pub fn scale(&self, alloc: Global, field: &Field, c: Residue) -> Result<Poly, NoMemory>
        requires coefficients { AreResidues field.now self.now }
        requires residue { c < field.now }
        ensures value { IfOk result (λ f. f ≡ normal field.now (scale c self.now)) }
        ensures residues { IfOk result (λ f. AreResidues field.now f) }
    {
        let list = lists::all_multiples(alloc, field, c, self.list.as_slice())?;
        let list = collected(alloc, field, list)?;
        Ok(Poly { list })
    }

    /// The product of two polynomials over the field. The degrees add up to at most 64.
    pub fn mul(&self, alloc: Global, field: &Field, other: &Poly) -> Result<Poly, NoMemory>
        requires left { AreResidues field.now self.now }
        requires right { AreResidues field.now other.now }
        requires small { greatest_degree self.now + greatest_degree other.now ≤ 64 }
        ensures value { IfOk result (λ f. f ≡ normal field.now (product self.now other.now)) }
        ensures residues { IfOk result (λ f. AreResidues field.now f) }
    {
        let lefts = self.list.as_slice();
        let rights = other.list.as_slice();
        let list = lists::all_products(alloc, field, lefts, rights)?;
        let list = normalised(alloc, field, list)?;
        Ok(Poly { list })
    }

    /// The product with a monomial, which stands on the named side. The degrees add up to at most 64.
    pub fn mul_mono(&self, alloc: Global, side: Side, m: &Mono) -> Result<Poly, NoMemory>
        requires small { greatest_degree self.now + degree (tree m.now) ≤ 64 }
        requires known { IsTrue (are_below 26 (tree m.now)) }
        ensures { IfOk result (λ f. f ≡ reindex (beside (side, tree m.now)) self.now) }
    {
        let list = lists::all_beside(alloc, side, m, self.list.as_slice())?;
        Ok(Poly { list })
    }

    /// The nonzero homogeneous parts with their types over `gens` generators, ascending by type. All generators are below `gens`.
    pub fn components(&self, alloc: Global, gens: u8) -> Result<Vec<(Multi, Poly)>, NoMemory>
        requires few { gens ≤ 26 }
        requires known { All (λ t. IsTrue (are_below gens t.1)) self.now }
        ensures { IfOk result (λ v. IsListing by_type (IsComponent gens self.now) v.items) }
    {
        let list = self.list.as_slice();
        let mut out = Vec::new(alloc);
        let mut end = list.len();
        while end > 0 {
            let at = list[end - 1].mono.type_of(gens);
            let start = run_start(list, end, &at, gens);
            let part = lists::copied(alloc, &list[start..end])?;
            out.push((at, Poly { list: part }))?;
            end = start;
        }
        Ok(out)
    }

    /// Each generator replaced by its image, which stands at the generator's number: the value of the polynomial at the images.
    /// Each generator has an image, and this degree times that of an image is at most 64.
    pub fn substitute(
        &self,
        alloc: Global,
        field: &Field,
        images: &[Poly],
    ) -> Result<Poly, NoMemory>
        requires left { AreResidues field.now self.now }
        requires right { All (λ u. AreResidues field.now u) images.now }
        requires known { All (λ t. IsTrue (are_below (length images.now) t.1)) self.now }
        requires small { All (λ u. greatest_degree self.now * greatest_degree u ≤ 64) images.now }
        ensures value { IfOk result (λ f. f ≡ normal field.now (evaluate_poly free_product (λ k. slice_index_or images.now k []) self.now)) }
        ensures residues { IfOk result (λ f. AreResidues field.now f) }
    {
        let terms = self.terms();
        let mut list = Vec::new(alloc);
        for t in terms {
            let image = image(alloc, field, images, &t.mono)?;
            lists::push_multiples(alloc, field, t.coef, image.terms(), &mut list)?;
        }
        let list = normalised(alloc, field, list)?;
        Ok(Poly { list })
    }
}
