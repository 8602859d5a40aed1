//! The polynomials of lines: coefficients at the numbers of monomials.
ghost use Rattle.std.specs.Prelude.{◌≡◌, ◌<◌, ◌≤◌, ℕ, IfOk, OnOk, All, IsTrue, length, map};
ghost use Rattle.gf_sums.specs.Sums.{reindex};
ghost use Rattle.alb_mono.specs.Tree.{tree, node, are_below, degree};
ghost use Rattle.alb_poly.specs.Poly.{AreResidues, normal};
ghost use Rattle.alb_poly.specs.Consequence.{beside};
ghost use Rattle.alb_poly.specs.Instance.{fill};
ghost use Rattle.alb_poly.specs.Terms.{terms};
ghost use Rattle.alb_nodes.specs.Nodes.{at, Extends};
ghost use Rattle.alb_deriv.specs.Numbered.{read};

use alb_mono::{Mono, NoMemory, Side};
use alb_nodes::Numbers;
use alb_poly::{Poly, Term};
use gf_field::{Field, Residue};
use std::alloc::Global;
use std::marker::Model;

/// Terms of a polynomial, by the numbers of their monomials.
#[derive(Drop)]
pub struct Numbered {
    pub(crate) list: Vec<(Residue, usize)>,
}

impl Model for Numbered {
    ghost use Rattle.std.specs.Prelude.{List, ℕ};

    ghost Value = { List (ℕ × ℕ) };

    ghost view = { λ f. f.list.items };
}

impl Numbered {
    /// The terms.
    pub fn terms(&self) -> &[(Residue, usize)]
        ensures { result.now ≡ self.now }
    {
        self.list.as_slice()
    }
}

/// The numbers of the monomials.
pub fn all_numbers(
    alloc: Global,
    numbers: &mut Numbers,
    ms: &[Mono],
) -> Result<Vec<usize>, NoMemory>
    ensures value { IfOk result (λ v. map (at numbers.new) v.items ≡ map tree ms.now) }
    ensures within { IfOk result (λ v. All (λ k. k < length numbers.new) v.items) }
    ensures kept { OnOk result (Extends numbers.old numbers.new) }
{
    let mut list = Vec::new(alloc);
    for m in ms {
        let number = numbers.number(m)?;
        list.push(number)?;
    }
    Ok(list)
}

/// The terms with each position replaced by the monomial of its number.
pub fn filled_terms(
    alloc: Global,
    numbers: &mut Numbers,
    list: &[Term],
    ns: &[usize],
) -> Result<Vec<(Residue, usize)>, NoMemory>
    requires positions { All (λ t. IsTrue (are_below (length ns.now) (tree t.mono))) list.now }
    requires within { All (λ k. k < length numbers.old) ns.now }
    ensures value { IfOk result (λ v. read numbers.new v.items ≡ reindex (fill (map (at numbers.old) ns.now)) (terms list.now)) }
    ensures within { IfOk result (λ v. All (λ t. t.1 < length numbers.new) v.items) }
    ensures kept { OnOk result (Extends numbers.old numbers.new) }
{
    let mut out = Vec::new(alloc);
    for t in list {
        let number = numbers.filled(&t.mono, ns)?;
        out.push((t.coef, number))?;
    }
    Ok(out)
}

// The number of a product with the monomial `n`, which stands on the named side.
fn beside_number(numbers: &mut Numbers, side: Side, k: usize, n: usize) -> Result<usize, NoMemory>
    requires within { k < length numbers.old }
    requires factor { n < length numbers.old }
    ensures value { IfOk result (λ j. at numbers.new j ≡ beside (side, at numbers.old n) (at numbers.old k)) }
    ensures within { IfOk result (λ j. j < length numbers.new) }
    ensures kept { OnOk result (Extends numbers.old numbers.new) }
{
    match side {
        Side::Left => numbers.product(n, k),
        Side::Right => numbers.product(k, n),
    }
}

/// The terms beside the monomial of a number.
pub fn terms_beside(
    alloc: Global,
    numbers: &mut Numbers,
    list: &[(Residue, usize)],
    side: Side,
    n: usize,
) -> Result<Vec<(Residue, usize)>, NoMemory>
    requires within { All (λ t. t.1 < length numbers.old) list.now }
    requires factor { n < length numbers.old }
    ensures value { IfOk result (λ v. read numbers.new v.items ≡ reindex (beside (side, at numbers.old n)) (read numbers.old list.now)) }
    ensures within { IfOk result (λ v. All (λ t. t.1 < length numbers.new) v.items) }
    ensures kept { OnOk result (Extends numbers.old numbers.new) }
{
    let mut out = Vec::new(alloc);
    for t in list {
        let number = beside_number(numbers, side, t.1, n)?;
        out.push((t.0, number))?;
    }
    Ok(out)
}

// The terms with monomials in memory of their own.
fn own_terms(
    alloc: Global,
    numbers: &Numbers,
    list: &[(Residue, usize)],
) -> Result<Vec<Term>, NoMemory>
    requires within { All (λ t. t.1 < length numbers.now) list.now }
    requires small { All (λ t. degree (at numbers.now t.1) ≤ 64) list.now }
    requires letters { All (λ t. IsTrue (are_below 26 (at numbers.now t.1))) list.now }
    ensures { IfOk result (λ v. terms v.items ≡ read numbers.now list.now) }
{
    let mut out = Vec::new(alloc);
    for t in list {
        let mono = numbers.mono(alloc, t.1)?;
        out.push(Term { coef: t.0, mono })?;
    }
    Ok(out)
}

/// The polynomial of terms by numbers.
pub fn poly_of(
    alloc: Global,
    field: &Field,
    numbers: &Numbers,
    f: &Numbered,
) -> Result<Poly, NoMemory>
    requires within { All (λ t. t.1 < length numbers.now) f.now }
    requires small { All (λ t. degree (at numbers.now t.1) ≤ 64) f.now }
    requires letters { All (λ t. IsTrue (are_below 26 (at numbers.now t.1))) f.now }
    requires residues { All (λ t. t.0 < field.now) f.now }
    ensures value { IfOk result (λ g. g ≡ normal field.now (read numbers.now f.now)) }
    ensures residues { IfOk result (λ g. AreResidues field.now g) }
{
    let list = own_terms(alloc, numbers, f.terms())?;
    Poly::from_terms(alloc, field, list)
}
