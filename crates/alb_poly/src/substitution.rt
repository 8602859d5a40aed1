//! Monomials whose generators are replaced by polynomials.
ghost use Rattle.std.specs.Prelude.{◌≡◌, ◌*◌, ◌<◌, ◌≤◌, [], All, IfOk, IsTrue, length, slice_index_or};
ghost use Rattle.alb_mono.specs.Tree.{tree, degree, are_below};
ghost use Rattle.alb_poly.specs.Textbook.{evaluate, free_product};
ghost use Rattle.alb_poly.specs.Poly.{normal, AreResidues, greatest_degree};

use crate::Poly;
use alb_mono::{Mono, NoMemory};
use gf_field::Field;
use std::alloc::Global;

// The monomial with the images in place of its generators.
pub(crate) fn image(
    alloc: Global,
    field: &Field,
    images: &[Poly],
    m: &Mono,
) -> Result<Poly, NoMemory>
    requires positive { 0 < field.now }
    requires residues { All (λ u. AreResidues field.now u) images.now }
    requires known { IsTrue (are_below (length images.now) (tree m.now)) }
    requires small { All (λ u. degree (tree m.now) * greatest_degree u ≤ 64) images.now }
    ensures value { IfOk result (λ f. f ≡ normal field.now (evaluate free_product (λ k. slice_index_or images.now k []) (tree m.now))) }
    ensures residues { IfOk result (λ f. AreResidues field.now f) }
{
    match m {
        Mono::Gen(k) => {
            let f = &images[*k as usize];
            f.try_copy(alloc)
        }
        Mono::Prod(left, right) => {
            let left = image(alloc, field, images, left)?;
            let right = image(alloc, field, images, right)?;
            left.mul(alloc, field, &right)
        }
    }
}
