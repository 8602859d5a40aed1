//! Values in the algebra of a list of products.
ghost use Rattle.std.specs.Prelude.{◌≡◌, ℕ, ◌*◌, ◌<◌, ◌≤◌, ◌++◌, IsTrue, IfOk, OnOk, All, length, slice_index_or, []};
ghost use Rattle.gf_sums.specs.Sums.{scale, multiply};
ghost use Rattle.alb_mono.specs.Tree.{tree, are_below};
ghost use Rattle.alb_poly.specs.Textbook.{evaluate, evaluate_poly};
ghost use Rattle.alb_poly.specs.Poly.{AreResidues as HasResidues};
ghost use Rattle.alb_rows.specs.Row.{comb, AreCellResidues, AreSameVector};
ghost use Rattle.alb_check.specs.Products.{AreProducts, listed_product, times_right, vectors};

use crate::product::{Product, product_at};
use alb_mono::{Mono, NoMemory};
use alb_poly::Poly;
use alb_rows::Row;
use gf_field::{Field, Residue};
use std::alloc::Global;

// The algebra of a list of products over a field.
#[derive(Clone, Copy)]
pub(crate) struct Algebra<'a> {
    pub field: &'a Field,
    pub products: &'a [Product],
}

impl Algebra<'_> {
    // Adds `c` times the product of two elements.
    fn add_product(&self, c: Residue, left: u32, right: u32, sum: &mut Row) -> Result<(), NoMemory>
        requires products { AreProducts self.now.field.now self.now.products.now }
        requires coefficient { c < self.now.field.now }
        requires row { AreCellResidues self.now.field.now sum.old }
        ensures row { OnOk result (AreCellResidues self.now.field.now sum.new) }
        ensures value { OnOk result (AreSameVector self.now.field.now (comb sum.new) (comb sum.old ++ scale c (listed_product self.now.products.now left right))) }
    {
        match product_at(self.products, u64::from(left), u64::from(right)) {
            None => Ok(()),
            Some(row) => sum.add_scaled(self.field, c, row),
        }
    }

    // Adds `c` times the product of an element and a vector.
    fn add_times(&self, c: Residue, left: u32, right: &Row, sum: &mut Row) -> Result<(), NoMemory>
        requires products { AreProducts self.now.field.now self.now.products.now }
        requires coefficient { c < self.now.field.now }
        requires right { AreCellResidues self.now.field.now right.now }
        requires row { AreCellResidues self.now.field.now sum.old }
        ensures row { OnOk result (AreCellResidues self.now.field.now sum.new) }
        ensures value { OnOk result (AreSameVector self.now.field.now (comb sum.new) (comb sum.old ++ times_right self.now.products.now c left (comb right.now))) }
    {
        for cell in right.cells() {
            self.add_product(self.field.mul(c, cell.1), left, cell.0, sum)?;
        }
        Ok(())
    }

    // The product of two vectors.
    fn product_of(&self, alloc: Global, left: &Row, right: &Row) -> Result<Row, NoMemory>
        requires products { AreProducts self.now.field.now self.now.products.now }
        requires left { AreCellResidues self.now.field.now left.now }
        requires right { AreCellResidues self.now.field.now right.now }
        ensures row { IfOk result (λ r. AreCellResidues self.now.field.now r) }
        ensures value { IfOk result (λ r. AreSameVector self.now.field.now (comb r) (multiply (listed_product self.now.products.now) (comb left.now) (comb right.now))) }
    {
        let mut sum = Row::new(alloc);
        for cell in left.cells() {
            self.add_times(cell.1, cell.0, right, &mut sum)?;
        }
        Ok(sum)
    }

    // The value of a monomial, with each generator at its vector.
    fn monomial_value(&self, alloc: Global, rows: &[Row], m: &Mono) -> Result<Row, NoMemory>
        requires products { AreProducts self.now.field.now self.now.products.now }
        requires rows { All (λ r. AreCellResidues self.now.field.now r) rows.now }
        requires known { IsTrue (are_below (length rows.now) (tree m.now)) }
        ensures row { IfOk result (λ r. AreCellResidues self.now.field.now r) }
        ensures value { IfOk result (λ r. AreSameVector self.now.field.now (comb r) (evaluate (listed_product self.now.products.now) (vectors rows.now) (tree m.now))) }
    {
        match m {
            Mono::Gen(k) => rows[*k as usize].try_copy(alloc),
            Mono::Prod(left, right) => {
                let left = self.monomial_value(alloc, rows, left)?;
                let right = self.monomial_value(alloc, rows, right)?;
                self.product_of(alloc, &left, &right)
            }
        }
    }

    /// The value of a polynomial, with each generator at its vector.
    pub(crate) fn value_of(&self, alloc: Global, rows: &[Row], f: &Poly) -> Result<Row, NoMemory>
        requires products { AreProducts self.now.field.now self.now.products.now }
        requires rows { All (λ r. AreCellResidues self.now.field.now r) rows.now }
        requires coefficients { HasResidues self.now.field.now f.now }
        requires known { All (λ t. IsTrue (are_below (length rows.now) t.1)) f.now }
        ensures row { IfOk result (λ r. AreCellResidues self.now.field.now r) }
        ensures value { IfOk result (λ r. AreSameVector self.now.field.now (comb r) (evaluate_poly (listed_product self.now.products.now) (vectors rows.now) f.now)) }
    {
        let mut sum = Row::new(alloc);
        for t in f.terms() {
            let value = self.monomial_value(alloc, rows, &t.mono)?;
            sum.add_scaled(self.field, t.coef, &value)?;
        }
        Ok(sum)
    }
}
