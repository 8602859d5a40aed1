ghost use Rattle.std.specs.Prelude.{◌≡◌, ℕ, ◌+◌, ◌*◌, ◌<◌, ◌≤◌, ◌↔◌, ◌++◌, [], length, All, IfOk, OnOk, IsTrue};
ghost use Rattle.gf_sums.specs.Sums.{multiply, scale};
ghost use Rattle.alb_mono.specs.Listing.{Each};
ghost use Rattle.alb_mono.specs.Tree.{tree, are_below};
ghost use Rattle.alb_rows.specs.Row.{comb, AreSameVector};
ghost use Rattle.alb_poly.specs.Poly.{AreResidues};
ghost use Rattle.alb_poly.specs.Textbook.{evaluate};
ghost use Rattle.alb_table.specs.Table.{elems, table_product};
ghost use Rattle.alb_table.specs.Held.{cells_in};
ghost use Rattle.alb_table.specs.Value.{IsBasisRow, vectors, generator_vector, table_value, times_right};

use crate::held::Held;
use crate::tables::Tables;
use alb_mono::{Mono, NoMemory};
use alb_poly::Poly;
use alb_rows::Row;
use gf_field::Residue;
use std::alloc::Global;

impl Tables {
    // Adds x times the product of two basis elements.
    fn add_product(&self, acc: &mut Row, x: Residue, b: u32, c: u32) -> Result<(), NoMemory>
        requires row { IsBasisRow self.now.p (length (elems self.now.parts)) acc.old }
        requires residue { x < self.now.p }
        requires left { b < length (elems self.now.parts) }
        requires right { c < length (elems self.now.parts) }
        ensures row { OnOk result (IsBasisRow self.now.p (length (elems self.now.parts)) acc.new) }
        ensures value { OnOk result (AreSameVector self.now.p (comb acc.new) (comb acc.old ++ scale x (table_product self.now.parts b c))) }
    {
        match self.product(b, c) {
            None => Ok(()),
            Some(e) => {
                acc.add_scaled(self.field(), x, e)?;
                Ok(())
            }
        }
    }

    // Adds x times the basis element b, times a row.
    fn add_times(&self, acc: &mut Row, x: Residue, b: u32, right: &Row) -> Result<(), NoMemory>
        requires row { IsBasisRow self.now.p (length (elems self.now.parts)) acc.old }
        requires residue { x < self.now.p }
        requires number { b < length (elems self.now.parts) }
        requires right_row { IsBasisRow self.now.p (length (elems self.now.parts)) right.now }
        ensures row { OnOk result (IsBasisRow self.now.p (length (elems self.now.parts)) acc.new) }
        ensures value { OnOk result (AreSameVector self.now.p (comb acc.new) (comb acc.old ++ times_right self.now.parts x b (comb right.now))) }
    {
        let field = self.field();
        for cell in right.cells() {
            self.add_product(acc, field.mul(x, cell.1), b, cell.0)?;
        }
        Ok(())
    }

    /// The product of two vectors of the table's algebra, which are rows over the field and the basis numbers. What has no
    /// entry is zero.
    pub fn multiply(&self, alloc: Global, left: &Row, right: &Row) -> Result<Row, NoMemory>
        requires left_row { IsBasisRow self.now.p (length (elems self.now.parts)) left.now }
        requires right_row { IsBasisRow self.now.p (length (elems self.now.parts)) right.now }
        ensures value { IfOk result (λ r. AreSameVector self.now.p (comb r) (multiply (table_product self.now.parts) (comb left.now) (comb right.now))) }
        ensures row { IfOk result (λ r. IsBasisRow self.now.p (length (elems self.now.parts)) r) }
    {
        let mut acc = Row::new(alloc);
        for cell in left.cells() {
            self.add_times(&mut acc, cell.1, cell.0, right)?;
        }
        Ok(acc)
    }

    /// The value of a monomial over positions in the table's algebra, where each position has a vector. The value of a
    /// position is lent.
    pub fn factor<'a>(&self, alloc: Global, m: &Mono, rows: &'a [Row]) -> Result<Held<'a>, NoMemory>
        requires vectors { Each (IsBasisRow self.now.p (length (elems self.now.parts))) rows.now }
        requires positions { IsTrue (are_below (length rows.now) (tree m.now)) }
        ensures value { IfOk result (λ r. AreSameVector self.now.p (comb (cells_in r)) (evaluate (table_product self.now.parts) (vectors rows.now) (tree m.now))) }
        ensures row { IfOk result (λ r. IsBasisRow self.now.p (length (elems self.now.parts)) (cells_in r)) }
    {
        match m {
            Mono::Gen(k) => Ok(Held::Lent(&rows[*k as usize])),
            Mono::Prod(l, r) => {
                let x = self.factor(alloc, l, rows)?;
                let y = self.factor(alloc, r, rows)?;
                let product = self.multiply(alloc, x.row(), y.row())?;
                Ok(Held::Own(product))
            }
        }
    }

    /// The same as a row of its own.
    pub fn value_at(&self, alloc: Global, m: &Mono, rows: &[Row]) -> Result<Row, NoMemory>
        requires vectors { Each (IsBasisRow self.now.p (length (elems self.now.parts))) rows.now }
        requires positions { IsTrue (are_below (length rows.now) (tree m.now)) }
        ensures value { IfOk result (λ r. AreSameVector self.now.p (comb r) (evaluate (table_product self.now.parts) (vectors rows.now) (tree m.now))) }
        ensures row { IfOk result (λ r. IsBasisRow self.now.p (length (elems self.now.parts)) r) }
    {
        match self.factor(alloc, m, rows)? {
            Held::Lent(row) => row.try_copy(alloc),
            Held::Own(row) => Ok(row),
        }
    }

    // The vectors of the letters a to z: of a generator its basis element, of others zero.
    fn generator_rows(&self, alloc: Global) -> Result<Vec<Row>, NoMemory>
        ensures all { IfOk result (λ v. length v.items ≡ 26) }
        ensures vectors { IfOk result (λ v. Each (IsBasisRow self.now.p (length (elems self.now.parts))) v.items) }
        ensures values { IfOk result (λ v. (k : ℕ) → vectors v.items k ≡ generator_vector (length self.now.target) k) }
    {
        let gens = self.target().counts().len();
        let mut rows = Vec::new(alloc);
        for k in 0..26 {
            rows.push(generator_row(alloc, gens, k)?)?;
        }
        Ok(rows)
    }

    /// The value of a polynomial over the field: a generator is its basis element, a product is the product of the values by
    /// the entries, a sum is the sum. What has no entry is zero, and so is a letter that is no generator.
    pub fn value(&self, alloc: Global, g: &Poly) -> Result<Row, NoMemory>
        requires { AreResidues self.now.p g.now }
        ensures value { IfOk result (λ r. AreSameVector self.now.p (comb r) (table_value self.now g.now)) }
        ensures row { IfOk result (λ r. IsBasisRow self.now.p (length (elems self.now.parts)) r) }
        ensures zero { IfOk result (λ r. (r ≡ []) ↔ AreSameVector self.now.p (table_value self.now g.now) []) }
    {
        let rows = self.generator_rows(alloc)?;
        let mut acc = Row::new(alloc);
        for t in g.terms() {
            let value = self.value_at(alloc, &t.mono, &rows)?;
            acc.add_scaled(self.field(), t.coef, &value)?;
        }
        Ok(acc)
    }
}

// The vector of a letter.
fn generator_row(alloc: Global, gens: usize, k: u32) -> Result<Row, NoMemory>
    ensures value { IfOk result (λ r. comb r ≡ generator_vector gens k) }
    ensures row { (p n : ℕ) → 1 < p → gens ≤ n → IfOk result (λ r. IsBasisRow p n r) }
{
    if (k as usize) < gens {
        Row::unit(alloc, k, 1)
    } else {
        Ok(Row::new(alloc))
    }
}
