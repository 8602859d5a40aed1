//! Sums of pairs of basis elements, kept as one residue for each column.
ghost use Rattle.std.specs.Prelude.{◌≡◌, ◌<◌, [], ◌∷◌, All, length};
ghost use Rattle.gf_sums.specs.Sums.{scale};
ghost use Rattle.alb_rows.specs.Row.{comb, AreCellResidues};
ghost use Rattle.alb_table.specs.Right.{outer};
ghost use Rattle.alb_subst.specs.Sums.{AddsAtColumns, pairs_with};

use crate::columns::Columns;
use alb_rows::Row;
use gf_field::{Field, Residue};

// The vectors over columns, with coefficients in a field.
#[derive(Clone, Copy)]
pub(crate) struct Space<'a> {
    pub field: &'a Field,
    pub columns: &'a Columns,
}

impl Space<'_> {
    // Adds x at the column of a pair. A pair that is no column is left out.
    fn add_pair(&self, sums: &mut [Residue], x: Residue, b: u32, c: u32)
        requires len { length sums.old ≡ length self.now.columns.now }
        requires residues { All (λ y. y < self.now.field.now) sums.old }
        requires residue { x < self.now.field.now }
        ensures residues { All (λ y. y < self.now.field.now) sums.new }
        ensures adds { AddsAtColumns self.now.field.now self.now.columns.now sums.old sums.new ((x, (b, c)) ∷ []) }
    {
        match self.columns.number(b, c) {
            None => {}
            Some(column) => {
                let k = column as usize;
                sums[k] = self.field.add(sums[k], x);
            }
        }
    }

    // Adds x times the pairs of b with the columns of a row.
    fn add_line(&self, sums: &mut [Residue], x: Residue, b: u32, right: &Row)
        requires len { length sums.old ≡ length self.now.columns.now }
        requires residues { All (λ y. y < self.now.field.now) sums.old }
        requires residue { x < self.now.field.now }
        requires right { AreCellResidues self.now.field.now right.now }
        ensures residues { All (λ y. y < self.now.field.now) sums.new }
        ensures adds { AddsAtColumns self.now.field.now self.now.columns.now sums.old sums.new (scale x (pairs_with b right.now)) }
    {
        for cell in right.cells() {
            self.add_pair(sums, self.field.mul(x, cell.1), b, cell.0);
        }
    }

    // Adds x times the pairs of the columns of two rows.
    pub(crate) fn add_outer(&self, sums: &mut [Residue], x: Residue, left: &Row, right: &Row)
        requires len { length sums.old ≡ length self.now.columns.now }
        requires residues { All (λ y. y < self.now.field.now) sums.old }
        requires residue { x < self.now.field.now }
        requires left { AreCellResidues self.now.field.now left.now }
        requires right { AreCellResidues self.now.field.now right.now }
        ensures residues { All (λ y. y < self.now.field.now) sums.new }
        ensures adds { AddsAtColumns self.now.field.now self.now.columns.now sums.old sums.new (scale x (outer (λ b c. (b, c)) (comb left.now) (comb right.now))) }
    {
        for cell in left.cells() {
            self.add_line(sums, self.field.mul(x, cell.1), cell.0, right);
        }
    }
}
