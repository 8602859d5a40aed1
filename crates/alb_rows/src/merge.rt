//! Loops over the cells of rows.
ghost use Rattle.std.specs.Prelude.{◌≡◌, ℕ, ◌+◌, ◌<◌, ◌≤◌, ◌≢◌, ◌^◌, length, slice_index_or, OnOk, IfOk};
ghost use Rattle.alb_rows.specs.Row.{IsRow, AreCellResidues, ColumnsBelow};
ghost use Rattle.alb_rows.specs.Merge.{AddsAt, Merged, NextFrom, times_cells};

use alb_mono::NoMemory;
use gf_field::{Field, Residue};
use std::alloc::Global;

// Each cell times c.
pub(crate) fn scale_cells(cells: &mut [(u32, Residue)], field: &Field, c: Residue)
    requires row { IsRow cells.old }
    requires row_in { AreCellResidues field.now cells.old }
    requires c_in { c < field.now }
    requires nonzero { c ≢ 0 }
    ensures { cells.new ≡ times_cells field.now c cells.old }
{
    for x in cells.iter_mut() {
        x.1 = field.mul(c, x.1);
    }
}

// Adds a cell at the end, unless it is zero.
fn push_cell(out: &mut Vec<(u32, Residue)>, column: u32, value: Residue) -> Result<(), NoMemory>
    requires row { IsRow out.old.items }
    requires below { ColumnsBelow column out.old.items }
    ensures row { IsRow out.new.items }
    ensures adds { OnOk result (AddsAt out.old.items out.new.items column value) }
    ensures residues { (p : ℕ) → value < p → AreCellResidues p out.old.items → AreCellResidues p out.new.items }
{
    if value != 0 {
        out.push((column, value))?;
    }
    Ok(())
}

// The column at a place, and past the end a number above all columns.
fn column_at(cells: &[(u32, Residue)], k: usize) -> u64
    ensures within { k < length cells.now → result ≡ (slice_index_or cells.now k (0, 0)).0 }
    ensures past { length cells.now ≤ k → result ≡ 2 ^ 32 }
{
    if k < cells.len() {
        u64::from(cells[k].0)
    } else {
        1 << 32
    }
}

// A sum a + c b as far as it is merged.
#[derive(Drop)]
struct Merging {
    // How many cells of a are taken.
    taken: usize,
    // The cells of the sum.
    cells: Vec<(u32, Residue)>,
}

impl Merging {
    // Takes the cells of a that stand before the next one of b.
    fn take_left(
        &mut self,
        a: &[(u32, Residue)],
        b: &[(u32, Residue)],
        k: usize,
    ) -> Result<(), NoMemory>
        requires a_row { IsRow a.now }
        requires within { self.old.taken ≤ length a.now }
        ensures within { self.new.taken ≤ length a.now }
        ensures all { OnOk result (length b.now ≤ k → self.new.taken ≡ length a.now) }
        ensures before { OnOk result (k < length b.now → NextFrom (slice_index_or b.now k (0, 0)).0 a.now self.new.taken) }
        ensures merged { OnOk result ((p c : ℕ) → AreCellResidues p a.now → Merged p a.now c b.now self.old.taken k self.old.cells.items
            → Merged p a.now c b.now self.new.taken k self.new.cells.items) }
    {
        let end = column_at(b, k);
        'lefts: while self.taken < a.len() && u64::from(a[self.taken].0) < end {
            self.cells.push(a[self.taken])?;
            self.taken += 1;
        }
        Ok(())
    }

    // Takes the next cell of b, times c, with that of a where the column is the same.
    fn take_right(
        &mut self,
        field: &Field,
        a: &[(u32, Residue)],
        c: Residue,
        b: &[(u32, Residue)],
        k: usize,
    ) -> Result<(), NoMemory>
        requires a_row { IsRow a.now }
        requires b_row { IsRow b.now }
        requires a_in { AreCellResidues field.now a.now }
        requires b_in { AreCellResidues field.now b.now }
        requires c_in { c < field.now }
        requires a_within { self.old.taken ≤ length a.now }
        requires b_within { k < length b.now }
        requires before { NextFrom (slice_index_or b.now k (0, 0)).0 a.now self.old.taken }
        requires merged { Merged field.now a.now c b.now self.old.taken k self.old.cells.items }
        ensures within { self.new.taken ≤ length a.now }
        ensures merged { OnOk result (Merged field.now a.now c b.now self.new.taken (k + 1) self.new.cells.items) }
    {
        let at = self.taken;
        let (column, y) = b[k];
        let y = field.mul(c, y);
        if at < a.len() && a[at].0 == column {
            self.taken = at + 1;
            push_cell(&mut self.cells, column, field.add(a[at].1, y))
        } else {
            push_cell(&mut self.cells, column, y)
        }
    }
}

// The cells of a + c b.
pub(crate) fn merged(
    alloc: Global,
    field: &Field,
    a: &[(u32, Residue)],
    c: Residue,
    b: &[(u32, Residue)],
) -> Result<Vec<(u32, Residue)>, NoMemory>
    requires a_row { IsRow a.now }
    requires b_row { IsRow b.now }
    requires a_in { AreCellResidues field.now a.now }
    requires b_in { AreCellResidues field.now b.now }
    requires c_in { c < field.now }
    ensures { IfOk result (λ out. Merged field.now a.now c b.now (length a.now) (length b.now) out.items) }
{
    let mut sum = Merging {
        taken: 0,
        cells: Vec::with_capacity(alloc, a.len() + b.len())?,
    };
    for k in 0..b.len() {
        sum.take_left(a, b, k)?;
        sum.take_right(field, a, c, b, k)?;
    }
    sum.take_left(a, b, b.len())?;
    let Merging { taken: _, cells } = sum;
    Ok(cells)
}
