//! The row of an instance.
ghost use Rattle.std.specs.Prelude.{◌≡◌, ℕ, ◌<◌, ◌≤◌, [], ◌∷◌, All, IsTrue, IfOk, OnOk, length, map, replicate, slice_index};
ghost use Rattle.gf_sums.specs.Sums.{scale};
ghost use Rattle.alb_mono.specs.Listing.{Each};
ghost use Rattle.alb_mono.specs.Tree.{tree, are_below};
ghost use Rattle.alb_poly.specs.Consequence.{form};
ghost use Rattle.alb_linear.specs.Identity.{IsLinearized};
ghost use Rattle.alb_rows.specs.Row.{entry, AreCellResidues, ColumnsBelow, IsRow, IsRowOver};
ghost use Rattle.alb_rows.specs.Merge.{AddsAt};
ghost use Rattle.alb_table.specs.Table.{elems, table_product};
ghost use Rattle.alb_table.specs.Value.{IsBasisRow, vectors};
ghost use Rattle.alb_table.specs.Block.{image};
ghost use Rattle.alb_subst.specs.Sums.{AddsAtColumns, HasEntries, instance_row};

use crate::columns::Columns;
use crate::sums::Space;
use alb_mono::{Mono, NoMemory};
use alb_poly::{Linear, Term};
use alb_rows::Row;
use alb_table::Tables;
use gf_field::Residue;
use std::alloc::Global;

// The basis elements as vectors.
fn units(alloc: Global, tuple: &[u32]) -> Result<Vec<Row>, NoMemory>
    ensures { IfOk result (λ v. v.items ≡ map (λ b. (b, 1) ∷ []) tuple.now) }
{
    let mut rows = Vec::new(alloc);
    for b in tuple {
        rows.push(Row::unit(alloc, *b, 1)?)?;
    }
    Ok(rows)
}

// Adds a term of an instance, with vectors for the positions: the pairs of the values of its two factors.
fn add_term(
    alloc: Global,
    tables: &Tables,
    columns: &Columns,
    sums: &mut [Residue],
    rows: &[Row],
    t: &Term,
) -> Result<(), NoMemory>
    requires len { length sums.old ≡ length columns.now }
    requires residues { All (λ y. y < tables.now.p) sums.old }
    requires vectors { Each (IsBasisRow tables.now.p (length (elems tables.now.parts))) rows.now }
    requires positions { IsTrue (are_below (length rows.now) (tree t.now.mono)) }
    requires residue { t.now.coef < tables.now.p }
    ensures residues { All (λ y. y < tables.now.p) sums.new }
    ensures adds { OnOk result (AddsAtColumns tables.now.p columns.now sums.old sums.new (scale t.now.coef (image (λ b c. (b, c)) (table_product tables.now.parts) (vectors rows.now) (tree t.now.mono)))) }
{
    match &t.mono {
        Mono::Gen(_) => Ok(()),
        Mono::Prod(l, r) => {
            let left = tables.factor(alloc, l, rows)?;
            let right = tables.factor(alloc, r, rows)?;
            let (left, right) = (left.row(), right.row());
            let space = Space {
                field: tables.field(),
                columns,
            };
            space.add_outer(sums, t.coef, left, right);
            Ok(())
        }
    }
}

// The coefficients of an instance at the columns.
fn instance_sums(
    alloc: Global,
    tables: &Tables,
    f: &Linear,
    tuple: &[u32],
    columns: &Columns,
) -> Result<Vec<Residue>, NoMemory>
    requires form { IsLinearized tables.now.p (form f.now) }
    requires full { length tuple.now ≡ f.now.degree }
    requires numbers { All (λ b. b < length (elems tables.now.parts)) tuple.now }
    ensures len { IfOk result (λ v. length v.items ≡ length columns.now) }
    ensures residues { IfOk result (λ v. All (λ y. y < tables.now.p) v.items) }
    ensures adds { IfOk result (λ v. AddsAtColumns tables.now.p columns.now (replicate (length columns.now) 0) v.items (instance_row tables.now.parts (form f.now) tuple.now)) }
{
    prove!(tables.field().p() > 1);
    let rows = units(alloc, tuple)?;
    let mut sums = vec![in alloc; 0; columns.len() as usize]?;
    for t in f.terms.terms() {
        add_term(alloc, tables, columns, &mut sums, &rows, t)?;
    }
    Ok(sums)
}

// Adds a cell at the end, unless it is zero.
fn push_cell(cells: &mut Vec<(u32, Residue)>, column: u32, value: Residue) -> Result<(), NoMemory>
    requires row { IsRow cells.old.items }
    requires below { ColumnsBelow column cells.old.items }
    ensures row { IsRow cells.new.items }
    ensures adds { OnOk result (AddsAt cells.old.items cells.new.items column value) }
    ensures residues { (p : ℕ) → value < p → AreCellResidues p cells.old.items → AreCellResidues p cells.new.items }
{
    if value != 0 {
        cells.push((column, value))?;
    }
    Ok(())
}

// The cells of the residues that are not 0.
fn cells_of(alloc: Global, sums: &[Residue]) -> Result<Vec<(u32, Residue)>, NoMemory>
    requires { length sums.now ≤ 4096 }
    ensures row { IfOk result (λ v. IsRow v.items) }
    ensures entries { IfOk result (λ v. (j : ℕ) → entry v.items j ≡ slice_index sums.now j) }
    ensures columns { IfOk result (λ v. ColumnsBelow (length sums.now) v.items) }
    ensures residues { (p : ℕ) → All (λ y. y < p) sums.now → IfOk result (λ v. AreCellResidues p v.items) }
{
    let mut cells = Vec::new(alloc);
    for k in 0..sums.len() {
        push_cell(&mut cells, k as u32, sums[k])?;
    }
    Ok(cells)
}

/// The value of an instance of `f` at basis elements over the columns: at each column the coefficient of its pair, in the sum
/// over the terms of `f` of the pairs of the values of the two factors.
pub fn row_of(
    alloc: Global,
    tables: &Tables,
    f: &Linear,
    tuple: &[u32],
    columns: &Columns,
) -> Result<Row, NoMemory>
    requires form { IsLinearized tables.now.p (form f.now) }
    requires full { length tuple.now ≡ f.now.degree }
    requires numbers { All (λ b. b < length (elems tables.now.parts)) tuple.now }
    ensures entries { IfOk result (λ r. HasEntries tables.now.p columns.now r (instance_row tables.now.parts (form f.now) tuple.now)) }
    ensures row { IfOk result (λ r. IsRowOver tables.now.p r) }
    ensures columns { IfOk result (λ r. ColumnsBelow (length columns.now) r) }
{
    prove!(columns.len() <= 4096);
    let sums = instance_sums(alloc, tables, f, tuple, columns)?;
    let cells = cells_of(alloc, &sums)?;
    Ok(Row::from_cells(cells))
}
