//! The entries of the products of a block.
ghost use Rattle.std.specs.Prelude.{◌≡◌, ◌+◌, ◌<◌, ◌≤◌, ◌^◌, length, map, IfOk};
ghost use Rattle.alb_rows.specs.Row.{IsRowOver, ColumnsBelow, RowLeadsWith};
ghost use Rattle.alb_build.specs.Part.{AreFree, AreNumbers, IsNewEntry, AreNewEntries, IsPivotEntry, numbers_from};

use alb_block::Block;
use alb_mono::NoMemory;
use alb_rows::Row;
use gf_field::{Field, Residue};
use std::alloc::Global;

// For each product of the block, ascending, whether it is no pivot.
pub(crate) fn free_products(alloc: Global, block: &Block) -> Result<Vec<bool>, NoMemory>
    ensures { IfOk result (λ v. AreFree block.now.reduced (length block.now.columns) v.items) }
{
    let count = block.columns.len();
    let mut out = Vec::new(alloc);
    for k in 0..count {
        out.push(block.reduced.row_of(count - 1 - k).is_none())?;
    }
    Ok(out)
}

// For each product, ascending, the number of the basis element that it would be.
pub(crate) fn numbers_of(alloc: Global, first: u32, free: &[bool]) -> Result<Vec<u32>, NoMemory>
    requires { first + length free.now < 2 ^ 32 }
    ensures { IfOk result (λ v. v.items ≡ numbers_from first free.now) }
{
    let mut next = first;
    let mut out = Vec::new(alloc);
    for is_free in free {
        out.push(next)?;
        next += u32::from(*is_free);
    }
    Ok(out)
}

// The cells of the entry of a pivot: minus the rest of its reduced row, with the numbers of basis elements in place of columns.
fn pivot_cells(
    alloc: Global,
    field: &Field,
    row: &Row,
    numbers: &[u32],
) -> Result<Vec<(u32, Residue)>, NoMemory>
    requires row { IsRowOver field.now row.now }
    requires columns { ColumnsBelow (length numbers.now) row.now }
    requires few { length numbers.now < 2 ^ 32 }
    ensures { IfOk result (λ v. IsPivotEntry field.now numbers.now row.now v.items) }
{
    let cells = row.cells();
    let mut out = Vec::new(alloc);
    for k in 1..cells.len() {
        let (column, c) = cells[cells.len() - k];
        let place = numbers.len() - 1 - column as usize;
        out.push((numbers[place], field.neg(c)))?;
    }
    Ok(out)
}

// The entry of a product of the block.
fn entry_at(
    alloc: Global,
    field: &Field,
    block: &Block,
    numbers: &[u32],
    k: u32,
) -> Result<Row, NoMemory>
    requires field { block.now.reduced.p ≡ field.now }
    requires width { block.now.reduced.columns ≡ length block.now.columns }
    requires numbers { AreNumbers block.now.reduced (length block.now.columns) numbers.now }
    requires place { k < length block.now.columns }
    ensures { IfOk result (λ r. IsNewEntry block.now.reduced numbers.now k r) }
{
    match block.reduced.row_of(block.columns.len() - 1 - k) {
        None => Row::unit(alloc, numbers[k as usize], 1),
        Some(row) => {
            let cells = pivot_cells(alloc, field, row, numbers)?;
            Ok(Row::from_cells(cells))
        }
    }
}

// The entries of the products of the block, ascending.
pub(crate) fn entries_of(
    alloc: Global,
    field: &Field,
    block: &Block,
    numbers: &[u32],
) -> Result<Vec<Row>, NoMemory>
    requires field { block.now.reduced.p ≡ field.now }
    requires width { block.now.reduced.columns ≡ length block.now.columns }
    requires numbers { AreNumbers block.now.reduced (length block.now.columns) numbers.now }
    ensures { IfOk result (λ v. AreNewEntries block.now.reduced numbers.now v.items) }
{
    let mut out = Vec::new(alloc);
    for k in 0..block.columns.len() {
        out.push(entry_at(alloc, field, block, numbers, k)?)?;
    }
    Ok(out)
}
