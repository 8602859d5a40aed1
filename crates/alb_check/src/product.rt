ghost use Rattle.std.specs.Prelude.{◌≡◌, ◌<◌, ◌≤◌, ◌++◌, ℕ, [], All, IfOk, OnOk, IsTrue, MatchOption, length, map, true, slice_index_or, slice_range};
ghost use Rattle.alb_rows.specs.Row.{comb, AreCellResidues, AreSameVector};
ghost use Rattle.alb_check.specs.Raw.{are_ascending};
ghost use Rattle.alb_check.specs.TableAlgebra.{entries_product, vector_of};
ghost use Rattle.alb_check.specs.Products.{AreProducts, IsFactorRun, listed_product, row_at};

use crate::RawEntry;
use alb_mono::NoMemory;
use alb_rows::Row;
use gf_field::Field;
use std::alloc::Global;

/// The product of two elements, by the numbers of the elements.
#[derive(Drop)]
pub(crate) struct Product {
    pub left: u64,
    pub right: u64,
    pub row: Row,
}

// The sum of the entries at the elements that they name.
fn row_of(alloc: Global, field: &Field, entries: &[RawEntry]) -> Result<Row, NoMemory>
    requires residues { All (λ e. e.coef < field.now) entries.now }
    requires numbers { All (λ e. e.to < 4294967296) entries.now }
    ensures value { IfOk result (λ r. AreSameVector field.now (comb r) (vector_of entries.now)) }
    ensures residues { IfOk result (λ r. AreCellResidues field.now r) }
{
    match entries {
        [] => Ok(Row::new(alloc)),
        [entry] => Row::unit(alloc, entry.to as u32, entry.coef),
        _ => {
            let (first, rest) = entries.split_at(entries.len() / 2);
            let mut row = row_of(alloc, field, first)?;
            let more = row_of(alloc, field, rest)?;
            prove!(1 < field.p());
            row.add_scaled(field, 1, &more)?;
            Ok(row)
        }
    }
}

// Where the run of the entries with the factors of the one at `start` ends.
fn run_end(entries: &[RawEntry], start: usize) -> usize
    requires { start < length entries.now }
    ensures { IsFactorRun entries.now start result }
{
    let first = entries[start];
    let mut end = start + 1;
    while end < entries.len()
        && entries[end].left == first.left
        && entries[end].right == first.right
    {
        end += 1;
    }
    end
}

/// The products of the pairs that have entries, ascending.
pub(crate) fn products_of(
    alloc: Global,
    field: &Field,
    entries: &[RawEntry],
) -> Result<Vec<Product>, NoMemory>
    requires ascending { are_ascending entries.now ≡ true }
    requires residues { All (λ e. e.coef < field.now) entries.now }
    requires numbers { All (λ e. e.to < 4294967296) entries.now }
    ensures products { IfOk result (λ v. AreProducts field.now v.items) }
    ensures values { IfOk result (λ v. (i j : ℕ) → AreSameVector field.now (listed_product v.items i j) (entries_product entries.now i j)) }
{
    let mut products = Vec::new(alloc);
    let mut start = 0;
    while start < entries.len() {
        let end = run_end(entries, start);
        let row = row_of(alloc, field, &entries[start..end])?;
        products.push(Product {
            left: entries[start].left,
            right: entries[start].right,
            row,
        })?;
        start = end;
    }
    Ok(products)
}

/// The product of two elements, if it has entries.
pub(crate) fn product_at(products: &[Product], left: u64, right: u64) -> Option<&Row>
    requires { (p : ℕ) × AreProducts p products.now }
    ensures { MatchOption result (row_at products.now left right ≡ []) (λ r. r.now ≡ row_at products.now left right) }
{
    let at = products.partition_point(|x| x.left < left || (x.left == left && x.right < right));
    let Some(x) = products.get(at) else {
        return None;
    };
    if x.left == left && x.right == right {
        Some(&x.row)
    } else {
        None
    }
}
