ghost use Rattle.std.specs.Prelude.{◌≡◌, ◌<◌, IfOk};
ghost use Rattle.std.specs.List.{All};
ghost use Rattle.alb_rows.specs.Row.{ColumnsBelow, IsRowOver};

use alb_mono::NoMemory;
use alb_reduce::{Echelon, Offered, Reduced};
use alb_rows::Row;
use gf_field::{Field, Residue};
use std::alloc::Global;
use std::test::Fail;

// The row with these entries. What is no residue or no column is left out.
fn row_with(
    alloc: Global,
    field: &Field,
    columns: u32,
    entries: &[Residue],
) -> Result<Row, NoMemory>
    ensures row { IfOk result (λ r. IsRowOver field.now r) }
    ensures columns { IfOk result (λ r. ColumnsBelow columns r) }
{
    let mut row = Row::new(alloc);
    for column in 0..columns {
        let c = entries.get(column as usize).copied().unwrap_or(0);
        if u64::from(c) < field.p() {
            let unit = Row::unit(alloc, column, c)?;
            row.add_scaled(field, 1, &unit)?;
        }
    }
    Ok(row)
}

// The reduced form of rows that are offered with the tags 7, 8, 9 and so on, and the answers.
fn reduced(
    alloc: Global,
    field: Field,
    columns: u32,
    keep_recipes: bool,
    rows: &[[Residue; 4]],
) -> Result<(Reduced, Vec<Offered>), NoMemory> {
    let mut echelon = Echelon::new(alloc, field, columns, keep_recipes);
    let mut answers = Vec::new(alloc);
    for k in 0..rows.len().min(100) {
        let row = row_with(alloc, &field, columns, &rows[k])?;
        let (next, answer) = echelon.offer(row, 7 + k as u32)?;
        echelon = next;
        answers.push(answer)?;
    }
    Ok((echelon.close()?, answers))
}

// Whether the column is a pivot whose row has these cells, or no pivot where there are none.
fn has_row(form: &Reduced, column: u32, cells: &[(u32, Residue)]) -> bool {
    match form.row_of(column) {
        None => cells.is_empty(),
        Some(row) => row.cells() == cells,
    }
}

// Whether the column has this recipe, or none where there are no items.
fn has_recipe(form: &Reduced, column: u32, items: &[(Residue, u32)]) -> bool {
    match form.recipe_of(column) {
        None => items.is_empty(),
        Some(recipe) => recipe == items,
    }
}

const DEPENDENT: [[Residue; 4]; 3] = [[2, 4, 0, 0], [1, 2, 5, 0], [3, 6, 0, 0]];

#[test]
fn keeps_rows_with_recipes(rt: HostRuntime) -> Result<(), Fail> {
    let field = Field::of(251)?;
    let (form, answers) = reduced(rt.alloc(), field, 3, true, &DEPENDENT)?;
    let wanted = [Offered::Pivot(0), Offered::Pivot(2), Offered::Dependent];
    assert!(rt; answers.as_slice() == wanted.as_slice());
    assert!(rt; form.pivots() == [0, 2].as_slice());
    assert!(rt; form.tags() == [7, 8].as_slice());
    assert!(rt; has_row(&form, 0, &[(0, 1), (1, 2)]));
    assert!(rt; has_row(&form, 1, &[]));
    assert!(rt; has_row(&form, 2, &[(2, 1)]));
    assert!(rt; has_recipe(&form, 0, &[(126, 7)]));
    assert!(rt; has_recipe(&form, 1, &[]));
    assert!(rt; has_recipe(&form, 2, &[(25, 7), (201, 8)]));
    Ok(())
}

/// Combinations of (1, 0, 1, 0), (0, 1, 3, 0) and (0, 0, 0, 1) over 5 elements, in three orders.
const ORDERS: [[[Residue; 4]; 4]; 3] = [
    [[0, 1, 3, 0], [2, 1, 0, 0], [0, 2, 1, 4], [2, 3, 1, 4]],
    [[2, 3, 1, 4], [0, 2, 1, 4], [2, 1, 0, 0], [0, 1, 3, 0]],
    [[0, 2, 1, 4], [0, 1, 3, 0], [2, 3, 1, 4], [2, 1, 0, 0]],
];

#[test]
fn order_does_not_matter(rt: HostRuntime) -> Result<(), Fail> {
    let field = Field::of(5)?;
    for rows in &ORDERS {
        let (form, _) = reduced(rt.alloc(), field, 4, false, rows)?;
        assert!(rt; form.pivots() == [0, 1, 3].as_slice());
        assert!(rt; has_row(&form, 0, &[(0, 1), (2, 1)]));
        assert!(rt; has_row(&form, 1, &[(1, 1), (2, 3)]));
        assert!(rt; has_row(&form, 2, &[]));
        assert!(rt; has_row(&form, 3, &[(3, 1)]));
        assert!(rt; form.tags().len() == 3 && has_recipe(&form, 0, &[]));
    }
    Ok(())
}

#[test]
fn reduces_rows(rt: HostRuntime) -> Result<(), Fail> {
    let alloc = rt.alloc();
    let field = Field::of(5)?;
    let echelon = Echelon::new(alloc, field, 3, false);
    let row = row_with(alloc, &field, 3, &[0, 1, 3])?;
    let (echelon, answer) = echelon.offer(row, 7)?;
    assert!(rt; answer == Offered::Pivot(1));
    let row = echelon.reduce(row_with(alloc, &field, 3, &[2, 1])?)?;
    assert!(rt; row.cells() == [(0, 2), (2, 2)].as_slice());
    Ok(())
}
