ghost use Rattle.std.specs.Prelude.{IfOk};
ghost use Rattle.alb_rows.specs.Row.{AreCellResidues};

use alb_mono::NoMemory;
use alb_rows::Row;
use gf_field::{Field, Residue};
use std::alloc::Global;
use std::test::Fail;

// The sum of rows with one entry each. What is no residue is left out.
fn sum(alloc: Global, field: &Field, list: &[(u32, Residue)]) -> Result<Row, NoMemory>
    ensures { IfOk result (λ r. AreCellResidues field.now r) }
{
    let mut row = Row::new(alloc);
    for (column, c) in list {
        if u64::from(*c) < field.p() {
            let unit = Row::unit(alloc, *column, *c)?;
            row.add_scaled(field, 1, &unit)?;
        }
    }
    Ok(row)
}

#[test]
fn reads_rows(rt: HostRuntime) -> Result<(), Fail> {
    let alloc = rt.alloc();
    let field = Field::of(251)?;
    let row = sum(alloc, &field, &[(7, 3), (2, 250), (7, 4), (5, 0), (2, 2)])?;
    let copy = row.try_copy(alloc)?;
    assert!(rt; copy.cells() == [(2, 1), (7, 7)].as_slice());
    assert!(rt; copy.lead() == Some((2, 1)) && !copy.is_zero());
    assert!(rt; copy.entry(5) == 0 && copy.entry(7) == 7 && copy.entry(8) == 0);
    let zero = Row::new(alloc);
    assert!(rt; zero.lead().is_none() && zero.is_zero() && zero.entry(0) == 0);
    Ok(())
}

#[test]
fn adds_multiples(rt: HostRuntime) -> Result<(), Fail> {
    let alloc = rt.alloc();
    let field = Field::of(251)?;
    // 5 times (1:2, 2:4, 9:1) is (1:10, 2:20, 9:5)
    let mut row = sum(alloc, &field, &[(0, 9), (2, 231), (9, 1)])?;
    let other = sum(alloc, &field, &[(1, 2), (2, 4), (9, 1)])?;
    row.add_scaled(&field, 5, &other)?;
    assert!(rt; row.cells() == [(0, 9), (1, 10), (9, 6)].as_slice());
    row.scale(&field, 28);
    row.add_scaled(&field, 0, &other)?;
    assert!(rt; row.cells() == [(0, 1), (1, 29), (9, 168)].as_slice());
    let copy = row.try_copy(alloc)?;
    row.add_scaled(&field, 250, &copy)?;
    assert!(rt; row.is_zero());
    Ok(())
}
