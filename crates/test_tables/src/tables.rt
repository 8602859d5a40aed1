use crate::building::built;
use alb_mono::{Letters, Mono, Multi};
use alb_rows::Row;
use alb_table::Elem;
use fixtures::polynomial;
use std::test::Fail;

// Whether these are the cells.
fn has_cells(row: Option<&Row>, cells: &[(u32, u16)]) -> bool {
    match row {
        Some(row) => row.cells() == cells,
        None => false,
    }
}

// The free algebra on a, at most twice, and b, at most once. Its basis is a, b, aa, ab, ba, a(ab), a(ba), b(aa), (aa)b, (ab)a,
// (ba)a.
#[test]
fn has_the_free_products(rt: HostRuntime) -> Result<(), Fail> {
    let alloc = rt.alloc();
    let tables = built(alloc, "2a1b", &[])?.tables;
    assert!(rt; tables.len() == 11);
    assert!(rt; tables.degree() == 3 && tables.field().p() == 251);
    assert!(rt; tables.target().counts() == [2, 1].as_slice());
    assert!(rt; tables.elem(1) == Elem::Gen(1));
    assert!(rt; tables.elem(4) == Elem::Prod(1, 0));
    assert!(rt; tables.elem(5) == Elem::Prod(0, 3));
    assert!(rt; tables.type_at(2).counts() == [2, 0].as_slice());
    assert!(rt; tables.basis(&Multi::of(&[1, 1])) == (3, 2));
    assert!(rt; tables.dimension(&Multi::of(&[2, 1])) == 6);
    assert!(rt; tables.products() == 9 && tables.coefficients() == 9);
    assert!(rt; has_cells(tables.product(1, 0), &[(4, 1)]));
    assert!(rt; tables.product(1, 1).is_none());
    let ba = Mono::product(alloc, Mono::Gen(1), Mono::Gen(0))?;
    assert!(rt; tables.basis_mono(alloc, 4)?.is_same(&ba));
    Ok(())
}

const VALUES: [(&str, &[(u32, u16)]); 3] = [
    ("[a,b]", &[(3, 1), (4, 250)]),
    ("(a,a,b) + 3a", &[(0, 3), (5, 250), (8, 1)]),
    ("bb", &[]),
];

#[test]
fn values_are_rows_over_the_basis(rt: HostRuntime) -> Result<(), Fail> {
    let alloc = rt.alloc();
    let tables = built(alloc, "2a1b", &[])?.tables;
    for (text, cells) in &VALUES {
        let g = polynomial(alloc, tables.field(), &Letters::of(b"ab"), text)?;
        let value = tables.value(alloc, &g)?;
        assert!(rt; value.cells() == *cells);
    }
    Ok(())
}
