use crate::building::built;
use alb_check::{RawTable, check_table, sub_table};
use alb_mono::{Letters, Multi};
use fixtures::polynomial;
use gf_field::Residue;
use std::test::Fail;

const TYPES: [[u8; 2]; 4] = [[1, 0], [0, 1], [1, 1], [1, 1]];

const ENTRIES: [(u64, u64, u64, Residue); 2] = [(1, 2, 3, 1), (2, 1, 4, 1)];

// Whether the table has the elements a, b, ab and ba, and their products.
fn is_free(table: &RawTable) -> bool {
    for (e, counts) in table.elements.iter().zip(&TYPES) {
        if e.counts() != counts.as_slice() {
            return false;
        }
    }
    for (e, wanted) in table.entries.iter().zip(&ENTRIES) {
        if (e.left, e.right, e.to, e.coef) != *wanted {
            return false;
        }
    }
    table.elements.len() == 4 && table.entries.len() == 2
}

#[test]
fn the_free_algebra_refutes_the_commutator(rt: HostRuntime) -> Result<(), Fail> {
    let alloc = rt.alloc();
    let topic = built(alloc, "2a1b", &[])?;
    assert!(rt; topic.tables.target().counts().len() == 2);
    // aa is above the type
    let free = sub_table(alloc, &topic.tables, &Multi::of(&[1, 1]))?;
    assert!(rt; is_free(&free));
    assert!(rt; free.generators.as_slice() == [Some(1), Some(2)].as_slice());
    let rules = &topic.problem.rules;
    let claim = polynomial(alloc, &rules.field, &Letters::of(b"ab"), "ab - ba")?;
    let Ok(found) = check_table(alloc, rules, &free, &claim) else {
        return Err("the table is rejected".into());
    };
    assert!(rt; found.value.cells() == [(3, 1), (4, 250)].as_slice());
    Ok(())
}
