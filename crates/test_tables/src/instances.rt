ghost use Rattle.std.specs.Prelude.{◌≤◌, length};
ghost use Rattle.alb_poly.specs.Consequence.{form};
ghost use Rattle.alb_linear.specs.Identity.{IsLinearized};

use crate::building::built;
use alb_linear::places;
use alb_mono::Multi;
use alb_poly::Linear;
use alb_rows::Row;
use alb_subst::{Columns, Instances, row_of};
use alb_table::Tables;
use fixtures::linear;
use std::alloc::Global;
use std::test::Fail;

// The first tuples of three basis elements, at most a hundred, one after the other.
fn tuples(alloc: Global, tables: &Tables, f: &Linear, t: &Multi) -> Result<Vec<u32>, Fail>
    requires { f.now.degree ≤ 8 }
{
    if t.counts().len() != tables.target().counts().len() || !t.le(tables.target()) {
        return Err("no type of the table".into());
    }
    let mut instances = Instances::open(alloc, tables, f, t)?;
    let mut all = Vec::new(alloc);
    for _ in 0..100 {
        match instances.next(tables) {
            None => return Ok(all),
            Some(tuple) => all.extend_from_slice(&tuple)?,
        }
    }
    Ok(all)
}

const ORDERS: [u32; 18] = [0, 1, 2, 0, 2, 1, 1, 0, 2, 1, 2, 0, 2, 0, 1, 2, 1, 0];

#[test]
fn tries_all_orders_of_three_generators(rt: HostRuntime) -> Result<(), Fail> {
    let alloc = rt.alloc();
    let tables = built(alloc, "1a1b1c", &[])?.tables;
    let f = linear(alloc, tables.field(), "(x,x,y)")?;
    let all = tuples(alloc, &tables, &f, &Multi::of(&[1, 1, 1]))?;
    assert!(rt; all.as_slice() == ORDERS.as_slice());
    let none = tuples(alloc, &tables, &f, &Multi::of(&[1, 1, 0]))?;
    assert!(rt; none.is_empty());
    Ok(())
}

// The tuples that never fall within a run of positions, at most a hundred, one after the other.
fn least_tuples(
    alloc: Global,
    tables: &Tables,
    f: &Linear,
    t: &Multi,
    runs: &[u8],
) -> Result<Vec<u32>, Fail>
    requires few { f.now.degree ≤ 8 }
    requires few_runs { length runs.now ≤ 8 }
{
    if t.counts().len() != tables.target().counts().len() || !t.le(tables.target()) {
        return Err("no type of the table".into());
    }
    let mut instances = Instances::open_least(alloc, tables, f, t, runs)?;
    let mut all = Vec::new(alloc);
    for _ in 0..100 {
        match instances.next(tables) {
            None => return Ok(all),
            Some(tuple) => all.extend_from_slice(&tuple)?,
        }
    }
    Ok(all)
}

#[test]
fn tries_one_order_of_each_orbit(rt: HostRuntime) -> Result<(), Fail> {
    let alloc = rt.alloc();
    let tables = built(alloc, "1a1b1c", &[])?.tables;
    let f = linear(alloc, tables.field(), "(x,x,y)")?;
    let runs = places(alloc, tables.field(), &f)?;
    assert!(rt; runs.as_slice() == [2, 1].as_slice());
    let at = Multi::of(&[1, 1, 1]);
    let least = least_tuples(alloc, &tables, &f, &at, runs.as_slice())?;
    assert!(rt; least.as_slice() == [0, 1, 2, 0, 2, 1, 1, 2, 0].as_slice());
    Ok(())
}

#[test]
fn factors_of_a_commutator_are_runs_of_their_own(rt: HostRuntime) -> Result<(), Fail> {
    let alloc = rt.alloc();
    let tables = built(alloc, "1a1b", &[])?.tables;
    let f = linear(alloc, tables.field(), "[x,y]")?;
    let runs = places(alloc, tables.field(), &f)?;
    assert!(rt; runs.as_slice() == [1, 1].as_slice());
    Ok(())
}

// The columns of the type of abc. The basis elements of the types below are a, b, c, ab, ba, ac, ca, bc, cb.
fn columns(alloc: Global, tables: &Tables) -> Result<Columns, Fail> {
    match Columns::open(alloc, tables, &Multi::of(&[1, 1, 1])) {
        Ok(columns) => Ok(columns),
        Err(_) => Err("no columns".into()),
    }
}

const COLUMNS: [(u32, (u32, u32)); 5] = [
    (0, (8, 0)),
    (3, (5, 1)),
    (5, (3, 2)),
    (6, (2, 4)),
    (11, (0, 7)),
];

#[test]
fn numbers_the_products_of_three_generators(rt: HostRuntime) -> Result<(), Fail> {
    let alloc = rt.alloc();
    let tables = built(alloc, "1a1b1c", &[])?.tables;
    let columns = columns(alloc, &tables)?;
    assert!(rt; columns.len() == 12);
    for (k, pair) in &COLUMNS {
        assert!(rt; columns.number(pair.0, pair.1) == Some(*k));
    }
    assert!(rt; columns.number(0, 1).is_none());
    assert!(rt; columns.pair(5) == (3, 2));
    Ok(())
}

// The row of the instance at a, b, c.
fn row(alloc: Global, tables: &Tables, f: &Linear, columns: &Columns) -> Result<Row, Fail>
    requires { IsLinearized tables.now.p (form f.now) }
{
    if f.degree != 3 || tables.len() < 3 {
        return Err("there is no such instance".into());
    }
    Ok(row_of(alloc, tables, f, &[0, 1, 2], columns)?)
}

// (a b) c + (b a) c - a (b c) - b (a c), and (c a) b + (c b) a - c (a b) - c (b a)
const ROWS: [(&str, [(u32, u16); 4]); 2] = [
    ("(x,x,y)", [(4, 1), (5, 1), (9, 250), (11, 250)]),
    ("(y,x,x)", [(0, 1), (2, 1), (6, 250), (7, 250)]),
];

#[test]
fn rows_are_the_values_of_instances(rt: HostRuntime) -> Result<(), Fail> {
    let alloc = rt.alloc();
    let tables = built(alloc, "1a1b1c", &[])?.tables;
    let columns = columns(alloc, &tables)?;
    for (text, cells) in &ROWS {
        let f = linear(alloc, tables.field(), text)?;
        let row = row(alloc, &tables, &f, &columns)?;
        assert!(rt; row.cells() == cells.as_slice());
    }
    Ok(())
}
