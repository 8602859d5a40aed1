//! Loops over lanes of residues.
ghost use Rattle.std.specs.Prelude.{◌≡◌, ℕ, ◌<◌, ◌≤◌, ◌++◌, ◌∷◌, [], length, map, slice_index, slice_index_or, replicate, IfOk, OnOk, MatchOption};
ghost use Rattle.alb_rows.specs.Row.{IsRow};
ghost use Rattle.alb_reduce.specs.Lanes.{lane_cells, lane_rows, AreAdded, AreResidues, AreTimes, AreZero, IsFirstLane};

use alb_mono::NoMemory;
use alb_rows::Row;
use gf_field::{Field, Residue};
use gf_lanes::{axpy, count_nonzero, first_nonzero, scale};
use std::alloc::Global;

// Adds c times the lanes of `by`.
pub(crate) fn add_multiple(field: &Field, c: Residue, by: &[Residue], lanes: &mut Vec<Residue>)
    requires long { length by.now ≡ length lanes.old.items }
    requires by_in { AreResidues field.now by.now }
    requires lanes_in { AreResidues field.now lanes.old.items }
    requires c_in { c < field.now }
    ensures { AreAdded field.now c by.now lanes.old.items lanes.new.items }
{
    axpy(field, lanes, c, by);
}

// Multiplies each lane by c.
pub(crate) fn multiply(field: &Field, c: Residue, lanes: &mut Vec<Residue>)
    requires lanes_in { AreResidues field.now lanes.old.items }
    requires c_in { c < field.now }
    ensures { AreTimes field.now c lanes.old.items lanes.new.items }
{
    scale(field, lanes, c);
}

// The first lane that is not 0.
pub(crate) fn first_lane(lanes: &[Residue]) -> Option<usize>
    ensures { MatchOption result (AreZero lanes.now) (λ i. IsFirstLane lanes.now i) }
{
    match first_nonzero(lanes) {
        None => None,
        Some(lane) => Some(lane),
    }
}

// Lanes that are 0.
pub(crate) fn zeros(alloc: Global, count: usize) -> Result<Vec<Residue>, NoMemory>
    ensures { IfOk result (λ v. v.items ≡ replicate count 0) }
{
    Ok(vec![in alloc; 0; count]?)
}

// Adds the cells of the lanes at the end.
fn push_cells(
    live: &[u32],
    lanes: &[Residue],
    cells: &mut Vec<(u32, Residue)>,
) -> Result<(), NoMemory>
    requires { length lanes.now ≡ length live.now }
    ensures { OnOk result (cells.new.items ≡ cells.old.items ++ lane_cells live.now lanes.now) }
{
    for i in 0..lanes.len() {
        if lanes[i] != 0 {
            cells.push((live[i], lanes[i]))?;
        }
    }
    Ok(())
}

// The row of the lanes.
pub(crate) fn row_of_lanes(alloc: Global, live: &[u32], lanes: &[Residue]) -> Result<Row, NoMemory>
    requires long { length lanes.now ≡ length live.now }
    requires row { IsRow (lane_cells live.now lanes.now) }
    ensures { IfOk result (λ r. r ≡ lane_cells live.now lanes.now) }
{
    let mut cells = Vec::new(alloc);
    push_cells(live, lanes, &mut cells)?;
    Ok(Row::from_cells(cells))
}

// The row of a pivot.
fn row_of_pivot(alloc: Global, live: &[u32], pivot: u32, lanes: &[Residue]) -> Result<Row, NoMemory>
    requires long { length lanes.now ≡ length live.now }
    requires row { IsRow ((pivot, 1) ∷ lane_cells live.now lanes.now) }
    ensures { IfOk result (λ r. r ≡ (pivot, 1) ∷ lane_cells live.now lanes.now) }
{
    let mut cells = Vec::with_capacity(alloc, 1 + count_nonzero(lanes))?;
    cells.push((pivot, 1))?;
    push_cells(live, lanes, &mut cells)?;
    Ok(Row::from_cells(cells))
}

// The rows of all pivots.
pub(crate) fn all_rows(
    alloc: Global,
    live: &[u32],
    pivots: &[u32],
    lanes: &[Vec<Residue>],
) -> Result<Vec<Row>, NoMemory>
    requires long { length lanes.now ≡ length pivots.now }
    requires width { (k : ℕ) → k < length pivots.now → length (slice_index_or (map (λ v. v.items) lanes.now) k []) ≡ length live.now }
    requires rows { (k : ℕ) → k < length pivots.now → IsRow (slice_index_or (lane_rows live.now pivots.now (map (λ v. v.items) lanes.now)) k []) }
    ensures { IfOk result (λ v. v.items ≡ lane_rows live.now pivots.now (map (λ v. v.items) lanes.now)) }
{
    let mut rows = Vec::with_capacity(alloc, pivots.len())?;
    for k in 0..pivots.len() {
        rows.push(row_of_pivot(alloc, live, pivots[k], &lanes[k])?)?;
    }
    Ok(rows)
}

// The columns below a number.
pub(crate) fn first_columns(alloc: Global, columns: u32) -> Result<Vec<u32>, NoMemory>
    ensures long { IfOk result (λ v. length v.items ≡ columns) }
    ensures value { IfOk result (λ v. (i : ℕ) → i < columns → slice_index v.items i ≡ i) }
{
    let mut all = Vec::with_capacity(alloc, columns as usize)?;
    for column in 0..columns {
        all.push(column)?;
    }
    Ok(all)
}
