//! Lanes of columns that became pivots are dropped.
ghost use Rattle.std.specs.Prelude.{◌≡◌, ℕ, ◌<◌, List, [], length, map, slice_index, slice_index_or, IfOk, OnOk};
ghost use Rattle.alb_reduce.specs.Echelon.{HasSameRows, IsHeld, IsReady};
ghost use Rattle.alb_reduce.specs.Index.{IsIndex};
ghost use Rattle.alb_reduce.specs.Lanes.{gather, AreFreeLanes, AreGathered, Covers};

use crate::kept::Kept;
use crate::lanes::zeros;
use crate::places::{place_of, slots_of};
use alb_mono::NoMemory;
use gf_field::Residue;
use std::alloc::Global;

// The lanes whose columns are no pivots.
fn free_lanes(alloc: Global, live: &[u32], places: &[usize]) -> Result<Vec<usize>, NoMemory>
    ensures { IfOk result (λ v. (pivots : List ℕ) → IsIndex pivots places.now → AreFreeLanes live.now pivots (length live.now) v.items) }
{
    let mut lanes = Vec::new(alloc);
    for i in 0..live.len() {
        if place_of(places, live[i]).is_none() {
            lanes.push(i)?;
        }
    }
    Ok(lanes)
}

// The columns of these lanes.
fn gathered_columns(alloc: Global, places: &[usize], live: &[u32]) -> Result<Vec<u32>, NoMemory>
    requires { (k : ℕ) → k < length places.now → slice_index places.now k < length live.now }
    ensures { IfOk result (λ v. v.items ≡ gather places.now live.now) }
{
    let mut columns = Vec::with_capacity(alloc, places.len())?;
    for k in 0..places.len() {
        columns.push(live[places[k]])?;
    }
    Ok(columns)
}

// What stands in these lanes.
fn gathered_lanes(
    alloc: Global,
    places: &[usize],
    lanes: &[Residue],
) -> Result<Vec<Residue>, NoMemory>
    requires { (k : ℕ) → k < length places.now → slice_index places.now k < length lanes.now }
    ensures { IfOk result (λ v. v.items ≡ gather places.now lanes.now) }
{
    let mut gathered = Vec::with_capacity(alloc, places.len())?;
    for k in 0..places.len() {
        gathered.push(lanes[places[k]])?;
    }
    Ok(gathered)
}

// Leaves of each row these lanes.
fn gather_rows(
    alloc: Global,
    places: &[usize],
    rows: &mut Vec<Vec<Residue>>,
) -> Result<(), NoMemory>
    requires { (l k : ℕ) → l < length rows.old.items → k < length places.now → slice_index places.now k < length (slice_index_or (map (λ v. v.items) rows.old.items) l []) }
    ensures { OnOk result (AreGathered places.now (map (λ v. v.items) rows.old.items) (map (λ v. v.items) rows.new.items) (length rows.old.items)) }
{
    for l in 0..rows.len() {
        rows[l] = gathered_lanes(alloc, places, &rows[l])?;
    }
    Ok(())
}

// Drops the lanes of pivots, in which every row is 0.
pub(crate) fn drop_lanes(kept: &mut Kept, scratch: &mut Vec<Residue>) -> Result<(), NoMemory>
    requires held { (p : ℕ) × IsHeld p kept.old }
    ensures ready { OnOk result ((p columns : ℕ) → IsReady p columns kept.old scratch.old.items → IsReady p columns kept.new scratch.new.items) }
    ensures covers { OnOk result ((p columns : ℕ) → IsReady p columns kept.old scratch.old.items → Covers columns kept.old.live.items kept.old.pivots.items → Covers columns kept.new.live.items kept.new.pivots.items) }
    ensures same { OnOk result ((p columns : ℕ) → IsReady p columns kept.old scratch.old.items → HasSameRows kept.old kept.new) }
{
    let alloc = *kept.pivots.allocator();
    let places = free_lanes(alloc, &kept.live, &kept.places)?;
    gather_rows(alloc, &places, &mut kept.lanes)?;
    let live = gathered_columns(alloc, &places, &kept.live)?;
    kept.slots = slots_of(alloc, &live)?;
    *scratch = zeros(alloc, live.len())?;
    kept.live = live;
    Ok(())
}
