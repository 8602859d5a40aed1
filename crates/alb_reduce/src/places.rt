//! Where columns stand in a list.
ghost use Rattle.std.specs.Prelude.{◌≡◌, ℕ, ◌+◌, ◌<◌, ◌≢◌, ◌^◌, List, IfOk, OnOk, MatchOption, length, slice_index};
ghost use Rattle.alb_rows.specs.Span.{Ascending};
ghost use Rattle.alb_reduce.specs.Index.{IsIndex, PutsAt};

use alb_mono::NoMemory;
use std::alloc::Global;

// The place of the pivot of a column.
pub(crate) fn place_of(places: &[usize], column: u32) -> Option<usize>
    ensures { (pivots : List ℕ) → IsIndex pivots places.now → MatchOption result ((i : ℕ) → i < length pivots → slice_index pivots i ≢ column) (λ k. (k < length pivots) × (slice_index pivots k ≡ column)) }
{
    let c = column as usize;
    if c >= places.len() {
        return None;
    }
    let n = places[c];
    if n == 0 { None } else { Some(n - 1) }
}

// Notes the place of a new pivot.
pub(crate) fn put_place(places: &mut Vec<usize>, column: u32, place: usize) -> Result<(), NoMemory>
    requires { place + 1 < 2 ^ 64 }
    ensures { OnOk result (PutsAt places.old.items places.new.items column (place + 1)) }
{
    let c = column as usize;
    for _i in places.len()..c + 1 {
        places.push(0)?;
    }
    places[c] = place + 1;
    Ok(())
}

// The places of ascending columns.
pub(crate) fn slots_of(alloc: Global, live: &[u32]) -> Result<Vec<usize>, NoMemory>
    requires { Ascending live.now }
    ensures { IfOk result (λ v. IsIndex live.now v.items) }
{
    let mut slots = Vec::new(alloc);
    for i in 0..live.len() {
        put_place(&mut slots, live[i], i)?;
    }
    Ok(slots)
}
