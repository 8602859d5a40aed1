//! The pivots in the order of columns.
ghost use Rattle.std.specs.Prelude.{ℕ, List, IfOk};
ghost use Rattle.alb_reduce.specs.Echelon.{IsAscendingBelow};
ghost use Rattle.alb_reduce.specs.Index.{IsIndex};

use crate::places::place_of;
use alb_mono::NoMemory;
use std::alloc::Global;

// The pivots, ascending.
pub(crate) fn ascending(alloc: Global, places: &[usize], columns: u32) -> Result<Vec<u32>, NoMemory>
    ensures { IfOk result (λ v. (order : List ℕ) → IsIndex order places.now → IsAscendingBelow order columns v.items) }
{
    let mut pivots = Vec::new(alloc);
    for column in 0..columns {
        if place_of(places, column).is_some() {
            pivots.push(column)?;
        }
    }
    Ok(pivots)
}
