//! Runs of terms of one type in a descending list.
ghost use Rattle.std.specs.Prelude.{◌≡◌, ◌≤◌, All, IsTrue, length};
ghost use Rattle.alb_mono.specs.Tree.{are_below};
ghost use Rattle.alb_poly.specs.Runs.{IsTypeRun};
ghost use Rattle.alb_poly.specs.Terms.{terms};

use crate::Term;
use alb_mono::Multi;

// Where the terms before `end` that have the type `at` in a row begin.
pub(crate) fn run_start(list: &[Term], end: usize, at: &Multi, gens: u8) -> usize
    requires few { gens ≤ 26 }
    requires within { end ≤ length list.now }
    requires known { All (λ t. IsTrue (are_below gens t.1)) (terms list.now) }
    requires long { length at.now ≡ gens }
    ensures { IsTypeRun gens list.now end at.now result }
{
    let mut start = end;
    while start > 0 {
        if !list[start - 1].mono.type_of(gens).is_same(at) {
            return start;
        }
        start -= 1;
    }
    start
}
