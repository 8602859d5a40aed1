//! The building of a table, which is published degree by degree.
ghost use Rattle.std.specs.Prelude.{◌≡◌, ◌+◌, ◌^◌, ◌<◌, ◌≤◌, true, None, Some};
ghost use Rattle.std.specs.Arc.{arc_value};
ghost use Rattle.alb_table.specs.End.{end_of};
ghost use Rattle.alb_table.specs.RightTable.{rules_view, AreRules, IsRightFor};
ghost use Rattle.alb_board.specs.Passes.{board_rules, IsPassOf, pass_view};
ghost use Rattle.alb_builder.specs.Building.{HasBuilt, HasEndedAt, IsAfter};

use crate::next::{Next, next_shared};
use alb_board::{Board, Pass};
use alb_mono::Multi;
use alb_pool::Gate;
use alb_table::{BuildEnd, Tables};
use std::alloc::Global;
use std::sync::{Arc, Wait};
use std::thread::Threads;

// The same end.
fn copy_of(end: &BuildEnd) -> BuildEnd
    ensures { result ≡ end.now }
{
    match end {
        BuildEnd::Complete => BuildEnd::Complete,
        BuildEnd::TooWide { at, products } => BuildEnd::TooWide {
            at: Multi::of(at.counts()),
            products: *products,
        },
        BuildEnd::TooManyProducts { count } => BuildEnd::TooManyProducts { count: *count },
        BuildEnd::TooManyCoefficients { count } => BuildEnd::TooManyCoefficients { count: *count },
        BuildEnd::NoMemory => BuildEnd::NoMemory,
    }
}

// Keeps the end of the building at the published degree.
fn end_on_board<R: Wait>(rt: &R, board: &Board, pass: &mut Pass, end: BuildEnd) -> BuildEnd
    requires own { IsPassOf board.now pass.old }
    requires room { (pass_view pass.old).calls < 2 ^ 48 }
    requires builder { (pass_view pass.old).builder ≡ true }
    requires unended { (pass_view pass.old).end ≡ None }
    requires known { (pass_view pass.old).known ≡ (pass_view pass.old).seen }
    requires allowed { HasEndedAt (rules_view (board_rules board.now)) (pass_view pass.old).seen (end_of end) }
    ensures own { IsPassOf board.now pass.new }
    ensures same { result ≡ end }
    ensures built { HasBuilt (rules_view (board_rules board.now)) result (pass_view pass.new) }
    ensures after { IsAfter (pass_view pass.old) (pass_view pass.new) }
{
    let kept = copy_of(&end);
    board.end(rt, pass, kept);
    end
}

/// Builds the tables of a board's rules from the first one on, and publishes each degree as soon as it is made, by 1 to 16 workers
/// that claim the blocks; then the board keeps the end, which is also answered: that of the building; or `NoMemory` where a block, a
/// table or its sharing found no memory. The pass is the builder's, with which nothing was published yet, and `first` is what is
/// published: the table of degree 1.
pub fn build_on_board<G: Gate, R: Threads + Wait + Sync>(
    rt: &R,
    alloc: Global,
    board: &Board,
    pass: &mut Pass,
    first: Arc<Tables>,
    workers: u32,
    gate: &G,
) -> BuildEnd
    requires rules { AreRules (rules_view (board_rules board.now)) }
    requires right { IsRightFor (rules_view (board_rules board.now)) (arc_value first) }
    requires first { (arc_value first).degree ≡ 1 }
    requires own { IsPassOf board.now pass.old }
    requires builder { (pass_view pass.old).builder ≡ true }
    requires unended { (pass_view pass.old).end ≡ None }
    requires seen { (pass_view pass.old).seen ≡ 1 }
    requires known { (pass_view pass.old).known ≡ 1 }
    requires room { (pass_view pass.old).calls + 12 ≤ 2 ^ 48 }
    requires some_worker { 0 < workers }
    requires few_workers { workers ≤ 16 }
    ensures own { IsPassOf board.now pass.new }
    // The pass has seen the last degree and this end, and knows the number of both.
    ensures built { HasBuilt (rules_view (board_rules board.now)) result (pass_view pass.new) }
    // It is still the builder's, and was given no shot.
    ensures after { IsAfter (pass_view pass.old) (pass_view pass.new) }
{
    let rules = board.rules();
    let mut tables = first;
    'degrees: while tables.degree() < tables.target().degree() {
        match next_shared(rt, alloc, rules, &tables, workers, gate) {
            Ok(Next { published, kept }) => {
                board.publish(rt, pass, published);
                tables = kept;
            }
            Err(end) => return end_on_board(rt, board, pass, end),
        }
    }
    end_on_board(rt, board, pass, BuildEnd::Complete)
}
