//! The calls of a board.
ghost use Rattle.std.specs.Prelude.{◌≡◌, ◌+◌, ◌^◌, ◌<◌, ◌≤◌, true, None, Some, IfOk, OnOk, OnErr};
ghost use Rattle.std.specs.Arc.{arc_value};
ghost use Rattle.alb_table.specs.End.{end_of};
ghost use Rattle.alb_table.specs.RightTable.{rules_view, IsRightFor};
ghost use Rattle.alb_board.specs.Published.{published, IsAllowedEnd};
ghost use Rattle.alb_board.specs.Views.{first_view, split_view};
ghost use Rattle.alb_board.specs.Calls.{ShowsShot, ShowsNothing, KeepsShot};
ghost use Rattle.alb_board.specs.Passes.{board_rules, IsPassOf, pass_view};

use crate::kept::{Shot, copy_of};
use crate::plays::Copy;
use crate::rule::{Board, Pass};
use crate::turn::{count_in_turn, enter, keep, leave, put, show, take, wait_above};
use alb_mono::NoMemory;
use alb_poly::Rules;
use alb_table::{BuildEnd, Tables};
use atomic_table::Table;
use std::alloc::Global;
use std::sync::{Arc, Wait};

impl Board {
    /// A board that keeps the table of degree 1, which is right for the rules, and the builder's pass.
    pub fn open(
        alloc: Global,
        rules: Arc<Rules>,
        first: Arc<Tables>,
    ) -> Result<(Board, Pass), NoMemory>
        requires right { IsRightFor (rules_view (arc_value rules)) (arc_value first) }
        requires degree { (arc_value first).degree ≡ 1 }
        ensures own { IfOk result (λ r. IsPassOf r.0 r.1) }
        ensures rules { IfOk result (λ r. board_rules r.0 ≡ arc_value rules) }
        ensures pass { IfOk result (λ r. pass_view r.1 ≡ first_view (arc_value rules)) }
    {
        let mut slots = Vec::with_capacity(alloc, 1)?;
        slots.push_reserved(Some(Shot {
            tables: first,
            end: None,
        }));
        match Table::new(alloc, &[0, 0, 1], slots, &*rules) {
            Ok((table, seat)) => Ok((Board { table, rules }, Pass { seat, seen: 1 })),
            Err(_) => Err(NoMemory),
        }
    }

    /// A pass for a session, split from the builder's: it has seen and knows what the builder's has, and has made no call. A board
    /// has at most 16 passes. This body takes no memory.
    pub fn split(&self, pass: &mut Pass) -> Result<Pass, NoMemory>
        requires own { IsPassOf self.now pass.old }
        requires builder { (pass_view pass.old).builder ≡ true }
        requires room { (pass_view pass.old).passes < 16 }
        ensures own { IsPassOf self.now pass.new }
        ensures own_new { IfOk result (λ q. IsPassOf self.now q) }
        ensures old { OnOk result (pass_view pass.new ≡ record (pass_view pass.old) { passes = (pass_view pass.old).passes + 1 }) }
        ensures new { IfOk result (λ q. pass_view q ≡ split_view (pass_view pass.old)) }
        ensures unchanged { OnErr result (pass_view pass.new ≡ pass_view pass.old) }
    {
        let seat = self.table.shared.split_seat::<Copy>(&mut pass.seat);
        Ok(Pass {
            seat,
            seen: pass.seen,
        })
    }

    /// The rules of the board.
    pub fn rules(&self) -> &Rules
        ensures { result.now ≡ board_rules self.now }
    {
        &self.rules
    }

    /// The tables that are published, with the end that is kept. No later shot of this pass shows less, and after an end all are
    /// the same. The tables are shared, not copied; sharing them can be refused when out of memory.
    pub fn ask<R: Wait>(&self, rt: &R, pass: &mut Pass) -> Result<Shot, NoMemory>
        requires own { IsPassOf self.now pass.old }
        requires room { (pass_view pass.old).calls < 2 ^ 48 }
        ensures own { IsPassOf self.now pass.new }
        ensures shot { IfOk result (λ k. ShowsShot (board_rules self.now) (pass_view pass.old) k (pass_view pass.new)) }
        ensures none { OnErr result (ShowsNothing (pass_view pass.old) (pass_view pass.new)) }
    {
        let lines = &self.table.shared;
        let seat = &mut pass.seat;
        enter(rt, lines, seat);
        count_in_turn(lines, seat);
        let kept = take(lines, seat);
        let copy = Arc::try_clone(&kept.tables);
        let end = copy_of(&kept.end);
        let degree = kept.tables.degree();
        put(lines, seat, kept);
        match copy {
            Ok(tables) => {
                show(lines, seat);
                pass.seen = degree;
                Ok(Shot { tables, end })
            }
            Err(_) => {
                leave(lines, seat);
                Err(NoMemory)
            }
        }
    }

    /// Publishes the tables of the next degree, which are right for the board's rules. The pass is the builder's, and no end is
    /// kept.
    pub fn publish<R: Wait>(&self, rt: &R, pass: &mut Pass, tables: Arc<Tables>)
        requires own { IsPassOf self.now pass.old }
        requires room { (pass_view pass.old).calls < 2 ^ 48 }
        requires builder { (pass_view pass.old).builder ≡ true }
        requires unended { (pass_view pass.old).end ≡ None }
        requires right { IsRightFor (rules_view (board_rules self.now)) (arc_value tables) }
        requires next { (arc_value tables).degree ≡ (pass_view pass.old).seen + 1 }
        ensures own { IsPassOf self.now pass.new }
        ensures published { KeepsShot (pass_view pass.old) (published (arc_value tables).degree None) (pass_view pass.new) }
    {
        let lines = &self.table.shared;
        let seat = &mut pass.seat;
        enter(rt, lines, seat);
        let _old = take(lines, seat);
        let degree = tables.degree();
        keep(lines, seat, Shot { tables, end: None });
        leave(lines, seat);
        pass.seen = degree;
    }

    /// Keeps the end, which is allowed at the published degree. The pass is the builder's, and no end is kept.
    pub fn end<R: Wait>(&self, rt: &R, pass: &mut Pass, end: BuildEnd)
        requires own { IsPassOf self.now pass.old }
        requires room { (pass_view pass.old).calls < 2 ^ 48 }
        requires builder { (pass_view pass.old).builder ≡ true }
        requires unended { (pass_view pass.old).end ≡ None }
        requires allowed { IsAllowedEnd (rules_view (board_rules self.now)) (pass_view pass.old).seen (end_of end) }
        ensures own { IsPassOf self.now pass.new }
        ensures kept { KeepsShot (pass_view pass.old) (published (pass_view pass.old).seen (Some end)) (pass_view pass.new) }
    {
        let lines = &self.table.shared;
        let seat = &mut pass.seat;
        enter(rt, lines, seat);
        let Shot { tables, .. } = take(lines, seat);
        let degree = tables.degree();
        let end = Some(end);
        keep(lines, seat, Shot { tables, end });
        leave(lines, seat);
        pass.seen = degree;
    }

    /// Waits until something was kept that the pass has not seen, so that its next shot is a later one. The pass has seen no end.
    pub fn wait_change<R: Wait>(&self, rt: &R, pass: &mut Pass)
        requires own { IsPassOf self.now pass.old }
        requires unended { (pass_view pass.old).end ≡ None }
        ensures own { IsPassOf self.now pass.new }
        ensures known { let v = pass_view pass.old in pass_view pass.new ≡ record v { known = (pass_view pass.new).known } }
        ensures later { (pass_view pass.old).seen < (pass_view pass.new).known }
        ensures more { (pass_view pass.old).known ≤ (pass_view pass.new).known }
    {
        let seen = pass.seen;
        wait_above(rt, &self.table.shared, &mut pass.seat, u64::from(seen));
    }
}

impl Pass {
    /// The greatest degree that the pass has seen.
    pub fn seen(&self) -> u32
        ensures { result ≡ (pass_view self.now).seen }
    {
        self.seen
    }
}
