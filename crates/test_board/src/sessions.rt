//! A builder and two sessions, in threads, over the tables of one generator without identities.
ghost use Rattle.std.specs.Prelude.{◌≡◌, ◌+◌, ◌<◌, ◌++◌, [], ◌∷◌, IfOk, OnOk, map, sum};
ghost use Rattle.std.specs.Arc.{arc_value};
ghost use Rattle.alb_poly.specs.Consequence.{forms};
ghost use Rattle.alb_table.specs.Table.{next_types};
ghost use Rattle.alb_table.specs.RightTable.{rules_view, AreRules, IsRightFor};
ghost use Rattle.alb_block.specs.View.{block_view};
ghost use Rattle.alb_build.specs.Next.{AreBlocks};
ghost use Rattle.alb_board.specs.Passes.{board_rules, IsPassOf, pass_view};
ghost use Rattle.test_board.specs.Ready.{IsOpening, IsBuilder, IsSession};

use alb_block::{Block, BlockStop, reduce_block};
use alb_board::{Board, Pass};
use alb_build::grow;
use alb_mono::{Multi, NoMemory, types_of_degree};
use alb_poly::Rules;
use alb_table::{BuildEnd, Tables};
use gf_field::Field;
use std::alloc::Global;
use std::sync::{Arc, Wait};
use std::test::Fail;
use std::thread::{Threads, join};

// The rules of one generator, which may occur four times, and of no identity, over 251 elements.
fn free_rules(alloc: Global) -> Result<Rules, Fail>
    ensures { IfOk result (λ r. AreRules (rules_view r)) }
{
    let Ok(field) = Field::of(251) else {
        return Err("there is no such field".into());
    };
    Ok(Rules {
        field,
        target: Multi::of(&[4]),
        linears: Vec::new(alloc),
    })
}

// Keeps one more block.
fn push_block(blocks: &mut Vec<Block>, block: Block) -> Result<(), NoMemory>
    ensures { OnOk result (blocks.new.items ≡ blocks.old.items ++ block ∷ []) }
{
    blocks.push(block)?;
    Ok(())
}

// The blocks of the next degree.
fn blocks_of(alloc: Global, rules: &Rules, tables: &Tables) -> Result<Vec<Block>, BlockStop>
    requires rules { AreRules (rules_view rules.now) }
    requires right { IsRightFor (rules_view rules.now) tables.now }
    ensures { IfOk result (λ v. AreBlocks (forms rules.now) tables.now (next_types tables.now) (map block_view v.items)) }
{
    let types = types_of_degree(alloc, tables.target(), tables.degree() + 1)?;
    let mut blocks = Vec::new(alloc);
    for t in &types {
        match reduce_block(alloc, rules, tables, t) {
            Ok(block) => push_block(&mut blocks, block)?,
            Err(stop) => return Err(stop),
        }
    }
    Ok(blocks)
}

// The tables of the next degree. They are small, so nothing but memory can be wanting.
fn next_of(alloc: Global, rules: &Rules, tables: &Tables) -> Result<Arc<Tables>, NoMemory>
    requires rules { AreRules (rules_view rules.now) }
    requires right { IsRightFor (rules_view rules.now) tables.now }
    requires room { tables.now.degree < sum tables.now.target }
    ensures right { IfOk result (λ t. IsRightFor (rules_view rules.now) (arc_value t)) }
    ensures degree { IfOk result (λ t. (arc_value t).degree ≡ tables.now.degree + 1) }
{
    let blocks = match blocks_of(alloc, rules, tables) {
        Ok(blocks) => blocks,
        Err(_) => return Err(NoMemory),
    };
    match grow(alloc, rules, tables, blocks) {
        Ok(grown) => Ok(Arc::new(alloc, grown)?),
        Err(_) => Err(NoMemory),
    }
}

// Publishes the tables of the next degree, and gives them.
fn publish_next<R: Wait>(
    rt: &R,
    alloc: Global,
    board: &Board,
    pass: &mut Pass,
    tables: &Arc<Tables>,
) -> Result<Arc<Tables>, NoMemory>
    requires rules { AreRules (rules_view (board_rules board.now)) }
    requires pass { IsBuilder board.now pass.old (arc_value tables.now) }
    requires room { (arc_value tables.now).degree < sum (arc_value tables.now).target }
    ensures pass { IfOk result (λ t. IsBuilder board.now pass.new (arc_value t)) }
    ensures degree { IfOk result (λ t. (arc_value t).degree ≡ (arc_value tables.now).degree + 1) }
{
    let next = next_of(alloc, board.rules(), tables)?;
    let kept = Arc::try_clone(&next)?;
    board.publish(rt, pass, next);
    Ok(kept)
}

// The tables of degree 1.
fn first_tables(alloc: Global, rules: &Rules) -> Result<Arc<Tables>, NoMemory>
    requires { AreRules (rules_view rules.now) }
    ensures right { IfOk result (λ t. IsRightFor (rules_view rules.now) (arc_value t)) }
    ensures degree { IfOk result (λ t. (arc_value t).degree ≡ 1) }
{
    let first = Tables::first(alloc, rules.field, &rules.target)?;
    Ok(Arc::new(alloc, first)?)
}

// Publishes all degrees, and keeps the end.
fn build<R: Wait>(rt: &R, alloc: Global, board: &Board, mut pass: Pass) -> Result<(), NoMemory>
    requires rules { AreRules (rules_view (board_rules board.now)) }
    requires pass { IsOpening board.now pass }
{
    let mut tables = first_tables(alloc, board.rules())?;
    while tables.degree() < tables.target().degree() {
        tables = publish_next(rt, alloc, board, &mut pass, &tables)?;
    }
    board.end(rt, &mut pass, BuildEnd::Complete);
    Ok(())
}

// Asks until an end is shown. The degree of the last shot, and whether the build was complete and no shot showed less than the one
// before.
fn listen<R: Wait>(rt: &R, board: &Board, mut pass: Pass) -> Result<(u32, bool), NoMemory>
    requires { IsSession board.now pass }
{
    let mut last = 0;
    let mut rises = true;
    for _ in 0..16u32 {
        let shot = board.ask(rt, &mut pass)?;
        let degree = shot.tables.degree();
        rises = rises && last <= degree;
        last = degree;
        match &shot.end {
            Some(end) => return Ok((last, rises && matches!(end, BuildEnd::Complete))),
            None => board.wait_change(rt, &mut pass),
        }
    }
    Ok((last, false))
}

// Two sessions in threads.
fn listen_both<R: Threads + Wait + Sync>(rt: &R, board: &Board, one: Pass, two: Pass) -> bool
    requires one { IsSession board.now one }
    requires two { IsSession board.now two }
{
    let (left, right) = join(
        rt,
        move || -> Result<(u32, bool), NoMemory>
            requires { IsSession board.now one }
        { listen(rt, board, one) },
        move || -> Result<(u32, bool), NoMemory>
            requires { IsSession board.now two }
        { listen(rt, board, two) },
    );
    left == Ok((4, true)) && right == Ok((4, true))
}

// A builder and two sessions, in threads. Whether the builder had memory, and each session was shown all that it should be.
fn run_all<R: Threads + Wait + Sync>(
    rt: &R,
    alloc: Global,
    board: &Board,
    builder: Pass,
    one: Pass,
    two: Pass,
) -> bool
    requires rules { AreRules (rules_view (board_rules board.now)) }
    requires builder { IsOpening board.now builder }
    requires one { IsSession board.now one }
    requires two { IsSession board.now two }
{
    let (built, seen) = join(
        rt,
        move || -> Result<(), NoMemory>
            requires { AreRules (rules_view (board_rules board.now)) × IsOpening board.now builder }
        { build(rt, alloc, board, builder) },
        move || -> bool
            requires { IsSession board.now one × IsSession board.now two }
        { listen_both(rt, board, one, two) },
    );
    built.is_ok() && seen
}

// A board with the tables of degree 1, the builder's pass, and those of two sessions.
fn open_board(alloc: Global, rules: Rules) -> Result<(Board, Pass, Pass, Pass), NoMemory>
    requires { AreRules (rules_view rules) }
    ensures rules { IfOk result (λ r. board_rules r.0 ≡ rules) }
    ensures builder { IfOk result (λ r. IsOpening r.0 r.1) }
    ensures one { IfOk result (λ r. IsSession r.0 r.2) }
    ensures two { IfOk result (λ r. IsSession r.0 r.3) }
{
    let first = first_tables(alloc, &rules)?;
    let rules = Arc::new(alloc, rules)?;
    let (board, mut builder) = Board::open(alloc, rules, first)?;
    let one = board.split(&mut builder)?;
    let two = board.split(&mut builder)?;
    Ok((board, builder, one, two))
}

#[test]
fn sessions_beside_a_builder(rt: HostRuntime) -> Result<(), Fail> {
    let alloc = rt.alloc();
    let rules = free_rules(alloc)?;
    let (board, builder, one, two) = open_board(alloc, rules)?;
    assert!(rt; run_all(&rt, alloc, &board, builder, one, two));
    Ok(())
}
