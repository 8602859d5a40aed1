//! The table of the next degree.
ghost use Rattle.std.specs.Prelude.{◌≡◌, ◌<◌, ◌≤◌, IfErr, IfOk, sum};
ghost use Rattle.std.specs.Arc.{arc_value};
ghost use Rattle.alb_poly.specs.Consequence.{forms};
ghost use Rattle.alb_table.specs.End.{end_of};
ghost use Rattle.alb_table.specs.RightTable.{rules_view, AreRules, IsRightFor};
ghost use Rattle.alb_build.specs.Next.{IsGrown};
ghost use Rattle.alb_pool.specs.Stops.{IsStop};
ghost use Rattle.alb_builder.specs.Steps.{IsNext};

use alb_block::BlockStop;
use alb_build::{GrowStop, grow, limit_ahead};
use alb_mono::NoMemory;
use alb_poly::Rules;
use alb_pool::{Gate, claimed_blocks};
use alb_table::{BuildEnd, Tables};
use std::alloc::Global;
use std::sync::{Arc, Wait};
use std::thread::Threads;

/// A table that is shared twice: once to be published, and once to build on.
pub struct Next {
    pub published: Arc<Tables>,
    pub kept: Arc<Tables>,
}

// The table of the next degree, or why there is none: the end of the building, or want of memory.
fn next_tables<G: Gate, R: Threads + Wait + Sync>(
    rt: &R,
    alloc: Global,
    rules: &Rules,
    tables: &Tables,
    workers: u32,
    gate: &G,
) -> Result<Tables, BuildEnd>
    requires rules { AreRules (rules_view rules.now) }
    requires right { IsRightFor (rules_view rules.now) tables.now }
    requires room { tables.now.degree < sum tables.now.target }
    requires some_worker { 0 < workers }
    requires few_workers { workers ≤ 16 }
    ensures grown { IfOk result (IsGrown (rules_view rules.now) tables.now) }
    ensures stopped { IfErr result (λ e. IsStop (forms rules.now) tables.now (end_of e)) }
{
    match limit_ahead(alloc, tables) {
        Ok(None) => {}
        Ok(Some(end)) => return Err(end),
        Err(NoMemory) => return Err(BuildEnd::NoMemory),
    }
    let blocks = match claimed_blocks(rt, alloc, rules, tables, workers, gate) {
        Ok(blocks) => blocks,
        Err(BlockStop::TooWide { at, products }) => {
            return Err(BuildEnd::TooWide { at, products });
        }
        Err(BlockStop::NoMemory) => return Err(BuildEnd::NoMemory),
    };
    match grow(alloc, rules, tables, blocks) {
        Ok(grown) => Ok(grown),
        Err(GrowStop::TooManyProducts { count }) => Err(BuildEnd::TooManyProducts { count }),
        Err(GrowStop::TooManyCoefficients { count }) => {
            Err(BuildEnd::TooManyCoefficients { count })
        }
        Err(GrowStop::NoMemory) => Err(BuildEnd::NoMemory),
    }
}

// The same table, shared twice.
fn share(alloc: Global, tables: Tables) -> Result<Next, NoMemory>
    ensures published { IfOk result (λ n. arc_value n.published ≡ tables) }
    ensures kept { IfOk result (λ n. arc_value n.kept ≡ tables) }
{
    let kept = Arc::new(alloc, tables)?;
    let published = Arc::try_clone(&kept)?;
    Ok(Next { published, kept })
}

/// The table of the next degree, shared twice; or why there is none: the end of the building, or want of memory.
pub fn next_shared<G: Gate, R: Threads + Wait + Sync>(
    rt: &R,
    alloc: Global,
    rules: &Rules,
    tables: &Tables,
    workers: u32,
    gate: &G,
) -> Result<Next, BuildEnd>
    requires rules { AreRules (rules_view rules.now) }
    requires right { IsRightFor (rules_view rules.now) tables.now }
    requires room { tables.now.degree < sum tables.now.target }
    requires some_worker { 0 < workers }
    requires few_workers { workers ≤ 16 }
    ensures next { IfOk result (IsNext (rules_view rules.now) tables.now) }
    ensures stopped { IfErr result (λ e. IsStop (forms rules.now) tables.now (end_of e)) }
{
    let grown = match next_tables(rt, alloc, rules, tables, workers, gate) {
        Ok(grown) => grown,
        Err(end) => return Err(end),
    };
    match share(alloc, grown) {
        Ok(next) => Ok(next),
        Err(NoMemory) => Err(BuildEnd::NoMemory),
    }
}
