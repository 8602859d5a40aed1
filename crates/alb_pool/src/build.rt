//! The building of a table by several workers.
ghost use Rattle.std.specs.Prelude.{◌≡◌, ◌≢◌, ◌<◌, ◌≤◌, IfErr, IfOk, sum};
ghost use Rattle.alb_poly.specs.Consequence.{forms};
ghost use Rattle.alb_table.specs.End as ends;
ghost use Rattle.alb_table.specs.End.{IsEnd, end_of};
ghost use Rattle.alb_table.specs.RightTable.{rules_view, AreRules, IsRightFor};
ghost use Rattle.alb_build.specs.Next.{IsGrown};
ghost use Rattle.alb_pool.specs.Stops.{IsStop};

use crate::blocks::par_blocks;
use alb_block::BlockStop;
use alb_build::{Built, GrowStop, grow, limit_ahead};
use alb_mono::NoMemory;
use alb_poly::Rules;
use alb_table::{BuildEnd, Tables};
use std::alloc::Global;
use std::thread::Threads;

// The table of the next degree, or why there is none: the end of the building, or want of memory.
fn next_tables<R: Threads + Sync>(
    rt: &R,
    alloc: Global,
    rules: &Rules,
    tables: &Tables,
    workers: u32,
) -> Result<Tables, BuildEnd>
    requires rules { AreRules (rules_view rules.now) }
    requires right { IsRightFor (rules_view rules.now) tables.now }
    requires room { tables.now.degree < sum tables.now.target }
    requires some_worker { 0 < workers }
    requires few_workers { workers ≤ 16 }
    ensures grown { IfOk result (IsGrown (rules_view rules.now) tables.now) }
    ensures stopped { IfErr result (λ e. IsStop (forms rules.now) tables.now (end_of e)) }
{
    match limit_ahead(alloc, tables) {
        Ok(None) => {}
        Ok(Some(end)) => return Err(end),
        Err(NoMemory) => return Err(BuildEnd::NoMemory),
    }
    let blocks = match par_blocks(rt, alloc, rules, tables, workers) {
        Ok(blocks) => blocks,
        Err(BlockStop::TooWide { at, products }) => {
            return Err(BuildEnd::TooWide { at, products });
        }
        Err(BlockStop::NoMemory) => return Err(BuildEnd::NoMemory),
    };
    match grow(alloc, rules, tables, blocks) {
        Ok(grown) => Ok(grown),
        Err(GrowStop::TooManyProducts { count }) => Err(BuildEnd::TooManyProducts { count }),
        Err(GrowStop::TooManyCoefficients { count }) => {
            Err(BuildEnd::TooManyCoefficients { count })
        }
        Err(GrowStop::NoMemory) => Err(BuildEnd::NoMemory),
    }
}

// The table with this end. Want of memory is none.
fn with_end(tables: Tables, end: BuildEnd) -> Result<Built, NoMemory>
    ensures tables { IfOk result (λ b. b.tables ≡ tables) }
    ensures end { IfOk result (λ b. b.end ≡ end) }
    ensures memory { IfOk result (λ b. end_of b.end ≢ ends.NoMemory) }
{
    match end {
        BuildEnd::NoMemory => Err(NoMemory),
        end => Ok(Built { tables, end }),
    }
}

/// The table right for the rules to the greatest degree at which no limit is passed, with the end of its building, as
/// `alb_build::build_all` gives it; but the blocks of a degree are made by 1 to 16 workers, each in a thread of its own where one
/// can be made.
pub fn build_with<R: Threads + Sync>(
    rt: &R,
    alloc: Global,
    rules: &Rules,
    workers: u32,
) -> Result<Built, NoMemory>
    requires rules { AreRules (rules_view rules.now) }
    requires some_worker { 0 < workers }
    requires few_workers { workers ≤ 16 }
    ensures right { IfOk result (λ b. IsRightFor (rules_view rules.now) b.tables) }
    ensures end { IfOk result (λ b. IsEnd (forms rules.now) b.tables (end_of b.end)) }
{
    let mut tables = Tables::first(alloc, rules.field, &rules.target)?;
    while tables.degree() < tables.target().degree() {
        match next_tables(rt, alloc, rules, &tables, workers) {
            Ok(grown) => tables = grown,
            Err(end) => return with_end(tables, end),
        }
    }
    Ok(Built {
        tables,
        end: BuildEnd::Complete,
    })
}
