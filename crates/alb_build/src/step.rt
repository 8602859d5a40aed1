//! One degree more, or the end.
ghost use Rattle.std.specs.Prelude.{◌≡◌, ◌<◌, ◌++◌, [], ◌∷◌, map, sum, IfOk, IfErr, OnOk};
ghost use Rattle.alb_poly.specs.Consequence.{forms};
ghost use Rattle.alb_table.specs.Table.{next_types};
ghost use Rattle.alb_table.specs.RightTable.{rules_view, AreRules, IsRightFor};
ghost use Rattle.alb_block.specs.View.{block_view};
ghost use Rattle.alb_build.specs.Next.{AreBlocks, IsWideStop, StepsTo};

use crate::ahead::limit_ahead;
use crate::growth::grow;
use crate::stop::GrowStop;
use alb_block::{Block, BlockStop, reduce_block};
use alb_mono::{NoMemory, types_of_degree};
use alb_poly::Rules;
use alb_table::{BuildEnd, Tables};
use std::alloc::Global;

// The table of the next degree, or why there is none.
#[derive(Drop)]
pub(crate) enum Step {
    Grown(Tables),
    Ended(BuildEnd),
}

// Keeps one more block.
fn push_block(blocks: &mut Vec<Block>, block: Block) -> Result<(), NoMemory>
    ensures { OnOk result (blocks.new.items ≡ blocks.old.items ++ block ∷ []) }
{
    blocks.push(block)?;
    Ok(())
}

// The blocks of all types of the next degree, in order.
fn next_blocks(alloc: Global, rules: &Rules, tables: &Tables) -> Result<Vec<Block>, BlockStop>
    requires rules { AreRules (rules_view rules.now) }
    requires right { IsRightFor (rules_view rules.now) tables.now }
    ensures blocks { IfOk result (λ v. AreBlocks (forms rules.now) tables.now (next_types tables.now) (map block_view v.items)) }
    ensures wide { IfErr result (IsWideStop tables.now) }
{
    let types = types_of_degree(alloc, tables.target(), tables.degree() + 1)?;
    let mut blocks = Vec::new(alloc);
    for t in &types {
        match reduce_block(alloc, rules, tables, t) {
            Ok(block) => push_block(&mut blocks, block)?,
            Err(stop) => return Err(stop),
        }
    }
    Ok(blocks)
}

// One degree more, or the end.
pub(crate) fn next_step(alloc: Global, rules: &Rules, tables: &Tables) -> Result<Step, NoMemory>
    requires rules { AreRules (rules_view rules.now) }
    requires right { IsRightFor (rules_view rules.now) tables.now }
    requires room { tables.now.degree < sum tables.now.target }
    ensures { IfOk result (StepsTo (rules_view rules.now) tables.now) }
{
    if let Some(end) = limit_ahead(alloc, tables)? {
        return Ok(Step::Ended(end));
    }
    let blocks = match next_blocks(alloc, rules, tables) {
        Ok(blocks) => blocks,
        Err(BlockStop::TooWide { at, products }) => {
            return Ok(Step::Ended(BuildEnd::TooWide { at, products }));
        }
        Err(BlockStop::NoMemory) => return Err(NoMemory),
    };
    match grow(alloc, rules, tables, blocks) {
        Ok(grown) => Ok(Step::Grown(grown)),
        Err(GrowStop::TooManyProducts { count }) => {
            Ok(Step::Ended(BuildEnd::TooManyProducts { count }))
        }
        Err(GrowStop::TooManyCoefficients { count }) => {
            Ok(Step::Ended(BuildEnd::TooManyCoefficients { count }))
        }
        Err(GrowStop::NoMemory) => Err(NoMemory),
    }
}
