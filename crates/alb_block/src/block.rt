ghost use Rattle.std.specs.Prelude.{◌≡◌, ◌+◌, ◌<◌, length, map, reverse, IfOk};
ghost use Rattle.alb_mono.specs.Tree.{IsTypeWithin};
ghost use Rattle.alb_poly.specs.Consequence.{forms};
ghost use Rattle.alb_table.specs.Table.{origin_view};
ghost use Rattle.alb_table.specs.RightTable.{rules_view, AreRules, IsRightFor};
ghost use Rattle.alb_block.specs.Instances.{columns_of};
ghost use Rattle.alb_block.specs.Asked.{block_setting, BlockAnswers};
ghost use Rattle.alb_block.specs.Meaning.{IsBlockAt};
ghost use Rattle.alb_block.specs.Opened.{OpensBlock};

use crate::error::BlockStop;
use crate::offers::{Offers, Sources, offer_all};
use alb_mono::Multi;
use alb_poly::Rules;
use alb_reduce::Reduced;
use alb_subst::{Columns, ColumnsStop};
use alb_table::{Origin, Tables};
use std::alloc::Global;

/// The block of a type.
#[derive(Drop)]
pub struct Block {
    /// The type.
    pub at: Multi,
    /// The products of two basis elements that have the type, from the greatest to the least.
    pub columns: Columns,
    /// The reduced form of the span of all instances of the type, over the columns.
    pub reduced: Reduced,
    /// As many instances as there are pivots, with the same span.
    pub origins: Vec<Origin>,
}

// The columns of a type.
fn open_columns(alloc: Global, tables: &Tables, t: &Multi) -> Result<Columns, BlockStop>
    ensures { OpensBlock tables.now.parts t.now result }
{
    match Columns::open(alloc, tables, t) {
        Ok(columns) => Ok(columns),
        Err(ColumnsStop::TooWide { products }) => Err(BlockStop::TooWide {
            at: Multi::of(t.counts()),
            products,
        }),
        Err(ColumnsStop::NoMemory) => Err(BlockStop::NoMemory),
    }
}

/// The reduced form of the span of all instances of the type `t`, which has one degree more than the table and is at most its
/// target, by a table that is right for the rules: `TooWide` exactly where the type has more than 4,096 products. The columns
/// that are no pivots are the normal monomials of the type, and the reduced rows give the entries of the others.
pub fn reduce_block(
    alloc: Global,
    rules: &Rules,
    tables: &Tables,
    t: &Multi,
) -> Result<Block, BlockStop>
    requires rules { AreRules (rules_view rules.now) }
    requires right { IsRightFor (rules_view rules.now) tables.now }
    requires next { IsTypeWithin tables.now.target (tables.now.degree + 1) t.now }
    ensures answer { BlockAnswers (block_setting rules.now tables.now t.now) result }
    ensures block { IfOk result (λ b. IsBlockAt (forms rules.now) tables.now t.now b.reduced (map origin_view b.origins.items)) }
{
    let columns = open_columns(alloc, tables, t)?;
    let from = Sources {
        rules,
        tables,
        at: t,
        columns: &columns,
    };
    let Offers { echelon, origins } = offer_all(alloc, &from)?;
    let reduced = echelon.close()?;
    prove!(tables.degree() > 0);
    prove!(reduced.pivots().len() <= usize::MAX);
    Ok(Block {
        at: Multi::of(t.counts()),
        columns,
        reduced,
        origins,
    })
}
