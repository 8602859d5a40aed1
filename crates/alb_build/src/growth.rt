ghost use Rattle.std.specs.Prelude.{◌<◌, sum, map};
ghost use Rattle.alb_poly.specs.Consequence.{forms};
ghost use Rattle.alb_table.specs.Table.{next_types};
ghost use Rattle.alb_table.specs.RightTable.{rules_view, IsRightFor};
ghost use Rattle.alb_block.specs.View.{block_view};
ghost use Rattle.alb_build.specs.Next.{AreBlocks, GrowsTo};

use crate::ahead::MOST_PRODUCTS;
use crate::count::{count_part_cells, count_products};
use crate::part::parts_of;
use crate::stop::GrowStop;
use alb_block::Block;
use alb_poly::Rules;
use alb_table::Tables;
use std::alloc::Global;

// How many coefficients that are not 0 a table may have.
const MOST_COEFFICIENTS: u64 = 16_777_216;

/// The table right for the rules to the next degree, from a table that is right for the rules and below its target's degree,
/// and the blocks of all types of the next degree, in order. `TooManyProducts` exactly where that table has more than 1,000,000
/// products, else `TooManyCoefficients` exactly where it has more than 16,777,216 coefficients that are not 0, each with the
/// number.
pub fn grow(
    alloc: Global,
    rules: &Rules,
    tables: &Tables,
    blocks: Vec<Block>,
) -> Result<Tables, GrowStop>
    requires right { IsRightFor (rules_view rules.now) tables.now }
    requires room { tables.now.degree < sum tables.now.target }
    requires blocks { AreBlocks (forms rules.now) tables.now (next_types tables.now) (map block_view blocks.items) }
    ensures { GrowsTo (rules_view rules.now) tables.now result }
{
    prove!(tables.degree() > 0);
    let products = tables.products() + count_products(&blocks);
    if products > MOST_PRODUCTS {
        return Err(GrowStop::TooManyProducts { count: products });
    }
    let parts = parts_of(alloc, tables, blocks)?;
    let coefficients = tables.coefficients() + count_part_cells(&parts);
    if coefficients > MOST_COEFFICIENTS {
        return Err(GrowStop::TooManyCoefficients {
            count: coefficients,
        });
    }
    Ok(tables.extend(alloc, parts)?)
}
