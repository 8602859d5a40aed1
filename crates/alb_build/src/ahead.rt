//! The limits of products that the table of the next degree passes. They show before any block of it is made.
ghost use Rattle.std.specs.Prelude.{◌≡◌, ◌<◌, ◌≤◌, List, None, IfErr, IfNone, IfOk, IfSome, sum};
ghost use Rattle.alb_poly.specs.Instance.{Form};
ghost use Rattle.alb_table.specs.End.{GoesOn, IsEnd, end_of, first_wide};
ghost use Rattle.alb_table.specs.Table.{count_products, next_products, next_types};
ghost use Rattle.alb_build.specs.Next.{IsWideStop};

use alb_block::BlockStop;
use alb_mono::{Multi, NoMemory, types_of_degree};
use alb_subst::count_of_type;
use alb_table::{BuildEnd, Tables};
use std::alloc::Global;

// How many products a type and a table may have.
const MOST_OF_TYPE: u64 = 4096;

pub(crate) const MOST_PRODUCTS: u64 = 1_000_000;

// How many products the table of the next degree has, or the first type that has too many for a block.
fn count_next(alloc: Global, tables: &Tables) -> Result<u64, BlockStop>
    requires { count_products tables.now.parts ≤ 1000000 }
    ensures count { IfOk result (λ n. n ≡ next_products tables.now) }
    ensures narrow { IfOk result (λ n. first_wide tables.now (next_types tables.now) ≡ None) }
    ensures wide { IfErr result (IsWideStop tables.now) }
{
    let types = types_of_degree(alloc, tables.target(), tables.degree() + 1)?;
    let mut count = tables.products();
    for at in &types {
        let products = count_of_type(alloc, tables, at)?;
        if products > MOST_OF_TYPE {
            return Err(BlockStop::TooWide {
                at: Multi::of(at.counts()),
                products,
            });
        }
        count += products;
    }
    Ok(count)
}

/// The limit of products that the table of the next degree passes: that of a type, or else that of the whole. `None` exactly
/// where it passes neither.
pub fn limit_ahead(alloc: Global, tables: &Tables) -> Result<Option<BuildEnd>, NoMemory>
    requires few { count_products tables.now.parts ≤ 1000000 }
    requires room { tables.now.degree < sum tables.now.target }
    ensures end { IfOk result (λ o. IfSome o (λ e. (fs : List Form) → IsEnd fs tables.now (end_of e))) }
    ensures none { IfOk result (λ o. IfNone o (GoesOn tables.now × (next_products tables.now ≤ 1000000))) }
{
    let count = match count_next(alloc, tables) {
        Ok(count) => count,
        Err(BlockStop::TooWide { at, products }) => {
            return Ok(Some(BuildEnd::TooWide { at, products }));
        }
        Err(BlockStop::NoMemory) => return Err(NoMemory),
    };
    if count > MOST_PRODUCTS {
        return Ok(Some(BuildEnd::TooManyProducts { count }));
    }
    Ok(None)
}
