//! The sizes of blocks and parts.
ghost use Rattle.std.specs.Prelude.{◌≡◌, ◌<◌, ◌^◌, map};
ghost use Rattle.alb_table.specs.Table.{part_view, count_coefficients};
ghost use Rattle.alb_block.specs.View.{block_view};
ghost use Rattle.alb_build.specs.Part.{count_columns};

use alb_block::Block;
use alb_table::{Part, count_cells};

// The number of the products of blocks.
pub(crate) fn count_products(blocks: &[Block]) -> u64
    requires { count_columns (map block_view blocks.now) < 2 ^ 64 }
    ensures { result ≡ count_columns (map block_view blocks.now) }
{
    let mut count = 0;
    for block in blocks {
        count += u64::from(block.columns.len());
    }
    count
}

// The number of the coefficients of parts.
pub(crate) fn count_part_cells(parts: &[Part]) -> u64
    requires { count_coefficients (map part_view parts.now) < 2 ^ 64 }
    ensures { result ≡ count_coefficients (map part_view parts.now) }
{
    let mut count = 0;
    for part in parts {
        count += count_cells(&part.entries);
    }
    count
}
