//! The parts of the next degree.
ghost use Rattle.std.specs.Prelude.{◌≡◌, ◌+◌, ◌<◌, ◌^◌, length, map, reverse, IfOk};
ghost use Rattle.alb_mono.specs.Listing.{Each};
ghost use Rattle.alb_table.specs.Table.{part_view, elems};
ghost use Rattle.alb_block.specs.View.{block_view};
ghost use Rattle.alb_build.specs.Part.{elements_of, FitsBlock, AreMade, ArePartsOf, IsPartMade, count_columns};

use crate::entry::{entries_of, free_products, numbers_of};
use alb_block::Block;
use alb_mono::NoMemory;
use alb_rows::Row;
use alb_subst::Columns;
use alb_table::{Elem, Part, Tables};
use gf_field::Field;
use std::alloc::Global;

// The basis elements of a block, ascending: its products that are no pivots.
fn basis_of(alloc: Global, columns: &Columns, free: &[bool]) -> Result<Vec<Elem>, NoMemory>
    requires { length free.now ≡ length columns.now }
    ensures { IfOk result (λ v. v.items ≡ elements_of (reverse columns.now) free.now) }
{
    let count = columns.len();
    let mut out = Vec::new(alloc);
    for k in 0..count {
        if free[k as usize] {
            let (left, right) = columns.pair(count - 1 - k);
            out.push(Elem::Prod(left, right))?;
        }
    }
    Ok(out)
}

// The basis elements and the entries of the part of a block, whose first basis element has the number `first`.
fn made_of(
    alloc: Global,
    field: &Field,
    first: u32,
    block: &Block,
) -> Result<(Vec<Elem>, Vec<Row>), NoMemory>
    requires fits { FitsBlock field.now (block_view block.now) }
    requires room { first + length block.now.columns < 2 ^ 32 }
    ensures { IfOk result (λ r. AreMade first (block_view block.now) r.0.items r.1.items) }
{
    let free = free_products(alloc, block)?;
    let numbers = numbers_of(alloc, first, &free)?;
    let basis = basis_of(alloc, &block.columns, &free)?;
    let entries = entries_of(alloc, field, block, &numbers)?;
    Ok((basis, entries))
}

// The part of a block, whose first basis element has the number `first`.
fn part_of(alloc: Global, field: &Field, first: u32, block: Block) -> Result<Part, NoMemory>
    requires fits { FitsBlock field.now (block_view block) }
    requires room { first + length block.columns < 2 ^ 32 }
    ensures { IfOk result (λ q. IsPartMade first (block_view block) (part_view q)) }
{
    let (basis, entries) = made_of(alloc, field, first, &block)?;
    let Block {
        at,
        columns: _,
        reduced: _,
        origins,
    } = block;
    Ok(Part {
        at,
        basis,
        entries,
        origins,
    })
}

// The parts of the blocks of the next degree.
pub(crate) fn parts_of(
    alloc: Global,
    tables: &Tables,
    blocks: Vec<Block>,
) -> Result<Vec<Part>, NoMemory>
    requires fit { Each (FitsBlock tables.now.p) (map block_view blocks.items) }
    requires room { length (elems tables.now.parts) + count_columns (map block_view blocks.items) < 2 ^ 32 }
    ensures made { IfOk result (λ v. ArePartsOf (length (elems tables.now.parts)) (map block_view blocks.items) (map part_view v.items)) }
    ensures small { IfOk result (λ v. length (elems tables.now.parts) + length (elems (map part_view v.items)) < 2 ^ 32) }
{
    let mut first = tables.len();
    let mut parts = Vec::new(alloc);
    let mut left = blocks;
    left.reverse();
    while let Some(block) = left.pop() {
        let part = part_of(alloc, tables.field(), first, block)?;
        first += part.basis.len() as u32;
        parts.push(part)?;
    }
    Ok(parts)
}
