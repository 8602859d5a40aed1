ghost use Rattle.std.specs.Prelude.{◌≡◌, ◌++◌, ◌<◌, ◌^◌, length, map, IfOk, OnOk};
ghost use Rattle.alb_mono.specs.Tree.{types_of};
ghost use Rattle.alb_subst.specs.Ranges.{range_of, ranges};

use alb_mono::{Multi, NoMemory, types_of_degree};
use alb_table::Tables;
use std::alloc::Global;

// The basis numbers of one type: `count` of them from `first` on.
#[derive(Drop)]
pub(crate) struct Range {
    pub at: Multi,
    pub first: u32,
    pub count: u32,
}

// Appends the ranges of the types within `t` of a degree.
fn push_ranges(
    alloc: Global,
    tables: &Tables,
    t: &Multi,
    d: u32,
    out: &mut Vec<Range>,
) -> Result<(), NoMemory>
    ensures { OnOk result (out.new.items ≡ out.old.items ++ map (range_of tables.now.parts) (types_of t.now d)) }
{
    let types = types_of_degree(alloc, t, d)?;
    for at in &types {
        let (first, count) = tables.basis(at);
        out.push(Range {
            at: Multi::of(at.counts()),
            first,
            count,
        })?;
    }
    Ok(())
}

// The ranges of the types within `t` that a table has, ascending.
pub(crate) fn ranges(alloc: Global, tables: &Tables, t: &Multi) -> Result<Vec<Range>, NoMemory>
    ensures { IfOk result (λ v. v.items ≡ ranges tables.now.parts t.now tables.now.degree) }
{
    let mut out = Vec::new(alloc);
    for k in 0..tables.degree() {
        push_ranges(alloc, tables, t, k + 1, &mut out)?;
    }
    Ok(out)
}
