//! The products of a type, as pairs of basis numbers.
ghost use Rattle.std.specs.Prelude.{◌≡◌, ℕ, ◌+◌, ◌*◌, ◌<◌, ◌^◌, ◌++◌, length, map, IfOk, OnOk};
ghost use Rattle.gf_sums.specs.Sums.{total};
ghost use Rattle.alb_mono.specs.Tree.{rising};
ghost use Rattle.alb_table.specs.Table.{rectangle, elems, products_of, wide};
ghost use Rattle.alb_subst.specs.Products.{split_size};

use alb_mono::{Multi, NoMemory, splits};
use alb_table::Tables;
use std::alloc::Global;

// How many products the pairs of types have.
pub(crate) fn count_products(tables: &Tables, pairs: &[(Multi, Multi)]) -> u64
    requires { total (split_size tables.now.parts) pairs.now < 2 ^ 64 }
    ensures { result ≡ total (split_size tables.now.parts) pairs.now }
{
    let mut count = 0;
    for pair in pairs {
        count += u64::from(tables.dimension(&pair.0)) * u64::from(tables.dimension(&pair.1));
    }
    count
}

/// How many products of two basis elements have the type `t`.
pub fn count_of_type(alloc: Global, tables: &Tables, t: &Multi) -> Result<u64, NoMemory>
    ensures { IfOk result (λ n. n ≡ wide tables.now t.now) }
{
    prove!(tables.degree() > 0);
    let pairs = splits(alloc, t)?;
    Ok(count_products(tables, &pairs))
}

// Appends the pairs of b with `count` numbers from `first` on.
fn push_row(b: u32, first: u32, count: u32, out: &mut Vec<(u32, u32)>) -> Result<(), NoMemory>
    requires { first + count < 2 ^ 32 }
    ensures { OnOk result (out.new.items ≡ out.old.items ++ map (λ j. (b, j)) (rising first count)) }
{
    for k in 0..count {
        out.push((b, first + k))?;
    }
    Ok(())
}

// Appends the pairs of the numbers of a left range and a right one, each its first number and how many there are.
fn push_rectangle(
    left: (u32, u32),
    right: (u32, u32),
    out: &mut Vec<(u32, u32)>,
) -> Result<(), NoMemory>
    requires left { left.0 + left.1 < 2 ^ 32 }
    requires right { right.0 + right.1 < 2 ^ 32 }
    ensures { OnOk result (out.new.items ≡ out.old.items ++ rectangle left.0 left.1 right.0 right.1) }
{
    for k in 0..left.1 {
        push_row(left.0 + k, right.0, right.1, out)?;
    }
    Ok(())
}

// The products of the pairs of types.
pub(crate) fn all_products(
    alloc: Global,
    tables: &Tables,
    pairs: &[(Multi, Multi)],
) -> Result<Vec<(u32, u32)>, NoMemory>
    requires { length (elems tables.now.parts) < 2 ^ 32 }
    ensures { IfOk result (λ v. v.items ≡ products_of tables.now.parts pairs.now) }
{
    let mut out = Vec::new(alloc);
    for pair in pairs {
        push_rectangle(tables.basis(&pair.0), tables.basis(&pair.1), &mut out)?;
    }
    Ok(out)
}
