ghost use Rattle.std.specs.Prelude.{◌≡◌, ◌<◌, ◌≤◌, length, reverse, IfOk, Some, slice_get, position};
ghost use Rattle.alb_table.specs.Table.{same_pair};
ghost use Rattle.alb_subst.specs.Columns.{IsDistinct, OpensColumns};

use crate::error::ColumnsStop;
use crate::products::{all_products, count_products};
use alb_mono::{Multi, NoMemory, splits};
use alb_table::Tables;
use indexmap::IndexSet;
use std::alloc::Global;
use std::marker::Model;

// How many products of a type there may be.
const MOST_PRODUCTS: u64 = 4096;

/// The columns of a type: its products of two basis elements, numbered from 0 and from the greatest product. Contracts see the
/// list of the pairs of basis elements.
#[derive(Drop)]
pub struct Columns {
    set: IndexSet<(u32, u32)>,
}

impl Model for Columns {
    ghost use Rattle.std.specs.Prelude.{List, ℕ};
    ghost use Rattle.alb_subst.specs.Columns.{AreNumbered};

    ghost Value = { List (ℕ × ℕ) };

    ghost view = { λ c. c.set.keys };

    ghost invariant = { λ c. AreNumbered c.set.keys };
}

// The pairs as columns, the last one first.
fn numbered(alloc: Global, pairs: Vec<(u32, u32)>) -> Result<Columns, NoMemory>
    requires distinct { IsDistinct (reverse pairs.items) }
    requires few { length pairs.items ≤ 4096 }
    ensures { IfOk result (λ c. c ≡ reverse pairs.items) }
{
    let mut set = IndexSet::new(alloc);
    let mut left = pairs;
    while let Some(pair) = left.pop() {
        set.insert(pair)?;
    }
    Ok(Columns { set })
}

impl Columns {
    /// The products of the type `t` over a table. It is refused where there are more than 4,096, before any is made.
    pub fn open(alloc: Global, tables: &Tables, t: &Multi) -> Result<Columns, ColumnsStop>
        ensures { OpensColumns tables.now.parts t.now result }
    {
        prove!(tables.degree() > 0);
        let pairs = splits(alloc, t)?;
        let products = count_products(tables, &pairs);
        if products > MOST_PRODUCTS {
            return Err(ColumnsStop::TooWide { products });
        }
        let list = all_products(alloc, tables, &pairs)?;
        Ok(numbered(alloc, list)?)
    }

    /// The number of columns.
    pub fn len(&self) -> u32
        ensures value { result ≡ length self.now }
        ensures few { result ≤ 4096 }
    {
        self.set.len() as u32
    }

    /// The number of the column of a pair; `None` exactly where the pair is no column.
    pub fn number(&self, b: u32, c: u32) -> Option<u32>
        ensures value { result ≡ position (λ q. same_pair (b, c) q) self.now }
        ensures distinct { IsDistinct self.now }
    {
        match self.set.get_index_of(&(b, c)) {
            None => None,
            Some(i) => Some(i as u32),
        }
    }

    /// The pair of a column.
    pub fn pair(&self, column: u32) -> (u32, u32)
        requires { column < length self.now }
        ensures { slice_get self.now column ≡ Some result }
    {
        *self.set.get_index(column as usize).unwrap()
    }
}
