//! The storing of parts.
ghost use Rattle.std.specs.Prelude.{◌≡◌, ◌^◌, ◌<◌, ◌++◌, [], length, map, IfOk, OnOk};
ghost use Rattle.std.specs.Arc.{arc_value};
ghost use Rattle.alb_mono.specs.Listing.{Each};
ghost use Rattle.alb_mono.specs.Tree.{splits, types_of};
ghost use Rattle.alb_table.specs.Table.{part_view, elems, products, IsTarget, first_parts, generator_view};
ghost use Rattle.alb_table.specs.Stored.{grids_from};
ghost use Rattle.alb_table.specs.Views.{view_of, views, IsFull, IsStore, PushesPart, GrowsStore};

use crate::find::range_of;
use crate::grid::Grid;
use crate::part::{Elem, Part};
use crate::store::Store;
use crate::stored::Stored;
use alb_mono::{Multi, NoMemory, splits, types_of_degree};
use std::alloc::Global;
use std::sync::Arc;

// The rectangles of a type.
fn grids_of(alloc: Global, parts: &[Arc<Stored>], t: &Multi) -> Result<Vec<Grid>, NoMemory>
    requires few { length (elems (map view_of parts.now)) < 2 ^ 32 }
    requires small { length (products (map view_of parts.now) t.now) < 2 ^ 32 }
    ensures { IfOk result (λ v. v.items ≡ grids_from (map view_of parts.now) 0 (splits t.now)) }
{
    let pairs = splits(alloc, t)?;
    let mut out = Vec::new(alloc);
    let mut offset = 0;
    for pair in &pairs {
        let (left, lefts) = range_of(parts, &pair.0);
        let (right, rights) = range_of(parts, &pair.1);
        out.push(Grid {
            left,
            lefts,
            right,
            rights,
            offset,
        })?;
        offset += lefts * rights;
    }
    Ok(out)
}

// Stores one more part, whose products are those over the old parts.
fn push_part(
    alloc: Global,
    old: &[Arc<Stored>],
    store: &mut Store,
    part: Part,
) -> Result<(), NoMemory>
    requires few { length (elems (map view_of old.now)) < 2 ^ 32 }
    requires full { IsFull (map view_of old.now) (part_view part) }
    ensures { OnOk result (PushesPart (map view_of old.now) store.old store.new (part_view part)) }
{
    let grids = grids_of(alloc, old, &part.at)?;
    let k = store.parts.len();
    for elem in &part.basis {
        store.part_of.push(k)?;
        store.elems.push(*elem)?;
    }
    let stored = Arc::new(alloc, Stored { part, grids })?;
    store.parts.push(stored)?;
    Ok(())
}

// More owners of the same parts.
fn shared(alloc: Global, parts: &[Arc<Stored>]) -> Result<Vec<Arc<Stored>>, NoMemory>
    ensures { IfOk result (λ v. map arc_value v.items ≡ map arc_value parts.now) }
{
    let mut out = Vec::new(alloc);
    for k in 0..parts.len() {
        out.push(Arc::try_clone(&parts[k])?)?;
    }
    Ok(out)
}

// The store without parts.
pub(crate) fn empty_store(alloc: Global) -> Store
    ensures parts { views result ≡ [] }
    ensures store { IsStore result }
{
    Store {
        parts: Vec::new(alloc),
        part_of: Vec::new(alloc),
        elems: Vec::new(alloc),
    }
}

// The store with more parts. What it had is shared.
pub(crate) fn grown(alloc: Global, old: &Store, parts: Vec<Part>) -> Result<Store, NoMemory>
    requires store { IsStore old.now }
    requires few { length (elems (views old.now)) < 2 ^ 32 }
    requires full { Each (IsFull (views old.now)) (map part_view parts.items) }
    ensures { IfOk result (λ s. GrowsStore old.now (map part_view parts.items) s) }
{
    let mut store = Store {
        parts: shared(alloc, &old.parts)?,
        part_of: old.part_of.as_slice().to_vec(alloc)?,
        elems: old.elems.as_slice().to_vec(alloc)?,
    };
    let mut left = parts;
    left.reverse();
    while let Some(part) = left.pop() {
        push_part(alloc, &old.parts, &mut store, part)?;
    }
    Ok(store)
}

// The part of a generator.
fn generator_part(alloc: Global, at: &Multi, k: u8) -> Result<Part, NoMemory>
    ensures { IfOk result (λ q. part_view q ≡ generator_view k at.now) }
{
    let mut basis = Vec::new(alloc);
    basis.push(Elem::Gen(k))?;
    Ok(Part {
        at: Multi::of(at.counts()),
        basis,
        entries: Vec::new(alloc),
        origins: Vec::new(alloc),
    })
}

// The parts of the generators.
pub(crate) fn first_parts(alloc: Global, target: &Multi) -> Result<Vec<Part>, NoMemory>
    requires { IsTarget target.now }
    ensures { IfOk result (λ v. map part_view v.items ≡ first_parts 0 (types_of target.now 1)) }
{
    let types = types_of_degree(alloc, target, 1)?;
    let mut parts = Vec::new(alloc);
    for k in 0..types.len() {
        parts.push(generator_part(alloc, &types[k], k as u8)?)?;
    }
    Ok(parts)
}
