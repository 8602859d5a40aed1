ghost use Rattle.std.specs.Prelude.{◌≡◌, ◌+◌, ◌<◌, ◌≤◌, ◌^◌, ◌++◌, All, length, map, sum, Some, None, IfOk, IfSome, IfNone, MatchOption, slice_get};
ghost use Rattle.std.specs.List.{flat_map};
ghost use Rattle.alb_mono.specs.Listing.{Each};
ghost use Rattle.alb_mono.specs.Tree.{tree, type_plus, types_of};
ghost use Rattle.alb_table.specs.Table.{elems, type_at, first_of, dim_of, mono_at, origin_view, origins_at, part_at, part_view, entry_of, products, FactorsBelow, GeneratorBelow, IsTable, IsTarget, IsPartOf, IsCountable, CoversType, count_products, count_coefficients, extended, first_table};
ghost use Rattle.alb_table.specs.Grid.{cells_of, ArePairsBelow};
ghost use Rattle.alb_table.specs.Value.{IsBasisRow};

use crate::build::{empty_store, first_parts, grown};
use crate::count::{count_coefficients, count_entries};
use crate::find::{entry_in, find_part, range_of};
use crate::grid::Grid;
use crate::part::{Elem, Origin, Part};
use crate::store::Store;
use crate::stored::Stored;
use alb_mono::{Mono, Multi, NoMemory};
use alb_rows::Row;
use gf_field::Field;
use std::alloc::Global;
use std::marker::Model;

/// The table of a relatively free algebra up to a degree. Basis elements are numbered from 0, by type and ascending within a
/// type. Contracts see it as a `Table`, the list of its parts with its field, target and degree.
#[derive(Drop)]
pub struct Tables {
    field: Field,
    target: Multi,
    degree: u32,
    store: Store,
}

impl Model for Tables {
    ghost use Rattle.alb_table.specs.Table.{Table};
    ghost use Rattle.alb_table.specs.Views.{views, IsKeptTable};

    ghost Value = { Table };

    ghost view = { λ t. record { p = t.field; target = t.target; degree = t.degree; parts = views t.store } };

    ghost invariant = { λ t. IsKeptTable (record { p = t.field; target = t.target; degree = t.degree; parts = views t.store }) t.store };
}

impl Tables {
    /// The table of degree 1, in which no product has an entry. The target has degree 1 to 12, and each generator occurs in it.
    pub fn first(alloc: Global, field: Field, target: &Multi) -> Result<Tables, NoMemory>
        requires { IsTarget target.now }
        ensures { IfOk result (λ t. t ≡ first_table field target.now) }
    {
        prove!(1 < field.p());
        let parts = first_parts(alloc, target)?;
        let empty = empty_store(alloc);
        let store = grown(alloc, &empty, parts)?;
        Ok(Tables {
            field,
            target: Multi::of(target.counts()),
            degree: 1,
            store,
        })
    }

    /// This table with one more degree, at most the target's: one part for each of its types, in order. What is stored for the
    /// older degrees is shared. Each part has an entry for each product of two basis elements whose types add up to its own,
    /// ascending by product, as a row over the basis numbers of its type, and its basis elements are some of these products.
    pub fn extend(&self, alloc: Global, parts: Vec<Part>) -> Result<Tables, NoMemory>
        requires room { self.now.degree < sum self.now.target }
        requires types { map (λ q. q.at) (map part_view parts.items) ≡ types_of self.now.target (self.now.degree + 1) }
        requires parts { Each (IsPartOf self.now.p self.now.parts (self.now.parts ++ map part_view parts.items)) (map part_view parts.items) }
        requires countable { IsCountable (self.now.parts ++ map part_view parts.items) }
        ensures { IfOk result (λ t. t ≡ extended self.now (map part_view parts.items)) }
    {
        let store = grown(alloc, &self.store, parts)?;
        Ok(Tables {
            field: self.field,
            target: Multi::of(self.target.counts()),
            degree: self.degree + 1,
            store,
        })
    }

    /// The field of the coefficients.
    pub fn field(&self) -> &Field
        ensures { result.now ≡ self.now.p }
    {
        &self.field
    }

    /// How often each generator may occur.
    pub fn target(&self) -> &Multi
        ensures value { result.now ≡ self.now.target }
        ensures table { IsTable self.now }
    {
        &self.target
    }

    /// The greatest degree that the table has.
    pub fn degree(&self) -> u32
        ensures value { result ≡ self.now.degree }
        ensures table { IsTable self.now }
    {
        self.degree
    }

    /// The number of basis elements.
    pub fn len(&self) -> u32
        ensures { result ≡ length (elems self.now.parts) }
    {
        self.store.elems.len() as u32
    }

    /// A basis element.
    pub fn elem(&self, b: u32) -> Elem
        requires { b < length (elems self.now.parts) }
        ensures value { slice_get (elems self.now.parts) b ≡ Some result }
        ensures factors { FactorsBelow b result }
        ensures generator { GeneratorBelow (length self.now.target) result }
    {
        self.store.elems[b as usize]
    }

    /// The type of a basis element.
    pub fn type_at(&self, b: u32) -> &Multi
        requires { b < length (elems self.now.parts) }
        ensures value { result.now ≡ type_at self.now.parts b }
        ensures long { length result.now ≡ length self.now.target }
        ensures small { All (λ c. c ≤ 12) result.now }
    {
        &self.store.parts[self.store.part_of[b as usize]].part.at
    }

    /// The number of the first basis element of a type, and how many there are, which is 0 where the table does not have the
    /// type.
    pub fn basis(&self, t: &Multi) -> (u32, u32)
        ensures first { result.0 ≡ first_of self.now.parts t.now }
        ensures count { result.1 ≡ dim_of self.now.parts t.now }
    {
        range_of(&self.store.parts, t)
    }

    /// How many basis elements a type has, 0 where the table does not have the type.
    pub fn dimension(&self, t: &Multi) -> u32
        ensures { result ≡ dim_of self.now.parts t.now }
    {
        self.basis(t).1
    }

    /// The entry of a product of two basis elements, a row over basis numbers. `None` exactly where the sum of their types is
    /// not at most the target, or its degree is above the table's.
    pub fn product(&self, b: u32, c: u32) -> Option<&Row>
        requires left { b < length (elems self.now.parts) }
        requires right { c < length (elems self.now.parts) }
        ensures some { IfSome result (λ r. entry_of self.now.parts b c ≡ Some r.now) }
        ensures none { IfNone result (entry_of self.now.parts b c ≡ None) }
        ensures row { IfSome result (λ r. IsBasisRow self.now.p (length (elems self.now.parts)) r.now) }
        ensures exactly { MatchOption result (CoversType self.now (type_plus (type_at self.now.parts b) (type_at self.now.parts c)) → ⊥) (λ r. CoversType self.now (type_plus (type_at self.now.parts b) (type_at self.now.parts c))) }
    {
        let t = self.type_at(b).plus(self.type_at(c));
        match find_part(&self.store.parts, &t) {
            None => None,
            Some(k) => {
                let stored: &Stored = &self.store.parts[k];
                entry_in(&stored.grids, &stored.part.entries, b, c)
            }
        }
    }

    /// The number of types.
    pub fn type_count(&self) -> usize
        ensures { result ≡ length self.now.parts }
    {
        self.store.parts.len()
    }

    /// What the table has of a type, by the place of the type.
    pub fn part(&self, k: usize) -> &Part
        requires { k < length self.now.parts }
        ensures { part_view result.now ≡ part_at self.now.parts k }
    {
        &self.store.parts[k].part
    }

    /// The products of a type, by the place of the type: the rectangles of the types of its factors, in order.
    pub fn grids(&self, k: usize) -> &[Grid]
        requires { k < length self.now.parts }
        ensures cells { flat_map cells_of result.now ≡ products self.now.parts (part_at self.now.parts k).at }
        ensures below { ArePairsBelow (length (elems self.now.parts)) (flat_map cells_of result.now) }
    {
        &self.store.parts[k].grids
    }

    /// The instances that made the pivots of a type, none where the table does not have the type.
    pub fn origins(&self, t: &Multi) -> &[Origin]
        ensures { map origin_view result.now ≡ origins_at self.now.parts t.now }
    {
        if t.counts().len() != self.target.counts().len() {
            return &[];
        }
        match find_part(&self.store.parts, t) {
            None => &[],
            Some(k) => &self.store.parts[k].part.origins,
        }
    }

    /// The number of products of two basis elements that have an entry.
    pub fn products(&self) -> u64
        ensures { result ≡ count_products self.now.parts }
    {
        count_entries(&self.store.parts)
    }

    /// The number of coefficients of all entries that are not 0.
    pub fn coefficients(&self) -> u64
        ensures { result ≡ count_coefficients self.now.parts }
    {
        count_coefficients(&self.store.parts)
    }

    /// The monomial of a basis element.
    pub fn basis_mono(&self, alloc: Global, b: u32) -> Result<Mono, NoMemory>
        requires { b < length (elems self.now.parts) }
        ensures { IfOk result (λ m. tree m ≡ mono_at self.now.parts b) }
    {
        prove!(0 < self.degree());
        match self.elem(b) {
            Elem::Gen(k) => Ok(Mono::Gen(k)),
            Elem::Prod(l, r) => {
                let left = self.basis_mono(alloc, l)?;
                let right = self.basis_mono(alloc, r)?;
                Mono::product(alloc, left, right)
            }
        }
    }
}
