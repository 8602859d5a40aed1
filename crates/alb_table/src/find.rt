//! Searches in the parts of a table.
ghost use Rattle.std.specs.Prelude.{◌≡◌, ◌+◌, ◌-◌, ◌<◌, ◌≤◌, ◌^◌, IsTrue, ◌↔◌, true, length, map, IfSome, IfNone, Some, None};
ghost use Rattle.std.specs.List.{flat_map};
ghost use Rattle.alb_mono.specs.Listing.{Each, Ascends};
ghost use Rattle.alb_mono.specs.Tree.{cmp_types};
ghost use Rattle.alb_table.specs.Grid.{covers, first_cover, place_in, cells_of, OffsetsFrom, Rises};
ghost use Rattle.alb_table.specs.Table.{find_entry, elems, first_of, dim_of};
ghost use Rattle.alb_table.specs.Views.{view_of, part_number};

use crate::grid::Grid;
use crate::part::Part;
use crate::stored::Stored;
use alb_mono::Multi;
use alb_rows::Row;
use std::cmp::Ordering;
use std::sync::Arc;

// Whether the pair stands in the rectangle.
fn covers(g: &Grid, b: u32, c: u32) -> bool
    ensures { result ≡ covers g.now b c }
{
    (g.left <= b && b - g.left < g.lefts) && (g.right <= c && c - g.right < g.rights)
}

// Where to go on: after the place `middle` where the left numbers of its rectangle end at `b` or before, else before it.
fn stepped(g: &Grid, b: u32, low: usize, middle: usize, high: usize) -> (usize, usize)
    requires from { low ≤ middle }
    requires below { middle < high }
    ensures after { g.now.left + g.now.lefts ≤ b → (result.0 ≡ middle + 1) × (result.1 ≡ high) }
    ensures before { b < g.now.left + g.now.lefts → (result.0 ≡ low) × (result.1 ≡ middle) }
    ensures smaller { result.1 - result.0 < high - low }
{
    if g.left <= b && g.lefts <= b - g.left {
        (middle + 1, high)
    } else {
        (low, middle)
    }
}

// The first rectangle with the pair, found by halving.
fn find_grid(grids: &[Grid], b: u32, c: u32) -> Option<Grid>
    requires { Rises 0 grids.now }
    ensures { result ≡ first_cover b c grids.now }
{
    let mut low = 0;
    let mut high = grids.len();
    while low < high {
        let middle = low + (high - low) / 2;
        let g = grids[middle];
        if covers(&g, b, c) {
            return Some(g);
        }
        let next = stepped(&g, b, low, middle, high);
        low = next.0;
        high = next.1;
    }
    None
}

// The place of the pair.
fn place(g: &Grid, b: u32, c: u32) -> usize
    requires covered { covers g.now b c ≡ true }
    requires fits { place_in g.now b c < 2 ^ 63 }
    ensures { result ≡ place_in g.now b c }
{
    g.offset as usize + (b - g.left) as usize * g.rights as usize + (c - g.right) as usize
}

// The entry of a pair among the entries of a part.
pub(crate) fn entry_in<'a>(grids: &[Grid], entries: &'a [Row], b: u32, c: u32) -> Option<&'a Row>
    requires full { length entries.now ≡ length (flat_map cells_of grids.now) }
    requires offsets { OffsetsFrom 0 grids.now }
    requires rises { Rises 0 grids.now }
    ensures some { IfSome result (λ r. find_entry (b, c) (flat_map cells_of grids.now) entries.now ≡ Some r.now) }
    ensures none { IfNone result (find_entry (b, c) (flat_map cells_of grids.now) entries.now ≡ None) }
    ensures missed { IfNone result (first_cover b c grids.now ≡ None) }
{
    match find_grid(grids, b, c) {
        None => None,
        Some(g) => Some(&entries[place(&g, b, c)]),
    }
}

// Where to go on: after the place `middle` where its type `at` comes before `t`, else before it.
fn narrowed(at: &Multi, t: &Multi, low: usize, middle: usize, high: usize) -> (usize, usize)
    requires long { length at.now ≡ length t.now }
    requires from { low ≤ middle }
    requires below { middle < high }
    ensures less { cmp_types at.now t.now ≡ Ordering.Less → (result.0 ≡ middle + 1) × (result.1 ≡ high) }
    ensures rest { (cmp_types at.now t.now ≡ Ordering.Less → ⊥) → (result.0 ≡ low) × (result.1 ≡ middle) }
    ensures smaller { result.1 - result.0 < high - low }
{
    match at.cmp_type(t) {
        Ordering::Less => (middle + 1, high),
        _ => (low, middle),
    }
}

// The number of the part of a type, found by halving.
pub(crate) fn find_part(parts: &[Arc<Stored>], t: &Multi) -> Option<usize>
    requires long { Each (λ q. length q.at ≡ length t.now) (map view_of parts.now) }
    requires ascends { Ascends cmp_types (map (λ q. q.at) (map view_of parts.now)) }
    ensures { result ≡ part_number 0 (map view_of parts.now) t.now }
{
    let mut low = 0;
    let mut high = parts.len();
    while low < high {
        let middle = low + (high - low) / 2;
        let at = &parts[middle].part.at;
        if at.is_same(t) {
            return Some(middle);
        }
        let next = narrowed(at, t, low, middle, high);
        low = next.0;
        high = next.1;
    }
    None
}

// The number of the first basis element of a type, and how many there are.
pub(crate) fn range_of(parts: &[Arc<Stored>], t: &Multi) -> (u32, u32)
    requires { length (elems (map view_of parts.now)) < 2 ^ 32 }
    ensures first { result.0 ≡ first_of (map view_of parts.now) t.now }
    ensures count { result.1 ≡ dim_of (map view_of parts.now) t.now }
{
    let mut first = 0;
    for k in 0..parts.len() {
        let part: &Part = &parts[k].part;
        let count = part.basis.len() as u32;
        if part.at.is_same(t) {
            return (first, count);
        }
        first += count;
    }
    (first, 0)
}
