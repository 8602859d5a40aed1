//! The rules of shape.
ghost use Rattle.std.specs.Prelude.{◌≡◌, ◌*◌, ◌%◌, ◌==◌, ◌<◌, ◌≤◌, true, false, not, length, All, Option, MatchOption};
ghost use Rattle.std.specs.List.{list_all};
ghost use Rattle.alb_mono.specs.Tree.{type_plus};
ghost use Rattle.alb_poly.specs.Poly.{list_eq};
ghost use Rattle.alb_check.specs.Raw.{raw, IsRaw, is_element, element_type, is_top_right, are_elements_right, is_generator_right, are_generators_right, is_entry_right, are_entries_right, is_before, are_ascending, are_nonzero, shape_fault};

use crate::{RawEntry, RawTable};
use alb_mono::{Mono, Multi};
use gf_field::Field;

// A table may have fewer elements than this.
const ELEMENTS: u64 = 4_294_967_296;

/// The type of the element of a number, if there is one.
pub(crate) fn element(table: &RawTable, k: u64) -> Option<&Multi>
    ensures { MatchOption result (is_element (raw table.now) k ≡ false) (λ m. (is_element (raw table.now) k ≡ true) × (m.now ≡ element_type (raw table.now) k)) }
{
    if k == 0 || (table.elements.len() as u64) < k {
        return None;
    }
    Some(&table.elements[(k - 1) as usize])
}

// Whether the top type is not zero and at most the target, and the elements are few.
fn is_top_right(target: &Multi, table: &RawTable) -> bool
    requires { length table.now.top ≡ length target.now }
    ensures { result ≡ is_top_right target.now (raw table.now) }
{
    0 < table.top.degree() && table.top.le(target) && (table.elements.len() as u64) < ELEMENTS
}

// Whether each element's type is not zero and at most the top.
fn are_elements_right(table: &RawTable) -> bool
    requires { All (λ e. length e ≡ length table.now.top) table.now.elements.items }
    ensures { result ≡ are_elements_right (raw table.now) }
{
    for e in &table.elements {
        if e.degree() == 0 || !e.le(&table.top) {
            return false;
        }
    }
    true
}

// Whether the generator's number is that of an element of the generator's own type.
fn is_generator_right(table: &RawTable, g: u8, number: Option<u64>) -> bool
    requires { g < length table.now.top }
    ensures { result ≡ is_generator_right (raw table.now) g number }
{
    let Some(k) = number else {
        return true;
    };
    let Some(at) = element(table, k) else {
        return false;
    };
    let gens = table.top.counts().len() as u8;
    Mono::Gen(g).type_of(gens).is_same(at)
}

// Whether this holds of each generator.
fn are_generators_right(table: &RawTable) -> bool
    requires { length table.now.generators.items ≡ length table.now.top }
    ensures { result ≡ are_generators_right (raw table.now) 0 table.now.generators.items }
{
    for g in 0..table.top.counts().len() {
        if !is_generator_right(table, g as u8, table.generators[g]) {
            return false;
        }
    }
    true
}

// Whether a type is the sum of two types of its length.
fn is_sum(to: &Multi, left: &Multi, right: &Multi) -> bool
    requires left { length left.now ≡ length to.now }
    requires right { length right.now ≡ length to.now }
    ensures { result ≡ list_eq to.now (type_plus left.now right.now) }
{
    let (xs, ys, sums) = (left.counts(), right.counts(), to.counts());
    for g in 0..sums.len() {
        if u32::from(sums[g]) != u32::from(xs[g]) + u32::from(ys[g]) {
            return false;
        }
    }
    true
}

// Whether the numbers of an entry are those of elements, and the types add up.
fn is_entry_right(table: &RawTable, entry: &RawEntry) -> bool
    requires { All (λ e. length e ≡ length table.now.top) table.now.elements.items }
    ensures { result ≡ is_entry_right (raw table.now) entry.now }
{
    let Some(left) = element(table, entry.left) else {
        return false;
    };
    let Some(right) = element(table, entry.right) else {
        return false;
    };
    let Some(to) = element(table, entry.to) else {
        return false;
    };
    is_sum(to, left, right)
}

// Whether this holds of each entry.
fn are_entries_right(table: &RawTable) -> bool
    requires { All (λ e. length e ≡ length table.now.top) table.now.elements.items }
    ensures { result ≡ are_entries_right (raw table.now) }
{
    for entry in &table.entries {
        if !is_entry_right(table, entry) {
            return false;
        }
    }
    true
}

// Whether an entry stands before another.
fn is_before(d: &RawEntry, e: &RawEntry) -> bool
    ensures { result ≡ is_before d.now e.now }
{
    d.left < e.left
        || (d.left == e.left && (d.right < e.right || (d.right == e.right && d.to < e.to)))
}

// Whether each entry stands before the next.
fn are_ascending(entries: &[RawEntry]) -> bool
    ensures { result ≡ are_ascending entries.now }
{
    for k in 0..entries.len().saturating_sub(1) {
        if !is_before(&entries[k], &entries[k + 1]) {
            return false;
        }
    }
    true
}

// Whether no coefficient is zero.
fn are_nonzero(field: &Field, entries: &[RawEntry]) -> bool
    ensures { result ≡ are_nonzero field.now entries.now }
{
    let p = field.p();
    entries.iter().all(|e| u64::from(e.coef) % p != 0)
}

/// The first rule of shape that the table breaks.
pub(crate) fn shape_fault(field: &Field, target: &Multi, table: &RawTable) -> Option<u8>
    requires { IsRaw field.now (length target.now) (raw table.now) }
    ensures { result ≡ shape_fault target.now field.now (raw table.now) }
{
    if !is_top_right(target, table) {
        return Some(1);
    }
    if !are_elements_right(table) {
        return Some(2);
    }
    if !are_generators_right(table) {
        return Some(3);
    }
    if !are_entries_right(table) {
        return Some(4);
    }
    if !are_ascending(&table.entries) {
        return Some(5);
    }
    if !are_nonzero(field, &table.entries) {
        return Some(6);
    }
    None
}
