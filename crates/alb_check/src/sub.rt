//! The basis elements of a table up to a type, with their products.
ghost use Rattle.std.specs.Prelude.{◌≡◌, ℕ, ◌<◌, ◌++◌, true, [], All, IfOk, OnOk, length, map, slice_index_or, unwrap_or};
ghost use Rattle.std.specs.List.{flat_map};
ghost use Rattle.alb_mono.specs.Listing.{Each};
ghost use Rattle.alb_mono.specs.Tree.{type_le, rising};
ghost use Rattle.alb_rows.specs.Row.{ColumnsBelow};
ghost use Rattle.alb_table.specs.Table.{entry_of, elems, type_at};
ghost use Rattle.alb_check.specs.Raw.{raw, IsRaw};
ghost use Rattle.alb_check.specs.SubTable.{kept_elements, number_of, generator_number, row_entries, product_entries, sub_table};

use crate::{RawEntry, RawTable};
use alb_mono::{Multi, NoMemory};
use alb_rows::Row;
use alb_table::Tables;
use std::alloc::Global;

// The basis elements whose types are at most a type, in order, and for each basis element of the table one more than how many
// of these are before it.
#[derive(Drop)]
struct Kept {
    elements: Vec<u32>,
    numbers: Vec<u64>,
}

// Those up to `top`.
fn kept_elements(alloc: Global, tables: &Tables, top: &Multi) -> Result<Kept, NoMemory>
    requires { length top.now ≡ length tables.now.target }
    ensures elements { IfOk result (λ k. k.elements.items ≡ kept_elements tables.now top.now) }
    ensures numbers { IfOk result (λ k. k.numbers.items ≡ map (number_of tables.now top.now) (rising 0 (length (elems tables.now.parts)))) }
{
    let mut elements = Vec::new(alloc);
    let mut numbers = Vec::new(alloc);
    for b in 0..tables.len() {
        numbers.push(elements.len() as u64 + 1)?;
        if tables.type_at(b).le(top) {
            elements.push(b)?;
        }
    }
    Ok(Kept { elements, numbers })
}

// The types of basis elements.
fn element_types(alloc: Global, tables: &Tables, elements: &[u32]) -> Result<Vec<Multi>, NoMemory>
    requires { Each (λ b. b < length (elems tables.now.parts)) elements.now }
    ensures { IfOk result (λ v. v.items ≡ map (type_at tables.now.parts) elements.now) }
{
    let mut types = Vec::new(alloc);
    for b in elements {
        types.push(Multi::of(tables.type_at(*b).counts()))?;
    }
    Ok(types)
}

// The numbers of the generators, the first basis elements, of those whose types are at most `top`.
fn generator_numbers(
    alloc: Global,
    tables: &Tables,
    top: &Multi,
    numbers: &[u64],
) -> Result<Vec<Option<u64>>, NoMemory>
    requires long { length top.now ≡ length tables.now.target }
    requires numbers { numbers.now ≡ map (number_of tables.now top.now) (rising 0 (length (elems tables.now.parts))) }
    ensures { IfOk result (λ v. v.items ≡ map (generator_number tables.now top.now) (rising 0 (length tables.now.target))) }
{
    let mut out = Vec::new(alloc);
    for g in 0..tables.target().counts().len() {
        if tables.type_at(g as u32).le(top) {
            out.push(Some(numbers[g]))?;
        } else {
            out.push(None)?;
        }
    }
    Ok(out)
}

// Adds the coefficients of a row that is the product of two basis elements.
fn push_row(
    numbers: &[u64],
    left: u32,
    right: u32,
    row: &Row,
    entries: &mut Vec<RawEntry>,
) -> Result<(), NoMemory>
    requires left { left < length numbers.now }
    requires right { right < length numbers.now }
    requires row { ColumnsBelow (length numbers.now) row.now }
    ensures { OnOk result (entries.new.items ≡ entries.old.items ++ row_entries (λ b. slice_index_or numbers.now b 0) left right row.now) }
{
    for cell in row.cells() {
        entries.push(RawEntry {
            left: numbers[left as usize],
            right: numbers[right as usize],
            to: numbers[cell.0 as usize],
            coef: cell.1,
        })?;
    }
    Ok(())
}

// Adds the coefficients of the product of two basis elements.
fn push_product(
    tables: &Tables,
    numbers: &[u64],
    left: u32,
    right: u32,
    entries: &mut Vec<RawEntry>,
) -> Result<(), NoMemory>
    requires numbers { length numbers.now ≡ length (elems tables.now.parts) }
    requires left { left < length (elems tables.now.parts) }
    requires right { right < length (elems tables.now.parts) }
    ensures { OnOk result (entries.new.items ≡ entries.old.items
        ++ row_entries (λ b. slice_index_or numbers.now b 0) left right (unwrap_or (entry_of tables.now.parts left right) [])) }
{
    match tables.product(left, right) {
        None => Ok(()),
        Some(row) => push_row(numbers, left, right, row, entries),
    }
}

// Adds those of the products of one basis element with all that are kept, where the type of the product is at most `top`.
fn push_products(
    tables: &Tables,
    top: &Multi,
    kept: &Kept,
    left: u32,
    entries: &mut Vec<RawEntry>,
) -> Result<(), NoMemory>
    requires long { length top.now ≡ length tables.now.target }
    requires elements { kept.now.elements.items ≡ kept_elements tables.now top.now }
    requires numbers { kept.now.numbers.items ≡ map (number_of tables.now top.now) (rising 0 (length (elems tables.now.parts))) }
    requires left { left < length (elems tables.now.parts) }
    requires within { type_le (type_at tables.now.parts left) top.now ≡ true }
    ensures { OnOk result (entries.new.items ≡ entries.old.items ++ flat_map (product_entries tables.now top.now left) (kept_elements tables.now top.now)) }
{
    prove!(0 < tables.degree());
    let rest = top.minus(tables.type_at(left));
    for right in &kept.elements {
        if tables.type_at(*right).le(&rest) {
            push_product(tables, &kept.numbers, left, *right, entries)?;
        }
    }
    Ok(())
}

// The coefficients of all products whose types are at most `top`.
fn product_entries(
    alloc: Global,
    tables: &Tables,
    top: &Multi,
    kept: &Kept,
) -> Result<Vec<RawEntry>, NoMemory>
    requires long { length top.now ≡ length tables.now.target }
    requires elements { kept.now.elements.items ≡ kept_elements tables.now top.now }
    requires numbers { kept.now.numbers.items ≡ map (number_of tables.now top.now) (rising 0 (length (elems tables.now.parts))) }
    ensures { IfOk result (λ v. v.items ≡ flat_map (λ b. flat_map (product_entries tables.now top.now b) (kept_elements tables.now top.now)) (kept_elements tables.now top.now)) }
{
    let mut out = Vec::new(alloc);
    for left in &kept.elements {
        push_products(tables, top, kept, *left, &mut out)?;
    }
    Ok(out)
}

/// The basis elements of a table whose types are at most `top`, in order, each with its type, and the coefficients of all their
/// products whose types are. A generator whose type is not at most `top` has no element. The type has as many counts as the
/// target.
pub fn sub_table(alloc: Global, tables: &Tables, top: &Multi) -> Result<RawTable, NoMemory>
    requires { length top.now ≡ length tables.now.target }
    ensures table { IfOk result (λ r. raw r ≡ sub_table tables.now top.now) }
    ensures raw { IfOk result (λ r. IsRaw tables.now.p (length tables.now.target) (raw r)) }
{
    prove!(0 < tables.degree());
    let kept = kept_elements(alloc, tables, top)?;
    let elements = element_types(alloc, tables, &kept.elements)?;
    let generators = generator_numbers(alloc, tables, top, &kept.numbers)?;
    let entries = product_entries(alloc, tables, top, &kept)?;
    Ok(RawTable {
        top: Multi::of(top.counts()),
        elements,
        generators,
        entries,
    })
}
