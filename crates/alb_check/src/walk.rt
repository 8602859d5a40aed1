//! The tuples of elements, in lexicographic order. Those whose types add up to more than the top type are passed over: there
//! every form is zero.
ghost use Rattle.std.specs.Prelude.{◌≡◌, ◌≤◌, IsTrue, ◌↔◌, All, IfOk, MatchOption, Some, None, length, true, false};
ghost use Rattle.std.specs.List.{filter};
ghost use Rattle.alb_mono.specs.Listing.{Each};
ghost use Rattle.alb_mono.specs.Tree.{type_minus};
ghost use Rattle.alb_linear.specs.Identity.{IsLinearized};
ghost use Rattle.alb_poly.specs.Consequence.{form};
ghost use Rattle.alb_check.specs.Raw.{raw, IsRaw, shape_fault, element_type};
ghost use Rattle.alb_check.specs.TableAlgebra.{IsElement, IsTuple, IsZeroAtTuple, IsZeroAtTuples, IsFirstTuple};
ghost use Rattle.alb_check.specs.Walk.{IsTrial, Leaves, fits_top, AreCandidates, IsZeroFrom, IsFirstFrom};
ghost use Rattle.alb_check.specs.Products.{AreProducts, GivesProducts};

use crate::RawTable;
use crate::product::Product;
use crate::value::Algebra;
use alb_mono::{Multi, NoMemory};
use alb_poly::{Linear, Rules};
use alb_rows::Row;
use std::alloc::Global;

// What is tried at tuples of elements: a form, in the algebra of a table, whose products are listed.
#[derive(Clone, Copy)]
struct Trial<'a> {
    rules: &'a Rules,
    table: &'a RawTable,
    products: &'a [Product],
    linear: &'a Linear,
}

// Whether the form is zero at a tuple of elements.
fn is_zero_at(alloc: Global, trial: &Trial, tuple: &[u64]) -> Result<bool, NoMemory>
    requires trial { IsTrial trial.now }
    requires tuple { IsTuple (raw trial.now.table.now) (form trial.now.linear.now) tuple.now }
    ensures { IfOk result (λ b. IsTrue b ↔ IsZeroAtTuple trial.now.rules.now.field (raw trial.now.table.now) (form trial.now.linear.now) tuple.now) }
{
    let mut rows = Vec::new(alloc);
    for k in tuple {
        rows.push(Row::unit(alloc, *k as u32, 1)?)?;
    }
    let field = &trial.rules.field;
    prove!(1 < field.p());
    let algebra = Algebra {
        field,
        products: trial.products,
    };
    let value = algebra.value_of(alloc, &rows, &trial.linear.terms)?;
    Ok(value.is_zero())
}

// The candidates whose types are at most `rest`.
fn those_fitting(
    alloc: Global,
    table: &RawTable,
    candidates: &[u64],
    rest: &Multi,
) -> Result<Vec<u64>, NoMemory>
    requires long { All (λ e. length e ≡ length rest.now) table.now.elements.items }
    requires elements { Each (IsElement (raw table.now)) candidates.now }
    ensures { IfOk result (λ v. v.items ≡ filter (fits_top (raw table.now) rest.now) candidates.now) }
{
    let mut out = Vec::new(alloc);
    for k in candidates {
        if table.elements[(*k - 1) as usize].le(rest) {
            out.push(*k)?;
        }
    }
    Ok(out)
}

// What the type of an element leaves of `rest`.
fn rest_after(table: &RawTable, rest: &Multi, k: u64) -> Multi
    requires element { IsElement (raw table.now) k }
    requires long { length (element_type (raw table.now) k) ≡ length rest.now }
    requires fits { fits_top (raw table.now) rest.now k ≡ true }
    ensures { result ≡ type_minus rest.now (element_type (raw table.now) k) }
{
    rest.minus(&table.elements[(k - 1) as usize])
}

// Tries the tuples that begin with `tuple`, where the types of its elements leave `rest` of the top type, and all elements
// that fit into that are candidates. Whether there is one at which the form is not zero; `tuple` is then the first of them.
fn walk(
    trial: &Trial,
    candidates: &[u64],
    rest: &Multi,
    tuple: &mut Vec<u64>,
) -> Result<bool, NoMemory>
    requires trial { IsTrial trial.now }
    requires elements { Each (IsElement (raw trial.now.table.now)) tuple.old.items }
    requires within { length tuple.old.items ≤ trial.now.linear.now.degree }
    requires leaves { Leaves (raw trial.now.table.now) tuple.old.items rest.now }
    requires candidates { AreCandidates (raw trial.now.table.now) rest.now candidates.now }
    ensures kept { IfOk result (λ b. b ≡ false → tuple.new.items ≡ tuple.old.items) }
    ensures zero { IfOk result (λ b. b ≡ false → IsZeroFrom trial.now.rules.now.field (raw trial.now.table.now) (form trial.now.linear.now) tuple.old.items) }
    ensures first { IfOk result (λ b. b ≡ true → IsFirstFrom trial.now.rules.now.field (raw trial.now.table.now) (form trial.now.linear.now) tuple.old.items tuple.new.items) }
{
    let alloc = *tuple.allocator();
    if tuple.len() as u64 == u64::from(trial.linear.degree) {
        let zero = is_zero_at(alloc, trial, tuple)?;
        return Ok(!zero);
    }
    let fitting = those_fitting(alloc, trial.table, candidates, rest)?;
    for k in &fitting {
        let left = rest_after(trial.table, rest, *k);
        tuple.push(*k)?;
        if walk(trial, &fitting, &left, tuple)? {
            return Ok(true);
        }
        let _ = tuple.pop();
    }
    Ok(false)
}

// The numbers of the elements.
fn numbers(alloc: Global, table: &RawTable) -> Result<Vec<u64>, NoMemory>
    ensures { IfOk result (λ v. AreCandidates (raw table.now) table.now.top v.items) }
{
    let mut out = Vec::new(alloc);
    for k in 0..table.elements.len() {
        out.push(k as u64 + 1)?;
    }
    Ok(out)
}

/// The first tuple of elements at which the form is not zero, if there is one.
pub(crate) fn first_failing(
    alloc: Global,
    rules: &Rules,
    table: &RawTable,
    products: &[Product],
    linear: &Linear,
) -> Result<Option<Vec<u64>>, NoMemory>
    requires raw { IsRaw rules.now.field (length rules.now.target) (raw table.now) }
    requires shape { shape_fault rules.now.target rules.now.field (raw table.now) ≡ None }
    requires products { AreProducts rules.now.field products.now }
    requires values { GivesProducts rules.now.field (raw table.now) products.now }
    requires linearized { IsLinearized rules.now.field (form linear.now) }
    ensures { IfOk result (λ o. MatchOption o (IsZeroAtTuples rules.now.field (raw table.now) (form linear.now))
        (λ v. IsFirstTuple rules.now.field (raw table.now) (form linear.now) v.items)) }
{
    let all = numbers(alloc, table)?;
    let mut tuple = Vec::new(alloc);
    let trial = Trial {
        rules,
        table,
        products,
        linear,
    };
    if walk(&trial, &all, &table.top, &mut tuple)? {
        Ok(Some(tuple))
    } else {
        Ok(None)
    }
}
