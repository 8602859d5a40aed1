ghost use Rattle.std.specs.Prelude.{◌≡◌, ◌<◌, ◌≤◌, IsTrue, All, IfOk, OnOk, None, length};
ghost use Rattle.alb_poly.specs.Consequence.{IsConsequence, forms};
ghost use Rattle.alb_poly.specs.Poly.{AreResidues};
ghost use Rattle.alb_mono.specs.Tree.{are_below};
ghost use Rattle.alb_rows.specs.Row.{comb, AreCellResidues as HasResidues, AreSameVector};
ghost use Rattle.alb_check.specs.Raw.{raw, IsRaw, shape_fault};
ghost use Rattle.alb_check.specs.TableAlgebra.{value, IsNilpotent, AreZeroAtTuples};
ghost use Rattle.alb_check.specs.Products.{AreProducts, GivesProducts, GivesGenerators};
ghost use Rattle.alb_check.specs.Verdict.{AreCheckRules, TableAnswers, FindsFailure, SatisfiesIdentities, RefutesText};

use crate::product::{Product, products_of};
use crate::shape::shape_fault;
use crate::value::Algebra;
use crate::walk::first_failing;
use crate::{RawTable, TableError};
use alb_mono::NoMemory;
use alb_poly::{Poly, Rules};
use alb_rows::Row;
use std::alloc::Global;

/// What refutes a polynomial: its value in the table, which is not zero.
#[derive(Drop)]
pub struct Counter {
    /// The value, over the numbers of the elements.
    pub value: Row,
}

// Tries each identity at all tuples of elements.
fn try_identities(
    alloc: Global,
    rules: &Rules,
    table: &RawTable,
    products: &[Product],
) -> Result<(), TableError>
    requires rules { AreCheckRules rules.now.field rules.now.target (forms rules.now) }
    requires raw { IsRaw rules.now.field (length rules.now.target) (raw table.now) }
    requires shape { shape_fault rules.now.target rules.now.field (raw table.now) ≡ None }
    requires products { AreProducts rules.now.field products.now }
    requires values { GivesProducts rules.now.field (raw table.now) products.now }
    ensures { FindsFailure rules.now.field (forms rules.now) (raw table.now) result }
{
    for (k, linear) in rules.linears.iter().enumerate() {
        if let Some(tuple) = first_failing(alloc, rules, table, products, linear)? {
            let identity = k as u32 + 1;
            return Err(TableError::Fails { identity, tuple });
        }
    }
    Ok(())
}

// The element of each generator as a row, or the zero row.
fn generator_rows(alloc: Global, rules: &Rules, table: &RawTable) -> Result<Vec<Row>, NoMemory>
    requires { shape_fault rules.now.target rules.now.field (raw table.now) ≡ None }
    ensures { IfOk result (λ v. GivesGenerators (raw table.now) v.items) }
{
    let mut rows = Vec::new(alloc);
    for number in &table.generators {
        match number {
            Some(k) => rows.push(Row::unit(alloc, *k as u32, 1)?)?,
            None => rows.push(Row::new(alloc))?,
        }
    }
    Ok(rows)
}

// The value of the polynomial in the algebra of the table.
fn claimed_value(
    alloc: Global,
    rules: &Rules,
    table: &RawTable,
    products: &[Product],
    g: &Poly,
) -> Result<Row, NoMemory>
    requires rules { AreCheckRules rules.now.field rules.now.target (forms rules.now) }
    requires raw { IsRaw rules.now.field (length rules.now.target) (raw table.now) }
    requires shape { shape_fault rules.now.target rules.now.field (raw table.now) ≡ None }
    requires products { AreProducts rules.now.field products.now }
    requires values { GivesProducts rules.now.field (raw table.now) products.now }
    requires residues { AreResidues rules.now.field g.now }
    requires known { All (λ t. IsTrue (are_below (length rules.now.target) t.1)) g.now }
    ensures row { IfOk result (λ r. HasResidues rules.now.field r) }
    ensures value { IfOk result (λ r. AreSameVector rules.now.field (comb r) (value (raw table.now) g.now)) }
{
    let rows = generator_rows(alloc, rules, table)?;
    let algebra = Algebra {
        field: &rules.field,
        products,
    };
    algebra.value_of(alloc, &rows, g)
}

/// The value of a polynomial in the algebra of the table, where this has its shape, satisfies every identity of the rules and
/// gives a value that is not zero; otherwise the first rule of shape that fails, or the first identity and the first tuple of
/// elements at which its linearization is not zero, or that the value is zero.
///
/// What has such a value does not follow from the identities.
pub fn check_table(
    alloc: Global,
    rules: &Rules,
    table: &RawTable,
    g: &Poly,
) -> Result<Counter, TableError>
    requires rules { AreCheckRules rules.now.field rules.now.target (forms rules.now) }
    requires raw { IsRaw rules.now.field (length rules.now.target) (raw table.now) }
    requires residues { AreResidues rules.now.field g.now }
    requires known { All (λ t. IsTrue (are_below (length rules.now.target) t.1)) g.now }
    ensures exact { TableAnswers rules.now.field rules.now.target (forms rules.now) (raw table.now) g.now result }
    ensures nilpotent { OnOk result (IsNilpotent rules.now.field (raw table.now)) }
    ensures satisfies { OnOk result (SatisfiesIdentities rules.now.field (forms rules.now) (raw table.now)) }
    ensures refutes { OnOk result (IsConsequence rules.now.field (forms rules.now) g.now → ⊥) }
    ensures refutes_text { OnOk result (RefutesText rules.now.field (forms rules.now) g.now) }
{
    if let Some(rule) = shape_fault(&rules.field, &rules.target, table) {
        return Err(TableError::BadShape { rule });
    }
    let products = products_of(alloc, &rules.field, &table.entries)?;
    try_identities(alloc, rules, table, &products)?;
    let value = claimed_value(alloc, rules, table, &products, g)?;
    if value.is_zero() {
        return Err(TableError::ValueZero);
    }
    Ok(Counter { value })
}
