ghost use Rattle.std.specs.Prelude.{false, ◌≡◌, ◌-◌, ◌+◌, ◌<◌, ◌≤◌, ◌^◌, ℕ, List, All, IfOk, OnOk, IsTrue, Some, None, length, map, not, if◌then◌else◌};
ghost use Rattle.std.specs.List.{list_any};
ghost use Rattle.gf_sums.specs.Sums.{reindex};
ghost use Rattle.alb_mono.specs.Tree.{tree, Tree, degree, are_below, type_le, type_of};
ghost use Rattle.alb_poly.specs.Poly.{Poly, normal};
ghost use Rattle.alb_linear.specs.Identity.{IsLinearized};
ghost use Rattle.alb_poly.specs.Consequence.{beside, form, forms};
ghost use Rattle.alb_poly.specs.Instance.{instance};
ghost use Rattle.alb_nodes.specs.Nodes.{at, Extends, AreDifferent};
ghost use Rattle.alb_deriv.specs.Derivation.{fault, line_value, is_no_place, Instance, Times, Sum};
ghost use Rattle.alb_deriv.specs.Views.{line, IsLine};
ghost use Rattle.alb_deriv.specs.Answers.{AreDerivationRules, IsPolyAtMost, IsValue, error_at};
ghost use Rattle.alb_deriv.specs.Numbered.{IsNumbered, IsFit, IsBeside, read, said, said_by};

use crate::numbered::{Numbered, all_numbers, filled_terms, terms_beside};
use crate::tally::Tally;
use crate::types::{are_within, is_pair_within};
use crate::{DerivError, Line};
use alb_mono::{Mono, Multi, NoMemory, Side};
use alb_nodes::Numbers;
use alb_poly::{Linear, Rules};
use gf_field::{Field, Residue};
use std::alloc::Global;

/// What is wrong with one line.
pub enum LineFault {
    BadIdentity,
    WrongCount,
    LaterLine,
    OutOfType,
    NoMemory,
}

impl LineFault {
    ghost use Rattle.alb_deriv.specs.Answers.{error_at};

    /// The fault as an error that names the line.
    pub fn at(self, line: u64) -> DerivError
        ensures { result ≡ error_at self line }
    {
        match self {
            LineFault::BadIdentity => DerivError::BadIdentity { line },
            LineFault::WrongCount => DerivError::WrongCount { line },
            LineFault::LaterLine => DerivError::LaterLine { line },
            LineFault::OutOfType => DerivError::OutOfType { line },
            LineFault::NoMemory => DerivError::NoMemory,
        }
    }
}

// The place of number `k` among the numbers 1 to `n`.
fn place(n: usize, k: u64) -> Option<usize>
    ensures { result ≡ (if is_no_place n k then None else Some (k - 1)) }
{
    if k == 0 || (n as u64) < k {
        None
    } else {
        Some((k - 1) as usize)
    }
}

// The terms, each number once and without zeros.
fn collected(alloc: Global, field: &Field, list: &[(Residue, usize)]) -> Result<Numbered, NoMemory>
    requires residues { All (λ t. t.0 < field.now) list.now }
    requires one { 1 < field.now }
    ensures numbered { (target : List ℕ) (ts : List Tree) → AreDifferent ts → All (λ t. IsFit target ts t.1) list.now → IfOk result (λ f. IsNumbered field.now target ts f) }
    ensures value { (ts : List Tree) → IfOk result (λ f. said field.now ts f ≡ said field.now ts list.now) }
{
    let mut sum = Tally::new(alloc);
    sum.add_multiple(field, 1, list)?;
    sum.close(alloc)
}

// The instance of a linearized identity at monomials, one for each position.
fn instance_terms(
    alloc: Global,
    field: &Field,
    numbers: &mut Numbers,
    linear: &Linear,
    ms: &[Mono],
) -> Result<Numbered, NoMemory>
    requires one { 1 < field.now }
    requires linearized { IsLinearized field.now (form linear.now) }
    requires full { length ms.now ≡ linear.now.degree }
    ensures value { IfOk result (λ f. said field.now numbers.new f ≡ normal field.now (instance (form linear.now) (map tree ms.now))) }
    ensures numbered { (target : List ℕ) → IsPolyAtMost target (instance (form linear.now) (map tree ms.now)) → IfOk result (λ f. IsNumbered field.now target numbers.new f) }
    ensures kept { OnOk result (Extends numbers.old numbers.new) }
{
    let ns = all_numbers(alloc, numbers, ms)?;
    let list = filled_terms(alloc, numbers, linear.terms.terms(), &ns)?;
    // Brings in that no monomial has two numbers.
    prove!(numbers.len() <= usize::MAX);
    collected(alloc, field, &list)
}

// The instance of an identity at monomials.
fn instance_value(
    alloc: Global,
    rules: &Rules,
    numbers: &mut Numbers,
    i: u64,
    ms: &[Mono],
) -> Result<Numbered, LineFault>
    requires rules { AreDerivationRules rules.now.field rules.now.target (forms rules.now) }
    requires known { All (λ m. IsTrue (are_below (length rules.now.target) (tree m))) ms.now }
    requires small { All (λ m. degree (tree m) ≤ 64) ms.now }
    ensures value { (gs : List Poly) → IsValue (said_by rules.now.field numbers.new result) (fault rules.now.field rules.now.target (forms rules.now) gs (Instance i (map tree ms.now)))
        (normal rules.now.field (line_value (forms rules.now) gs (Instance i (map tree ms.now)))) }
    ensures numbered { IfOk result (λ f. IsNumbered rules.now.field rules.now.target numbers.new f) }
    ensures kept { OnOk result (Extends numbers.old numbers.new) }
{
    let Some(k) = place(rules.linears.len(), i) else {
        return Err(LineFault::BadIdentity);
    };
    let linear = &rules.linears[k];
    if ms.len() != linear.degree as usize {
        return Err(LineFault::WrongCount);
    }
    if !are_within(&rules.target, ms) {
        return Err(LineFault::OutOfType);
    }
    match instance_terms(alloc, &rules.field, numbers, linear, ms) {
        Ok(value) => Ok(value),
        Err(NoMemory) => Err(LineFault::NoMemory),
    }
}

// Whether a term, beside the monomial of a number, passes the target.
fn is_passed(target: &Multi, numbers: &Numbers, list: &[(Residue, usize)], n: usize) -> bool
    requires within { (n < length numbers.now) × All (λ t. t.1 < length numbers.now) list.now }
    requires small { (degree (at numbers.now n) ≤ 64) × All (λ t. degree (at numbers.now t.1) ≤ 64) list.now }
    requires generators { length target.now ≤ 26 }
    ensures { (side : Side) → result ≡ list_any (λ t. not (type_le (type_of (length target.now) t.1) target.now)) (reindex (beside (side, at numbers.now n)) (read numbers.now list.now)) }
{
    for t in list {
        if !is_pair_within(target, numbers, t.1, n) {
            return true;
        }
    }
    false
}

// Terms beside a monomial, where none passes the target.
fn beside_value(
    alloc: Global,
    target: &Multi,
    numbers: &mut Numbers,
    list: &[(Residue, usize)],
    side: Side,
    m: &Mono,
) -> Result<Numbered, LineFault>
    requires within { All (λ t. t.1 < length numbers.old) list.now }
    requires factor { degree (tree m.now) ≤ 64 }
    requires small { All (λ t. degree (at numbers.old t.1) ≤ 64) list.now }
    requires generators { length target.now ≤ 26 }
    ensures value { IsBeside target.now numbers.new (reindex (beside (side, tree m.now)) (read numbers.old list.now)) result }
    ensures kept { OnOk result (Extends numbers.old numbers.new) }
{
    let Ok(n) = numbers.number(m) else {
        return Err(LineFault::NoMemory);
    };
    if is_passed(target, numbers, list, n) {
        return Err(LineFault::OutOfType);
    }
    match terms_beside(alloc, numbers, list, side, n) {
        Ok(list) => Ok(Numbered { list }),
        Err(NoMemory) => Err(LineFault::NoMemory),
    }
}

// An earlier line beside a monomial.
fn times_value(
    alloc: Global,
    rules: &Rules,
    numbers: &mut Numbers,
    values: &[Numbered],
    k: u64,
    side: Side,
    m: &Mono,
) -> Result<Numbered, LineFault>
    requires rules { AreDerivationRules rules.now.field rules.now.target (forms rules.now) }
    requires known { IsTrue (are_below (length rules.now.target) (tree m.now)) }
    requires small { degree (tree m.now) ≤ 64 }
    requires numbered { All (λ f. IsNumbered rules.now.field rules.now.target numbers.old f) values.now }
    ensures value { (gs : List Poly) → map (said rules.now.field numbers.old) values.now ≡ map (normal rules.now.field) gs
        → IsValue (said_by rules.now.field numbers.new result) (fault rules.now.field rules.now.target (forms rules.now) gs (Times k (side, tree m.now)))
        (normal rules.now.field (line_value (forms rules.now) gs (Times k (side, tree m.now)))) }
    ensures numbered { IfOk result (λ f. IsNumbered rules.now.field rules.now.target numbers.new f) }
    ensures kept { OnOk result (Extends numbers.old numbers.new) }
{
    let Some(at) = place(values.len(), k) else {
        return Err(LineFault::LaterLine);
    };
    beside_value(alloc, &rules.target, numbers, values[at].terms(), side, m)
}

// Whether an item of a sum names no earlier line.
fn is_later(n: usize, items: &[(Residue, u64)]) -> bool
    ensures { result ≡ list_any (λ c. is_no_place n c.1) items.now }
{
    items.iter().any(|c| c.1 == 0 || (n as u64) < c.1)
}

// A sum of multiples of earlier lines.
fn sum_value(
    alloc: Global,
    rules: &Rules,
    values: &[Numbered],
    items: &[(Residue, u64)],
) -> Result<Numbered, LineFault>
    requires rules { AreDerivationRules rules.now.field rules.now.target (forms rules.now) }
    requires coefficients { All (λ c. c.0 < rules.now.field) items.now }
    requires residues { All (λ f. All (λ t. t.0 < rules.now.field) f) values.now }
    ensures value { (ts : List Tree) (gs : List Poly) → map (said rules.now.field ts) values.now ≡ map (normal rules.now.field) gs
        → IsValue (said_by rules.now.field ts result) (fault rules.now.field rules.now.target (forms rules.now) gs (Sum items.now))
        (normal rules.now.field (line_value (forms rules.now) gs (Sum items.now))) }
    ensures numbered { (ts : List Tree) → AreDifferent ts → All (λ f. IsNumbered rules.now.field rules.now.target ts f) values.now → IfOk result (λ f. IsNumbered rules.now.field rules.now.target ts f) }
{
    if is_later(values.len(), items) {
        return Err(LineFault::LaterLine);
    }
    match add_up(alloc, rules, values, items) {
        Ok(value) => Ok(value),
        Err(NoMemory) => Err(LineFault::NoMemory),
    }
}

// The sum of the multiples, all of which there are.
fn add_up(
    alloc: Global,
    rules: &Rules,
    values: &[Numbered],
    items: &[(Residue, u64)],
) -> Result<Numbered, NoMemory>
    requires rules { AreDerivationRules rules.now.field rules.now.target (forms rules.now) }
    requires places { list_any (λ c. is_no_place (length values.now) c.1) items.now ≡ false }
    requires coefficients { All (λ c. c.0 < rules.now.field) items.now }
    requires residues { All (λ f. All (λ t. t.0 < rules.now.field) f) values.now }
    ensures value { (ts : List Tree) → IfOk result (λ f. (gs : List Poly) → map (said rules.now.field ts) values.now ≡ map (normal rules.now.field) gs
        → said rules.now.field ts f ≡ normal rules.now.field (line_value (forms rules.now) gs (Sum items.now))) }
    ensures numbered { (ts : List Tree) → AreDifferent ts → All (λ f. IsNumbered rules.now.field rules.now.target ts f) values.now → IfOk result (λ f. IsNumbered rules.now.field rules.now.target ts f) }
{
    let mut sum = Tally::new(alloc);
    for c in items {
        let Some(at) = place(values.len(), c.1) else {
            unreachable!()
        };
        sum.add_multiple(&rules.field, c.0, values[at].terms())?;
    }
    sum.close(alloc)
}

/// The polynomial of a line after lines with these polynomials, or the line's first fault.
pub fn value_of(
    alloc: Global,
    rules: &Rules,
    numbers: &mut Numbers,
    values: &[Numbered],
    entry: &Line,
) -> Result<Numbered, LineFault>
    requires rules { AreDerivationRules rules.now.field rules.now.target (forms rules.now) }
    requires line { IsLine rules.now.field (length rules.now.target) entry.now }
    requires numbered { All (λ f. IsNumbered rules.now.field rules.now.target numbers.old f) values.now }
    ensures value { (gs : List Poly) → map (said rules.now.field numbers.old) values.now ≡ map (normal rules.now.field) gs
        → IsValue (said_by rules.now.field numbers.new result) (fault rules.now.field rules.now.target (forms rules.now) gs (line entry.now))
        (normal rules.now.field (line_value (forms rules.now) gs (line entry.now))) }
    ensures numbered { IfOk result (λ f. IsNumbered rules.now.field rules.now.target numbers.new f) }
    ensures kept { OnOk result (Extends numbers.old numbers.new) }
{
    match entry {
        Line::Instance(i, ms) => instance_value(alloc, rules, numbers, *i, ms),
        Line::Times(k, side, m) => times_value(alloc, rules, numbers, values, *k, *side, m),
        Line::Sum(items) => {
            // Brings in that no monomial has two numbers.
            prove!(numbers.len() <= usize::MAX);
            sum_value(alloc, rules, values, items)
        }
    }
}
