//! The values of the polynomials of a sample in a table, without the polynomials.
ghost use Rattle.std.specs.Prelude.{◌≡◌, ◌<◌, ◌/◌, ◌%◌, ◌++◌, ℕ, [], IfOk, IfSome, OnOk, length, slice_index_or};
ghost use Rattle.alb_mono.specs.Tree.{node};
ghost use Rattle.alb_poly.specs.Poly.{Poly};
ghost use Rattle.alb_table.specs.Laws.{HasValue};
ghost use Rattle.alb_table.specs.Table.{elems};
ghost use Rattle.alb_table.specs.RightTable.{IsRightFor};
ghost use Rattle.alb_table.specs.Value.{IsBasisRow};
ghost use Rattle.alb_sample.specs.Choice.{argument, chosen, consequence, instance_of, IsChoice};
ghost use Rattle.alb_sample.specs.Problem.{associator, sample_problem, sample_view};
ghost use Rattle.alb_sample.specs.Sample.{element_poly, polynomial, state_drawn};
ghost use Rattle.alb_sample.specs.Values.{AreValues, IsMonoValue};

use crate::Draws;
use crate::choice::Choice;
use crate::element::draw_element;
use alb_mono::{NoMemory, Side};
use alb_rows::Row;
use alb_table::Tables;
use std::alloc::Global;

// The number -1 in the field of 251 elements.
const MINUS_ONE: u16 = 250;

/// The values in a table of the monomials that are drawn, which are a, b and ab, and of the products of two of them.
#[derive(Drop)]
pub struct Values {
    pub arguments: Vec<Row>,
    pub products: Vec<Row>,
}

// The values of a, b and ab.
fn argument_values(alloc: Global, tables: &Tables) -> Result<Vec<Row>, NoMemory>
    requires { IsRightFor sample_view tables.now }
    ensures full { IfOk result (λ v. length v.items ≡ 3) }
    ensures values { IfOk result (λ v. (i : ℕ) → i < 3 → IsMonoValue tables.now (argument i) (slice_index_or v.items i [])) }
{
    let a = Row::unit(alloc, 0, 1)?;
    let b = Row::unit(alloc, 1, 1)?;
    let ab = tables.multiply(alloc, &a, &b)?;
    let mut list = Vec::new(alloc);
    list.push(a)?;
    list.push(b)?;
    list.push(ab)?;
    Ok(list)
}

// The values of the products of two of them.
fn product_values(alloc: Global, tables: &Tables, values: &[Row]) -> Result<Vec<Row>, NoMemory>
    requires full { length values.now ≡ 3 }
    requires values { (i : ℕ) → i < 3 → IsMonoValue tables.now (argument i) (slice_index_or values.now i []) }
    ensures full { IfOk result (λ v. length v.items ≡ 9) }
    ensures products { IfOk result (λ v. (k : ℕ) → k < 9 → IsMonoValue tables.now (node (argument (k / 3)) (argument (k % 3))) (slice_index_or v.items k [])) }
{
    let mut list = Vec::new(alloc);
    for k in 0..9 {
        let product = tables.multiply(alloc, &values[k / 3], &values[k % 3])?;
        list.push(product)?;
    }
    Ok(list)
}

// A value with that of a basis element added, if there is one.
fn with_element(
    alloc: Global,
    tables: &Tables,
    row: Row,
    element: Option<u32>,
) -> Result<Row, NoMemory>
    requires right { IsRightFor sample_view tables.now }
    requires below { IfSome element (λ b. b < length (elems tables.now.parts)) }
    requires vector { IsBasisRow tables.now.p (length (elems tables.now.parts)) row }
    ensures { (f : Poly) → HasValue tables.now f row → IfOk result (λ r. HasValue tables.now (f ++ element_poly tables.now element) r) }
{
    match element {
        None => Ok(row),
        Some(b) => {
            let one = Row::unit(alloc, b, 1)?;
            let mut sum = row;
            sum.add_scaled(tables.field(), 1, &one)?;
            Ok(sum)
        }
    }
}

impl Values {
    /// The values in a table.
    pub fn of(alloc: Global, tables: &Tables) -> Result<Values, NoMemory>
        requires { IsRightFor sample_view tables.now }
        ensures { IfOk result (λ v. AreValues tables.now v) }
    {
        let arguments = argument_values(alloc, tables)?;
        let products = product_values(alloc, tables, &arguments)?;
        Ok(Values {
            arguments,
            products,
        })
    }

    // The value of the associator of three of the monomials.
    fn associator(
        &self,
        alloc: Global,
        tables: &Tables,
        l: usize,
        m: usize,
        r: usize,
    ) -> Result<Row, NoMemory>
        requires right { IsRightFor sample_view tables.now }
        requires values { AreValues tables.now self.now }
        requires left { l < 3 }
        requires middle { m < 3 }
        requires last { r < 3 }
        ensures { IfOk result (λ x. HasValue tables.now (associator (argument l) (argument m) (argument r)) x) }
    {
        let mut sum = tables.multiply(alloc, &self.products[3 * l + m], &self.arguments[r])?;
        let other = tables.multiply(alloc, &self.arguments[l], &self.products[3 * m + r])?;
        sum.add_scaled(tables.field(), MINUS_ONE, &other)?;
        Ok(sum)
    }

    // The value of the sum of the associators of three of the monomials in two orders.
    fn associators(
        &self,
        alloc: Global,
        tables: &Tables,
        one: (usize, usize, usize),
        other: (usize, usize, usize),
    ) -> Result<Row, NoMemory>
        requires right { IsRightFor sample_view tables.now }
        requires values { AreValues tables.now self.now }
        requires one { (one.0 < 3) × (one.1 < 3) × (one.2 < 3) }
        requires other { (other.0 < 3) × (other.1 < 3) × (other.2 < 3) }
        ensures { IfOk result (λ x. HasValue tables.now (associator (argument one.0) (argument one.1) (argument one.2) ++ associator (argument other.0) (argument other.1) (argument other.2)) x) }
    {
        let mut sum = self.associator(alloc, tables, one.0, one.1, one.2)?;
        let second = self.associator(alloc, tables, other.0, other.1, other.2)?;
        sum.add_scaled(tables.field(), 1, &second)?;
        Ok(sum)
    }

    // The value of the instance of a choice.
    fn instance(&self, alloc: Global, tables: &Tables, choice: &Choice) -> Result<Row, NoMemory>
        requires right { IsRightFor sample_view tables.now }
        requires values { AreValues tables.now self.now }
        requires choice { IsChoice choice.now }
        ensures { IfOk result (λ x. HasValue tables.now (instance_of (slice_index_or sample_problem.identities choice.now.identity []) (chosen choice.now)) x) }
    {
        let (x, other, y) = (choice.first, choice.second, choice.third);
        match choice.identity {
            0 => self.associators(alloc, tables, (x, other, y), (other, x, y)),
            _ => self.associators(alloc, tables, (y, x, other), (y, other, x)),
        }
    }

    // The value of the consequence of a choice.
    fn consequence(&self, alloc: Global, tables: &Tables, choice: &Choice) -> Result<Row, NoMemory>
        requires right { IsRightFor sample_view tables.now }
        requires values { AreValues tables.now self.now }
        requires choice { IsChoice choice.now }
        ensures { IfOk result (λ x. HasValue tables.now (consequence choice.now) x) }
    {
        let value = self.instance(alloc, tables, choice)?;
        let generator = &self.arguments[usize::from(choice.generator)];
        match choice.side {
            Side::Left => tables.multiply(alloc, generator, &value),
            Side::Right => tables.multiply(alloc, &value, generator),
        }
    }

    /// The value of the polynomial with the number `k`, which is drawn.
    pub fn polynomial(
        &self,
        alloc: Global,
        draws: &mut Draws,
        tables: &Tables,
        k: u64,
    ) -> Result<Row, NoMemory>
        requires right { IsRightFor sample_view tables.now }
        requires values { AreValues tables.now self.now }
        ensures value { IfOk result (λ x. HasValue tables.now (polynomial tables.now k draws.old) x) }
        ensures state { OnOk result (draws.new ≡ state_drawn tables.now k draws.old) }
    {
        let choice = Choice::draw(draws);
        let row = self.consequence(alloc, tables, &choice)?;
        let element = draw_element(draws, tables, k, &choice.type_of());
        with_element(alloc, tables, row, element)
    }
}
