ghost use Rattle.std.specs.Prelude.{◌≡◌, ◌<◌, ◌++◌, ℕ, IfOk, IfSome, OnOk, OnErr, IsTrue, All, length, map};
ghost use Rattle.alb_mono.specs.Tree.{tree, are_below};
ghost use Rattle.alb_poly.specs.Poly.{normal, Poly, AreResidues};
ghost use Rattle.alb_table.specs.Table.{elems};
ghost use Rattle.alb_table.specs.RightTable.{rules_view, IsRightFor};
ghost use Rattle.alb_sample.specs.Choice.{argument, chosen, consequence, IsChoice};
ghost use Rattle.alb_sample.specs.Problem.{sample_view};
ghost use Rattle.alb_sample.specs.Sample.{element_poly, polynomial, state_drawn};

use crate::Draws;
use crate::choice::Choice;
use crate::element::draw_element;
use alb_linear::instance;
use alb_mono::{Mono, NoMemory};
use alb_poly::{Poly, Rules};
use alb_table::Tables;
use std::alloc::Global;

// The monomial with this number: a, b or ab.
fn argument(alloc: Global, k: usize) -> Result<Mono, NoMemory>
    requires { k < 3 }
    ensures { IfOk result (λ m. tree m ≡ argument k) }
{
    match k {
        0 => Ok(Mono::Gen(0)),
        1 => Ok(Mono::Gen(1)),
        _ => Mono::product(alloc, Mono::Gen(0), Mono::Gen(1)),
    }
}

// The three monomials of a choice.
fn arguments(alloc: Global, choice: &Choice) -> Result<Vec<Mono>, NoMemory>
    requires { IsChoice choice.now }
    ensures { IfOk result (λ v. map tree v.items ≡ chosen choice.now) }
{
    let mut list = Vec::new(alloc);
    list.push(argument(alloc, choice.first)?)?;
    list.push(argument(alloc, choice.second)?)?;
    list.push(argument(alloc, choice.third)?)?;
    Ok(list)
}

// The consequence of a choice.
fn consequence(alloc: Global, rules: &Rules, choice: &Choice) -> Result<Poly, NoMemory>
    requires rules { rules_view rules.now ≡ sample_view }
    requires choice { IsChoice choice.now }
    ensures value { IfOk result (λ g. g ≡ normal 251 (consequence choice.now)) }
{
    let monos = arguments(alloc, choice)?;
    let linear = &rules.linears[choice.identity];
    let value = instance(alloc, &rules.field, linear, &monos)?;
    value.mul_mono(alloc, choice.side, &Mono::Gen(choice.generator))
}

// A polynomial with a basis element added, if there is one.
fn with_element(
    alloc: Global,
    tables: &Tables,
    g: Poly,
    element: Option<u32>,
) -> Result<Poly, NoMemory>
    requires right { IsRightFor sample_view tables.now }
    requires residues { AreResidues 251 g }
    requires below { IfSome element (λ b. b < length (elems tables.now.parts)) }
    ensures { (f : Poly) → g ≡ normal 251 f → IfOk result (λ h. h ≡ normal 251 (f ++ element_poly tables.now element)) }
{
    match element {
        None => Ok(g),
        Some(b) => {
            let mono = tables.basis_mono(alloc, b)?;
            let one = Poly::term(alloc, 1, mono)?;
            g.add(alloc, tables.field(), &one)
        }
    }
}

/// The polynomial of the sample with the number `k`: an instance of one of the two identities at three of the monomials a, b and
/// ab, times a generator; and where `k` is odd, a basis element of its type added, if there is one. All is drawn. The rules are
/// those of the sample, and the table is right for them. After an error nothing is drawn.
pub fn sample_poly(
    alloc: Global,
    draws: &mut Draws,
    rules: &Rules,
    tables: &Tables,
    k: u64,
) -> Result<Poly, NoMemory>
    requires rules { rules_view rules.now ≡ sample_view }
    requires right { IsRightFor sample_view tables.now }
    ensures value { IfOk result (λ g. g ≡ polynomial tables.now k draws.old) }
    ensures state { OnOk result (draws.new ≡ state_drawn tables.now k draws.old) }
    ensures err { OnErr result (draws.new ≡ draws.old) }
    // It is over the field and the generators.
    ensures residues { IfOk result (λ g. AreResidues 251 g) }
    ensures known { IfOk result (λ g. All (λ t. IsTrue (are_below 2 t.1)) g) }
{
    let mut ahead = *draws;
    let choice = Choice::draw(&mut ahead);
    let g = consequence(alloc, rules, &choice)?;
    let element = draw_element(&mut ahead, tables, k, &choice.type_of());
    let g = with_element(alloc, tables, g, element)?;
    *draws = ahead;
    Ok(g)
}
