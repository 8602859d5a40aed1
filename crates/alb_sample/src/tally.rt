ghost use Rattle.std.specs.Prelude.{◌≡◌, ◌+◌, ◌<◌, ◌≤◌, ◌^◌, IfOk, OnOk};
ghost use Rattle.alb_query.specs.Views.{answer_of};
ghost use Rattle.alb_table.specs.RightTable.{rules_view, IsRightFor};
ghost use Rattle.alb_sample.specs.Problem.{sample_view};
ghost use Rattle.alb_sample.specs.Sample.{polynomial, state_drawn};
ghost use Rattle.alb_sample.specs.Tally.{kind_of, zeros_with, non_zeros_with, HasKind, IsTally};
ghost use Rattle.alb_sample.specs.Values.{AreValues};

use crate::Draws;
use crate::polynomial::sample_poly;
use crate::values::Values;
use alb_mono::NoMemory;
use alb_poly::Rules;
use alb_query::{Reply, answer};
use alb_table::Tables;
use std::alloc::Global;

// The greatest degree of a polynomial of the sample.
const GREATEST_DEGREE: u32 = 7;

/// What kind of answer a polynomial has.
#[derive(Clone, Copy, Debug, PartialEq, Eq)]
pub enum Kind {
    /// It is zero.
    Zero,
    /// It is not.
    NotZero,
    /// The table does not say.
    Other,
}

/// How many polynomials of a sample are zero by a table, and how many are not.
#[derive(Clone, Copy, Debug, PartialEq, Eq)]
pub struct Tally {
    /// How many are zero.
    pub zeros: u64,
    /// How many are not zero.
    pub non_zeros: u64,
}

// The kind of a reply.
fn kind_of(reply: &Reply) -> Kind
    ensures { result ≡ kind_of (answer_of reply.now) }
{
    match reply {
        Reply::Zero => Kind::Zero,
        Reply::NotZero(_) => Kind::NotZero,
        Reply::NotBuilt(_) => Kind::Other,
        Reply::OutOfType(_) => Kind::Other,
    }
}

// The kind of answer of the polynomial with the number `k`, by the polynomial.
fn kind_by_answer(
    alloc: Global,
    draws: &mut Draws,
    rules: &Rules,
    tables: &Tables,
    k: u64,
) -> Result<Kind, NoMemory>
    requires rules { rules_view rules.now ≡ sample_view }
    requires right { IsRightFor sample_view tables.now }
    ensures kind { IfOk result (λ r. HasKind tables.now (polynomial tables.now k draws.old) r) }
    ensures state { OnOk result (draws.new ≡ state_drawn tables.now k draws.old) }
{
    let g = sample_poly(alloc, draws, rules, tables, k)?;
    let reply = answer(alloc, rules, tables, &g)?;
    Ok(kind_of(&reply))
}

// The kind of answer of the polynomial with the number `k` by a table that has its degree: by its value alone.
fn kind_by_value(
    alloc: Global,
    draws: &mut Draws,
    tables: &Tables,
    values: &Values,
    k: u64,
) -> Result<Kind, NoMemory>
    requires right { IsRightFor sample_view tables.now }
    requires values { AreValues tables.now values.now }
    requires degree { 7 ≤ tables.now.degree }
    ensures kind { IfOk result (λ r. HasKind tables.now (polynomial tables.now k draws.old) r) }
    ensures state { OnOk result (draws.new ≡ state_drawn tables.now k draws.old) }
{
    let value = values.polynomial(alloc, draws, tables, k)?;
    if value.is_zero() {
        Ok(Kind::Zero)
    } else {
        Ok(Kind::NotZero)
    }
}

// The kind of answer of the polynomial with the number `k`.
fn next_kind(
    alloc: Global,
    draws: &mut Draws,
    rules: &Rules,
    tables: &Tables,
    values: &Values,
    k: u64,
) -> Result<Kind, NoMemory>
    requires rules { rules_view rules.now ≡ sample_view }
    requires right { IsRightFor sample_view tables.now }
    requires values { AreValues tables.now values.now }
    ensures kind { IfOk result (λ r. HasKind tables.now (polynomial tables.now k draws.old) r) }
    ensures state { OnOk result (draws.new ≡ state_drawn tables.now k draws.old) }
{
    if tables.degree() >= GREATEST_DEGREE {
        return kind_by_value(alloc, draws, tables, values, k);
    }
    kind_by_answer(alloc, draws, rules, tables, k)
}

// The count with one more answer of a kind.
fn counted(tally: Tally, kind: Kind) -> Tally
    requires zeros { tally.zeros + 1 < 2 ^ 64 }
    requires non_zeros { tally.non_zeros + 1 < 2 ^ 64 }
    ensures zeros { result.zeros ≡ zeros_with tally.zeros kind }
    ensures non_zeros { result.non_zeros ≡ non_zeros_with tally.non_zeros kind }
{
    match kind {
        Kind::Zero => Tally {
            zeros: tally.zeros + 1,
            non_zeros: tally.non_zeros,
        },
        Kind::NotZero => Tally {
            zeros: tally.zeros,
            non_zeros: tally.non_zeros + 1,
        },
        Kind::Other => tally,
    }
}

/// Draws the polynomials of the numbers 1 to `n`, and counts how many are zero by the table and how many are not. The rules are
/// those of the sample, and the table is right for them.
pub fn count_answers(
    alloc: Global,
    rules: &Rules,
    tables: &Tables,
    n: u64,
) -> Result<Tally, NoMemory>
    requires rules { rules_view rules.now ≡ sample_view }
    requires right { IsRightFor sample_view tables.now }
    ensures { IfOk result (λ y. IsTally tables.now n n y.zeros y.non_zeros) }
{
    let values = Values::of(alloc, tables)?;
    let mut draws = Draws::new(n);
    let mut tally = Tally {
        zeros: 0,
        non_zeros: 0,
    };
    for k in 0..n {
        let kind = next_kind(alloc, &mut draws, rules, tables, &values, k + 1)?;
        tally = counted(tally, kind);
    }
    Ok(tally)
}
