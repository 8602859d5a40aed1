//! The offering of the instances of a type.
ghost use Rattle.std.specs.Prelude.{◌≡◌, ℕ, ◌+◌, ◌<◌, ◌≤◌, ◌^◌, ◌++◌, [], ◌∷◌, false, true, length, map, IfOk, OnOk};
ghost use Rattle.alb_mono.specs.Listing.{Each};
ghost use Rattle.alb_mono.specs.Tree.{type_le};
ghost use Rattle.alb_poly.specs.Consequence.{form, forms};
ghost use Rattle.alb_linear.specs.Identity.{IsLinearized};
ghost use Rattle.alb_rows.specs.Row.{ColumnsBelow, IsRowOver};
ghost use Rattle.alb_reduce.specs.Reduction.{Reduction};
ghost use Rattle.alb_subst.specs.Laws.{MayBeExchanged};
ghost use Rattle.alb_table.specs.Table.{origin_view};
ghost use Rattle.alb_table.specs.RightTable.{rules_view, AreRules, IsRightFor};
ghost use Rattle.alb_block.specs.Instances.{BlockSetting, IsInstance, columns_of};
ghost use Rattle.alb_block.specs.Offers.{setting_from, IsRowOf, AreKept, HasBefore, HasMore};

use alb_linear::places;
use alb_mono::{Multi, NoMemory};
use alb_poly::{Linear, Rules};
use alb_reduce::{Echelon, Offered};
use alb_rows::Row;
use alb_subst::{Columns, Instances, row_of};
use alb_table::{Origin, Tables};
use arrayvec::ArrayVec;
use std::alloc::Global;

// What a block is made from: rules with a table, a type, and its columns.
#[derive(Clone, Copy)]
pub(crate) struct Sources<'a> {
    pub rules: &'a Rules,
    pub tables: &'a Tables,
    pub at: &'a Multi,
    pub columns: &'a Columns,
}

// The rows of the instances that were offered, and the instances that gave them pivots.
#[derive(Drop)]
pub(crate) struct Offers {
    pub echelon: Echelon,
    pub origins: Vec<Origin>,
}

// Offers the row of an instance. A zero row is left out.
fn offer_row(
    offers: Offers,
    row: Row,
    identity: u32,
    args: ArrayVec<u32, 8>,
) -> Result<Offers, NoMemory>
    requires row_in { IsRowOver offers.echelon.p row }
    requires columns_in { ColumnsBelow offers.echelon.columns row }
    requires no_recipes { offers.echelon.keeps_recipes ≡ false }
    ensures kept { (s : BlockSetting) → AreKept s offers.echelon (map origin_view offers.origins.items) → IsInstance s (identity, args.items) → IsRowOf s (identity, args.items) row → IfOk result (λ r. AreKept s r.echelon (map origin_view r.origins.items)) }
    ensures more { (s : BlockSetting) → AreKept s offers.echelon (map origin_view offers.origins.items) → IsRowOf s (identity, args.items) row → IfOk result (λ r. HasMore s offers.echelon r.echelon (identity, args.items)) }
{
    let Offers {
        echelon,
        mut origins,
    } = offers;
    if row.is_zero() {
        return Ok(Offers { echelon, origins });
    }
    // no recipes are kept, so the tags need not differ
    let (echelon, offered) = echelon.offer(row, identity)?;
    match offered {
        Offered::Dependent => Ok(Offers { echelon, origins }),
        Offered::Pivot(_) => {
            origins.push(Origin { identity, args })?;
            Ok(Offers { echelon, origins })
        }
    }
}

// The runs of positions of a form; none where it has no instance of the type, so that nothing is compared.
fn runs_at(
    alloc: Global,
    tables: &Tables,
    f: &Linear,
    t: &Multi,
) -> Result<ArrayVec<u8, 8>, NoMemory>
    requires form { IsLinearized tables.now.p (form f.now) }
    requires few { f.now.degree ≤ 8 }
    ensures { IfOk result (λ r. MayBeExchanged tables.now.p (form f.now) r.items) }
{
    if t.degree() < f.degree {
        return Ok(ArrayVec::new());
    }
    places(alloc, tables.field(), f)
}

// Offers the instances of the form k at the tuples that never fall within a run of positions. They have the span of all.
fn offer_form(alloc: Global, from: &Sources, k: u32, offers: Offers) -> Result<Offers, NoMemory>
    requires rules { AreRules (rules_view from.now.rules.now) }
    requires right { IsRightFor (rules_view from.now.rules.now) from.now.tables.now }
    requires long { length from.now.at.now ≡ length from.now.tables.now.target }
    requires within { type_le from.now.at.now from.now.tables.now.target ≡ true }
    requires columns_are { from.now.columns.now ≡ columns_of from.now.tables.now.parts from.now.at.now }
    requires form { k < length from.now.rules.now.linears.items }
    requires kept { AreKept (setting_from from.now) offers.echelon (map origin_view offers.origins.items) }
    requires before { HasBefore (setting_from from.now) offers.echelon k }
    ensures kept { IfOk result (λ r. AreKept (setting_from from.now) r.echelon (map origin_view r.origins.items)) }
    ensures before { IfOk result (λ r. HasBefore (setting_from from.now) r.echelon (k + 1)) }
{
    let f = &from.rules.linears[k as usize];
    let mut offers = offers;
    let runs = runs_at(alloc, from.tables, f, from.at)?;
    let least = runs.as_slice();
    let mut instances = Instances::open_least(alloc, from.tables, f, from.at, least)?;
    while let Some(tuple) = instances.next(from.tables) {
        let row = row_of(alloc, from.tables, f, tuple.as_slice(), from.columns)?;
        offers = offer_row(offers, row, k, tuple)?;
    }
    Ok(offers)
}

// Offers all instances of all forms.
pub(crate) fn offer_all(alloc: Global, from: &Sources) -> Result<Offers, NoMemory>
    requires rules { AreRules (rules_view from.now.rules.now) }
    requires right { IsRightFor (rules_view from.now.rules.now) from.now.tables.now }
    requires long { length from.now.at.now ≡ length from.now.tables.now.target }
    requires within { type_le from.now.at.now from.now.tables.now.target ≡ true }
    requires columns_are { from.now.columns.now ≡ columns_of from.now.tables.now.parts from.now.at.now }
    ensures kept { IfOk result (λ r. AreKept (setting_from from.now) r.echelon (map origin_view r.origins.items)) }
    ensures before { IfOk result (λ r. HasBefore (setting_from from.now) r.echelon (length from.now.rules.now.linears.items)) }
{
    let mut offers = Offers {
        echelon: Echelon::new(alloc, *from.tables.field(), from.columns.len(), false),
        origins: Vec::new(alloc),
    };
    for k in 0..from.rules.linears.len() {
        offers = offer_form(alloc, from, k as u32, offers)?;
    }
    Ok(offers)
}
