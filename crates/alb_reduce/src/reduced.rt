ghost use Rattle.std.specs.Prelude.{◌≡◌, ℕ, ◌<◌, ◌↔◌, IsTrue, IsSome, IfSome};
ghost use Rattle.std.specs.List.{All};
ghost use Rattle.alb_rows.specs.Row.{ColumnsBelow, entry, IsRowOver, RowLeadsWith};
ghost use Rattle.alb_rows.specs.Span.{ArePivots, IsPivot, IsReducedRow};
ghost use Rattle.alb_reduce.specs.Reduction.{IsRecipe, kept};

use crate::places::place_of;
use alb_rows::Row;
use gf_field::{Field, Residue};
use std::marker::Model;

/// The reduced form of a span: its pivots, and for each the row that is 1 there and 0 at the others.
/// Contracts see it as a `Reduction`.
#[derive(Drop)]
pub struct Reduced {
    pub(crate) field: Field,
    pub(crate) columns: u32,
    pub(crate) keep_recipes: bool,
    pub(crate) pivots: Vec<u32>,
    pub(crate) order: Vec<u32>,
    pub(crate) places: Vec<usize>,
    pub(crate) rows: Vec<Row>,
    pub(crate) recipes: Vec<Vec<(Residue, u32)>>,
    pub(crate) tags: Vec<u32>,
    pub(crate) offers: Vec<(u32, Row)>,
}

impl Model for Reduced {
    ghost use Rattle.std.specs.Prelude.{map};
    ghost use Rattle.alb_reduce.specs.Reduction.{Reduction};
    ghost use Rattle.alb_reduce.specs.Echelon.{IsForm};
    ghost use Rattle.alb_reduce.specs.Index.{IsIndex};

    ghost Value = { Reduction };

    ghost view = { λ e. record { p = e.field; columns = e.columns; rows = e.rows.items; tags = e.tags.items; keeps_recipes = e.keep_recipes; offers = e.offers.items } };

    ghost invariant = { λ e. record { form : IsForm e.field e.columns e.keep_recipes e.pivots.items e.order.items e.rows.items (map (λ v. v.items) e.recipes.items) e.offers.items; index : IsIndex e.order.items e.places.items } };
}

impl Reduced {
    /// The pivots, ascending.
    pub fn pivots(&self) -> &[u32]
        ensures are { ArePivots self.now.p (kept self.now) result.now }
        ensures below { All (λ c. c < self.now.columns) result.now }
    {
        &self.pivots
    }

    /// The tags of the offers that gave pivots, in the order of offering.
    pub fn tags(&self) -> &[u32]
        ensures { result.now ≡ self.now.tags }
    {
        &self.tags
    }

    /// The row of a pivot; `None` exactly where the column is no pivot.
    pub fn row_of(&self, column: u32) -> Option<&Row>
        ensures exactly { IsSome result ↔ IsPivot self.now.p (kept self.now) column }
        ensures reduced { IfSome result (λ r. IsReducedRow self.now.p (kept self.now) column (entry r.now)) }
        ensures leads { IfSome result (λ r. RowLeadsWith r.now (column, 1)) }
        ensures row { IfSome result (λ r. IsRowOver self.now.p r.now) }
        ensures columns { IfSome result (λ r. ColumnsBelow self.now.columns r.now) }
    {
        match place_of(&self.places, column) {
            None => None,
            Some(k) => Some(&self.rows[k]),
        }
    }

    /// The recipe of a pivot's row: coefficients at tags, ascending by tag, so that the row is this combination of the rows
    /// that were offered with these tags. `None` exactly where the column is no pivot or recipes are not kept.
    pub fn recipe_of(&self, column: u32) -> Option<&[(Residue, u32)]>
        ensures exactly { IsSome result ↔ (IsTrue self.now.keeps_recipes × IsPivot self.now.p (kept self.now) column) }
        ensures recipe { IfSome result (λ items. IsRecipe self.now column items.now) }
    {
        if !self.keep_recipes {
            return None;
        }
        match place_of(&self.places, column) {
            None => None,
            Some(k) => Some(&self.recipes[k]),
        }
    }
}
