ghost use Rattle.std.specs.Prelude.{◌≡◌, ℕ, ◌+◌, ◌<◌, ◌≢◌, ◌++◌, ◌↔◌, [], ◌∷◌, IsTrue, IfOk, OnOk, if◌then◌else◌};
ghost use Rattle.std.specs.List.{All};
ghost use Rattle.alb_rows.specs.Row.{Cells, ColumnsBelow, entry, IsRowOver};
ghost use Rattle.alb_rows.specs.Span.{rows_of, DiffersBySpan, InSpan, IsPivot, SameSpan};
ghost use Rattle.alb_reduce.specs.Reduction.{AddsPivot, IsNewTag, kept};

use crate::kept::Kept;
use crate::lanes::{all_rows, row_of_lanes, zeros};
use crate::order::ascending;
use crate::recipes::all_items;
use crate::reduced::Reduced;
use crate::steps::{clear, keep};
use alb_mono::NoMemory;
use alb_rows::Row;
use gf_field::{Field, Residue};
use std::alloc::Global;
use std::marker::Model;

/// What an offered row was.
#[derive(Clone, Copy, PartialEq, Eq, Debug)]
pub enum Offered {
    /// The row made a pivot of this column.
    Pivot(u32),
    /// The row was a combination of those before.
    Dependent,
}

/// Rows that span what was offered, fully reduced: each is 1 at its own pivot and 0 at the others.
/// Contracts see it as a `Reduction`.
#[derive(Drop)]
pub struct Echelon {
    field: Field,
    columns: u32,
    keep_recipes: bool,
    kept: Kept,
    // A lane for each of `kept.live`, all 0, in which rows are offered.
    scratch: Vec<Residue>,
    tags: Vec<u32>,
    offers: Vec<(u32, Row)>,
}

impl Model for Echelon {
    ghost use Rattle.alb_reduce.specs.Reduction.{Reduction};
    ghost use Rattle.alb_reduce.specs.Echelon.{kept_rows, IsReady, IsState};

    ghost Value = { Reduction };

    ghost view = { λ e. record { p = e.field; columns = e.columns; rows = kept_rows e.kept; tags = e.tags.items; keeps_recipes = e.keep_recipes; offers = e.offers.items } };

    ghost invariant = { λ e. record { state : IsState e.field e.columns e.keep_recipes e.kept.pivots.items (kept_rows e.kept) e.kept.recipes.items e.offers.items; ready : IsReady e.field e.columns e.kept e.scratch.items } };
}

impl Echelon {
    /// No rows over the columns 0 to `columns - 1`, whose span is zero. Where recipes are to be kept, so is each offered row.
    /// All memory is taken from `alloc`.
    pub fn new(alloc: Global, field: Field, columns: u32, keep_recipes: bool) -> Echelon
        ensures { result ≡ record { p = field; columns = columns; rows = []; tags = []; keeps_recipes = keep_recipes; offers = [] } }
    {
        prove!(1 < field.p());
        Echelon {
            field,
            columns,
            keep_recipes,
            kept: Kept {
                pivots: Vec::new(alloc),
                live: Vec::new(alloc),
                slots: Vec::new(alloc),
                lanes: Vec::new(alloc),
                recipes: Vec::new(alloc),
                places: Vec::new(alloc),
            },
            scratch: Vec::new(alloc),
            tags: Vec::new(alloc),
            offers: Vec::new(alloc),
        }
    }

    /// The row that differs from this one by an element of the span and is 0 at every pivot. The row's columns are below
    /// `columns`.
    pub fn reduce(&self, row: Row) -> Result<Row, NoMemory>
        requires row_in { IsRowOver self.now.p row }
        requires columns_in { ColumnsBelow self.now.columns row }
        ensures differs { IfOk result (λ r. DiffersBySpan self.now.p (kept self.now) (entry row) (entry r)) }
        ensures zero { IfOk result (λ r. (c : ℕ) → IsPivot self.now.p (kept self.now) c → entry r c ≡ 0) }
        ensures row { IfOk result (λ r. IsRowOver self.now.p r) }
        ensures columns { IfOk result (λ r. ColumnsBelow self.now.columns r) }
    {
        if self.kept.pivots.is_empty() {
            return Ok(row);
        }
        let alloc = *self.kept.pivots.allocator();
        let mut lanes = zeros(alloc, self.kept.live.len())?;
        // what the row was reduced with is dropped
        let mut recipe = Row::new(alloc);
        clear(&self.field, &self.kept, &row, &mut lanes, &mut recipe)?;
        let reduced = row_of_lanes(alloc, &self.kept.live, &lanes)?;
        Ok(reduced)
    }

    /// Adds the row to the span, and says whether it made a pivot. The row's columns are below `columns`, and where recipes are
    /// kept no row was offered with this tag before. Where memory is missing all rows are given up.
    pub fn offer(self, row: Row, tag: u32) -> Result<(Echelon, Offered), NoMemory>
        requires row_in { IsRowOver self.p row }
        requires columns_in { ColumnsBelow self.columns row }
        requires new_tag { IsTrue self.keeps_recipes → IsNewTag self.offers tag }
        ensures span { IfOk result (λ r. SameSpan self.p (kept r.0) (rows_of (row ∷ self.rows))) }
        ensures dependent { IfOk result (λ r. (r.1 ≡ Offered.Dependent) ↔ InSpan self.p (kept self) (entry row)) }
        ensures pivot { IfOk result (λ r. (c : ℕ) → r.1 ≡ Offered.Pivot c → AddsPivot self r.0 c) }
        ensures tags_dependent { IfOk result (λ r. r.1 ≡ Offered.Dependent → r.0.tags ≡ self.tags) }
        ensures tags_pivot { IfOk result (λ r. (c : ℕ) → r.1 ≡ Offered.Pivot c → r.0.tags ≡ self.tags ++ tag ∷ []) }
        ensures offers { IfOk result (λ r. r.0.offers ≡ (if self.keeps_recipes then self.offers ++ (tag, row) ∷ [] else self.offers)) }
        ensures same { IfOk result (λ r. (r.0.p ≡ self.p) × (r.0.columns ≡ self.columns) × (r.0.keeps_recipes ≡ self.keeps_recipes)) }
    {
        let Echelon {
            field,
            columns,
            keep_recipes,
            mut kept,
            mut scratch,
            mut tags,
            mut offers,
        } = self;
        note_offer(keep_recipes, tag, &row, &mut offers)?;
        let recipe = Row::unit(*kept.pivots.allocator(), tag, Residue::from(keep_recipes))?;
        let offered = keep(&field, columns, &mut kept, &row, &mut scratch, recipe)?;
        note_tag(offered, tag, &mut tags)?;
        Ok((
            Echelon {
                field,
                columns,
                keep_recipes,
                kept,
                scratch,
                tags,
                offers,
            },
            offered,
        ))
    }

    /// The reduced form of the span.
    pub fn close(self) -> Result<Reduced, NoMemory>
        ensures { IfOk result (λ r. r ≡ self) }
    {
        let Echelon {
            field,
            columns,
            keep_recipes,
            kept,
            scratch: _,
            tags,
            offers,
        } = self;
        let alloc = *kept.pivots.allocator();
        let pivots = ascending(alloc, &kept.places, columns)?;
        let rows = all_rows(alloc, &kept.live, &kept.pivots, &kept.lanes)?;
        let recipes = all_items(alloc, &kept.recipes)?;
        Ok(Reduced {
            field,
            columns,
            keep_recipes,
            pivots,
            order: kept.pivots,
            places: kept.places,
            rows,
            recipes,
            tags,
            offers,
        })
    }
}

// Adds the offer to the list, where recipes are kept.
fn note_offer(
    keep_recipes: bool,
    tag: u32,
    row: &Row,
    offers: &mut Vec<(u32, Row)>,
) -> Result<(), NoMemory>
    ensures { OnOk result (offers.new.items ≡ (if keep_recipes then offers.old.items ++ (tag, row.now) ∷ [] else offers.old.items)) }
{
    if keep_recipes {
        let copy = row.try_copy(*offers.allocator())?;
        offers.push((tag, copy))?;
    }
    Ok(())
}

// Adds the tag of an offer to the list, where it made a pivot.
fn note_tag(offered: Offered, tag: u32, tags: &mut Vec<u32>) -> Result<(), NoMemory>
    ensures dependent { OnOk result (offered ≡ Offered.Dependent → tags.new.items ≡ tags.old.items) }
    ensures pivot { OnOk result ((c : ℕ) → offered ≡ Offered.Pivot c → tags.new.items ≡ tags.old.items ++ tag ∷ []) }
{
    match offered {
        Offered::Dependent => Ok(()),
        Offered::Pivot(_) => {
            tags.push(tag)?;
            Ok(())
        }
    }
}
