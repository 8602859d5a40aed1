//! Steps on the kept rows, each with its recipe.
ghost use Rattle.std.specs.Prelude.{◌≡◌, ◌≢◌, ℕ, ◌+◌, ◌*◌, ◌%◌, ◌<◌, ◌≤◌, ◌++◌, [], ◌∷◌, List, length, map, slice_index, slice_index_or, false, IsTrue, IfOk, OnOk};
ghost use Rattle.std.specs.List.{All};
ghost use Rattle.alb_rows.specs.Row.{Cells, ColumnsBelow, IsRowOver};
ghost use Rattle.alb_reduce.specs.Lanes.{lane_cells, lane_rows, AreLanesCleared, AreResidues, AreZero, Covers, HasLane, IsFirstLane, IsLaneCleared, PutsLane};
ghost use Rattle.alb_reduce.specs.Echelon.{kept_rows, Agrees, AllAgree, HasSameRows, IsHeld, IsReady, IsSpread, Keeps, KeepsPivot, RecipesFollow};

use crate::drops::drop_lanes;
use crate::echelon::Offered;
use crate::kept::Kept;
use crate::lanes::{add_multiple, first_columns, first_lane, multiply, zeros};
use crate::places::{place_of, put_place, slots_of};
use alb_mono::NoMemory;
use alb_rows::Row;
use gf_field::{Field, Residue};
use std::mem;

// Adds x at the lane of a column that is no pivot.
fn put_lane(field: &Field, kept: &Kept, column: u32, x: Residue, lanes: &mut Vec<Residue>)
    requires held { IsHeld field.now kept.now }
    requires no_pivot { (k : ℕ) → k < length kept.now.pivots.items → slice_index kept.now.pivots.items k ≢ column }
    requires has_lane { HasLane kept.now.live.items kept.now.pivots.items column }
    requires long { length lanes.old.items ≡ length kept.now.live.items }
    requires lanes_in { AreResidues field.now lanes.old.items }
    requires x_in { x < field.now }
    ensures { PutsLane field.now kept.now.live.items column x lanes.old.items lanes.new.items }
{
    match place_of(&kept.slots, column) {
        None => {}
        Some(i) => lanes[i] = field.add(lanes[i], x),
    }
}

// Takes the kept row at a place off lanes, where x stands at its pivot beside them.
fn take_off(
    field: &Field,
    kept: &Kept,
    place: usize,
    x: Residue,
    lanes: &mut Vec<Residue>,
    recipe: &mut Row,
) -> Result<(), NoMemory>
    requires held { IsHeld field.now kept.now }
    requires within { place < length kept.now.pivots.items }
    requires long { length lanes.old.items ≡ length kept.now.live.items }
    requires lanes_in { AreResidues field.now lanes.old.items }
    requires x_in { x < field.now }
    requires recipe_in { IsRowOver field.now recipe.old }
    ensures recipe_residues { OnOk result (IsRowOver field.now recipe.new) }
    ensures spread { OnOk result ((row rest : Cells)
        → IsSpread field.now kept.now.live.items kept.now.pivots.items (kept_rows kept.now) row lanes.old.items ((slice_index kept.now.pivots.items place, x) ∷ rest)
        → IsSpread field.now kept.now.live.items kept.now.pivots.items (kept_rows kept.now) row lanes.new.items rest) }
    ensures agrees { OnOk result ((w u : ℕ → ℕ) (rest : Cells) → AllAgree field.now w u kept.now.recipes.items (kept_rows kept.now)
        → Agrees field.now w u recipe.old (lane_cells kept.now.live.items lanes.old.items ++ (slice_index kept.now.pivots.items place, x) ∷ rest)
        → Agrees field.now w u recipe.new (lane_cells kept.now.live.items lanes.new.items ++ rest)) }
{
    let factor = field.neg(x);
    add_multiple(field, factor, &kept.lanes[place], lanes);
    recipe.add_scaled(field, factor, &kept.recipes[place])?;
    Ok(())
}

// Takes a cell of a row into lanes: at a pivot the kept row is taken off, and at another column it is put at its lane.
fn spread_cell(
    field: &Field,
    kept: &Kept,
    column: u32,
    x: Residue,
    lanes: &mut Vec<Residue>,
    recipe: &mut Row,
) -> Result<(), NoMemory>
    requires held { IsHeld field.now kept.now }
    requires has_lane { HasLane kept.now.live.items kept.now.pivots.items column }
    requires long { length lanes.old.items ≡ length kept.now.live.items }
    requires lanes_in { AreResidues field.now lanes.old.items }
    requires x_in { x < field.now }
    requires recipe_in { IsRowOver field.now recipe.old }
    ensures recipe_residues { OnOk result (IsRowOver field.now recipe.new) }
    ensures spread { OnOk result ((row rest : Cells)
        → IsSpread field.now kept.now.live.items kept.now.pivots.items (kept_rows kept.now) row lanes.old.items ((column, x) ∷ rest)
        → IsSpread field.now kept.now.live.items kept.now.pivots.items (kept_rows kept.now) row lanes.new.items rest) }
    ensures agrees { OnOk result ((w u : ℕ → ℕ) (rest : Cells) → AllAgree field.now w u kept.now.recipes.items (kept_rows kept.now)
        → Agrees field.now w u recipe.old (lane_cells kept.now.live.items lanes.old.items ++ (column, x) ∷ rest)
        → Agrees field.now w u recipe.new (lane_cells kept.now.live.items lanes.new.items ++ rest)) }
{
    match place_of(&kept.places, column) {
        None => {
            put_lane(field, kept, column, x, lanes);
            Ok(())
        }
        Some(place) => {
            take_off(field, kept, place, x, lanes, recipe)?;
            Ok(())
        }
    }
}

// Takes a row into lanes that are 0, and the kept rows off it, so that it is 0 at their pivots.
pub(crate) fn clear(
    field: &Field,
    kept: &Kept,
    row: &Row,
    lanes: &mut Vec<Residue>,
    recipe: &mut Row,
) -> Result<(), NoMemory>
    requires held { IsHeld field.now kept.now }
    requires has_lanes { All (λ cell. HasLane kept.now.live.items kept.now.pivots.items cell.0) row.now }
    requires long { length lanes.old.items ≡ length kept.now.live.items }
    requires zero { AreZero lanes.old.items }
    requires row_in { IsRowOver field.now row.now }
    requires recipe_in { IsRowOver field.now recipe.old }
    ensures recipe_residues { OnOk result (IsRowOver field.now recipe.new) }
    ensures spread { OnOk result (IsSpread field.now kept.now.live.items kept.now.pivots.items (kept_rows kept.now) row.now lanes.new.items []) }
    ensures agrees { OnOk result ((w u : ℕ → ℕ) → AllAgree field.now w u kept.now.recipes.items (kept_rows kept.now) → Agrees field.now w u recipe.old row.now
        → Agrees field.now w u recipe.new (lane_cells kept.now.live.items lanes.new.items)) }
{
    for (column, x) in row.cells() {
        spread_cell(field, kept, *column, *x, lanes, recipe)?;
    }
    Ok(())
}

// A row that is 1 at a lane, with its recipe.
#[derive(Clone, Copy)]
struct PivotRow<'a> {
    lane: usize,
    lanes: &'a [Residue],
    recipe: &'a Row,
}

// Adds a multiple of the pivot row to a row, so that it is 0 at its lane.
fn clear_lane(
    field: &Field,
    by: &PivotRow,
    lanes: &mut Vec<Residue>,
    recipe: &mut Row,
) -> Result<(), NoMemory>
    requires within { by.now.lane < length by.now.lanes.now }
    requires long { length by.now.lanes.now ≡ length lanes.old.items }
    requires by_in { AreResidues field.now by.now.lanes.now }
    requires by_recipe_in { IsRowOver field.now by.now.recipe.now }
    requires lanes_in { AreResidues field.now lanes.old.items }
    requires recipe_in { IsRowOver field.now recipe.old }
    ensures recipe_residues { OnOk result (IsRowOver field.now recipe.new) }
    ensures cleared { OnOk result (IsLaneCleared field.now by.now.lane by.now.lanes.now lanes.old.items lanes.new.items) }
    ensures agrees { OnOk result ((w u : ℕ → ℕ) (live : List ℕ) (pivot : ℕ) → length live ≡ length lanes.old.items
        → Agrees field.now w u by.now.recipe.now (lane_cells live by.now.lanes.now) → Agrees field.now w u recipe.old ((pivot, 1) ∷ lane_cells live lanes.old.items)
        → Agrees field.now w u recipe.new ((pivot, 1) ∷ lane_cells live lanes.new.items)) }
{
    let x = lanes[by.lane];
    if x != 0 {
        let factor = field.neg(x);
        add_multiple(field, factor, by.lanes, lanes);
        recipe.add_scaled(field, factor, by.recipe)?;
    }
    Ok(())
}

// The same for each kept row.
fn clear_lanes(
    field: &Field,
    by: &PivotRow,
    rows: &mut Vec<Vec<Residue>>,
    recipes: &mut Vec<Row>,
) -> Result<(), NoMemory>
    requires within { by.now.lane < length by.now.lanes.now }
    requires by_in { AreResidues field.now by.now.lanes.now }
    requires by_recipe_in { IsRowOver field.now by.now.recipe.now }
    requires width { (k : ℕ) → k < length rows.old.items → length (slice_index_or (map (λ v. v.items) rows.old.items) k []) ≡ length by.now.lanes.now }
    requires rows_in { (k : ℕ) → k < length rows.old.items → AreResidues field.now (slice_index_or (map (λ v. v.items) rows.old.items) k []) }
    requires recipes_in { All (IsRowOver field.now) recipes.old.items }
    requires long { length recipes.old.items ≡ length rows.old.items }
    ensures rows { OnOk result (AreLanesCleared field.now by.now.lane by.now.lanes.now (map (λ v. v.items) rows.old.items) (map (λ v. v.items) rows.new.items) (length rows.old.items)) }
    ensures recipes { OnOk result ((live pivots : List ℕ) → length live ≡ length by.now.lanes.now → length pivots ≡ length rows.old.items
        → RecipesFollow field.now by.now.recipe.now (lane_cells live by.now.lanes.now) recipes.old.items (lane_rows live pivots (map (λ v. v.items) rows.old.items))
        recipes.new.items (lane_rows live pivots (map (λ v. v.items) rows.new.items))) }
{
    for k in 0..rows.len() {
        clear_lane(field, by, &mut rows[k], &mut recipes[k])?;
    }
    Ok(())
}

// Keeps a cleared row, whose first lane that is not 0 becomes a pivot. The lanes are 0 again.
fn add_pivot(
    field: &Field,
    lane: usize,
    lanes: &mut Vec<Residue>,
    recipe: Row,
    kept: &mut Kept,
) -> Result<(), NoMemory>
    requires held { IsHeld field.now kept.old }
    requires lane_is { IsFirstLane lanes.old.items lane }
    requires lane_in { slice_index lanes.old.items lane < field.now }
    requires long { length lanes.old.items ≡ length kept.old.live.items }
    requires lanes_in { AreResidues field.now lanes.old.items }
    requires recipe_in { IsRowOver field.now recipe }
    ensures lanes_long { OnOk result (length lanes.new.items ≡ length kept.new.live.items) }
    ensures lanes_zero { OnOk result (AreZero lanes.new.items) }
    ensures live { OnOk result (kept.new.live ≡ kept.old.live) }
    ensures pivots { OnOk result (kept.new.pivots.items ≡ kept.old.pivots.items ++ slice_index kept.old.live.items lane ∷ []) }
    ensures held { OnOk result ((row : Cells) → IsSpread field.now kept.old.live.items kept.old.pivots.items (kept_rows kept.old) row lanes.old.items []
        → IsHeld field.now kept.new) }
    ensures keeps { OnOk result ((row first : Cells) → IsSpread field.now kept.old.live.items kept.old.pivots.items (kept_rows kept.old) row lanes.old.items []
        → ((w u : ℕ → ℕ) → AllAgree field.now w u kept.old.recipes.items (kept_rows kept.old) → Agrees field.now w u first row
        → Agrees field.now w u recipe (lane_cells kept.old.live.items lanes.old.items))
        → KeepsPivot field.now kept.old kept.new row first (slice_index kept.old.live.items lane)) }
{
    let factor = field.inv(lanes[lane]);
    let mut recipe = recipe;
    multiply(field, factor, lanes);
    recipe.scale(field, factor);
    let by = PivotRow {
        lane,
        lanes: &*lanes,
        recipe: &recipe,
    };
    clear_lanes(field, &by, &mut kept.lanes, &mut kept.recipes)?;
    let column = kept.live[lane];
    put_place(&mut kept.places, column, kept.pivots.len())?;
    lanes[lane] = 0;
    let fresh = zeros(*kept.pivots.allocator(), lanes.len())?;
    kept.lanes.push(mem::replace(lanes, fresh))?;
    kept.recipes.push(recipe)?;
    kept.pivots.push(column)?;
    Ok(())
}

// Keeps a row with its recipe, cleared, unless it is zero then.
fn keep_row(
    field: &Field,
    columns: u32,
    kept: &mut Kept,
    row: &Row,
    scratch: &mut Vec<Residue>,
    recipe: Row,
) -> Result<Offered, NoMemory>
    requires ready { IsReady field.now columns kept.old scratch.old.items }
    requires covers { Covers columns kept.old.live.items kept.old.pivots.items }
    requires row_in { IsRowOver field.now row.now }
    requires columns_in { ColumnsBelow columns row.now }
    requires recipe_in { IsRowOver field.now recipe }
    ensures keeps { IfOk result (Keeps field.now kept.old kept.new row.now recipe) }
    ensures ready { OnOk result (IsReady field.now columns kept.new scratch.new.items) }
{
    let mut recipe = recipe;
    clear(field, kept, row, scratch, &mut recipe)?;
    match first_lane(scratch) {
        None => Ok(Offered::Dependent),
        Some(lane) => {
            let column = kept.live[lane];
            add_pivot(field, lane, scratch, recipe, kept)?;
            Ok(Offered::Pivot(column))
        }
    }
}

// Whether no column has a lane yet.
fn is_new(kept: &Kept) -> bool
    ensures no_pivots { IsTrue result → kept.now.pivots.items ≡ [] }
    ensures has_lanes { result ≡ false → 0 < length kept.now.live.items + length kept.now.pivots.items }
{
    kept.pivots.is_empty() && kept.live.is_empty()
}

// Gives each column a lane, unless that was done before.
fn open_lanes(columns: u32, kept: &mut Kept, scratch: &mut Vec<Residue>) -> Result<(), NoMemory>
    ensures ready { OnOk result ((p : ℕ) → IsReady p columns kept.old scratch.old.items → IsReady p columns kept.new scratch.new.items) }
    ensures covers { OnOk result ((p : ℕ) → IsReady p columns kept.old scratch.old.items → Covers columns kept.new.live.items kept.new.pivots.items) }
    ensures same { OnOk result (HasSameRows kept.old kept.new) }
{
    if is_new(kept) {
        let alloc = *kept.pivots.allocator();
        let live = first_columns(alloc, columns)?;
        kept.slots = slots_of(alloc, &live)?;
        *scratch = zeros(alloc, live.len())?;
        kept.live = live;
    }
    Ok(())
}

// Whether a quarter of the lanes are those of pivots.
fn is_wide(columns: u32, kept: &Kept) -> bool {
    let lanes = kept.live.len();
    let free = (columns as usize).saturating_sub(kept.pivots.len());
    free < lanes && free <= lanes - lanes / 4
}

// Gives each column a lane, unless that was done before, and drops those of pivots where they are many.
fn fit_lanes(columns: u32, kept: &mut Kept, scratch: &mut Vec<Residue>) -> Result<(), NoMemory>
    requires { (p : ℕ) × IsReady p columns kept.old scratch.old.items }
    ensures ready { OnOk result ((p : ℕ) → IsReady p columns kept.old scratch.old.items → IsReady p columns kept.new scratch.new.items) }
    ensures covers { OnOk result ((p : ℕ) → IsReady p columns kept.old scratch.old.items → Covers columns kept.new.live.items kept.new.pivots.items) }
    ensures same { OnOk result ((p : ℕ) → IsReady p columns kept.old scratch.old.items → HasSameRows kept.old kept.new) }
{
    open_lanes(columns, kept, scratch)?;
    if is_wide(columns, kept) {
        drop_lanes(kept, scratch)?;
    }
    Ok(())
}

// Keeps a row with its recipe, cleared, unless it is zero then.
pub(crate) fn keep(
    field: &Field,
    columns: u32,
    kept: &mut Kept,
    row: &Row,
    scratch: &mut Vec<Residue>,
    recipe: Row,
) -> Result<Offered, NoMemory>
    requires ready { IsReady field.now columns kept.old scratch.old.items }
    requires row_in { IsRowOver field.now row.now }
    requires columns_in { ColumnsBelow columns row.now }
    requires recipe_in { IsRowOver field.now recipe }
    ensures keeps { IfOk result (Keeps field.now kept.old kept.new row.now recipe) }
    ensures ready { OnOk result (IsReady field.now columns kept.new scratch.new.items) }
{
    fit_lanes(columns, kept, scratch)?;
    let offered = keep_row(field, columns, kept, row, scratch, recipe)?;
    Ok(offered)
}
