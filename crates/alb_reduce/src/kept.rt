use alb_rows::Row;
use gf_field::Residue;

// The kept rows, in the order of offering.
#[derive(Drop)]
pub(crate) struct Kept {
    // Of each row the column where it is 1 and the others are 0.
    pub(crate) pivots: Vec<u32>,
    // The columns of the lanes, ascending. Columns that are no pivots have a lane.
    pub(crate) live: Vec<u32>,
    // Of each column the place of its lane and 1, or 0 where it has none. Columns past the end have none.
    pub(crate) slots: Vec<usize>,
    // Of each row its entries in lanes, but for the 1 at its pivot.
    pub(crate) lanes: Vec<Vec<Residue>>,
    // Of each row its recipe, a row over tags; zero rows where recipes are not kept.
    pub(crate) recipes: Vec<Row>,
    // Of each column the place of its pivot and 1, or 0 where it is no pivot. Columns past the end are none.
    pub(crate) places: Vec<usize>,
}
