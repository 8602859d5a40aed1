use crate::grid::Grid;
use crate::part::Part;

// A part with what finds its entries.
#[derive(Drop)]
pub(crate) struct Stored {
    pub part: Part,
    pub grids: Vec<Grid>,
}
