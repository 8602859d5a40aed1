use crate::part::Elem;
use crate::stored::Stored;
use std::sync::Arc;

// The parts of a table, and for each basis number the number of its part and its element.
#[derive(Drop)]
pub(crate) struct Store {
    pub parts: Vec<Arc<Stored>>,
    pub part_of: Vec<usize>,
    pub elems: Vec<Elem>,
}
