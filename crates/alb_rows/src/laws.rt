//! The laws of rows and of their spans. Each is the contract of a function that does nothing.
ghost use Rattle.alb_rows.specs.Laws.{ReducedFormIsUnique, RowIsItsEntries, RowIsItsVector};

/// A row is determined by its entries.
pub fn row_is_its_entries()
    ensures { RowIsItsEntries }
{}

/// Modulo the number of elements, a row over a field is determined by its vector. The zero vector has the empty row.
pub fn row_is_its_vector()
    ensures { RowIsItsVector }
{}

/// The span alone determines the reduced form.
pub fn reduced_form_is_unique()
    ensures { ReducedFormIsUnique }
{}
