//! The laws of uniqueness. Each is the contract of a function that does nothing.

ghost use Rattle.alb_unique.specs.Laws.{EndIsUnique, EndIsLast, AnswerIsUnique, TablesPrintAlike};

/// The building of the tables of some rules ends at one degree, and in one way.
pub fn end_is_unique()
    ensures { EndIsUnique }
{}

/// Beyond the degree at which the building ends there is no right table.
pub fn end_is_last()
    ensures { EndIsLast }
{}

/// A question about a polynomial has one answer.
pub fn answer_is_unique()
    ensures { AnswerIsUnique }
{}

/// Right tables of one degree for some rules print the same dimensions and the same products.
pub fn tables_print_alike()
    ensures { TablesPrintAlike }
{}
