//! The laws of verdicts on tables. Each is the contract of a function that does nothing.

ghost use Rattle.alb_check.specs.Laws.{EachTableHasVerdict, VerdictIsUnique, RefutedIsNoConsequence, RefutedIsNoSum, RefutedIsAccepted, SubTableHasShape, SubTableRefutes, EachIsDecided, FirstColumnHasFirstType, ShapedTablesFit};

/// Each table has a verdict on each polynomial.
pub fn each_table_has_a_verdict()
    ensures { EachTableHasVerdict }
{}

/// It has no other.
pub fn verdict_is_unique()
    ensures { VerdictIsUnique }
{}

/// What a table refutes is no textbook consequence of the identities that the forms stand for.
pub fn refuted_is_no_consequence()
    ensures { RefutedIsNoConsequence }
{}

/// Nor is it a sum of instances of the forms.
pub fn refuted_is_no_sum()
    ensures { RefutedIsNoSum }
{}

/// `check_table` accepts a table that refutes the polynomial, unless there is no memory.
pub fn refuted_is_accepted()
    ensures { RefutedIsAccepted }
{}

/// The sub-table up to a type keeps all rules of shape.
pub fn sub_table_has_shape()
    ensures { SubTableHasShape }
{}

/// The sub-table of a right table, up to the first type of a polynomial's normal form, is evidence that the polynomial is not
/// zero.
pub fn sub_table_refutes()
    ensures { SubTableRefutes }
{}

/// Each polynomial within a right table follows from the identities, or a sub-table is evidence that it does not.
pub fn each_is_decided()
    ensures { EachIsDecided }
{}

/// The first column of a polynomial's value in a right table has the first type of the normal form.
pub fn first_column_has_first_type()
    ensures { FirstColumnHasFirstType }
{}

/// A table that keeps all rules of shape, within a target of degree at most 12, keeps the limits of its text: so do the sub-tables
/// of a table, and all tables that refute a polynomial.
pub fn shaped_tables_fit()
    ensures { ShapedTablesFit }
{}
