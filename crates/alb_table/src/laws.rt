//! The laws of normal monomials and of right tables (the multiplication tables of Jacobs, *The Albert nonassociative
//! algebra system*, 1994, over monomials). Each is the contract of a function that does nothing.

ghost use Rattle.alb_table.specs.Laws.{FactorsAreNormal, MonomialValuesDecide, ValuesAgree, ValuesDecide, RightTableIsUnique, RightTablesGrow, FirstTableIsRight, GeneratorsAreRight};

/// Both factors of a normal product are normal.
pub fn factors_are_normal()
    ensures { FactorsAreNormal }
{}

/// In a right table over monomials the value of a polynomial is its one normal form, and is zero exactly where the polynomial
/// follows from the identities.
pub fn monomial_values_decide()
    ensures { MonomialValuesDecide }
{}

/// The value of a polynomial in a right table, as a combination of basis elements, is its value over monomials.
pub fn values_agree()
    ensures { ValuesAgree }
{}

/// What `Tables::value` gives for a polynomial within a right table is its one normal form, and is the empty row exactly where
/// the polynomial follows from the identities.
pub fn values_decide()
    ensures { ValuesDecide }
{}

/// The field, the identities, the target and the degree determine the right table.
pub fn right_table_is_unique()
    ensures { RightTableIsUnique }
{}

/// A right table that grows by the blocks of the next degree is right to that degree.
pub fn right_tables_grow()
    ensures { RightTablesGrow }
{}

/// The table of the generators is right to degree 1.
pub fn first_table_is_right()
    ensures { FirstTableIsRight }
{}

/// `Tables::first` gives a right table.
pub fn generators_are_right()
    ensures { GeneratorsAreRight }
{}
