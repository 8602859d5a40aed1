//! The laws of what shows an answer. Each is the contract of a function that does nothing.

ghost use Rattle.alb_trace.specs.Laws.{EachIsShown, ShownIsAccepted};

/// Each answer to a question about a polynomial, by a right table, is shown: by a derivation, by a table, or by nothing where
/// there is nothing to show.
pub fn each_is_shown()
    ensures { EachIsShown }
{}

/// What shows an answer is accepted by the judges of evidence: the lines have no fault and end with the polynomial, and the table
/// refutes it.
pub fn shown_is_accepted()
    ensures { ShownIsAccepted }
{}
