//! The law of the tuples that never fall within a run. It is the contract of a function that does nothing.
ghost use Rattle.alb_subst.specs.Laws.{LeastRowsSpanAll};

/// The rows of an identity at the tuples that never fall within one of its runs have the span of its rows at all tuples.
pub fn least_rows_span_all()
    ensures { LeastRowsSpanAll }
{}
