//! The law of the answers. It is the contract of a function that does nothing.

ghost use Rattle.alb_query.specs.Laws.{EachIsAnswered};

/// Each polynomial has an answer at each right table.
pub fn each_is_answered()
    ensures { EachIsAnswered }
{}
