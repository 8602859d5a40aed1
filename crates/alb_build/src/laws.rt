//! The law of the building of tables. It is the contract of a function that does nothing.

ghost use Rattle.alb_build.specs.Laws.{EachEnds};

/// For all multilinear identities of degree 2 or more there is a right table at which the building ends.
pub fn each_ends()
    ensures { EachEnds }
{}
