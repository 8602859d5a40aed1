//! The laws of derivations. Each is the contract of a function that does nothing.

ghost use Rattle.alb_deriv.specs.Laws.{LinesAreConsequences, DerivedIsConsequence, NoFaultIsDerivation, ConsequencesHaveDerivations, ConsequencesHaveLimitedDerivations};

/// The polynomial of each line of a derivation is a consequence.
pub fn lines()
    ensures { LinesAreConsequences }
{}

/// What has a derivation is a consequence.
pub fn derived()
    ensures { DerivedIsConsequence }
{}

/// Lines without a fault that end with the claim are a derivation of it, and the other way round.
pub fn no_fault()
    ensures { NoFaultIsDerivation }
{}

/// Each consequence within the target has a derivation, and even one in which no sum has more items than a given number from 2 on.
pub fn complete()
    ensures { ConsequencesHaveDerivations }
{}

/// Over a prime field, each consequence within a target of degree at most 12 has a derivation of fewer than 10^18 lines that keeps
/// all limits of its text. For each item that it is a sum of, it takes few lines; and it is a sum of no more items than there
/// are monomials within the target, since these span a space of that dimension.
pub fn limited()
    ensures { ConsequencesHaveLimitedDerivations }
{}
