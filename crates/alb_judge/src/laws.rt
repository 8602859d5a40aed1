//! The laws of verdicts. Each is the contract of a function that does nothing.

ghost use Rattle.alb_judge.specs.Laws.{VerdictsAreJustified, EachHasOneVerdict};

/// A claim that is accepted as zero is a consequence of the identities in the textbook's sense, and one that is accepted as not
/// zero is none.
pub fn verdicts_are_justified()
    ensures { VerdictsAreJustified }
{}

/// Each block of evidence has exactly one verdict.
pub fn each_has_one_verdict()
    ensures { EachHasOneVerdict }
{}
