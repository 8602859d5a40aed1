//! The laws of transcripts. Each is the contract of a function that does nothing.

ghost use Rattle.alb_top.specs.Laws.{CheckIsUnique, BatchIsUnique, EvidenceIsAccepted};

/// The transcript of a check is unique.
pub fn check_is_unique()
    ensures { CheckIsUnique }
{}

/// The transcript of a batch is unique but for the evidence that `prove` prints.
pub fn batch_is_unique()
    ensures { BatchIsUnique }
{}

/// Evidence that `prove` printed is accepted by a check about the same problem.
pub fn evidence_is_accepted()
    ensures { EvidenceIsAccepted }
{}
