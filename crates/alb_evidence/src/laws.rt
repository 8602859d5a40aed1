//! The laws of written evidence.

ghost use Rattle.alb_evidence.specs.Laws.{DerivationsReadBack, TablesReadBack, LimitedLinesFit, EvidenceIsReadBack};

/// What `write_lines` writes, `read_evidence` reads back, where each line has at most 65,536 bytes and each number at most
/// 18 digits.
pub fn derivations()
    ensures { DerivationsReadBack }
{}

/// What `write_table` writes, `read_evidence` reads back, where there are 1 to 26 generators and each number has at most
/// 18 digits.
pub fn tables()
    ensures { TablesReadBack }
{}

/// The lines of a derivation within its limits fit their text: each has at most 65,536 bytes.
pub fn limited_lines_fit()
    ensures { LimitedLinesFit }
{}

/// What proves or refutes a polynomial, a derivation within its limits or a table, is written within the limits of evidence, read
/// back as it is written, and accepted by its judge.
pub fn proofs_are_accepted()
    ensures { EvidenceIsReadBack }
{}
