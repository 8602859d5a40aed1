ghost use Rattle.std.specs.Prelude.{◌≡◌, length, map, All, IfOk, IsTrue};
ghost use Rattle.alb_mono.specs.Tree.{are_below};
ghost use Rattle.alb_poly.specs.Poly.{AreResidues};
ghost use Rattle.alb_check.specs.Raw.{raw, IsRaw};
ghost use Rattle.alb_problem.specs.Problem.{IsAccepted};
ghost use Rattle.alb_deriv.specs.Views.{line, IsLine};
ghost use Rattle.alb_evidence.specs.Views.{IsEvidence};
ghost use Rattle.alb_judge.specs.Views.{JudgeAnswers, JudgesLines, JudgesTable};

use crate::verdict::{Rejection, Verdict};
use alb_check::{RawTable, TableError, check_table};
use alb_deriv::{DerivError, Line, check_claim};
use alb_evidence::{Evidence, EvidenceError};
use alb_poly::Poly;
use alb_problem::Problem;
use std::alloc::Global;

/// What came of judging a block: a verdict, or that it could not be read whole.
pub enum Judged {
    Verdict(Verdict),
    ReadFault,
    InputLimit,
    NoMemory,
}

// Judges a derivation.
fn judge_lines(alloc: Global, problem: &Problem, claim: &Poly, lines: &[Line]) -> Judged
    requires problem { IsAccepted problem.now }
    requires lines { All (λ l. IsLine problem.now.rules.field (length problem.now.rules.target) l) lines.now }
    requires claim { AreResidues problem.now.rules.field claim.now }
    ensures { JudgesLines result problem.now claim.now (map line lines.now) }
{
    match check_claim(alloc, &problem.rules, lines, claim) {
        Ok(()) => Judged::Verdict(Verdict::Zero),
        Err(DerivError::NoMemory) => Judged::NoMemory,
        Err(DerivError::BadIdentity { line }) => rejected(Rejection::BadIdentity(line)),
        Err(DerivError::WrongCount { line }) => rejected(Rejection::WrongCount(line)),
        Err(DerivError::LaterLine { line }) => rejected(Rejection::LaterLine(line)),
        Err(DerivError::OutOfType { line }) => rejected(Rejection::OutOfType(line)),
        Err(DerivError::NotTheClaim) => rejected(Rejection::NotTheClaim),
    }
}

fn rejected(rejection: Rejection) -> Judged
    ensures { result ≡ Judged.Verdict (Verdict.Rejected rejection) }
{
    Judged::Verdict(Verdict::Rejected(rejection))
}

// Judges a table.
fn judge_table(alloc: Global, problem: &Problem, claim: &Poly, table: &RawTable) -> Judged
    requires problem { IsAccepted problem.now }
    requires table { IsRaw problem.now.rules.field (length problem.now.rules.target) (raw table.now) }
    requires claim { AreResidues problem.now.rules.field claim.now }
    requires known { All (λ t. IsTrue (are_below (length problem.now.rules.target) t.1)) claim.now }
    ensures { JudgesTable result problem.now claim.now (raw table.now) }
{
    match check_table(alloc, &problem.rules, table, claim) {
        Ok(_) => Judged::Verdict(Verdict::NotZero),
        Err(TableError::NoMemory) => Judged::NoMemory,
        Err(TableError::BadShape { rule }) => rejected(Rejection::BadShape(rule)),
        Err(TableError::Fails { identity, tuple }) => rejected(Rejection::Fails(identity, tuple)),
        Err(TableError::ValueZero) => rejected(Rejection::ValueZero),
    }
}

/// Judges the evidence for a claim, as it was read.
pub fn judge(
    alloc: Global,
    problem: &Problem,
    claim: &Poly,
    given: Result<Evidence, EvidenceError>,
) -> Judged
    requires problem { IsAccepted problem.now }
    requires claim { AreResidues problem.now.rules.field claim.now }
    requires known { All (λ t. IsTrue (are_below (length problem.now.rules.target) t.1)) claim.now }
    requires evidence { IfOk given (IsEvidence problem.now.rules.field (length problem.now.rules.target)) }
    ensures { JudgeAnswers result problem.now claim.now given }
{
    match given {
        Ok(Evidence::Zero(lines)) => judge_lines(alloc, problem, claim, &lines),
        Ok(Evidence::NotZero(table)) => judge_table(alloc, problem, claim, &table),
        Err(EvidenceError::BadLine { line }) => rejected(Rejection::BadLine(line)),
        Err(EvidenceError::BadNumber { line }) => rejected(Rejection::BadNumber(line)),
        Err(EvidenceError::ReadFault) => Judged::ReadFault,
        Err(EvidenceError::InputLimit) => Judged::InputLimit,
        Err(EvidenceError::NoMemory) => Judged::NoMemory,
    }
}
