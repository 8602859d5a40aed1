//! The reading of a problem file.
ghost use Rattle.std.specs.Prelude.{◌≡◌, ◌≢◌, ◌^◌, ◌≤◌, [], false, None, Ok, Err, IfOk};
ghost use Rattle.alb_io.specs.Causes.{Rose};
ghost use Rattle.alb_poly.specs.Consequence.{forms};
ghost use Rattle.alb_poly.specs.Instance.{AreHomogeneous, AreSameForms, linearizations};
ghost use Rattle.alb_problem.specs.Problem.{identities_of, IsAccepted};
ghost use Rattle.alb_problem.specs.Matches.{MatchesTextbook};
ghost use Rattle.alb_problem_file.specs.File.{finished};
ghost use Rattle.alb_problem_file.specs.Read.{ReadsProblem};
ghost use Rattle.alb_problem_file.specs.Steps.{IsFinished};

use crate::code::problem_code;
use crate::line::{Said, Taken, take_line};
use crate::stop::ProblemStop;
use alb_io::{LineReader, Source};
use alb_problem::{Problem, ProblemBuilder};
use std::alloc::Global;

// The problem that ends at a line of this number, unless it is refused there.
fn finish(builder: ProblemBuilder, line: u64) -> Result<Problem, ProblemStop>
    ensures exact { IsFinished result (finished line builder) }
    ensures accepted { IfOk result (λ q. IsAccepted q) }
    ensures homogeneous { IfOk result (λ q. AreHomogeneous (identities_of q)) }
    ensures textbook { IfOk result (λ q. MatchesTextbook q.rules.field q.rules.target (forms q.rules) (identities_of q)) }
{
    match builder.finish() {
        Ok(problem) => Ok(problem),
        Err(refused) => Err(ProblemStop::Refused {
            line,
            code: problem_code(&refused.error),
        }),
    }
}

/// The problem that a source states, by a new reader that takes at most 1,099,511,627,776 bytes. Its lines are commands of a batch
/// before `build`; `build`, `quit` or the end of the source ends the problem, and after that line no more is read.
///
/// # Errors
/// `Refused` at the first line that is refused, with its number from 1 and its code; where the problem is not accepted at its end,
/// with the number of the line that ends it, or one above the last line. `ReadFault` only where the source's count of faults rose,
/// and never from a sound source; `InputLimit` where as many bytes were taken as may be; `NoMemory`.
pub fn read_problem<S: Source>(
    alloc: Global,
    reader: &mut LineReader,
    source: &mut S,
) -> Result<Problem, ProblemStop>
    requires fresh { reader.old ≡ record { held = []; room = 2 ^ 40; at_end = false; ended = false; line = None } }
    // The problem, or the first refusal, is that of the lines of the source.
    ensures reads { ReadsProblem result (S.left source.old) (S.left source.new) }
    ensures accepted { IfOk result (λ q. IsAccepted q) }
    ensures homogeneous { IfOk result (λ q. AreHomogeneous (identities_of q)) }
    // Within the target, what follows from the rules is what follows from the identities in the textbook's sense.
    ensures textbook { IfOk result (λ q. MatchesTextbook q.rules.field q.rules.target (forms q.rules) (identities_of q)) }
    ensures later { S.faults source.old ≤ S.faults source.new }
    ensures read_fault { result ≡ Err ProblemStop.ReadFault → Rose (S.faults source.old) (S.faults source.new) }
    ensures sound { S.is_sound source.old → S.is_sound source.new × (result ≢ Err ProblemStop.ReadFault) }
{
    let mut builder = ProblemBuilder::new(alloc);
    let mut number: u64 = 1;
    'lines: loop {
        match take_line(alloc, &mut builder, reader, source) {
            Taken::Line(Said::GoesOn) => number += 1,
            Taken::Line(Said::Ends) => return finish(builder, number),
            Taken::Line(Said::Refused(code)) => {
                return Err(ProblemStop::Refused { line: number, code });
            }
            Taken::Line(Said::NoMemory) => return Err(ProblemStop::NoMemory),
            Taken::End => return finish(builder, number),
            Taken::ReadFault => return Err(ProblemStop::ReadFault),
            Taken::InputLimit => return Err(ProblemStop::InputLimit),
        }
    }
}
