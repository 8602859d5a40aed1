ghost use Rattle.std.specs.Prelude.{◌≡◌, ◌≢◌, ◌≤◌, false, None, length, IfOk, IfSome, Err};
ghost use Rattle.alb_io.specs.Causes.{Rose};
ghost use Rattle.alb_evidence.specs.Inside.{TakesNext, IsLineFault, SkipsAfter};
ghost use Rattle.alb_evidence.specs.Reads.{ReadsAs};
ghost use Rattle.alb_evidence.specs.Said.{IsSaid};
ghost use Rattle.alb_evidence.specs.Views.{IsEvidence};

use crate::block::OpenBlock;
use crate::error::{EvidenceError, SkipError};
use crate::evidence::Evidence;
use crate::inside::{Inside, next_inside};
use crate::skip::skip_evidence;
use alb_io::{LineReader, Source};
use alb_mono::Letters;
use gf_field::Field;
use std::alloc::Global;

// Takes the line that was read.
fn take_next(
    alloc: Global,
    field: &Field,
    letters: &Letters,
    block: &mut OpenBlock,
    reader: &LineReader,
    is_long: bool,
) -> Result<(), EvidenceError>
    requires held { is_long ≡ false → reader.now.line ≢ None }
    requires short { is_long ≡ false → IfSome reader.now.line (λ line. length line ≤ 65536) }
    ensures takes { TakesNext result field.now letters.now is_long reader.now.line block.old block.new }
    ensures said { IsSaid field.now (length letters.now) block.old.said → IfOk result (λ _. IsSaid field.now (length letters.now) block.new.said) }
{
    if is_long {
        return Err(EvidenceError::BadLine { line: block.next });
    }
    block.take(alloc, field, letters, reader.line())
}

// Reads what is left of a block with a faulty line.
fn skip_after<S: Source>(
    reader: &mut LineReader,
    source: &mut S,
    error: EvidenceError,
) -> EvidenceError
    requires running { reader.old.ended ≡ false }
    requires error { IsLineFault error }
    ensures skips { SkipsAfter error result reader.old reader.new (S.left source.old) (S.left source.new) }
    ensures later { S.faults source.old ≤ S.faults source.new }
    ensures fault { result ≡ EvidenceError.ReadFault → Rose (S.faults source.old) (S.faults source.new) }
    ensures sound { S.is_sound source.old → S.is_sound source.new × (result ≢ EvidenceError.ReadFault) }
{
    match skip_evidence(reader, source) {
        Ok(()) => error,
        Err(SkipError::ReadFault) => EvidenceError::ReadFault,
        Err(SkipError::InputLimit) => EvidenceError::InputLimit,
    }
}

/// Reads the evidence of one block: the lines up to and with the next one of at most 65,536 bytes whose only word is `end`.
/// Lines of blanks alone and comments are skipped and not counted. A block is a derivation, `derivation` and then its
/// numbered lines, or a table, `table TYPE` and then its `element`, `generator` and `entry` lines. Monomials are over
/// `letters`, and coefficients are taken modulo the field's `p`. The reader has not given its last answer.
///
/// # Errors
/// `BadLine` and `BadNumber` with the number of the first faulty line, and then the block was read to its end or to the end
/// of the input. The words of a line are judged from left to right, and the first departure tells: `BadNumber` where digits
/// in the place of a number or a coefficient, with or without a minus, are more than 18, and else `BadLine`. A line of more
/// than 65,536 bytes is faulty. Where the input ends before `end`, the line after the last one is. `ReadFault` where the
/// source failed, `InputLimit` where as many bytes as may be taken were taken, and `NoMemory`.
pub fn read_evidence<S: Source>(
    alloc: Global,
    reader: &mut LineReader,
    source: &mut S,
    field: &Field,
    letters: &Letters,
) -> Result<Evidence, EvidenceError>
    requires { reader.old.ended ≡ false }
    // The lines of the block were read, and this is what they say.
    ensures reads { ReadsAs result field.now letters.now reader.old reader.new (S.left source.old) (S.left source.new) }
    // It is over the letters and the field.
    ensures evidence { IfOk result (IsEvidence field.now (length letters.now)) }
    // The count of faults never falls, and it rose where the source failed.
    ensures later { S.faults source.old ≤ S.faults source.new }
    ensures fault { result ≡ Err EvidenceError.ReadFault → Rose (S.faults source.old) (S.faults source.new) }
    // A sound source does not fail.
    ensures sound { S.is_sound source.old → S.is_sound source.new × (result ≢ Err EvidenceError.ReadFault) }
{
    let mut block = OpenBlock::new();
    'lines: loop {
        match next_inside(reader, source) {
            Inside::Line { is_long } => {
                match take_next(alloc, field, letters, &mut block, reader, is_long) {
                    Ok(()) => {}
                    Err(EvidenceError::NoMemory) => return Err(EvidenceError::NoMemory),
                    Err(error) => return Err(skip_after(reader, source, error)),
                }
            }
            Inside::End => return block.close(letters),
            Inside::InputEnd => {
                return Err(EvidenceError::BadLine { line: block.next });
            }
            Inside::ReadFault => return Err(EvidenceError::ReadFault),
            Inside::InputLimit => return Err(EvidenceError::InputLimit),
        }
    }
}
