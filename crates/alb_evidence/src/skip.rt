ghost use Rattle.std.specs.Prelude.{◌≡◌, ◌≢◌, ◌≤◌, false, Err};
ghost use Rattle.alb_io.specs.Causes.{Rose};
ghost use Rattle.alb_evidence.specs.Reads.{Skips};

use crate::error::SkipError;
use crate::inside::{Inside, next_inside};
use alb_io::{LineReader, Source};

/// Reads the lines of a block up to and with the next one of at most 65,536 bytes whose only word is `end`, whatever they
/// hold, or to the end of the input. The reader has not given its last answer.
///
/// # Errors
/// `ReadFault` where the source failed, and `InputLimit` where as many bytes as may be taken were taken.
pub fn skip_evidence<S: Source>(reader: &mut LineReader, source: &mut S) -> Result<(), SkipError>
    requires { reader.old.ended ≡ false }
    // The lines of the block were read, and what closes it.
    ensures reads { Skips result reader.old reader.new (S.left source.old) (S.left source.new) }
    // The count of faults never falls, and it rose where the source failed.
    ensures later { S.faults source.old ≤ S.faults source.new }
    ensures fault { result ≡ Err SkipError.ReadFault → Rose (S.faults source.old) (S.faults source.new) }
    // A sound source does not fail.
    ensures sound { S.is_sound source.old → S.is_sound source.new × (result ≢ Err SkipError.ReadFault) }
{
    'lines: loop {
        match next_inside(reader, source) {
            Inside::Line { .. } => {}
            Inside::End => return Ok(()),
            Inside::InputEnd => return Ok(()),
            Inside::ReadFault => return Err(SkipError::ReadFault),
            Inside::InputLimit => return Err(SkipError::InputLimit),
        }
    }
}
