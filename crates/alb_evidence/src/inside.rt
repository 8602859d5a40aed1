ghost use Rattle.std.specs.Prelude.{◌≡◌, ◌≢◌, ◌≤◌, false};
ghost use Rattle.alb_io.specs.Causes.{Rose};
ghost use Rattle.alb_evidence.specs.Inside.{IsNext};

use crate::words::is_end;
use alb_io::{LineReader, LineStep, Source};

/// What comes next inside a block.
#[derive(Clone, Copy, Debug, PartialEq, Eq)]
pub enum Inside {
    /// A line that does not end the block; the reader gives it, unless it has more than 65,536 bytes.
    Line { is_long: bool },
    /// The line `end`.
    End,
    /// The end of the input.
    InputEnd,
    /// The source failed.
    ReadFault,
    /// As many bytes as may be taken were taken.
    InputLimit,
}

/// Reads the next line of a block, or what closes it.
pub fn next_inside<S: Source>(reader: &mut LineReader, source: &mut S) -> Inside
    requires { reader.old.ended ≡ false }
    ensures next { IsNext result reader.old reader.new (S.left source.old) (S.left source.new) }
    ensures later { S.faults source.old ≤ S.faults source.new }
    ensures fault { result ≡ Inside.ReadFault → Rose (S.faults source.old) (S.faults source.new) }
    ensures sound { S.is_sound source.old → S.is_sound source.new × (result ≢ Inside.ReadFault) }
{
    match reader.next_line(source) {
        LineStep::Line => {
            if is_end(reader.line()) {
                return Inside::End;
            }
            Inside::Line { is_long: false }
        }
        LineStep::TooLong => Inside::Line { is_long: true },
        LineStep::End => Inside::InputEnd,
        LineStep::ReadFault => Inside::ReadFault,
        LineStep::InputLimit => Inside::InputLimit,
    }
}
