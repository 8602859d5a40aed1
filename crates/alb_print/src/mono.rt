ghost use Rattle.std.specs.Prelude.{IsTrue, length, true, false};
ghost use Rattle.alb_io.specs.Writes.{Writes};
ghost use Rattle.alb_mono.specs.Tree.{tree, are_below};
ghost use Rattle.alb_print.specs.Text.{mono_text};

use alb_io::{Sink, WriteFault, put_all};
use alb_mono::{Letters, Mono};

// Writes a monomial; as a factor, a product stands in brackets.
fn write_part<K: Sink>(
    sink: &mut K,
    letters: &Letters,
    inner: bool,
    m: &Mono,
) -> Result<(), WriteFault>
    requires { IsTrue (are_below (length letters.now) (tree m.now)) }
    ensures { Writes K.Sink sink.old sink.new (mono_text letters.now inner (tree m.now)) result }
{
    match m {
        Mono::Gen(k) => put_all(sink, &[letters.letter(*k)]),
        Mono::Prod(left, right) => {
            if !inner {
                write_part(sink, letters, true, left)?;
                return write_part(sink, letters, true, right);
            }
            put_all(sink, b"(")?;
            write_part(sink, letters, true, left)?;
            write_part(sink, letters, true, right)?;
            put_all(sink, b")")
        }
    }
}

/// Writes a monomial: its letter, or its left factor and then its right one. A factor that is a
/// product stands in round brackets, and the outermost product does not.
pub fn write_mono<K: Sink>(sink: &mut K, letters: &Letters, m: &Mono) -> Result<(), WriteFault>
    requires { IsTrue (are_below (length letters.now) (tree m.now)) }
    ensures { Writes K.Sink sink.old sink.new (mono_text letters.now false (tree m.now)) result }
{
    write_part(sink, letters, false, m)
}
