//! Numbers as text.

ghost use Rattle.std.specs.Prelude.{◌<◌};
ghost use Rattle.alb_io.specs.Writes.{Writes};
ghost use Rattle.alb_evidence.specs.Texts.{signed_text};

use alb_io::{Sink, WriteFault};
use alb_print::{write_count, write_named};
use gf_field::{Field, Residue};

/// Writes the signed residue.
pub fn write_signed<K: Sink>(sink: &mut K, field: &Field, c: Residue) -> Result<(), WriteFault>
    requires { c < field.now }
    ensures { Writes K.Sink sink.old sink.new (signed_text field.now c) result }
{
    let p = field.p();
    let number = u64::from(c);
    if p < 2 * number {
        return write_named(sink, b"-", p - number);
    }
    write_count(sink, number)
}
