ghost use Rattle.std.specs.Prelude.{decimal};
ghost use Rattle.std.specs.Fmt.{signed_decimal};
ghost use Rattle.alb_io.specs.Writes.{Writes};
ghost use Rattle.alb_print.specs.Text.{named};

use alb_io::{Sink, WriteFault, put_all};
use itoa::Buffer;

/// Writes a number that is not negative, in decimal.
pub fn write_count<K: Sink>(sink: &mut K, number: u64) -> Result<(), WriteFault>
    ensures { Writes K.Sink sink.old sink.new (decimal number) result }
{
    let mut buffer = Buffer::new();
    put_all(sink, buffer.format(number).as_bytes())
}

/// Writes a word, and after it a number that is not negative, in decimal.
pub fn write_named<K: Sink>(sink: &mut K, word: &[u8], number: u64) -> Result<(), WriteFault>
    ensures { Writes K.Sink sink.old sink.new (named word.now number) result }
{
    put_all(sink, word)?;
    write_count(sink, number)
}

/// Writes a number in decimal, with `-` before a negative one.
pub fn write_number<K: Sink>(sink: &mut K, n: i64) -> Result<(), WriteFault>
    ensures { Writes K.Sink sink.old sink.new (signed_decimal n) result }
{
    let mut buffer = Buffer::new();
    put_all(sink, buffer.format(n).as_bytes())
}
