ghost use Rattle.std.specs.Prelude.{◌∷◌, map, decimal};
ghost use Rattle.std.specs.List.{flat_map, join_with_byte};
ghost use Rattle.alb_io.specs.Writes.{Writes};
ghost use Rattle.alb_print.specs.Text.{type_text};

use crate::behind::behind;
use crate::number::write_count;
use alb_io::{Sink, WriteFault, put_all};
use alb_mono::Multi;

// Writes a count after another one.
fn write_later_count<K: Sink>(sink: &mut K, count: u8) -> Result<(), WriteFault>
    ensures { Writes K.Sink sink.old sink.new (44 ∷ decimal count) result }
{
    put_all(sink, b",")?;
    write_count(sink, u64::from(count))
}

// Writes the counts after the first one.
fn write_later_counts<K: Sink>(sink: &mut K, counts: &[u8]) -> Result<(), WriteFault>
    ensures { Writes K.Sink sink.old sink.new (flat_map (λ n. 44 ∷ decimal n) counts.now) result }
{
    for count in counts {
        write_later_count(sink, *count)?;
    }
    Ok(())
}

// Writes counts with commas between them.
fn write_counts<K: Sink>(sink: &mut K, counts: &[u8]) -> Result<(), WriteFault>
    ensures { Writes K.Sink sink.old sink.new (join_with_byte 44 (map decimal counts.now)) result }
{
    if counts.is_empty() {
        return Ok(());
    }
    write_count(sink, u64::from(counts[0]))?;
    write_later_counts(sink, behind(counts))
}

/// Writes a type: its counts in the order of the generators, with commas, in round brackets.
pub fn write_type<K: Sink>(sink: &mut K, t: &Multi) -> Result<(), WriteFault>
    ensures { Writes K.Sink sink.old sink.new (type_text t.now) result }
{
    put_all(sink, b"(")?;
    write_counts(sink, t.counts())?;
    put_all(sink, b")")
}
