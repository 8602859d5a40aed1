ghost use Rattle.alb_io.specs.Writes.{Writes};

use crate::{Sink, WriteFault};

/// Appends the whole piece, in as many puts as it takes. At a fault, where the sink's count rose, a
/// front of the piece was appended.
pub fn put_all<K: Sink>(sink: &mut K, piece: &[u8]) -> Result<(), WriteFault>
    ensures { Writes K.Sink sink.old sink.new piece.now result }
{
    let mut rest = piece;
    while !rest.is_empty() {
        match sink.put(rest) {
            Ok(count) => rest = &rest[count..],
            Err(_) => return Err(WriteFault),
        }
    }
    Ok(())
}
