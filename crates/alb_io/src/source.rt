ghost use Rattle.std.specs.Prelude.{◌≡◌, ◌<◌, ◌≤◌, List, ℕ, length, Option, IsOk};
ghost use Rattle.std.specs.Io.{ReadsAtMost};
ghost use Rattle.std.specs.Io.KnownBytes.{ReadConsumes};
ghost use Rattle.alb_io.specs.Causes.{HasCause};

/// A call on an object of the outside failed.
#[derive(Clone, Copy, Debug, PartialEq, Eq)]
pub struct Failed;

/// Bytes that come in.
pub trait Source {
    /// The bytes that are left, where the source tells them.
    ghost left: { Self → Option (List ℕ) };

    /// How often it failed. It never falls, and it rose where a call failed.
    ghost faults: { Self → ℕ };

    /// It never fails from here on.
    ghost is_sound: { Self → Type 0 };

    /// Moves the first bytes that are left to the front of the buffer and answers how many.
    /// `Ok(0)` is the end; where the bytes left are told, it comes only where there are none.
    /// After a failure the bytes left are as before.
    fn take(&mut self, buf: &mut [u8]) -> Result<usize, Failed>
        requires { 0 < length buf.old }
        ensures bound { ReadsAtMost result buf.new }
        ensures bytes { ReadConsumes (left self.old) (left self.new) result buf.new }
        ensures cause { HasCause (faults self.old) (faults self.new) result }
        ensures sound { is_sound self.old → IsOk result × is_sound self.new };
}
