ghost use Rattle.std.specs.Prelude.{◌≡◌, ◌<◌, ◌≤◌, List, ℕ, length, Option, IfOk};
ghost use Rattle.std.specs.Io.KnownBytes.{WriteAppends};
ghost use Rattle.alb_io.specs.Causes.{HasCause};

use crate::Failed;

/// A sink failed in a call that writes a whole text.
#[derive(Clone, Copy, Debug, PartialEq, Eq)]
pub struct WriteFault;

/// Bytes that go out.
pub trait Sink {
    /// The bytes that it has taken, where the sink tells them.
    ghost taken: { Self → Option (List ℕ) };

    /// Its name, where it tells one. No call that writes changes it.
    ghost name: { Self → Option (List ℕ) };

    /// How often it failed. It never falls, and it rose where a call failed.
    ghost faults: { Self → ℕ };

    /// Appends the first bytes of the piece, at least one, and answers how many. After a failure
    /// the bytes taken are as before.
    fn put(&mut self, piece: &[u8]) -> Result<usize, Failed>
        requires { 0 < length piece.now }
        ensures bound { IfOk result (λ n. (0 < n) × (n ≤ length piece.now)) }
        ensures bytes { WriteAppends (taken self.old) (taken self.new) result piece.now }
        ensures same_name { name self.new ≡ name self.old }
        ensures cause { HasCause (faults self.old) (faults self.new) result };
}
