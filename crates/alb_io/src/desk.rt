ghost use Rattle.std.specs.Prelude.{◌≡◌, ◌≢◌, [], ◌∷◌, List, ℕ, Option, Some, IfOk, IfSome, IsErrOf, IsSome};
ghost use Rattle.alb_io.specs.Files.{Files, HasFile, IsFile, OpenCause};
ghost use Rattle.alb_io.specs.declared.desk.OpenError.TheVariants as error;

use crate::{Sink, Source};
use std::alloc::Global;
use std::marker::Send;

/// Why a file was not opened or created.
#[derive(Clone, Copy, Debug, PartialEq, Eq)]
pub enum OpenError {
    /// The desk failed, and its count of faults rose.
    Failed,
    /// There was no memory, and the desk is as it was.
    NoMemory,
}

/// Where files are opened and created by their names.
pub trait Desk {
    /// What `open` gives.
    type In: Source + Send;

    /// What `create` gives.
    type Out: Sink + Send;

    /// Its files, a map from names to bytes, where the desk tells them. No call changes what it
    /// tells.
    ghost files: { Self → Option Files };

    /// How often it failed. It never falls, and it rose where a call failed.
    ghost faults: { Self → ℕ };

    /// It never fails from here on, unless a file is opened that is not among its files.
    ghost is_sound: { Self → Type 0 };

    /// A source of the file's bytes, with no fault so far.
    fn open(&mut self, alloc: Global, name: &str) -> Result<Self::In, OpenError>
        ensures cause { OpenCause (faults self.old) (faults self.new) result }
        ensures same_files { files self.new ≡ files self.old }
        ensures fresh { IfOk result (λ source. Self.In.faults source ≡ 0) }
        ensures content { IfOk result (λ source. HasFile (files self.old) name.now (Self.In.left source)) }
        ensures no_memory { IsErrOf result error.NoMemory → self.new ≡ self.old }
        ensures stays_sound { is_sound self.old → is_sound self.new × IfOk result (λ source. Self.In.is_sound source) }
        ensures opens { is_sound self.old → IsFile (files self.old) name.now → IsErrOf result error.Failed → ⊥ };

    /// A sink of that name that has taken nothing, with no fault so far.
    fn create(&mut self, alloc: Global, name: &str) -> Result<Self::Out, OpenError>
        ensures cause { OpenCause (faults self.old) (faults self.new) result }
        ensures same_files { files self.new ≡ files self.old }
        ensures fresh { IfOk result (λ sink. Self.Out.faults sink ≡ 0) }
        ensures empty { IsSome (files self.old) → IfOk result (λ sink. (Self.Out.taken sink ≡ Some []) × (Self.Out.name sink ≡ Some name.now)) }
        ensures no_memory { IsErrOf result error.NoMemory → self.new ≡ self.old }
        ensures stays_sound { is_sound self.old → is_sound self.new × (IsErrOf result error.Failed → ⊥) };
}
