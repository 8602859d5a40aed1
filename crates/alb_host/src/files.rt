//! The files of the sessions.
ghost use Rattle.std.specs.Prelude.{◌≡◌, ℕ, List, IfOk, IsErrOf, All, map, ◌≤◌};
ghost use Rattle.alb_io.specs.Causes.{Rose};
ghost use Rattle.alb_io.specs.Files.{IsFile};
ghost use Rattle.alb_io.specs.declared.desk.OpenError.TheVariants as error;
ghost use Rattle.alb_host.specs.Runs.{AreEach};
ghost use Rattle.alb_host.specs.Steps.{IsOpenedAs};
ghost use Rattle.alb_host.specs.Words.{names_view};

use crate::words::Names;
use alb_io::{Desk, OpenError};
use std::alloc::Global;

/// The files of a session, opened.
#[derive(Drop)]
pub struct Opened<I: Drop, K: Drop> {
    /// What it reads.
    pub source: I,
    /// What it writes.
    pub sink: K,
}

// Opens the files of a session.
fn open_session<D: Desk>(
    alloc: Global,
    desk: &mut D,
    names: &Names,
) -> Result<Opened<D::In, D::Out>, OpenError>
where
    D::In: Drop,
    D::Out: Drop,
    ensures opened { IfOk result (IsOpenedAs D.In.Source D.Out.Sink (D.files desk.old) (D.is_sound desk.old) (names_view names.now)) }
    ensures later { D.faults desk.old ≤ D.faults desk.new }
    ensures failed { IsErrOf result error.Failed → Rose (D.faults desk.old) (D.faults desk.new) }
    ensures same_files { D.files desk.new ≡ D.files desk.old }
    ensures stays_sound { D.is_sound desk.old → D.is_sound desk.new }
    ensures opens { D.is_sound desk.old → IsFile (D.files desk.old) names.now.input.now → IsErrOf result error.Failed → ⊥ }
{
    let source = match desk.open(alloc, names.input) {
        Ok(source) => source,
        Err(error) => return Err(error),
    };
    match desk.create(alloc, names.output) {
        Ok(sink) => Ok(Opened { source, sink }),
        Err(error) => Err(error),
    }
}

/// Opens the files of the sessions, in their order.
pub fn open_sessions<D: Desk>(
    alloc: Global,
    desk: &mut D,
    sessions: &[Names],
) -> Result<Vec<Opened<D::In, D::Out>>, OpenError>
where
    D::In: Drop,
    D::Out: Drop,
    ensures opened { IfOk result (λ v. AreEach (IsOpenedAs D.In.Source D.Out.Sink (D.files desk.old) (D.is_sound desk.old)) (map names_view sessions.now) v.items) }
    ensures later { D.faults desk.old ≤ D.faults desk.new }
    ensures failed { IsErrOf result error.Failed → Rose (D.faults desk.old) (D.faults desk.new) }
    ensures same_files { D.files desk.new ≡ D.files desk.old }
    ensures stays_sound { D.is_sound desk.old → D.is_sound desk.new }
    ensures opens { D.is_sound desk.old → All (λ (n : List ℕ × List ℕ). IsFile (D.files desk.old) n.0) (map names_view sessions.now) → IsErrOf result error.Failed → ⊥ }
{
    let mut opened = match Vec::with_capacity(alloc, sessions.len()) {
        Ok(opened) => opened,
        Err(_) => return Err(OpenError::NoMemory),
    };
    for names in sessions {
        match open_session(alloc, desk, names) {
            Ok(files) => opened.push_reserved(files),
            Err(error) => return Err(error),
        }
    }
    Ok(opened)
}
