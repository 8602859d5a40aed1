//! What all jobs left.
ghost use Rattle.std.specs.Prelude.{◌≡◌, ◌≤◌, [], None, Some, length, option_map, vec_capacity};
ghost use Rattle.alb_host.specs.Steps.{sessions_of, built_of, built_pair};

use crate::jobs::Done;
use crate::report::SessionReport;
use alb_board::Pass;
use alb_table::BuildEnd;

/// The builder's pass, and the end of its building.
#[derive(Drop)]
pub struct Built {
    pub pass: Pass,
    pub end: BuildEnd,
}

/// What all jobs left.
#[derive(Drop)]
pub struct Collected<I: Drop, K: Drop> {
    pub built: Option<Built>,
    pub sessions: Vec<SessionReport<I, K>>,
}

/// What all jobs left, the sessions in a list that has room for them.
pub fn collect<I: Drop, K: Drop>(
    done: Vec<Done<I, K>>,
    room: Vec<SessionReport<I, K>>,
) -> Collected<I, K>
    requires empty { room.items ≡ [] }
    requires room { length (sessions_of done.items) ≤ vec_capacity room }
    ensures sessions { result.sessions.items ≡ sessions_of done.items }
    ensures built { option_map built_pair result.built ≡ built_of None done.items }
{
    let mut sessions = room;
    let mut built = None;
    for left in done {
        match left {
            Done::Built(pass, end) => built = Some(Built { pass, end }),
            Done::Served(report) => sessions.push_reserved(report),
        }
    }
    Collected { built, sessions }
}
