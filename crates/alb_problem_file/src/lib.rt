//! The problem file of a build that sessions share: its lines are those of a batch, up to `build`, `quit` or the end of the file.
#![tactic(auto)]

mod code;
mod line;
mod read;
mod stop;

pub use read::read_problem;
pub use stop::ProblemStop;
