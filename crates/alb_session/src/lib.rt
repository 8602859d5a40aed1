//! A session: questions about a problem whose table is being built, line after line, each answered by a shot of the board.
#![tactic(auto)]

mod answer;
mod end;
mod request;
mod response;
mod run;
mod taken;
mod turn;
mod waiting;
mod write;

pub use end::SessionEnd;
pub use run::serve;
