//! The top call of the program `albert_host`: a table that is built by workers while sessions ask questions about it.
#![tactic(auto)]

mod collect;
mod files;
mod jobs;
mod report;
mod run;
mod sessions;
mod start;
mod status;
mod words;

pub use report::{HostReport, SessionReport, write_report};
pub use run::run_host;
pub use words::{HostWords, Names, read_host_words};
