//! The outside as the programs see it: sources, sinks and desks, and the lines of a source.
#![tactic(auto)]

mod adapters;
mod desk;
mod feeder;
pub mod laws;
mod lines;
mod memory;
mod put;
mod sink;
mod source;
mod status;
mod step;

pub use adapters::{FileDesk, StdSink, StdSource};
pub use alb_mono::NoMemory;
pub use desk::{Desk, OpenError};
pub use lines::LineReader;
pub use memory::{MemDesk, MemFile, MemSink, MemSource};
pub use put::put_all;
pub use sink::{Sink, WriteFault};
pub use source::{Failed, Source};
pub use status::Status;
pub use step::LineStep;
