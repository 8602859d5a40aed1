mod desk;
mod sink;
mod source;

pub use desk::{MemDesk, MemFile};
pub use sink::MemSink;
pub use source::MemSource;
