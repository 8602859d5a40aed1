use alb_io::MemSink;
use alb_script::Refusal;

/// What a session answers to a line.
#[derive(Drop)]
pub enum Response {
    /// Nothing is written.
    Nothing,
    /// The line is refused.
    Refused(Refusal),
    /// The text of what was found for a question.
    Found(MemSink),
    /// The degree that was awaited is there; the table has this degree.
    Ready(u32),
    /// It is not, and the building has ended at this degree.
    Stopped(u32),
    /// There was no memory for the line; this degree was seen last.
    NoMemory(u32),
}
