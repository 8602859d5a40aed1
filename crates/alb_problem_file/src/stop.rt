/// Why a file gives no problem.
#[derive(Clone, Copy, Debug, PartialEq, Eq)]
pub enum ProblemStop {
    /// This line, counted from 1, is the first that is refused, by this code. Where the problem itself is refused, it is the line
    /// that ends it, or the one after the last line.
    Refused { line: u64, code: u32 },
    /// The source failed.
    ReadFault,
    /// The source has more bytes than are read.
    InputLimit,
    /// There was no memory.
    NoMemory,
}
