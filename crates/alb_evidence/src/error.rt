/// Why a block is no evidence. Lines of a block are counted from 1; lines of blanks alone and comments are not counted.
#[derive(Clone, Copy, Debug, PartialEq, Eq)]
pub enum EvidenceError {
    /// The first faulty line has none of the forms that may stand there. Where the input ends before `end`, it is the line
    /// after the last one.
    BadLine { line: u64 },
    /// The first faulty line has a number of more than 18 digits.
    BadNumber { line: u64 },
    /// The source failed.
    ReadFault,
    /// As many bytes as may be taken were taken.
    InputLimit,
    /// There was no memory for the evidence.
    NoMemory,
}

/// Why a block was not read to its end.
#[derive(Clone, Copy, Debug, PartialEq, Eq)]
pub enum SkipError {
    /// The source failed.
    ReadFault,
    /// As many bytes as may be taken were taken.
    InputLimit,
}
