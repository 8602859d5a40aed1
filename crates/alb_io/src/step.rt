/// What a call of `next_line` answers.
#[derive(Clone, Copy, Debug, PartialEq, Eq)]
pub enum LineStep {
    /// There is a line of at most 65,536 bytes, which `line` gives.
    Line,
    /// The source ended and nothing is held.
    End,
    /// There was a longer line. It was skipped to its end.
    TooLong,
    /// The source failed.
    ReadFault,
    /// As many bytes as may be were taken, no whole line is held, and the end was not seen.
    InputLimit,
}
