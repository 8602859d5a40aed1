/// How a session ended.
#[derive(Clone, Copy, Debug, PartialEq, Eq)]
pub enum SessionEnd {
    /// Its input was read to the end, or to `quit`.
    Ended,
    /// The source failed.
    ReadFault,
    /// The sink failed.
    WriteFault,
    /// As many bytes were taken as may be, no whole line is held and the end was not seen.
    InputLimit,
}
