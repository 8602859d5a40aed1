ghost use Rattle.std.specs.Prelude.{◌≡◌};

/// How a run of a program ended.
#[derive(Clone, Copy, Debug, PartialEq, Eq)]
pub enum Status {
    /// The input was read to its end and every line was accepted.
    Done,
    /// The input was read to its end and some line was refused, or some evidence rejected.
    Refused,
    /// The input failed.
    ReadFault,
    /// The output failed.
    WriteFault,
    /// There was no memory.
    NoMemory,
    /// The words of the command line are none that the program knows.
    Usage,
    /// A file could not be opened or created.
    OpenFault,
    /// An input had more bytes than are read.
    InputLimit,
    /// The report could not be written.
    ReportFault,
}

impl Status {
    ghost use Rattle.alb_io.specs.Status.{code_of};

    /// The exit status of the process: 0 for `Done`, and from there on in the order above.
    pub fn code(self) -> u8
        ensures { result ≡ code_of self }
    {
        match self {
            Status::Done => 0,
            Status::Refused => 1,
            Status::ReadFault => 2,
            Status::WriteFault => 3,
            Status::NoMemory => 4,
            Status::Usage => 5,
            Status::OpenFault => 6,
            Status::InputLimit => 7,
            Status::ReportFault => 8,
        }
    }
}
