use crate::response::Response;

/// What came of a turn: the response to a line, or why there is none.
#[derive(Drop)]
pub enum Taken {
    /// A line and its response.
    Response(Response),
    /// The line ends the session.
    Quit,
    /// The lines ended.
    End,
    ReadFault,
    InputLimit,
}
