/// A block of the degree after the published one.
#[derive(Clone, Copy, PartialEq, Eq, Debug)]
pub enum Cell {
    /// Nobody has taken it.
    Free,
    /// This worker has taken it.
    Taken(u32),
    /// The worker who took it gave it back, reduced.
    Done,
}

/// Whether the build has ended.
#[derive(Clone, Copy, PartialEq, Eq, Debug)]
pub enum Ended {
    /// It goes on.
    Running,
    /// It ended at the total degree.
    Complete,
    /// It ended below the total degree.
    Stopped,
}

/// What a worker, the builder or a session does in one step.
#[derive(Clone, Copy, PartialEq, Eq, Debug)]
pub enum Event {
    /// A worker takes a block.
    Take {
        /// The number of the worker.
        worker: u32,
        /// The number of the block, from 0.
        block: u32,
    },
    /// A worker gives back a block, which is then done.
    Give {
        /// The number of the worker.
        worker: u32,
        /// The number of the block, from 0.
        block: u32,
    },
    /// The builder publishes the next degree.
    Publish,
    /// The builder keeps an end.
    End(Ended),
    /// A session asks for the published degree and the end.
    Ask {
        /// The number of the session.
        session: u32,
    },
}

/// What an event is answered by.
#[derive(Clone, Copy, PartialEq, Eq, Debug)]
pub enum Reply {
    /// Nothing: the event was no question.
    Nothing,
    /// What a session is shown.
    Seen {
        /// The published degree.
        degree: u32,
        /// The end, or that there is none.
        ended: Ended,
    },
}
