use thiserror::Error;

/// The first faulty line of a derivation, counted from 1, by its first fault; or that it derives another polynomial.
#[derive(Clone, Copy, Debug, PartialEq, Eq, Error)]
pub enum DerivError {
    /// An instance names an identity that there is not.
    #[error("line {line}: no such identity")]
    BadIdentity { line: u64 },
    /// An instance has another number of monomials than the identity's degree.
    #[error("line {line}: not as many monomials as the identity's degree")]
    WrongCount { line: u64 },
    /// A line names line 0, itself or a later one.
    #[error("line {line}: no such earlier line")]
    LaterLine { line: u64 },
    /// A line's polynomial has a type that is not at most the target.
    #[error("line {line}: a type passes the target")]
    OutOfType { line: u64 },
    /// The last line's polynomial is not the claimed one.
    #[error("the last line is not the claim")]
    NotTheClaim,
    #[error("no memory")]
    NoMemory,
}
