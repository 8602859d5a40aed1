/// The form of a script, which says what its commands are.
#[derive(Clone, Copy, Debug, PartialEq, Eq)]
pub enum Form {
    /// A problem and questions about it.
    Batch,
    /// A problem and claims with their evidence.
    Check,
    /// Questions about a problem that is being built.
    Session,
}
