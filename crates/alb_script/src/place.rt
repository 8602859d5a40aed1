use crate::form::Form;

/// Where in a script a line stands.
#[derive(Clone, Copy, Debug, PartialEq, Eq)]
pub struct ScriptPlace {
    /// The form of the script.
    pub form: Form,
    /// Whether `build` was accepted before, which is so in each session.
    pub built: bool,
    /// The problem's total degree.
    pub total: u32,
}
