//! Why a line is no command.

ghost use Rattle.std.specs.Prelude.{◌≡◌};
ghost use Rattle.alb_script.specs.Asked.{of_lex, of_syntax};

use crate::word::Word;
use alb_lex::LexError;
use alb_syntax::SyntaxError;
use thiserror::Error;

/// Why a line is no command that may stand where it stands. Places count the bytes of the line from 1.
#[derive(Clone, Copy, Debug, PartialEq, Eq, Error)]
pub enum CommandError {
    /// The first word is no command of this form.
    #[error("unknown command")]
    Unknown,
    /// The command asks for `build` before it.
    #[error("the problem is not yet built")]
    NotYetBuilt,
    /// The command stands before `build` alone.
    #[error("the problem is already built")]
    AlreadyBuilt,
    /// The argument at this place is not what the command asks for.
    #[error("bad argument at byte {place}")]
    BadArgument { place: u32 },
    /// The argument cannot be cut into tokens. It never says that memory ran out.
    #[error("bad token: {0}")]
    Lex(LexError),
    /// The argument is no polynomial. It never says that memory ran out.
    #[error("bad polynomial: {0}")]
    Syntax(SyntaxError),
    /// There was no memory.
    #[error("out of memory")]
    NoMemory,
}

/// A line that is no command: the command word of the form that it begins with, and its first fault.
#[derive(Clone, Copy, Debug, PartialEq, Eq)]
pub struct BadCommand {
    pub word: Option<Word>,
    pub error: CommandError,
}

/// The error of a line that has no tokens.
pub fn of_lex(error: LexError) -> CommandError
    ensures { result ≡ of_lex error }
{
    match error {
        LexError::NoMemory => CommandError::NoMemory,
        other => CommandError::Lex(other),
    }
}

/// The error of an argument that is no polynomial.
pub fn of_syntax(error: SyntaxError) -> CommandError
    ensures { result ≡ of_syntax error }
{
    match error {
        SyntaxError::NoMemory => CommandError::NoMemory,
        other => CommandError::Syntax(other),
    }
}
