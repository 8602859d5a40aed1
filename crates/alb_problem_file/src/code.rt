//! The codes of refusals: 0 where memory ran out, which is no refusal.
ghost use Rattle.std.specs.Prelude.{◌≡◌};
ghost use Rattle.alb_script.specs.Refusals.{lex_text, syntax_text, command_text, told_by_identity, told_by_problem, or_nothing, too_long_text};
ghost use Rattle.alb_problem_file.specs.Codes.{code_in};

use alb_lex::LexError;
use alb_linear::IdentityError;
use alb_problem::ProblemError;
use alb_script::CommandError;
use alb_syntax::SyntaxError;

#[tactic(auto, unfolding(crate::specs::Codes::number_from))]
fn lex_code(error: &LexError) -> u32
    ensures { result ≡ code_in (lex_text error.now) }
{
    match error {
        LexError::BadByte { .. } => 10,
        LexError::NumberTooLong { .. } => 11,
        LexError::NoMemory => 0,
    }
}

#[tactic(auto, unfolding(crate::specs::Codes::number_from))]
fn syntax_code(error: &SyntaxError) -> u32
    ensures { result ≡ code_in (syntax_text error.now) }
{
    match error {
        SyntaxError::Expected { .. } => 20,
        SyntaxError::UnknownLetter { .. } => 21,
        SyntaxError::TooDeep { .. } => 22,
        SyntaxError::TooManyTerms { .. } => 23,
        SyntaxError::TooHigh { .. } => 24,
        SyntaxError::NoMemory => 0,
    }
}

// The code of a line that is no command.
#[tactic(auto, unfolding(crate::specs::Codes::number_from))]
pub(crate) fn command_code(error: &CommandError) -> u32
    ensures { result ≡ code_in (command_text error.now) }
{
    match error {
        CommandError::Unknown => 80,
        CommandError::NotYetBuilt => 81,
        CommandError::AlreadyBuilt => 82,
        CommandError::BadArgument { .. } => 83,
        CommandError::Lex(error) => lex_code(error),
        CommandError::Syntax(error) => syntax_code(error),
        CommandError::NoMemory => 0,
    }
}

#[tactic(auto, unfolding(crate::specs::Codes::number_from))]
fn identity_code(error: &IdentityError) -> u32
    ensures { result ≡ code_in (or_nothing (told_by_identity error.now)) }
{
    match error {
        IdentityError::Zero => 30,
        IdentityError::NotHomogeneous { .. } => 31,
        IdentityError::DegreeOne => 32,
        IdentityError::DegreeOver8 => 33,
        IdentityError::TooManyLinear { .. } => 34,
        IdentityError::NoMemory => 0,
    }
}

// The code of what a problem does not take.
#[tactic(auto, unfolding(crate::specs::Codes::number_from))]
pub(crate) fn problem_code(error: &ProblemError) -> u32
    ensures { result ≡ code_in (or_nothing (told_by_problem error.now)) }
{
    match error {
        ProblemError::NotInTable => 1,
        ProblemError::FieldAfterIdentity => 40,
        ProblemError::BadGenerators { .. } => 41,
        ProblemError::TooManyIdentities => 42,
        ProblemError::NoGenerators => 43,
        ProblemError::FieldTooSmall => 44,
        ProblemError::GeneratorsTwice => 45,
        ProblemError::Identity(error) => identity_code(error),
        ProblemError::NoMemory => 0,
    }
}

// The code of a line of more than 65,536 bytes.
#[tactic(auto, unfolding(crate::specs::Codes::number_from))]
pub(crate) fn too_long_code() -> u32
    ensures { result ≡ code_in too_long_text }
{
    84
}
