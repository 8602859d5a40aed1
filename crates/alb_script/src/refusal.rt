ghost use Rattle.std.specs.Prelude.{◌≡◌, IsTrue, codes, decimal, false};
ghost use Rattle.alb_io.specs.Writes.{Writes};
ghost use Rattle.alb_mono.specs.Tree.{tree, are_below, alphabet};
ghost use Rattle.alb_print.specs.Text.{mono_text};
ghost use Rattle.alb_script.specs.Refusals.{line_with, lex_text, syntax_text, command_text, told_by_identity, told_by_problem, or_nothing, refusal_text, is_lex_memory, is_syntax_memory, is_command_memory, is_identity_memory, is_problem_memory, is_memory, IsOverAlphabet, IsProblemOverAlphabet, IsIdentityOverAlphabet};

use crate::error::CommandError;
use alb_io::{Sink, WriteFault, put_all};
use alb_lex::LexError;
use alb_linear::IdentityError;
use alb_mono::{Letters, Mono};
use alb_print::{write_count, write_mono};
use alb_problem::ProblemError;
use alb_syntax::SyntaxError;

/// Why a line is refused.
#[derive(Drop)]
pub enum Refusal {
    /// The line has more than 65,536 bytes.
    TooLong,
    /// It is no command that may stand here.
    Command(CommandError),
    /// The problem does not take it.
    Problem(ProblemError),
}

/// Writes a line of a text and a number that is not negative, in decimal.
pub fn write_numbered<K: Sink>(sink: &mut K, front: &[u8], number: u64) -> Result<(), WriteFault>
    ensures { Writes K.Sink sink.old sink.new (line_with front.now (decimal number)) result }
{
    put_all(sink, front)?;
    write_count(sink, number)?;
    put_all(sink, b"\n")
}

// Writes the line that names a term.
fn write_term<K: Sink>(sink: &mut K, term: &Mono) -> Result<(), WriteFault>
    requires { IsTrue (are_below 26 (tree term.now)) }
    ensures { Writes K.Sink sink.old sink.new (line_with (codes "refused 31: ") (mono_text alphabet false (tree term.now))) result }
{
    put_all(sink, b"refused 31: ")?;
    write_over_alphabet(sink, term)?;
    put_all(sink, b"\n")
}

// Writes a monomial over the letters a to z.
#[tactic(auto, unfolding(alb_mono::specs::Tree::alphabet))]
fn write_over_alphabet<K: Sink>(sink: &mut K, term: &Mono) -> Result<(), WriteFault>
    requires { IsTrue (are_below 26 (tree term.now)) }
    ensures { Writes K.Sink sink.old sink.new (mono_text alphabet false (tree term.now)) result }
{
    write_mono(sink, &Letters::all(), term)
}

fn write_lex<K: Sink>(sink: &mut K, error: &LexError) -> Result<(), WriteFault>
    requires { is_lex_memory error.now ≡ false }
    ensures { Writes K.Sink sink.old sink.new (lex_text error.now) result }
{
    match error {
        LexError::BadByte { place } => {
            write_numbered(sink, b"refused 10 at ", u64::from(*place))
        }
        LexError::NumberTooLong { place } => {
            write_numbered(sink, b"refused 11 at ", u64::from(*place))
        }
        LexError::NoMemory => unreachable!(),
    }
}

fn write_syntax<K: Sink>(sink: &mut K, error: &SyntaxError) -> Result<(), WriteFault>
    requires { is_syntax_memory error.now ≡ false }
    ensures { Writes K.Sink sink.old sink.new (syntax_text error.now) result }
{
    match error {
        SyntaxError::Expected { place } => {
            write_numbered(sink, b"refused 20 at ", u64::from(*place))
        }
        SyntaxError::UnknownLetter { place } => {
            write_numbered(sink, b"refused 21 at ", u64::from(*place))
        }
        SyntaxError::TooDeep { place } => {
            write_numbered(sink, b"refused 22 at ", u64::from(*place))
        }
        SyntaxError::TooManyTerms { place } => {
            write_numbered(sink, b"refused 23 at ", u64::from(*place))
        }
        SyntaxError::TooHigh { place } => {
            write_numbered(sink, b"refused 24 at ", u64::from(*place))
        }
        SyntaxError::NoMemory => unreachable!(),
    }
}

fn write_command<K: Sink>(sink: &mut K, error: &CommandError) -> Result<(), WriteFault>
    requires { is_command_memory error.now ≡ false }
    ensures { Writes K.Sink sink.old sink.new (command_text error.now) result }
{
    match error {
        CommandError::Unknown => put_all(sink, b"refused 80\n"),
        CommandError::NotYetBuilt => put_all(sink, b"refused 81\n"),
        CommandError::AlreadyBuilt => put_all(sink, b"refused 82\n"),
        CommandError::BadArgument { place } => {
            write_numbered(sink, b"refused 83 at ", u64::from(*place))
        }
        CommandError::Lex(error) => write_lex(sink, error),
        CommandError::Syntax(error) => write_syntax(sink, error),
        CommandError::NoMemory => unreachable!(),
    }
}

fn write_identity<K: Sink>(sink: &mut K, error: &IdentityError) -> Result<(), WriteFault>
    requires memory { is_identity_memory error.now ≡ false }
    requires known { IsIdentityOverAlphabet error.now }
    ensures { Writes K.Sink sink.old sink.new (or_nothing (told_by_identity error.now)) result }
{
    match error {
        IdentityError::Zero => put_all(sink, b"refused 30\n"),
        IdentityError::NotHomogeneous { term } => write_term(sink, term),
        IdentityError::DegreeOne => put_all(sink, b"refused 32\n"),
        IdentityError::DegreeOver8 => put_all(sink, b"refused 33\n"),
        IdentityError::TooManyLinear { count } => { write_numbered(sink, b"refused 34: ", *count) }
        IdentityError::NoMemory => unreachable!(),
    }
}

fn write_problem<K: Sink>(sink: &mut K, error: &ProblemError) -> Result<(), WriteFault>
    requires memory { is_problem_memory error.now ≡ false }
    requires known { IsProblemOverAlphabet error.now }
    ensures { Writes K.Sink sink.old sink.new (or_nothing (told_by_problem error.now)) result }
{
    match error {
        ProblemError::NotInTable => put_all(sink, b"refused 1\n"),
        ProblemError::FieldAfterIdentity => put_all(sink, b"refused 40\n"),
        ProblemError::GeneratorsTwice => put_all(sink, b"refused 45\n"),
        ProblemError::BadGenerators { place } => {
            write_numbered(sink, b"refused 41 at ", u64::from(*place))
        }
        ProblemError::TooManyIdentities => put_all(sink, b"refused 42\n"),
        ProblemError::Identity(error) => write_identity(sink, error),
        ProblemError::NoGenerators => put_all(sink, b"refused 43\n"),
        ProblemError::FieldTooSmall => put_all(sink, b"refused 44\n"),
        ProblemError::NoMemory => unreachable!(),
    }
}

/// Writes the line that refuses a line: `refused C`, with ` at P` where the refusal has a place. A polynomial whose terms
/// differ in type is refused by `refused 31: ` and the first such term over a to z, and one whose linearization is too long by
/// `refused 34: ` and its number of terms. The refusal does not say that memory ran out, and its term is over a to z. `letters` are the
/// generators' letters, by which no refusal of today prints.
pub fn write_refusal<K: Sink>(
    sink: &mut K,
    _letters: &Letters,
    refusal: &Refusal,
) -> Result<(), WriteFault>
    requires memory { is_memory refusal.now ≡ false }
    requires known { IsOverAlphabet refusal.now }
    ensures { Writes K.Sink sink.old sink.new (refusal_text refusal.now) result }
{
    match refusal {
        Refusal::TooLong => put_all(sink, b"refused 84\n"),
        Refusal::Command(error) => write_command(sink, error),
        Refusal::Problem(error) => write_problem(sink, error),
    }
}
