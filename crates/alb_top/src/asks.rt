//! What a line asks for.
ghost use Rattle.std.specs.Prelude.{◌≡◌, Some};
ghost use Rattle.alb_script.specs.Asked.{view};
ghost use Rattle.alb_question.specs.Views as questions;
ghost use Rattle.alb_top.specs.Script.{is_claim, question_in};
ghost use Rattle.alb_top.specs.View.{asks_of, refused_as, IsQuestion};

use alb_mono::NoMemory;
use alb_poly::Poly;
use alb_question::Question;
use alb_script::{BadCommand, Command, CommandError, Word};

/// What a line asks for.
pub enum Asks {
    /// A command other than a claim.
    Command(Command),
    /// A claim, whose block follows.
    Claim(Poly),
    /// Nothing: the line is no command that may stand here.
    Refusal(CommandError),
    /// The same of a line that begins with `claim`, whose block follows.
    RefusedClaim(CommandError),
}

/// What a command asks for.
pub fn asks_of(command: Command) -> Asks
    ensures { result ≡ asks_of command }
{
    match command {
        Command::Claim(claim) => Asks::Claim(claim),
        command => Asks::Command(command),
    }
}

// Whether the word is `claim`.
fn is_claim(word: Option<Word>) -> bool
    ensures { result ≡ is_claim word }
{
    matches!(word, Some(Word::Claim))
}

/// What a line that is no command asks for: its refusal, and with the word `claim` that its block is skipped before.
pub fn refused(bad: BadCommand) -> Result<Asks, NoMemory>
    ensures { result ≡ refused_as (is_claim bad.word) bad.error }
{
    let claims = is_claim(bad.word);
    match bad.error {
        CommandError::NoMemory => Err(NoMemory),
        error if claims => Ok(Asks::RefusedClaim(error)),
        error => Ok(Asks::Refusal(error)),
    }
}

/// The question that a command asks.
pub fn question_in(command: Command) -> Question
    requires { IsQuestion (view command) }
    ensures { question_in (view command) ≡ Some (questions.question_of result) }
{
    match command {
        Command::Polynomial(g) => Question::Polynomial(g),
        Command::Prove(g) => Question::Prove(g),
        Command::Dimensions => Question::Dimensions,
        Command::Table => Question::Products,
        _ => unreachable!(),
    }
}
