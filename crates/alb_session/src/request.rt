//! What a line of a session asks for.
ghost use Rattle.std.specs.Prelude.{◌≡◌, ◌≤◌, ◌<◌, List, ℕ, true, false, length, IfSome, IfOk, MatchResult, Ok};
ghost use Rattle.alb_script.specs.Asked.{dense, view, Gives, IsCommandOver, IsPlain};
ghost use Rattle.alb_session.specs.Session.{asked_of, is_skipped};
ghost use Rattle.alb_session.specs.View.{AsksFor, IsOfSession, MayBeAsked, refused_as};
ghost use Rattle.alb_table.specs.RightTable.{rules_view, RulesView};

use alb_lex::is_blank;
use alb_mono::Letters;
use alb_poly::Rules;
use alb_question::Question;
use alb_script::{Command, CommandError, Form, read_command};
use std::alloc::Global;

/// What a line of a session asks for.
#[derive(Drop)]
pub enum Request {
    /// Nothing: it is blank or a comment.
    Nothing,
    /// A question to the table.
    Question(Question),
    /// To wait for a degree.
    Await(u32),
    /// The end of the session.
    Quit,
    /// The line is no command.
    Refused(CommandError),
    /// There was no memory to read it; it is not blank and no comment.
    NoMemory,
}

// Where the first byte that is no blank stands.
fn first_dense(line: &[u8]) -> Option<usize>
    ensures value { result ≡ dense line.now }
    ensures bound { IfSome result (λ k. k < length line.now) }
{
    line.iter().position(|b| !is_blank(*b))
}

// Whether a line holds blanks alone, or a comment.
fn asks_nothing(line: &[u8]) -> bool
    ensures { (r : RulesView) → (letters : List ℕ) → is_skipped (asked_of r letters line.now) ≡ result }
{
    match first_dense(line) {
        Some(start) => line[start] == b'#',
        None => true,
    }
}

// What a command asks for.
fn request_of(command: Command) -> Request
    requires { IsOfSession (view command) }
    ensures asks { AsksFor result (Ok (view command)) }
    ensures over { (p : ℕ) → (n : ℕ) → IsCommandOver p n command → MayBeAsked p n result }
{
    match command {
        Command::Polynomial(g) => Request::Question(Question::Polynomial(g)),
        Command::Prove(g) => Request::Question(Question::Prove(g)),
        Command::Dimensions => Request::Question(Question::Dimensions),
        Command::Table => Request::Question(Question::Products),
        Command::Await(k) => Request::Await(k),
        Command::Quit => Request::Quit,
        _ => unreachable!(),
    }
}

// What a line that is no command asks for: its refusal, unless memory ran out.
fn refused(error: CommandError) -> Request
    ensures { result ≡ refused_as error }
{
    match error {
        CommandError::NoMemory => Request::NoMemory,
        error => Request::Refused(error),
    }
}

// The command of a line.
fn read(
    alloc: Global,
    rules: &Rules,
    letters: &Letters,
    line: &[u8],
) -> Result<Command, CommandError>
    requires { length line.now ≤ 65536 }
    ensures exact { Gives view result (asked_of (rules_view rules.now) letters.now line.now) }
    ensures read { IfOk result (λ c. IsCommandOver rules.now.field (length letters.now) c) }
    ensures plain { MatchResult result (λ c. Unit {0}) (λ e. IsPlain e) }
{
    read_command(
        alloc,
        line,
        Form::Session,
        true,
        rules.target.degree(),
        &rules.field,
        letters,
    )
}

/// What a line of at most 65,536 bytes asks for.
pub fn read_request(alloc: Global, rules: &Rules, letters: &Letters, line: &[u8]) -> Request
    requires { length line.now ≤ 65536 }
    ensures asks { AsksFor result (asked_of (rules_view rules.now) letters.now line.now) }
    ensures over { MayBeAsked rules.now.field (length letters.now) result }
{
    if asks_nothing(line) {
        return Request::Nothing;
    }
    match read(alloc, rules, letters, line) {
        Ok(command) => request_of(command),
        Err(error) => refused(error),
    }
}
