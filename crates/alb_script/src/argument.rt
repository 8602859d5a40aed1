//! What stands in a line after its command word.

ghost use Rattle.std.specs.Prelude.{◌≡◌, ◌≤◌, ◌<◌, length, IfOk, IfSome};
ghost use Rattle.alb_mono.specs.Tree.{alphabet};
ghost use Rattle.alb_script.specs.Asked.{dense, place_at, tokens_at, poly_at, number_argument, degree_at, alone, asked_by, view, Gives, IsPolyOver, IsCommandOver};

use crate::command::Command;
use crate::error::{CommandError, of_lex, of_syntax};
use crate::word::Word;
use alb_lex::{LexError, Token, TokenKind, is_blank, text_from, tokens};
use alb_mono::Letters;
use alb_poly::Poly;
use alb_syntax::read_poly;
use gf_field::Field;
use std::alloc::Global;

/// The argument of a command: what stands in its line from a byte on.
#[derive(Clone, Copy)]
pub struct Argument<'a> {
    pub line: &'a [u8],
    pub at: usize,
}

/// Where the first byte that is no blank stands.
pub fn dense(text: &[u8]) -> Option<usize>
    ensures value { result ≡ dense text.now }
    ensures bound { IfSome result (λ k. k < length text.now) }
{
    text.iter().position(|b| !is_blank(*b))
}

// The place of the first byte of the argument, or the end place.
fn argument_place(argument: &Argument) -> u32
    requires within { argument.now.at ≤ length argument.now.line.now }
    requires short { length argument.now.line.now ≤ 65536 }
    ensures { result ≡ place_at argument.now.at argument.now.line.now }
{
    match dense(text_from(argument.line, argument.at)) {
        Some(k) => (argument.at + k + 1) as u32,
        None => argument.line.len() as u32 + 1,
    }
}

// The tokens from a byte on.
fn tokens_at(alloc: Global, argument: &Argument) -> Result<Vec<Token>, CommandError>
    requires within { argument.now.at ≤ length argument.now.line.now }
    requires short { length argument.now.line.now ≤ 65536 }
    ensures { Gives (λ v. v.items) result (tokens_at argument.now.at argument.now.line.now) }
{
    match tokens(alloc, argument.line, argument.at) {
        Ok(list) => Ok(list),
        Err(error) => Err(of_lex(error)),
    }
}

// The polynomial from a byte on.
#[tactic(auto, unfolding(crate::specs::Asked::poly_at))]
fn poly_at(
    alloc: Global,
    field: &Field,
    letters: &Letters,
    argument: &Argument,
) -> Result<Poly, CommandError>
    requires within { argument.now.at ≤ length argument.now.line.now }
    requires short { length argument.now.line.now ≤ 65536 }
    ensures value { Gives (λ f. f) result (poly_at field.now letters.now argument.now.at argument.now.line.now) }
    ensures read { IfOk result (λ f. IsPolyOver field.now (length letters.now) f) }
{
    let list = tokens_at(alloc, argument)?;
    match read_poly(alloc, &list, argument.line.len() as u32 + 1, letters, field) {
        Ok(f) => Ok(f),
        Err(error) => Err(of_syntax(error)),
    }
}

// The one number that stands from a byte on.
#[tactic(auto, unfolding(crate::specs::Asked::number_argument))]
fn number_at(alloc: Global, argument: &Argument) -> Result<u64, CommandError>
    requires within { argument.now.at ≤ length argument.now.line.now }
    requires short { length argument.now.line.now ≤ 65536 }
    ensures { Gives (λ n. n) result (number_argument argument.now.at argument.now.line.now) }
{
    let bad = CommandError::BadArgument {
        place: argument_place(argument),
    };
    match tokens(alloc, argument.line, argument.at) {
        Ok(list) => match list.as_slice() {
            [token] => match token.kind {
                TokenKind::Number(n) => Ok(n),
                _ => Err(bad),
            },
            _ => Err(bad),
        },
        Err(LexError::NoMemory) => Err(CommandError::NoMemory),
        Err(_) => Err(bad),
    }
}

// The degree that stands from a byte on, which is 1 to the total degree.
#[tactic(auto, unfolding(crate::specs::Asked::degree_at))]
fn degree_at(alloc: Global, total: u32, argument: &Argument) -> Result<u32, CommandError>
    requires within { argument.now.at ≤ length argument.now.line.now }
    requires short { length argument.now.line.now ≤ 65536 }
    ensures { Gives (λ n. n) result (degree_at total argument.now.at argument.now.line.now) }
{
    let n = number_at(alloc, argument)?;
    if 1 <= n && n <= u64::from(total) {
        Ok(n as u32)
    } else {
        Err(CommandError::BadArgument {
            place: argument_place(argument),
        })
    }
}

// The command, where no argument stands from a byte on.
fn alone(command: Command, argument: &Argument) -> Result<Command, CommandError>
    requires within { argument.now.at ≤ length argument.now.line.now }
    requires short { length argument.now.line.now ≤ 65536 }
    ensures value { Gives view result (alone (view command) argument.now.at argument.now.line.now) }
    ensures same { IfOk result (λ c. c ≡ command) }
{
    match dense(text_from(argument.line, argument.at)) {
        None => Ok(command),
        Some(k) => Err(CommandError::BadArgument {
            place: (argument.at + k + 1) as u32,
        }),
    }
}

// The identity from a byte on, over the letters a to z.
#[tactic(auto, unfolding(alb_mono::specs::Tree::alphabet))]
fn identity_at(alloc: Global, field: &Field, argument: &Argument) -> Result<Poly, CommandError>
    requires within { argument.now.at ≤ length argument.now.line.now }
    requires short { length argument.now.line.now ≤ 65536 }
    ensures value { Gives (λ f. f) result (poly_at field.now alphabet argument.now.at argument.now.line.now) }
    ensures read { IfOk result (λ f. IsPolyOver field.now 26 f) }
{
    poly_at(alloc, field, &Letters::all(), argument)
}

/// What a word asks for with the argument after it.
#[tactic(auto, unfolding(crate::specs::Asked::asked_by))]
pub fn asked_by(
    alloc: Global,
    word: Word,
    total: u32,
    field: &Field,
    letters: &Letters,
    argument: &Argument,
) -> Result<Command, CommandError>
    requires within { argument.now.at ≤ length argument.now.line.now }
    requires short { length argument.now.line.now ≤ 65536 }
    ensures value { Gives view result (asked_by total field.now letters.now word argument.now.at argument.now.line.now) }
    ensures read { IfOk result (λ c. IsCommandOver field.now (length letters.now) c) }
{
    match word {
        Word::Field => Ok(Command::Field(number_at(alloc, argument)?)),
        Word::Generators => {
            let list = tokens_at(alloc, argument)?;
            Ok(Command::Generators(list, argument.line.len() as u32 + 1))
        }
        Word::Identity => Ok(Command::Identity(identity_at(alloc, field, argument)?)),
        Word::Build => alone(Command::Build, argument),
        Word::Polynomial => Ok(Command::Polynomial(poly_at(alloc, field, letters, argument)?)),
        Word::Prove => Ok(Command::Prove(poly_at(alloc, field, letters, argument)?)),
        Word::Dimensions => alone(Command::Dimensions, argument),
        Word::Table => alone(Command::Table, argument),
        Word::Claim => Ok(Command::Claim(poly_at(alloc, field, letters, argument)?)),
        Word::Await => Ok(Command::Await(degree_at(alloc, total, argument)?)),
        Word::Quit => alone(Command::Quit, argument),
    }
}
