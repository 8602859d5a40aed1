//! The commands of the lines of a script.

ghost use Rattle.std.specs.Prelude.{◌≡◌, ◌≤◌, ◌<◌, length, position, IfErr, IfOk, IfSome, MatchResult};
ghost use Rattle.alb_lex.specs.Lexing.{is_blank};
ghost use Rattle.alb_script.specs.Asked.{word_named, word_length, of_form, word_start, word_at, command_word, word_of, asked, view, or_error, Gives, IsCommandOver, IsPlain};

use crate::argument::{Argument, asked_by, dense};
use crate::command::Command;
use crate::error::{BadCommand, CommandError};
use crate::form::Form;
use crate::place::ScriptPlace;
use crate::word::{Word, belongs, is_early, is_late, word_named};
use alb_lex::{is_blank, text_before, text_from};
use alb_mono::Letters;
use gf_field::Field;
use std::alloc::Global;

// Where the first blank stands.
fn first_blank(text: &[u8]) -> Option<usize>
    ensures value { result ≡ position is_blank text.now }
    ensures bound { IfSome result (λ k. k < length text.now) }
{
    text.iter().position(|b| is_blank(*b))
}

// How many bytes stand before the first blank.
fn word_length(text: &[u8]) -> usize
    ensures value { result ≡ word_length text.now }
    ensures bound { result ≤ length text.now }
{
    match first_blank(text) {
        Some(k) => k,
        None => text.len(),
    }
}

// Where the first word begins, unless the line is blank or a comment.
fn word_start(line: &[u8]) -> Option<usize>
    ensures value { result ≡ word_start line.now }
    ensures bound { IfSome result (λ k. k < length line.now) }
{
    let Some(start) = dense(line) else {
        return None;
    };
    if line[start] == b'#' {
        return None;
    }
    Some(start)
}

// The text of the word that begins at a byte.
fn word_at(line: &[u8], start: usize) -> &[u8]
    requires { start ≤ length line.now }
    ensures { result.now ≡ word_at start line.now }
{
    let text = text_from(line, start);
    text_before(text, word_length(text))
}

// The command word that a text is, if it is one of the form.
fn word_in(form: Form, text: &[u8]) -> Option<Word>
    ensures { result ≡ of_form form (word_named text.now) }
{
    let Some(word) = word_named(text) else {
        return None;
    };
    if belongs(form, word) {
        Some(word)
    } else {
        None
    }
}

// The command word of the form that a line begins with.
#[tactic(auto, unfolding(crate::specs::Asked::command_word))]
fn command_word(form: Form, line: &[u8]) -> Option<Word>
    ensures { result ≡ command_word form line.now }
{
    let Some(start) = word_start(line) else {
        return None;
    };
    word_in(form, word_at(line, start))
}

// The word, if there is one and it may stand here.
#[tactic(auto, unfolding(crate::specs::Asked::word_of))]
fn word_of(word: Option<Word>, built: bool) -> Result<Word, CommandError>
    ensures { Gives (λ w. w) result (word_of built word) }
{
    let Some(word) = word else {
        return Err(CommandError::Unknown);
    };
    if built && is_early(word) {
        return Err(CommandError::AlreadyBuilt);
    }
    if !built && is_late(word) {
        return Err(CommandError::NotYetBuilt);
    }
    Ok(word)
}

// What a line asks for that begins with this command word, or its first fault.
#[tactic(auto, unfolding(crate::specs::Asked::asked))]
fn command_of(
    alloc: Global,
    line: &[u8],
    place: ScriptPlace,
    word: Option<Word>,
    field: &Field,
    letters: &Letters,
) -> Result<Command, CommandError>
    requires short { length line.now ≤ 65536 }
    requires begins { word ≡ command_word place.form line.now }
    ensures exact { Gives view result (asked place.form place.built place.total field.now letters.now line.now) }
    ensures read { IfOk result (λ c. IsCommandOver field.now (length letters.now) c) }
{
    let Some(start) = word_start(line) else {
        return Ok(Command::Blank);
    };
    let word = word_of(word, place.built)?;
    let at = start + word_length(text_from(line, start));
    asked_by(
        alloc,
        word,
        place.total,
        field,
        letters,
        &Argument { line, at },
    )
}

/// What a line of a script asks for, or the command word that it begins with and its first fault, as `read_command` names it.
///
/// A line of blanks, a comment, and a line whose first word is none of the form's begin with no command word.
///
/// # Errors
/// Those of `read_command`, in the same order.
pub fn read_line(
    alloc: Global,
    line: &[u8],
    place: ScriptPlace,
    field: &Field,
    letters: &Letters,
) -> Result<Command, BadCommand>
    requires { length line.now ≤ 65536 }
    // The command, or the first fault, is that of the line.
    ensures exact { Gives view (or_error result) (asked place.form place.built place.total field.now letters.now line.now) }
    // A polynomial is over the field and over the letters that the word asks for.
    ensures read { IfOk result (λ c. IsCommandOver field.now (length letters.now) c) }
    // No error says inside another one that memory ran out.
    ensures plain { IfErr result (λ bad. IsPlain bad.error) }
    // The word is the one that the line begins with.
    ensures word { IfErr result (λ bad. bad.word ≡ command_word place.form line.now) }
{
    let word = command_word(place.form, line);
    match command_of(alloc, line, place, word, field, letters) {
        Ok(command) => Ok(command),
        Err(error) => Err(BadCommand { word, error }),
    }
}

/// What a line of a script asks for, or its first fault.
///
/// The first run of bytes that are not blanks is the command word, and the rest of the line is its argument. Blanks are
/// the space, the tab and the carriage return. A line of blanks, and one whose first byte that is no blank is `#`, asks for
/// nothing. `built` says whether `build` was accepted before, which is so in each session, and `total` is the problem's total
/// degree. Identities are over the letters a to z, other polynomials over the generators' letters. Places count the
/// bytes of the line from 1, and the end place is its length plus 1.
///
/// # Errors
/// In this order: `Unknown` where the word is none of the form's; `NotYetBuilt` where it asks for `build` before it, and
/// `AlreadyBuilt` where it stands before `build` alone; `BadArgument` at the first byte of an argument of `build`,
/// `dimensions`, `table` or `quit`, and at the first byte, or the end place, of what is not the one number of 1 to 18
/// digits that `field` and `await` ask for, for `await` also where it is 0 or above the total degree; `Lex` at the
/// leftmost fault of the tokens; `Syntax` at the first fault of the polynomial; `NoMemory`.
pub fn read_command(
    alloc: Global,
    line: &[u8],
    form: Form,
    built: bool,
    total: u32,
    field: &Field,
    letters: &Letters,
) -> Result<Command, CommandError>
    requires { length line.now ≤ 65536 }
    // The command, or the first fault, is that of the line.
    ensures exact { Gives view result (asked form built total field.now letters.now line.now) }
    // A polynomial is over the field and over the letters that the word asks for.
    ensures read { IfOk result (λ c. IsCommandOver field.now (length letters.now) c) }
    // No error says inside another one that memory ran out.
    ensures plain { MatchResult result (λ c. Unit {0}) (λ e. IsPlain e) }
{
    let place = ScriptPlace { form, built, total };
    match read_line(alloc, line, place, field, letters) {
        Ok(command) => Ok(command),
        Err(bad) => Err(bad.error),
    }
}
