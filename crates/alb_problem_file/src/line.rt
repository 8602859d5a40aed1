//! What a line of a problem file does to the problem.
ghost use Rattle.std.specs.Prelude.{◌≡◌, ◌≢◌, ◌≤◌, false, length};
ghost use Rattle.alb_io.specs.Causes.{Rose};
ghost use Rattle.alb_lex.specs.declared.token.Token.{Token};
ghost use Rattle.alb_script.specs.Asked as asking;
ghost use Rattle.alb_script.specs.Asked.{view, IsCommandOver, IsPolyOver};
ghost use Rattle.alb_problem_file.specs.File.{obeyed, says};
ghost use Rattle.alb_problem_file.specs.Steps.{of_problem, of_command, IsSaid, Takes};

use crate::code::{command_code, problem_code, too_long_code};
use alb_io::{LineReader, LineStep, Source};
use alb_lex::Token;
use alb_mono::Letters;
use alb_poly::Poly;
use alb_problem::{ProblemBuilder, ProblemError};
use alb_script::{Command, CommandError, Form, read_command};
use std::alloc::Global;

/// What a line says of a problem: it goes on; it ends; the line is refused, by this code; or memory ran out.
pub enum Said {
    GoesOn,
    Ends,
    Refused(u32),
    NoMemory,
}

/// What a call took: a line, and what it says; or why there is none.
pub enum Taken {
    Line(Said),
    End,
    ReadFault,
    InputLimit,
}

// What is said by an error of the problem.
fn refused(error: ProblemError) -> Said
    ensures { result ≡ of_problem error }
{
    match error {
        ProblemError::NoMemory => Said::NoMemory,
        error => Said::Refused(problem_code(&error)),
    }
}

// What is said by a line that is no command.
fn no_command(error: CommandError) -> Said
    ensures { result ≡ of_command error }
{
    match error {
        CommandError::NoMemory => Said::NoMemory,
        error => Said::Refused(command_code(&error)),
    }
}

fn name_field(builder: &mut ProblemBuilder, p: u64) -> Said
    ensures { IsSaid result (obeyed builder.old (asking.Field p)) builder.new }
{
    match builder.set_field(p) {
        Ok(()) => Said::GoesOn,
        Err(error) => refused(error),
    }
}

fn name_generators(builder: &mut ProblemBuilder, tokens: &[Token], end: u32) -> Said
    ensures { IsSaid result (obeyed builder.old (asking.Generators tokens.now end)) builder.new }
{
    match builder.set_generators(tokens, end) {
        Ok(()) => Said::GoesOn,
        Err(error) => refused(error),
    }
}

fn add_identity(builder: &mut ProblemBuilder, f: Poly) -> Said
    requires { IsPolyOver builder.old.field 26 f }
    ensures { IsSaid result (obeyed builder.old (asking.Identity f)) builder.new }
{
    match builder.add_identity(f) {
        Ok(_) => Said::GoesOn,
        Err(error) => refused(error),
    }
}

// What a command says of the problem.
fn obey(builder: &mut ProblemBuilder, command: Command) -> Said
    requires read { IsCommandOver builder.old.field 0 command }
    ensures { IsSaid result (obeyed builder.old (view command)) builder.new }
{
    match command {
        Command::Blank => Said::GoesOn,
        Command::Field(p) => name_field(builder, p),
        Command::Generators(tokens, end) => name_generators(builder, &tokens, end),
        Command::Identity(f) => add_identity(builder, f),
        _ => Said::Ends,
    }
}

// What a line of at most 65,536 bytes says of the problem.
fn say(alloc: Global, builder: &mut ProblemBuilder, line: &[u8]) -> Said
    requires short { length line.now ≤ 65536 }
    ensures { IsSaid result (says builder.old line.now) builder.new }
{
    let unnamed = Letters::of(&[]);
    match read_command(
        alloc,
        line,
        Form::Batch,
        false,
        0,
        builder.field(),
        &unnamed,
    ) {
        Ok(command) => obey(builder, command),
        Err(error) => no_command(error),
    }
}

/// Reads a line, and does to the problem what it says.
pub fn take_line<S: Source>(
    alloc: Global,
    builder: &mut ProblemBuilder,
    reader: &mut LineReader,
    source: &mut S,
) -> Taken
    requires running { reader.old.ended ≡ false }
    ensures takes { Takes result reader.old reader.new (S.left source.old) (S.left source.new) builder.old builder.new }
    ensures later { S.faults source.old ≤ S.faults source.new }
    ensures fault { result ≡ Taken.ReadFault → Rose (S.faults source.old) (S.faults source.new) }
    ensures sound { S.is_sound source.old → S.is_sound source.new × (result ≢ Taken.ReadFault) }
{
    match reader.next_line(source) {
        LineStep::Line => Taken::Line(say(alloc, builder, reader.line())),
        LineStep::TooLong => Taken::Line(Said::Refused(too_long_code())),
        LineStep::End => Taken::End,
        LineStep::ReadFault => Taken::ReadFault,
        LineStep::InputLimit => Taken::InputLimit,
    }
}
