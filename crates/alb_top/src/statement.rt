//! Statements about the problem of a script.
ghost use Rattle.std.specs.Prelude.{◌≡◌, IfOk, OnErr};
ghost use Rattle.alb_lex.specs.declared.token.Token.{Token};
ghost use Rattle.alb_script.specs.Asked as asking;
ghost use Rattle.alb_script.specs.Asked.{view, IsCommandOver, IsPolyOver};
ghost use Rattle.alb_top.specs.Script.{stated};
ghost use Rattle.alb_top.specs.View.{response_of, IsStatement, CanBeWritten, IsWritten, of_problem};

use crate::response::Response;
use alb_lex::Token;
use alb_mono::NoMemory;
use alb_poly::Poly;
use alb_problem::{ProblemBuilder, ProblemError};
use alb_script::{Command, Refusal};

fn name_field(builder: &mut ProblemBuilder, p: u64) -> Response
    ensures responds { (response_of result, builder.new) ≡ stated builder.old (asking.Field p) }
    ensures written { IsWritten result }
{
    match builder.set_field(p) {
        Ok(()) => Response::Accepted,
        Err(error) => Response::Refused(Refusal::Problem(error)),
    }
}

fn name_generators(builder: &mut ProblemBuilder, tokens: &[Token], end: u32) -> Response
    ensures responds { (response_of result, builder.new) ≡ stated builder.old (asking.Generators tokens.now end) }
    ensures written { IsWritten result }
{
    match builder.set_generators(tokens, end) {
        Ok(()) => Response::Accepted,
        Err(error) => Response::Refused(Refusal::Problem(error)),
    }
}

// The response to an error of the problem.
fn refusal(error: ProblemError) -> Result<Response, NoMemory>
    ensures { result ≡ of_problem error }
{
    match error {
        ProblemError::NoMemory => Err(NoMemory),
        error => Ok(Response::Refused(Refusal::Problem(error))),
    }
}

fn add_identity(builder: &mut ProblemBuilder, f: Poly) -> Result<Response, NoMemory>
    requires { IsPolyOver builder.old.field 26 f }
    ensures responds { IfOk result (λ r. (response_of r, builder.new) ≡ stated builder.old (asking.Identity f)) }
    ensures written { IfOk result (λ r. IsWritten r) }
    ensures unchanged { OnErr result (builder.new ≡ builder.old) }
{
    match builder.add_identity(f) {
        Ok(number) => Ok(Response::Numbered(number)),
        Err(error) => refusal(error),
    }
}

/// Takes a statement about the problem. After `NoMemory` the problem is as it was.
pub fn state_problem(builder: &mut ProblemBuilder, command: Command) -> Result<Response, NoMemory>
    requires statement { IsStatement (view command) }
    requires read { IsCommandOver builder.old.field 0 command }
    ensures responds { IfOk result (λ r. (response_of r, builder.new) ≡ stated builder.old (view command)) }
    ensures written { IfOk result (λ r. IsWritten r) }
    ensures unchanged { OnErr result (builder.new ≡ builder.old) }
{
    match command {
        Command::Field(p) => Ok(name_field(builder, p)),
        Command::Generators(tokens, end) => Ok(name_generators(builder, &tokens, end)),
        Command::Identity(f) => add_identity(builder, f),
        _ => unreachable!(),
    }
}
