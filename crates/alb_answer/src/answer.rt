//! The answers to questions about polynomials, and to the building of a table.

ghost use Rattle.std.specs.Prelude.{◌++◌, IsTrue, All, codes, false, length};
ghost use Rattle.alb_io.specs.Writes.{Writes};
ghost use Rattle.alb_mono.specs.Tree.{tree, are_below};
ghost use Rattle.alb_poly.specs.Poly.{AreResidues};
ghost use Rattle.alb_print.specs.Text.{mono_text, named, poly_text, type_text};
ghost use Rattle.alb_table.specs.End.{end_of};
ghost use Rattle.alb_query.specs.Views.{answer_of};
ghost use Rattle.alb_query.specs.Answer.{IsOver};
ghost use Rattle.alb_answer.specs.Answers.{degree_text, reply_text, answer_line, end_text, built_line};

use alb_io::{Sink, WriteFault, put_all};
use alb_mono::{Letters, Mono, Multi};
use alb_poly::Poly;
use alb_print::{write_mono, write_named, write_poly, write_type};
use alb_query::Reply;
use alb_table::BuildEnd;
use gf_field::Field;

// Writes the degree that an answer rests on.
pub(crate) fn write_degree<K: Sink>(sink: &mut K, degree: u32) -> Result<(), WriteFault>
    ensures { Writes K.Sink sink.old sink.new (degree_text degree) result }
{
    write_named(sink, b"[", u64::from(degree))?;
    put_all(sink, b"] ")
}

// Writes a normal form.
fn write_normal_form<K: Sink>(
    sink: &mut K,
    field: &Field,
    letters: &Letters,
    f: &Poly,
) -> Result<(), WriteFault>
    requires residues { AreResidues field.now f.now }
    requires known { All (λ t. IsTrue (are_below (length letters.now) t.1)) f.now }
    ensures { Writes K.Sink sink.old sink.new (codes "not zero: " ++ poly_text field.now letters.now f.now) result }
{
    put_all(sink, b"not zero: ")?;
    write_poly(sink, field, letters, f)
}

// Writes a monomial whose type is not at most the target.
fn write_misfit<K: Sink>(sink: &mut K, letters: &Letters, m: &Mono) -> Result<(), WriteFault>
    requires { IsTrue (are_below (length letters.now) (tree m.now)) }
    ensures { Writes K.Sink sink.old sink.new (codes "out of type: " ++ mono_text letters.now false (tree m.now)) result }
{
    put_all(sink, b"out of type: ")?;
    write_mono(sink, letters, m)
}

// Writes what a reply says.
fn write_reply<K: Sink>(
    sink: &mut K,
    field: &Field,
    letters: &Letters,
    reply: &Reply,
) -> Result<(), WriteFault>
    requires { IsOver field.now (length letters.now) (answer_of reply.now) }
    ensures { Writes K.Sink sink.old sink.new (reply_text field.now letters.now (answer_of reply.now)) result }
{
    match reply {
        Reply::Zero => put_all(sink, b"zero"),
        Reply::NotZero(f) => write_normal_form(sink, field, letters, f),
        Reply::NotBuilt(n) => write_named(sink, b"not built: degree ", u64::from(*n)),
        Reply::OutOfType(m) => write_misfit(sink, letters, m),
    }
}

/// Writes the line that answers a question about a polynomial by a table of this degree: `[d] zero`, `[d] not zero: ` and the
/// normal form, `[d] not built: degree N`, or `[d] out of type: ` and the monomial. The coefficients are residues, and the
/// generators of the monomials have letters.
pub fn write_answer<K: Sink>(
    sink: &mut K,
    field: &Field,
    letters: &Letters,
    degree: u32,
    reply: &Reply,
) -> Result<(), WriteFault>
    requires { IsOver field.now (length letters.now) (answer_of reply.now) }
    // The text is appended, or at a fault a front of it.
    ensures { Writes K.Sink sink.old sink.new (answer_line field.now letters.now degree (answer_of reply.now)) result }
{
    write_degree(sink, degree)?;
    write_reply(sink, field, letters, reply)?;
    put_all(sink, b"\n")
}

// Writes why a building stopped: a number and what there are too many of.
fn write_stopped<K: Sink>(sink: &mut K, count: u64, what: &[u8]) -> Result<(), WriteFault>
    ensures { Writes K.Sink sink.old sink.new (named (codes ", stopped: ") count ++ what.now) result }
{
    write_named(sink, b", stopped: ", count)?;
    put_all(sink, what)
}

// Writes that a type has too many products.
fn write_too_wide<K: Sink>(sink: &mut K, at: &Multi, products: u64) -> Result<(), WriteFault>
    ensures { Writes K.Sink sink.old sink.new (named (codes ", stopped: ") products ++ (codes " products of type " ++ type_text at.now)) result }
{
    write_named(sink, b", stopped: ", products)?;
    put_all(sink, b" products of type ")?;
    write_type(sink, at)
}

// Writes how a building ended.
fn write_end<K: Sink>(sink: &mut K, end: &BuildEnd) -> Result<(), WriteFault>
    ensures { Writes K.Sink sink.old sink.new (end_text (end_of end.now)) result }
{
    match end {
        BuildEnd::Complete => Ok(()),
        BuildEnd::TooWide { at, products } => write_too_wide(sink, at, *products),
        BuildEnd::TooManyProducts { count } => write_stopped(sink, *count, b" products in all"),
        BuildEnd::TooManyCoefficients { count } => {
            write_stopped(sink, *count, b" coefficients in all")
        }
        BuildEnd::NoMemory => put_all(sink, b", stopped: no memory"),
    }
}

/// Writes the line that answers `build`: `built ` and the degree of the table, and where it is not complete, what stopped its
/// building.
pub fn write_built<K: Sink>(sink: &mut K, degree: u32, end: &BuildEnd) -> Result<(), WriteFault>
    // The text is appended, or at a fault a front of it.
    ensures { Writes K.Sink sink.old sink.new (built_line degree (end_of end.now)) result }
{
    write_named(sink, b"built ", u64::from(degree))?;
    write_end(sink, end)?;
    put_all(sink, b"\n")
}
