ghost use Rattle.std.specs.Prelude.{◌≡◌, ◌++◌, ◌≤◌, length};
ghost use Rattle.alb_io.specs.Writes.{Writes};
ghost use Rattle.alb_answer.specs.Answers.{answer_line};
ghost use Rattle.alb_query.specs.Views.{answer_of};
ghost use Rattle.alb_query.specs.Answer.{IsOver};
ghost use Rattle.alb_trace.specs.Proof.{shown, CanBePrinted};
ghost use Rattle.alb_question.specs.Question.{built_text, finding_text, shown_text};
ghost use Rattle.alb_question.specs.Views.{finding_of, IsPrintable, shot_of};

use crate::finding::Finding;
use crate::topic::Topic;
use alb_answer::{write_answer, write_built, write_dimensions, write_products};
use alb_evidence::{write_lines, write_table};
use alb_io::{Sink, WriteFault};
use alb_mono::Letters;
use alb_query::Reply;
use alb_table::Tables;
use alb_trace::Proof;

/// Writes the line that tells the degree of a topic's table and the end of its building.
pub fn write_topic<K: Sink>(sink: &mut K, topic: &Topic) -> Result<(), WriteFault>
    ensures { Writes K.Sink sink.old sink.new (built_text (shot_of topic.now)) result }
{
    write_built(sink, topic.tables.degree(), &topic.end)
}

/// Writes what is found for a question by a table, with a letter for each of its generators.
pub fn write_finding<K: Sink>(
    sink: &mut K,
    letters: &Letters,
    tables: &Tables,
    finding: &Finding,
) -> Result<(), WriteFault>
    requires letters { length tables.now.target ≤ length letters.now }
    requires printable { IsPrintable tables.now.p (length letters.now) finding.now }
    ensures { Writes K.Sink sink.old sink.new (finding_text letters.now tables.now (finding_of finding.now)) result }
{
    match finding {
        Finding::Answered(reply) => write_reply(sink, letters, tables, reply),
        Finding::Proved(reply, proof) => write_proved(sink, letters, tables, reply, proof),
        Finding::OfDimensions => write_dimensions(sink, tables),
        Finding::OfProducts => write_products(sink, letters, tables),
    }
}

// Writes the answer to a polynomial.
fn write_reply<K: Sink>(
    sink: &mut K,
    letters: &Letters,
    tables: &Tables,
    reply: &Reply,
) -> Result<(), WriteFault>
    requires { IsOver tables.now.p (length letters.now) (answer_of reply.now) }
    ensures { Writes K.Sink sink.old sink.new (answer_line tables.now.p letters.now tables.now.degree (answer_of reply.now)) result }
{
    write_answer(sink, tables.field(), letters, tables.degree(), reply)
}

// Writes the answer to a polynomial, and what shows it.
fn write_proved<K: Sink>(
    sink: &mut K,
    letters: &Letters,
    tables: &Tables,
    reply: &Reply,
    proof: &Proof,
) -> Result<(), WriteFault>
    requires over { IsOver tables.now.p (length letters.now) (answer_of reply.now) }
    requires printed { CanBePrinted tables.now.p (length letters.now) proof.now }
    ensures { Writes K.Sink sink.old sink.new (answer_line tables.now.p letters.now tables.now.degree (answer_of reply.now) ++ shown_text tables.now.p letters.now (shown proof.now)) result }
{
    write_reply(sink, letters, tables, reply)?;
    write_proof(sink, letters, tables, proof)
}

// Writes what shows an answer.
fn write_proof<K: Sink>(
    sink: &mut K,
    letters: &Letters,
    tables: &Tables,
    proof: &Proof,
) -> Result<(), WriteFault>
    requires { CanBePrinted tables.now.p (length letters.now) proof.now }
    ensures { Writes K.Sink sink.old sink.new (shown_text tables.now.p letters.now (shown proof.now)) result }
{
    match proof {
        Proof::Lines(lines) => write_lines(sink, tables.field(), letters, lines),
        Proof::Table(table) => write_table(sink, tables.field(), letters, table),
        Proof::Nothing => Ok(()),
    }
}
