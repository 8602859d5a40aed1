//! The lines of responses.
ghost use Rattle.std.specs.Prelude.{◌≡◌, length, IfOk};
ghost use Rattle.alb_io.specs.Writes.{Writes};
ghost use Rattle.alb_top.specs.Script.{shot_text, found_text, text_of};
ghost use Rattle.alb_question.specs.Views.{finding_of};
ghost use Rattle.alb_top.specs.View.{response_of, state, IsScript, IsWritable, HasSome, IsPrintableBy};

use crate::response::Response;
use crate::script::Script;
use alb_io::{MemSink, Sink, WriteFault, put_all};
use alb_judge::write_verdict;
use alb_mono::Letters;
use alb_question::{Finding, write_finding, write_topic};
use alb_script::{write_numbered, write_refusal};
use std::alloc::Global;

// Writes the line of the table that was built.
fn write_built<K: Sink>(sink: &mut K, script: &Script) -> Result<(), WriteFault>
    requires { HasSome (state script.now).shot }
    ensures { Writes K.Sink sink.old sink.new (shot_text (state script.now).shot) result }
{
    match script.topic() {
        Some(topic) => write_topic(sink, topic),
        None => unreachable!(),
    }
}

// Writes what was found for a question.
fn write_found<K: Sink>(sink: &mut K, script: &Script, finding: &Finding) -> Result<(), WriteFault>
    requires script { IsScript script.now }
    requires printable { IsPrintableBy (state script.now).shot (length (state script.now).problem.letters) finding.now }
    ensures { Writes K.Sink sink.old sink.new (found_text (state script.now).problem.letters (state script.now).shot (finding_of finding.now)) result }
{
    match script.topic() {
        Some(topic) => write_finding(sink, &topic.problem.letters, &topic.tables, finding),
        None => unreachable!(),
    }
}

// Writes a response piece by piece. No refusal prints by the generators' letters.
fn write_pieces<K: Sink>(
    sink: &mut K,
    script: &Script,
    response: &Response,
) -> Result<(), WriteFault>
    requires script { IsScript script.now }
    requires writable { IsWritable (state script.now) response.now }
    ensures { Writes K.Sink sink.old sink.new (text_of (state script.now) (response_of response.now)) result }
{
    match response {
        Response::Nothing => Ok(()),
        Response::Accepted => put_all(sink, b"ok\n"),
        Response::Numbered(number) => write_numbered(sink, b"identity ", u64::from(*number)),
        Response::Ready => put_all(sink, b"ready\n"),
        Response::Built => write_built(sink, script),
        Response::Found(finding) => write_found(sink, script, finding),
        Response::Refused(refusal) => write_refusal(sink, &Letters::all(), refusal),
        Response::Judged(verdict) => write_verdict(sink, verdict),
    }
}

// The text of a response. There may be no memory for it.
fn text(alloc: Global, script: &Script, response: &Response) -> Result<MemSink, WriteFault>
    requires script { IsScript script.now }
    requires writable { IsWritable (state script.now) response.now }
    ensures { IfOk result (λ t. t.taken ≡ text_of (state script.now) (response_of response.now)) }
{
    let mut sink = MemSink::new(alloc, usize::MAX, Vec::new(alloc));
    write_pieces(&mut sink, script, response)?;
    Ok(sink)
}

/// Writes a response of a script: its whole text at once, or piece by piece where there is no memory for the whole.
pub fn write_response<K: Sink>(
    alloc: Global,
    sink: &mut K,
    script: &Script,
    response: &Response,
) -> Result<(), WriteFault>
    requires script { IsScript script.now }
    requires writable { IsWritable (state script.now) response.now }
    ensures { Writes K.Sink sink.old sink.new (text_of (state script.now) (response_of response.now)) result }
{
    match text(alloc, script, response) {
        Ok(whole) => put_all(sink, whole.bytes()),
        Err(WriteFault) => write_pieces(sink, script, response),
    }
}
