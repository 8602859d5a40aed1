//! The lines of responses.
ghost use Rattle.std.specs.Prelude.{◌≡◌, IfOk};
ghost use Rattle.alb_io.specs.Writes.{Writes};
ghost use Rattle.alb_session.specs.Session.{ready_text, stopped_text, no_memory_text};
ghost use Rattle.alb_session.specs.View.{response_text, CanBeWritten};

use crate::response::Response;
use alb_io::{MemSink, Sink, WriteFault, put_all};
use alb_mono::Letters;
use alb_print::write_named;
use alb_script::write_refusal;
use std::alloc::Global;

// Writes that a degree is there.
fn write_ready<K: Sink>(sink: &mut K, degree: u32) -> Result<(), WriteFault>
    ensures { Writes K.Sink sink.old sink.new (ready_text degree) result }
{
    write_named(sink, b"[", u64::from(degree))?;
    put_all(sink, b"] ready\n")
}

// Writes that a degree will not come.
fn write_stopped<K: Sink>(sink: &mut K, degree: u32) -> Result<(), WriteFault>
    ensures { Writes K.Sink sink.old sink.new (stopped_text degree) result }
{
    write_named(sink, b"[", u64::from(degree))?;
    put_all(sink, b"] stopped\n")
}

// Writes that there was no memory for a line.
fn write_no_memory<K: Sink>(sink: &mut K, degree: u32) -> Result<(), WriteFault>
    ensures { Writes K.Sink sink.old sink.new (no_memory_text degree) result }
{
    write_named(sink, b"[", u64::from(degree))?;
    put_all(sink, b"] no memory\n")
}

// Writes a response piece by piece. No refusal prints by the generators' letters.
fn write_pieces<K: Sink>(sink: &mut K, response: &Response) -> Result<(), WriteFault>
    requires { CanBeWritten response.now }
    ensures { Writes K.Sink sink.old sink.new (response_text response.now) result }
{
    match response {
        Response::Nothing => Ok(()),
        Response::Refused(refusal) => write_refusal(sink, &Letters::all(), refusal),
        Response::Found(text) => put_all(sink, text.bytes()),
        Response::Ready(degree) => write_ready(sink, *degree),
        Response::Stopped(degree) => write_stopped(sink, *degree),
        Response::NoMemory(degree) => write_no_memory(sink, *degree),
    }
}

// The text of a response. There may be no memory for it.
fn text(alloc: Global, response: &Response) -> Result<MemSink, WriteFault>
    requires { CanBeWritten response.now }
    ensures { IfOk result (λ t. t.taken ≡ response_text response.now) }
{
    let mut sink = MemSink::new(alloc, usize::MAX, Vec::new(alloc));
    write_pieces(&mut sink, response)?;
    Ok(sink)
}

/// Writes the response to a line: its whole text at once, or piece by piece where there is no memory for a short one.
pub fn write_response<K: Sink>(
    alloc: Global,
    sink: &mut K,
    response: &Response,
) -> Result<(), WriteFault>
    requires { CanBeWritten response.now }
    ensures { Writes K.Sink sink.old sink.new (response_text response.now) result }
{
    if let Response::Found(text) = response {
        return put_all(sink, text.bytes());
    }
    match text(alloc, response) {
        Ok(whole) => put_all(sink, whole.bytes()),
        Err(WriteFault) => write_pieces(sink, response),
    }
}
