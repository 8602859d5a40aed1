ghost use Rattle.std.specs.Prelude.{◌≡◌, ◌≢◌, ◌↔◌, ◌≤◌, ◌^◌, [], true, false, None, Some};
ghost use Rattle.std.specs.Io.KnownBytes.{Appends};
ghost use Rattle.alb_io.specs.Causes.{HasCause, Rose};
ghost use Rattle.alb_top.specs.Does.{mode_of, may_open, Does};
ghost use Rattle.alb_top.specs.Outcome.{Outcome};
ghost use Rattle.alb_top.specs.Script.{start};
ghost use Rattle.alb_top.specs.Turns.{status_of};
ghost use Rattle.alb_top.specs.View.{state, IsScript};

use crate::mode::Mode;
use crate::script::Script;
use crate::turn::{Taken, take_turn};
use crate::workers::Workers;
use crate::write::write_response;
use alb_io::{Desk, LineReader, Sink, Source, Status};
use alb_sampling::run_sample;
use alb_words::{WordsFault, read_words};
use std::alloc::Global;
use std::thread::Threads;

/// The most bytes of one input.
const INPUT_LIMIT: u64 = 1 << 40;

fn status(is_clean: bool) -> Status
    ensures { result ≡ status_of is_clean }
{
    if is_clean {
        Status::Done
    } else {
        Status::Refused
    }
}

// Answers line after line.
fn run_script<R: Threads + Sync, S: Source, K: Sink>(
    rt: &R,
    alloc: Global,
    reader: &mut LineReader,
    first: Script,
    input: &mut S,
    output: &mut K,
) -> Status
    requires fresh { reader.old ≡ record { held = []; room = 2 ^ 40; at_end = false; ended = false; line = None } }
    requires opening { state first ≡ start (state first).mode (state first).form }
    requires script { IsScript first }
    ensures outcome { Outcome (state first) result (S.left input.old) (S.left input.new) (K.taken output.old) (K.taken output.new) }
    ensures read_fault { result ≡ Status.ReadFault → Rose (S.faults input.old) (S.faults input.new) }
    ensures write_fault { result ≡ Status.WriteFault → Rose (K.faults output.old) (K.faults output.new) }
    ensures sound { S.is_sound input.old → S.is_sound input.new × (result ≢ Status.ReadFault) }
    ensures same_name { K.name output.new ≡ K.name output.old }
    ensures checked { result ≢ Status.Usage }
    ensures no_open_fault { result ≢ Status.OpenFault }
    ensures no_report_fault { result ≢ Status.ReportFault }
{
    let mut script = first;
    'turns: loop {
        match take_turn(rt, alloc, reader, script, input) {
            Taken::Response(response, next) => match write_response(
                alloc, output, &next, &response,
            ) {
                Ok(()) => script = next,
                Err(_) => return Status::WriteFault,
            },
            Taken::Last(response, next) => match write_response(alloc, output, &next, &response) {
                Ok(()) => return status(next.is_clean()),
                Err(_) => return Status::WriteFault,
            },
            Taken::ReadFault => return Status::ReadFault,
            Taken::InputLimit => return Status::InputLimit,
            Taken::NoMemory => return Status::NoMemory,
        }
        if script.is_closed() {
            return status(script.is_clean());
        }
    }
}

// Does what a mode does: it reads and answers its script, or makes a sample.
fn run_mode<R: Threads + Sync, S: Source, K: Sink>(
    rt: &R,
    alloc: Global,
    mode: Mode,
    workers: Workers,
    input: &mut S,
    output: &mut K,
) -> Status
    ensures outcome { Does (Some mode) result (S.left input.old) (S.left input.new) (K.taken output.old) (K.taken output.new) }
    ensures read_fault { result ≡ Status.ReadFault → Rose (S.faults input.old) (S.faults input.new) }
    ensures write_fault { result ≡ Status.WriteFault → Rose (K.faults output.old) (K.faults output.new) }
    ensures sound { S.is_sound input.old → S.is_sound input.new × (result ≢ Status.ReadFault) }
    ensures same_name { K.name output.new ≡ K.name output.old }
    ensures checked { result ≢ Status.Usage }
    ensures no_open_fault { result ≢ Status.OpenFault }
    ensures no_report_fault { result ≢ Status.ReportFault }
{
    if let Mode::Sample(count) = mode {
        return run_sample(rt, alloc, count, workers.number(), output);
    }
    let Some(form) = mode.script_form() else {
        unreachable!();
    };
    let script = Script::new(alloc, mode, form, workers);
    let Ok(mut reader) = LineReader::open(alloc, INPUT_LIMIT) else {
        return Status::NoMemory;
    };
    run_script(rt, alloc, &mut reader, script, input, output)
}

/// Does all that the program does: the words of the command line, a desk of files, an input and an output, and the status.
pub fn run_albert<R: Threads + Sync, D: Desk, S: Source, K: Sink>(
    rt: &R,
    alloc: Global,
    words: &[String],
    desk: &mut D,
    input: &mut S,
    output: &mut K,
) -> Status
    // The words name no mode, unless memory runs out while they are read.
    ensures usage { result ≢ Status.NoMemory → (result ≡ Status.Usage) ↔ (mode_of words.now ≡ None) }
    ensures outcome { Does (mode_of words.now) result (S.left input.old) (S.left input.new) (K.taken output.old) (K.taken output.new) }
    ensures read_fault { result ≡ Status.ReadFault → Rose (S.faults input.old) (S.faults input.new) }
    ensures write_fault { result ≡ Status.WriteFault → Rose (K.faults output.old) (K.faults output.new) }
    ensures sound { S.is_sound input.old → S.is_sound input.new × (result ≢ Status.ReadFault) }
    ensures same_name { K.name output.new ≡ K.name output.old }
    // A mode that opens no file leaves the desk as it was, and never fails to open one.
    ensures desk { may_open (mode_of words.now) ≡ false → desk.new ≡ desk.old }
    ensures open_fault { may_open (mode_of words.now) ≡ false → result ≢ Status.OpenFault }
    ensures no_report_fault { result ≢ Status.ReportFault }
{
    let _desk = desk;
    let said = match read_words(alloc, words) {
        Ok(said) => said,
        Err(WordsFault::NoMemory) => return Status::NoMemory,
        Err(WordsFault::Usage) => return Status::Usage,
    };
    let Some(mode) = Mode::of(&said.others) else {
        return Status::Usage;
    };
    run_mode(rt, alloc, mode, Workers::of(said.workers), input, output)
}
