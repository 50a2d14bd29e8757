//! Answering lines until none is left.

ghost use Rattle.std.specs.Prelude.{◌≡◌, ◌<◌, [], IfOk, IfErr, OnOk, true, false, string_bytes};
ghost use Rattle.rme_line_io.specs.Readers.{ReaderEnded, BufferWrittenSince, bytes_left, most_lines};
ghost use Rattle.rme_line_io.specs.StreamCalls.{CallReads, CallWrites};
ghost use Rattle.rme_line_engine.specs.Engines.{engine_state_of};
ghost use Rattle.rme_line_engine.specs.Lines.{LineAnswerBytes};
ghost use Rattle.rme_line_engine.specs.Outputs.{LineOutputBytes};
ghost use Rattle.rme_line_engine.specs.Transcripts.{LineTranscriptBytes};
ghost use Rattle.rme_line_io.specs.LineRuns.{AnswersArePrompt, LineRunStepFails, LineRunStep, RunWritesAll, RunWritesFirst, RunWritesTo, run_moment, stream_moment};
ghost use Rattle.rme_line_engine.specs.EngineStates.{nothing_open};

use crate::engine::{Engine, LineOutput};
use rme_wire::{Cut, EngineFault, Exchange, LineReader, Sink, Source};
use std::alloc::Global;

/// Room for the answer of a refused line, which is written even if no memory is left.
const REFUSAL_ROOM: usize = 128;

/// The memory of an answer longer than this is freed.
const LONG_ANSWER: usize = 1_048_576;

/// Answers each line of the reader by one line to the writer, over one world that the lines open.
///
/// Answers are written together: all answers so far before the reader is read again and before the run ends, and
/// otherwise when they reach 64 KiB. An error ends the run, and the world is lost. After `ReadFailed` the answers to
/// all lines whose newlines were read were written completely. After `NoMemory` those to all lines before the one that
/// needed the memory were; what was read is these lines, and at most the bytes of that one. After `WriteFailed` a
/// prefix of the answers was written.
pub fn run_lines<R: Source + Drop, W: Sink>(
    alloc: Global,
    lines: &mut LineReader<R>,
    writer: &mut W,
) -> Result<(), EngineFault>
    ensures ok { OnOk result (RunWritesAll LineAnswerBytes nothing_open
        (stream_moment R.remaining lines.old (W.contents writer.old)) (W.contents writer.new)) }
    ensures err { IfErr result (λ fault. RunWritesFirst LineAnswerBytes nothing_open fault
        (stream_moment R.remaining lines.old (W.contents writer.old))
        (stream_moment R.remaining lines.new (W.contents writer.new))) }
    ensures end { OnOk result (ReaderEnded lines.new) }
    ensures reads { CallReads R.gave R.moments lines.old lines.new
        (AnswersArePrompt LineAnswerBytes nothing_open
        (stream_moment R.remaining lines.old (W.contents writer.old))) result }
    ensures writes { CallWrites (W.took writer.old) (W.took writer.new) result }
{
    run_from_empty(alloc, LineOutput::Answers, lines, writer)
}

/// Executes each line of the reader, as `run_lines` does, and writes a transcript: for each event that the world
/// accepted one line with the event and its answer, in order. A refused command, a look-up and a quiet step have no
/// line.
///
/// Lines are written together, as answers are. An error ends the run, and the world is lost; the events written are
/// then as the answers written by `run_lines`.
pub fn transcript_lines<R: Source + Drop, W: Sink>(
    alloc: Global,
    lines: &mut LineReader<R>,
    writer: &mut W,
) -> Result<(), EngineFault>
    ensures ok { OnOk result (RunWritesAll LineTranscriptBytes nothing_open
        (stream_moment R.remaining lines.old (W.contents writer.old)) (W.contents writer.new)) }
    ensures err { IfErr result (λ fault. RunWritesFirst LineTranscriptBytes nothing_open fault
        (stream_moment R.remaining lines.old (W.contents writer.old))
        (stream_moment R.remaining lines.new (W.contents writer.new))) }
    ensures end { OnOk result (ReaderEnded lines.new) }
    ensures reads { CallReads R.gave R.moments lines.old lines.new
        (AnswersArePrompt LineTranscriptBytes nothing_open
        (stream_moment R.remaining lines.old (W.contents writer.old))) result }
    ensures writes { CallWrites (W.took writer.old) (W.took writer.new) result }
{
    run_from_empty(alloc, LineOutput::Transcript, lines, writer)
}

/// Answers each line of the reader as `run_lines` does, over an engine's state, which is afterwards the state that the
/// last line left.
///
/// An error ends the run; the answers written are then as those of `run_lines`. The line that needed the memory may
/// have been executed.
pub fn answer_lines<R: Source + Drop, W: Sink>(
    engine: &mut Engine,
    lines: &mut LineReader<R>,
    writer: &mut W,
) -> Result<(), EngineFault>
    ensures ok { OnOk result (RunWritesTo LineAnswerBytes (engine_state_of engine.old)
        (stream_moment R.remaining lines.old (W.contents writer.old)) (W.contents writer.new)
        (engine_state_of engine.new)) }
    ensures err { IfErr result (λ fault. RunWritesFirst LineAnswerBytes (engine_state_of engine.old) fault
        (stream_moment R.remaining lines.old (W.contents writer.old))
        (stream_moment R.remaining lines.new (W.contents writer.new))) }
    ensures end { OnOk result (ReaderEnded lines.new) }
    ensures reads { CallReads R.gave R.moments lines.old lines.new
        (AnswersArePrompt LineAnswerBytes (engine_state_of engine.old)
        (stream_moment R.remaining lines.old (W.contents writer.old))) result }
    ensures writes { CallWrites (W.took writer.old) (W.took writer.new) result }
{
    run_engine(LineOutput::Answers, engine, lines, writer)
}

/// Executes each line of the reader, with no world open at first, and writes the requested output.
fn run_from_empty<R: Source + Drop, W: Sink>(
    alloc: Global,
    output: LineOutput,
    lines: &mut LineReader<R>,
    writer: &mut W,
) -> Result<(), EngineFault>
    ensures ok { OnOk result (RunWritesAll (LineOutputBytes output) nothing_open
        (stream_moment R.remaining lines.old (W.contents writer.old)) (W.contents writer.new)) }
    ensures err { IfErr result (λ fault. RunWritesFirst (LineOutputBytes output) nothing_open fault
        (stream_moment R.remaining lines.old (W.contents writer.old))
        (stream_moment R.remaining lines.new (W.contents writer.new))) }
    ensures end { OnOk result (ReaderEnded lines.new) }
    ensures reads { CallReads R.gave R.moments lines.old lines.new
        (AnswersArePrompt (LineOutputBytes output) nothing_open
        (stream_moment R.remaining lines.old (W.contents writer.old))) result }
    ensures writes { CallWrites (W.took writer.old) (W.took writer.new) result }
{
    let Ok(mut engine) = Engine::new(alloc) else {
        return Err(EngineFault::NoMemory);
    };
    run_engine(output, &mut engine, lines, writer)
}

/// Executes each line of the reader over the engine's state, and writes the requested output.
fn run_engine<R: Source + Drop, W: Sink>(
    output: LineOutput,
    engine: &mut Engine,
    lines: &mut LineReader<R>,
    writer: &mut W,
) -> Result<(), EngineFault>
    ensures ok { OnOk result (RunWritesTo (LineOutputBytes output) (engine_state_of engine.old)
        (stream_moment R.remaining lines.old (W.contents writer.old)) (W.contents writer.new)
        (engine_state_of engine.new)) }
    ensures err { IfErr result (λ fault. RunWritesFirst (LineOutputBytes output) (engine_state_of engine.old) fault
        (stream_moment R.remaining lines.old (W.contents writer.old))
        (stream_moment R.remaining lines.new (W.contents writer.new))) }
    ensures end { OnOk result (ReaderEnded lines.new) }
    ensures reads { CallReads R.gave R.moments lines.old lines.new
        (AnswersArePrompt (LineOutputBytes output) (engine_state_of engine.old)
        (stream_moment R.remaining lines.old (W.contents writer.old))) result }
    ensures writes { CallWrites (W.took writer.old) (W.took writer.new) result }
{
    let Ok(text) = String::with_capacity(engine.alloc, REFUSAL_ROOM) else {
        return Err(EngineFault::NoMemory);
    };
    let Ok(exchange) = Exchange::new(engine.alloc) else {
        return Err(EngineFault::NoMemory);
    };
    let mut buffers = RunBuffers { exchange, text };
    loop {
        match process_next_line(output, lines, engine, &mut buffers, writer) {
            Ok(true) => {}
            Ok(false) => return Ok(()),
            Err(fault) => return Err(buffers.exchange.give_up(fault, writer)),
        }
    }
}

/// The buffers that all lines of a run use in turn.
#[derive(Drop)]
struct RunBuffers {
    /// The last line that was read, and the answers that are not written yet.
    exchange: Exchange,
    /// The answer to that line.
    text: String,
}

/// Takes the next line, executes it and buffers its output, and answers whether there was a line. If there was none,
/// everything is written.
fn process_next_line<R: Source + Drop, W: Sink>(
    output: LineOutput,
    lines: &mut LineReader<R>,
    engine: &mut Engine,
    buffers: &mut RunBuffers,
    writer: &mut W,
) -> Result<bool, EngineFault>
    ensures ok { IfOk result (LineRunStep (LineOutputBytes output) (engine_state_of engine.old)
        (engine_state_of engine.new)
        (run_moment R.remaining lines.old (W.contents writer.old) buffers.old.exchange.pending)
        (run_moment R.remaining lines.new (W.contents writer.new) buffers.new.exchange.pending)) }
    ensures err { IfErr result (λ fault. LineRunStepFails (LineOutputBytes output) fault (engine_state_of engine.old)
        (run_moment R.remaining lines.old (W.contents writer.old) buffers.old.exchange.pending)
        (run_moment R.remaining lines.new (W.contents writer.new) buffers.new.exchange.pending)) }
    ensures fewer { IfOk result (λ more. more ≡ true → most_lines lines.new < most_lines lines.old) }
    ensures end { IfOk result (λ more. more ≡ false → ReaderEnded lines.new) }
    ensures reads { CallReads R.gave R.moments lines.old lines.new
        (BufferWrittenSince (bytes_left R.remaining lines.old) (W.contents writer.old) buffers.old.exchange.pending)
        result }
    ensures writes { CallWrites (W.took writer.old) (W.took writer.new) result }
{
    let RunBuffers { exchange, text } = buffers;
    let cut = match exchange.next_line(lines, writer) {
        Ok(cut) => cut,
        Err(fault) => return Err(fault),
    };
    if cut == Cut::End {
        return Ok(false);
    }
    match engine.process_line(output, cut, exchange.line(), text) {
        Ok(()) => {}
        Err(fault) => return Err(fault),
    }
    match exchange.answer(text.as_bytes(), writer) {
        Ok(()) => {}
        Err(fault) => return Err(fault),
    }
    give_back(text);
    Ok(true)
}

/// Empties the text, and frees its memory if that is much.
fn give_back(text: &mut String)
    ensures { string_bytes text.new ≡ [] }
{
    text.clear();
    if text.capacity() > LONG_ANSWER {
        text.shrink_to(REFUSAL_ROOM);
    }
}
