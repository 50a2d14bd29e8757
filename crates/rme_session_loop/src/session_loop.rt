//! A session: the lines of one client, and their answers.

ghost use Rattle.std.specs.Io.KnownBytes.{Appends};
ghost use Rattle.std.specs.Prelude.{◌≡◌, ◌<◌, ℕ, [], IfErr, IfOk, List, OnErr, OnOk, Option, false, true};
ghost use Rattle.rme_line_io.specs.BufferedWrites.{WritesPrefix};
ghost use Rattle.rme_line_io.specs.StreamEvents.{LastWriteFailed, WritesMade};
ghost use Rattle.rme_line_io.specs.Readers.{ReaderEnded, BufferWrittenSince, bytes_left, most_lines};
ghost use Rattle.rme_line_io.specs.StreamCalls.{CallReads, CallWrites};
ghost use Rattle.rme_line_io.specs.LineRuns.{RunEndsOnFault, AnswersArePrompt, LineRunStepFails, LineRunStep, RunWritesFirst, run_moment, stream_moment};
ghost use Rattle.rme_session_loop.specs.SessionRuns.{AnswersWhileOpen, SessionWrites};

use crate::backend::Backend;
use crate::buffers::Buffers;
use crate::client::Client;
use rme_wire::{Cut, EngineFault, LineReader, Sink, Source};
use std::sync::Wait;
use std::time::Clock;

/// How a session ended without an error.
#[derive(Clone, Copy, Debug, PartialEq, Eq)]
pub enum SessionEnd {
    /// The reader has no more lines.
    NoMoreLines,
    /// The backend is finished with the session. Further lines of the reader may be unread.
    Finished,
}

/// Runs a session: answers each line of the reader, and writes the answers. It begins without a worker, and ends with
/// the reader, or behind a line that finishes it.
///
/// Answers to lines that came together are written together: all before the next read, and before a line for which the
/// backend waits. However the session ends, `end_session` is called before this returns. An error ends the session: the
/// answers to earlier lines were written completely, and after `WriteFailed` a prefix of them.
pub fn session<
    B: Backend,
    R: Wait + Clock,
    I: Source + Drop,
    O: Sink,
    C: Client<Handle = B::Handle>,
>(
    rt: &R,
    backend: &B,
    client: &C,
    lines: &mut LineReader<I>,
    writer: &mut O,
) -> Result<SessionEnd, EngineFault>
    requires fits { B.fits backend.now }
    ensures ok { IfOk result (λ how. (last : B.Stand)
        × SessionWrites how (AnswersWhileOpen (B.finished backend.now) (B.answers backend.now (C.gone client.now)))
        (B.nobody backend.now) (stream_moment I.remaining lines.old (O.contents writer.old))
        (stream_moment I.remaining lines.new (O.contents writer.new)) last
        × (how ≡ SessionEnd.Finished → B.finished backend.now last)) }
    ensures err { IfErr result (λ fault. RunWritesFirst
        (AnswersWhileOpen (B.finished backend.now) (B.answers backend.now (C.gone client.now)))
        (B.nobody backend.now) fault (stream_moment I.remaining lines.old (O.contents writer.old))
        (stream_moment I.remaining lines.new (O.contents writer.new))) }
    ensures end { IfOk result (λ how. how ≡ SessionEnd.NoMoreLines → ReaderEnded lines.new) }
    ensures reads { CallReads I.gave I.moments lines.old lines.new
        (AnswersArePrompt (AnswersWhileOpen (B.finished backend.now) (B.answers backend.now (C.gone client.now)))
        (B.nobody backend.now) (stream_moment I.remaining lines.old (O.contents writer.old)))
        result }
    ensures writes { CallWrites (O.took writer.old) (O.took writer.new) result }
{
    let context = SessionContext { backend, client };
    let stand = backend.begin_session();
    let (stand, ended) = answer_lines(rt, &context, stand, lines, writer);
    // If the end could not be logged, the backend is over, which its server finds.
    drop(backend.end_session(rt, stand, client));
    ended
}

/// What a session's lines are answered with: the backend and the client.
#[derive(Drop)]
pub struct SessionContext<'a, B, C> {
    pub backend: &'a B,
    pub client: &'a C,
}

/// Runs a part of a session as `session` does, from this state of it, and returns its state behind the part. Another
/// part can follow, whose lines are those that the reader has then. The caller calls `end_session` at the end.
pub fn answer_lines<
    B: Backend,
    R: Wait + Clock,
    I: Source + Drop,
    O: Sink,
    C: Client<Handle = B::Handle>,
>(
    rt: &R,
    context: &SessionContext<'_, B, C>,
    first: B::Stand,
    lines: &mut LineReader<I>,
    writer: &mut O,
) -> (B::Stand, Result<SessionEnd, EngineFault>)
    requires fits { B.fits context.now.backend.now }
    requires may_hold { B.may_hold context.now.backend.now first }
    ensures may_hold { B.may_hold context.now.backend.now result.0 }
    ensures ok { IfOk result.1 (λ how. SessionWrites how (AnswersWhileOpen (B.finished context.now.backend.now)
        (B.answers context.now.backend.now (C.gone context.now.client.now))) first
        (stream_moment I.remaining lines.old (O.contents writer.old))
        (stream_moment I.remaining lines.new (O.contents writer.new)) result.0) }
    ensures finished { IfOk result.1 (λ how. how ≡ SessionEnd.Finished
        → B.finished context.now.backend.now result.0) }
    ensures err { IfErr result.1 (λ fault. RunWritesFirst (AnswersWhileOpen (B.finished context.now.backend.now)
        (B.answers context.now.backend.now (C.gone context.now.client.now))) first fault
        (stream_moment I.remaining lines.old (O.contents writer.old))
        (stream_moment I.remaining lines.new (O.contents writer.new))) }
    ensures end { IfOk result.1 (λ how. how ≡ SessionEnd.NoMoreLines → ReaderEnded lines.new) }
    ensures reads { CallReads I.gave I.moments lines.old lines.new
        (AnswersArePrompt (AnswersWhileOpen (B.finished context.now.backend.now)
        (B.answers context.now.backend.now (C.gone context.now.client.now))) first
        (stream_moment I.remaining lines.old (O.contents writer.old)))
        result.1 }
    ensures writes { CallWrites (O.took writer.old) (O.took writer.new) result.1 }
{
    let Ok(mut buffers) = Buffers::new(context.backend.alloc()) else {
        return (first, Err(EngineFault::NoMemory));
    };
    let (stand, ended) = answer_all_lines(rt, context, first, lines, &mut buffers, writer);
    match ended {
        Ok(how) => (stand, Ok(how)),
        Err(fault) => {
            let fault = buffers.exchange.give_up(fault, writer);
            (stand, Err(fault))
        }
    }
}

/// Answers line after line from this state of the session, until none is left or it is finished, and returns its state. Then all
/// answers are written.
fn answer_all_lines<
    B: Backend,
    R: Wait + Clock,
    I: Source + Drop,
    O: Sink,
    C: Client<Handle = B::Handle>,
>(
    rt: &R,
    context: &SessionContext<'_, B, C>,
    first: B::Stand,
    lines: &mut LineReader<I>,
    buffers: &mut Buffers,
    writer: &mut O,
) -> (B::Stand, Result<SessionEnd, EngineFault>)
    requires fits { B.fits context.now.backend.now }
    requires may_hold { B.may_hold context.now.backend.now first }
    requires none_kept { buffers.old.exchange.pending ≡ [] }
    ensures may_hold { B.may_hold context.now.backend.now result.0 }
    ensures ok { IfOk result.1 (λ how. SessionWrites how (AnswersWhileOpen (B.finished context.now.backend.now)
        (B.answers context.now.backend.now (C.gone context.now.client.now))) first
        (stream_moment I.remaining lines.old (O.contents writer.old))
        (stream_moment I.remaining lines.new (O.contents writer.new)) result.0) }
    ensures finished { IfOk result.1 (λ how. how ≡ SessionEnd.Finished
        → B.finished context.now.backend.now result.0) }
    ensures err { IfErr result.1 (λ fault. (holds : Option (List ℕ)) (last : EngineFault)
        → RunEndsOnFault fault (O.contents writer.new) buffers.new.exchange.pending holds last
        → RunWritesFirst (AnswersWhileOpen (B.finished context.now.backend.now)
        (B.answers context.now.backend.now (C.gone context.now.client.now))) first last
        (stream_moment I.remaining lines.old (O.contents writer.old)) (stream_moment I.remaining lines.new holds)) }
    ensures end { IfOk result.1 (λ how. how ≡ SessionEnd.NoMoreLines → ReaderEnded lines.new) }
    ensures reads { CallReads I.gave I.moments lines.old lines.new
        (AnswersArePrompt (AnswersWhileOpen (B.finished context.now.backend.now)
        (B.answers context.now.backend.now (C.gone context.now.client.now))) first
        (stream_moment I.remaining lines.old (O.contents writer.old)))
        result.1 }
    ensures writes { CallWrites (O.took writer.old) (O.took writer.new) result.1 }
{
    let mut stand = first;
    for _ in rt.forever() {
        if context.backend.is_finished(&stand) {
            let written = write_last_answers(buffers, writer);
            return (stand, written);
        }
        let (next, turned) = answer_next_line(rt, context, stand, lines, buffers, writer);
        match turned {
            Ok(true) => stand = next,
            Ok(false) => return (next, Ok(SessionEnd::NoMoreLines)),
            Err(fault) => return (next, Err(fault)),
        }
    }
    unreachable!()
}

/// Writes the buffered answers of a session that is finished.
fn write_last_answers<O: Sink>(
    buffers: &mut Buffers,
    writer: &mut O,
) -> Result<SessionEnd, EngineFault>
    ensures finished { IfOk result (λ how. how ≡ SessionEnd.Finished) }
    ensures whole { OnOk result (Appends (O.contents writer.old) (O.contents writer.new)
        buffers.old.exchange.pending) }
    ensures front { OnErr result (WritesPrefix (O.contents writer.old) (O.contents writer.new)
        buffers.old.exchange.pending) }
    ensures kind { IfErr result (λ fault. fault ≡ EngineFault.WriteFailed) }
    ensures writes { WritesMade (O.took writer.old) (O.took writer.new) }
    ensures broke { OnErr result (LastWriteFailed (O.took writer.old) (O.took writer.new)) }
{
    match buffers.exchange.write(writer) {
        Ok(()) => Ok(SessionEnd::Finished),
        Err(fault) => Err(fault),
    }
}

/// Reads and answers the next line. Returns false at the end of the lines.
fn answer_next_line<
    B: Backend,
    R: Wait + Clock,
    I: Source + Drop,
    O: Sink,
    C: Client<Handle = B::Handle>,
>(
    rt: &R,
    context: &SessionContext<'_, B, C>,
    stand: B::Stand,
    lines: &mut LineReader<I>,
    buffers: &mut Buffers,
    writer: &mut O,
) -> (B::Stand, Result<bool, EngineFault>)
    requires fits { B.fits context.now.backend.now }
    requires may_hold { B.may_hold context.now.backend.now stand }
    requires open { B.finished context.now.backend.now stand → ⊥ }
    ensures may_hold { B.may_hold context.now.backend.now result.0 }
    ensures ok { IfOk result.1 (LineRunStep (AnswersWhileOpen (B.finished context.now.backend.now)
        (B.answers context.now.backend.now (C.gone context.now.client.now))) stand result.0
        (run_moment I.remaining lines.old (O.contents writer.old) buffers.old.exchange.pending)
        (run_moment I.remaining lines.new (O.contents writer.new) buffers.new.exchange.pending)) }
    ensures err { IfErr result.1 (λ fault. LineRunStepFails (AnswersWhileOpen (B.finished context.now.backend.now)
        (B.answers context.now.backend.now (C.gone context.now.client.now))) fault stand
        (run_moment I.remaining lines.old (O.contents writer.old) buffers.old.exchange.pending)
        (run_moment I.remaining lines.new (O.contents writer.new) buffers.new.exchange.pending)) }
    ensures fewer { IfOk result.1 (λ more. more ≡ true → most_lines lines.new < most_lines lines.old) }
    ensures end { IfOk result.1 (λ more. more ≡ false → ReaderEnded lines.new) }
    ensures reads { CallReads I.gave I.moments lines.old lines.new
        (BufferWrittenSince (bytes_left I.remaining lines.old) (O.contents writer.old) buffers.old.exchange.pending)
        result.1 }
    ensures writes { CallWrites (O.took writer.old) (O.took writer.new) result.1 }
{
    let cut = match buffers.exchange.next_line(lines, writer) {
        Ok(cut) => cut,
        Err(fault) => return (stand, Err(fault)),
    };
    if cut == Cut::End {
        return (stand, Ok(false));
    }
    buffers.cut = cut;
    let (stand, answered) = context
        .backend
        .answer(rt, stand, buffers, writer, context.client);
    match answered {
        Ok(()) => {}
        Err(why) => return (stand, Err(why.session_fault())),
    }
    match buffers.exchange.answer(buffers.text.as_bytes(), writer) {
        Ok(()) => (stand, Ok(true)),
        Err(fault) => (stand, Err(fault)),
    }
}
