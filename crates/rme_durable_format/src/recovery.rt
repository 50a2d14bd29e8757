//! Recovery: replaying the bytes of a file.

ghost use Rattle.std.specs.Prelude.{◌≡◌, ◌-◌, ◌^◌, IfErr, IfOk, IfSome, None, OnOk, Some, length, min};
ghost use Rattle.rme_line_io.specs.Cuts.{input_line_of};
ghost use Rattle.rme_line_io.specs.Pieces.{lines_of};
ghost use Rattle.rme_line_io.specs.Readers.{bytes_left};
ghost use Rattle.rme_line_engine.specs.Engines.{engine_state_of};
ghost use Rattle.rme_wire.specs.Requests.{request_read};
ghost use Rattle.rme_durable_format.specs.Headers.{header_values};
ghost use Rattle.rme_durable_format.specs.Lives.{CountsKnownLives, RecoversLives, lives_after_request};
ghost use Rattle.rme_durable_format.specs.Recovery.{AcceptsLine, AcceptsKnownLines, BeginsWithHeader, CountsLines, IsBadLog, RejectsLine, RecoversWorld, RecoveryStopsFor, changes_world, is_log_request, reply_refusal};

use crate::fault::BadLog;
use crate::header::LogHeader;
use crate::header_reader::{first_lives, header_of, header_value};
use crate::lives::count_restart;
use rme_line_engine::{Engine, TalliedWorld};
use rme_line_text::Reply;
use rme_wire::{
    Command, Cut, LineReader, Names, Request, Source, ValueReader, ValueStorage, request_of,
};
use rme_words::{NoMemory, Refusal};
use rme_world::World;
use std::alloc::Global;

/// The contents of a file: the base that earlier epochs left, and the world to which its lines lead.
#[derive(Drop)]
pub struct RecoveredLog {
    pub header: LogHeader,
    pub names: Names,
    pub world: World,
    /// For each worker but the checkpoint worker how often it was restarted, over all epochs.
    pub lives: Vec<u64>,
    /// The number of lines, the header included.
    pub lines: u64,
}

/// An observer of the progress of recovery.
pub trait RecoveryProgress {
    /// This number of lines is read.
    fn read(&self, lines: u64);
}

/// The progress is reported to nobody.
pub struct NoProgress;

impl RecoveryProgress for NoProgress {
    fn read(&self, _lines: u64) {}
}

/// The number of lines between two reports of progress.
const TELLING: u64 = 65_536;

/// Recovers a world from whole lines: the first is a header, the second opens the world, and every other is a command
/// that changes it.
///
/// Each line must be accepted. A command that is refused or changes nothing, and a line that is no command, make the
/// file bad. The lives are those of the header, and one more for each restart among the lines.
pub fn recover_log<P: RecoveryProgress>(
    alloc: Global,
    bytes: &[u8],
    progress: &P,
) -> Result<RecoveredLog, BadLog>
    ensures ok { IfOk result (λ started. RecoversWorld bytes.now started.names started.world) }
    ensures header { IfOk result (λ started. BeginsWithHeader bytes.now started.names started.world.shape
        (header_values started.header)) }
    ensures lives { IfOk result (λ started. RecoversLives bytes.now (header_values started.header).lives
        started.lives.items) }
    ensures lines { IfOk result (λ started. started.lines ≡ min (2 ^ 64 - 1) (length (lines_of bytes.now))) }
    ensures err { IfErr result (λ why. IsBadLog bytes.now why) }
{
    let mut reader = LineReader::new(alloc, bytes)?;
    let mut line = Vec::new(alloc);
    let cut = reader.next_line(&mut line, &Vec::<u8>::new(alloc))?;
    match cut {
        Cut::Line => {}
        Cut::TooLong | Cut::End => return Err(BadLog::Line(1)),
    }
    let mut values = ValueReader::new(alloc);
    let mut room = ValueStorage::new();
    let Some(header) = header_value(&mut values, &mut room, line.as_slice())? else {
        return Err(BadLog::Line(1));
    };
    let mut lives = first_lives(alloc, &header)?;
    let mut engine = Engine::new(alloc)?;
    let lines = replay_lines(alloc, &mut engine, &mut lives, &mut reader, progress)?;
    let Some((names, tallied)) = engine.into_world() else {
        return Err(BadLog::Line(2));
    };
    let TalliedWorld { world, .. } = tallied;
    match header_of(alloc, &names, world.shape(), &header)? {
        Some(header) => Ok(RecoveredLog {
            header,
            names,
            world,
            lives,
            lines,
        }),
        None => Err(BadLog::Line(1)),
    }
}

/// Executes each of the lines after a header, counts the restarts of each worker among them, and answers the number of
/// lines, the header included.
fn replay_lines<R: Source + Drop, P: RecoveryProgress>(
    alloc: Global,
    engine: &mut Engine,
    lives: &mut Vec<u64>,
    reader: &mut LineReader<R>,
    progress: &P,
) -> Result<u64, BadLog>
    ensures ok { OnOk result (AcceptsKnownLines (bytes_left R.remaining reader.old) (engine_state_of engine.old)
        (engine_state_of engine.new)) }
    ensures lives { OnOk result (CountsKnownLives (bytes_left R.remaining reader.old) (engine_state_of engine.old)
        (engine_state_of engine.new) lives.old.items lives.new.items) }
    ensures count { IfOk result (CountsLines (bytes_left R.remaining reader.old)) }
    ensures err { IfErr result (λ why. RecoveryStopsFor (bytes_left R.remaining reader.old) (engine_state_of engine.old)
        why) }
{
    let mut values = ValueReader::new(alloc);
    let mut line = Vec::new(alloc);
    let nobody = Vec::<u8>::new(alloc);
    let mut count: u64 = 1;
    loop {
        let cut = reader.next_line(&mut line, &nobody)?;
        if cut == Cut::End {
            return Ok(count);
        }
        count = count.saturating_add(1);
        let Some(request) = replay_line(alloc, &mut values, engine, cut, line.as_slice())? else {
            return Err(BadLog::Line(count));
        };
        count_restart(lives, request);
        if count % TELLING == 0 {
            progress.read(count);
        }
    }
}

/// Executes a line, and answers its request if it was accepted.
fn replay_line(
    alloc: Global,
    values: &mut ValueReader,
    engine: &mut Engine,
    cut: Cut,
    line: &[u8],
) -> Result<Option<Request>, NoMemory>
    ensures accepts { IfOk result (λ accepted. IfSome accepted (λ _.
        AcceptsLine (engine_state_of engine.old) (input_line_of cut line.now) (engine_state_of engine.new))) }
    ensures request { IfOk result (λ accepted. IfSome accepted (λ request. Some request
        ≡ request_read (engine_state_of engine.old).names (input_line_of cut line.now))) }
    ensures rejects { IfOk result (λ accepted. accepted ≡ None
        → RejectsLine (engine_state_of engine.old)
        (request_read (engine_state_of engine.old).names (input_line_of cut line.now))) }
{
    if cut == Cut::TooLong {
        return Ok(None);
    }
    let Some(request) = request_of(alloc, values, engine.names(), line)? else {
        return Ok(None);
    };
    if !is_log_request(&request) {
        return Ok(None);
    }
    let reply = engine.obey_request(&request);
    match reply_refusal(&reply) {
        None => Ok(Some(request)),
        Some(Refusal::NoMemory) => Err(NoMemory),
        Some(_) => Ok(None),
    }
}

/// The refusal of a line, if it was refused.
fn reply_refusal(reply: &Reply) -> Option<Refusal>
    ensures { result ≡ reply_refusal reply.now }
{
    match reply {
        Reply::Refused(why) => Some(*why),
        _ => None,
    }
}

/// Whether a file may have this request: it opens a world, or changes it.
fn is_log_request(request: &Request) -> bool
    ensures { result ≡ is_log_request request.now }
{
    match request {
        Request::Open(_) => true,
        Request::Load(_) => false,
        Request::World(command) => changes_world(*command),
    }
}

/// Whether a command changes a world.
fn changes_world(command: Command) -> bool
    ensures { result ≡ changes_world command }
{
    match command {
        Command::Submit(..)
        | Command::Step(_)
        | Command::Walk(_)
        | Command::Crash(_)
        | Command::Restart(_)
        | Command::Withdraw(_) => true,
        Command::Owner(_)
        | Command::Cells(_)
        | Command::Last(_)
        | Command::History
        | Command::Report
        | Command::Save => false,
    }
}
