//! The command itself.

ghost use Rattle.std.specs.Prelude.{◌≡◌, ◌↔◌};
ghost use Rattle.rme_cli_ask.specs.declared.ask_end.AskEnd.TheVariants.{Done};

use crate::ask_end::{AskEnd, AskFault};
use crate::console::Console;
use crate::dialogue::Dialogue;
use crate::secret::{SecretFault, read_secret};
use crate::servers::connect_first;
use crate::top::TopView;
use rme_ask_client::{ClientError, ClientRequest, Conversation};
use rme_cli_messages::CliFault;
use rme_cli_options::{AnswerForm, AskRequest, AskTask};
use rme_line_io::{Sink, Source};
use std::io::IsTerminal;
use std::sync::Wait;
use std::time::Duration;
use std::{io, thread};

/// The exit status if the file of a secret cannot be read.
const SECRET_UNREAD: u8 = 3;

/// The number of times that `top` tries its servers after it has lost one, before it ends.
const TOP_TRIES: u32 = 20;

/// The pause before each of these tries, in milliseconds.
const PAUSE: u64 = 500;

/// Asks a server over the standard streams of the process, and answers the status.
pub fn run_ask<R: Wait>(rt: &HostRuntime, threads: &R, task: AskTask) -> Result<u8, CliFault> {
    let secret = match secret_of(rt, &task.key_file) {
        Ok(secret) => secret,
        Err(SecretFault::Cli(fault)) => return Err(fault),
        Err(SecretFault::Unread(why)) => {
            let _ = eprintln!(rt; "rme: --key-file: {why}");
            return Ok(SECRET_UNREAD);
        }
    };
    let mut tables: u32 = 0;
    let mut tries: u32 = 0;
    for _ in threads.forever() {
        let before = tables;
        let ended = ask_first(rt, threads, &task, &secret, &mut tables);
        tries = if tables > before {
            0
        } else {
            tries.saturating_add(1)
        };
        let may_go_on = tables > 0 && tries < TOP_TRIES && task.servers.len() > 1;
        if !may_go_on || !is_lost(&ended) {
            return Ok(exit_status(end_of(rt, ended)?));
        }
        thread::sleep(rt, Duration::from_millis(PAUSE));
    }
    Ok(exit_status(AskEnd::Failed))
}

/// Whether a command ended since its server is gone, or since no server is there.
fn is_lost(ended: &Result<AskEnd, AskFault>) -> bool {
    match ended {
        Err(AskFault::Server(error)) => matches!(
            error,
            ClientError::Ended | ClientError::NotSent | ClientError::NotReceived
        ),
        Err(AskFault::Cli(CliFault::NoServer(_))) => true,
        _ => false,
    }
}

/// Asks the first server that lets this client in. `tables` is the number of tables that `top` has printed.
fn ask_first<P: Wait>(
    rt: &HostRuntime,
    threads: &P,
    task: &AskTask,
    secret: &Option<String>,
    tables: &mut u32,
) -> Result<AskEnd, AskFault> {
    let stream = connect_first(rt, task.servers.as_slice())?;
    let console = Console {
        out: io::writer(rt),
        errors: rt.stderr(),
        form: form_of(task),
    };
    let mut dialogue = Dialogue {
        alloc: rt.alloc(),
        talk: Conversation::new(rt.alloc(), &stream, &stream)?,
        console,
    };
    if !begin(&mut dialogue, secret, &task.space)? {
        return Ok(AskEnd::Refused);
    }
    perform(rt, threads, &mut dialogue, &task.request, tables)
}

/// The secret of the file that was named, if one was.
fn secret_of(rt: &HostRuntime, key_file: &Option<String>) -> Result<Option<String>, SecretFault> {
    match key_file {
        Some(path) => Ok(Some(read_secret(rt, path.as_str())?)),
        None => Ok(None),
    }
}

/// The form of the answers: lines are answered by lines.
fn form_of(task: &AskTask) -> AnswerForm {
    match task.request {
        AskRequest::Lines => AnswerForm::Json,
        _ => task.form,
    }
}

/// Sends the secret and uses the space that were given. Answers whether the server accepted both.
fn begin<R: Source + Drop, W: Sink + Drop, O: Sink + Drop, E: Sink + Drop>(
    dialogue: &mut Dialogue<R, W, O, E>,
    secret: &Option<String>,
    space: &Option<String>,
) -> Result<bool, AskFault> {
    Ok(dialogue.begin(secret)? && dialogue.use_space(space)?)
}

/// The exit status of the program: 0 exactly if what was asked for was done.
fn exit_status(end: AskEnd) -> u8
    ensures { (result ≡ 0) ↔ (end ≡ Done) }
{
    end.status()
}

/// Does what is asked.
fn perform<P: Wait, R: Source + Drop, W: Sink + Drop, O: Sink + Drop, E: Sink + Drop>(
    rt: &HostRuntime,
    threads: &P,
    dialogue: &mut Dialogue<R, W, O, E>,
    request: &AskRequest,
    tables: &mut u32,
) -> Result<AskEnd, AskFault> {
    match request {
        AskRequest::Lines => dialogue.relay_lines(rt.stdin()),
        AskRequest::Status => dialogue.ask_and_show(ClientRequest::Status),
        AskRequest::Ping => dialogue.ask_and_show(ClientRequest::Ping),
        AskRequest::Owner(lock) => dialogue.ask_and_show(ClientRequest::Owner(lock.as_str())),
        AskRequest::Cells(lock) => dialogue.ask_and_show(ClientRequest::Cells(lock.as_str())),
        AskRequest::CreateSpace(task) => dialogue.create_space(task),
        AskRequest::DropSpace(space) => dialogue.ask_and_show(ClientRequest::DropSpace(
            space.as_str(),
        )),
        AskRequest::Spaces => dialogue.list_spaces(threads),
        AskRequest::Finish(task) => dialogue.finish(threads, *task),
        AskRequest::Top(count) => {
            let view = TopView {
                count: *count,
                is_terminal: rt.stdout().is_terminal(),
            };
            dialogue.top(rt, threads, view, tables)
        }
    }
}

/// The end of a command that may have ended early, which is told on the standard error if the server is the reason.
fn end_of(rt: &HostRuntime, ended: Result<AskEnd, AskFault>) -> Result<AskEnd, CliFault> {
    match ended {
        Ok(end) => Ok(end),
        Err(AskFault::Cli(fault)) => Err(fault),
        Err(AskFault::Server(ClientError::NoMemory)) => Err(CliFault::NoMemory),
        Err(AskFault::Server(error)) => {
            let _ = eprintln!(rt; "rme: {error}");
            Ok(AskEnd::Failed)
        }
    }
}
