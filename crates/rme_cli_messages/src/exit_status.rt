//! The meaning of the exit statuses.

/// The exit of a program, by its status.
#[derive(Clone, Copy)]
pub enum ExitStatus {
    Done,
    AnswerIsNo,
    BadArguments,
    ReadFailed,
    WriteFailed,
    NoMemory,
    SocketFailed,
    NoThread,
}

/// The greatest exit status.
pub const LAST_STATUS: u8 = 7;

impl ExitStatus {
    ghost use Rattle.std.specs.Prelude.{◌≡◌, ◌≤◌, IfSome, IsSome};
    ghost use Rattle.rme_cli_messages.specs.Explanations.{exit_code_of};
    ghost use Rattle.rme_cli_messages.specs.Explanations.{exit_status_name, exit_status_when, exit_status_advice};

    /// The exit of a status, or `None` for a status outside 0 to `LAST_STATUS`.
    pub fn of_status(status: u8) -> Option<ExitStatus>
        ensures some { IfSome result (λ ending. exit_code_of ending ≡ status) }
        ensures listed { status ≤ 7 → IsSome result }
    {
        match status {
            0 => Some(ExitStatus::Done),
            1 => Some(ExitStatus::AnswerIsNo),
            2 => Some(ExitStatus::BadArguments),
            3 => Some(ExitStatus::ReadFailed),
            4 => Some(ExitStatus::WriteFailed),
            5 => Some(ExitStatus::NoMemory),
            6 => Some(ExitStatus::SocketFailed),
            7 => Some(ExitStatus::NoThread),
            _ => None,
        }
    }

    /// Its name, for `rme explain`.
    pub fn name(&self) -> &'static str
        ensures { result.now ≡ exit_status_name self.now }
    {
        match self {
            ExitStatus::Done => "Done",
            ExitStatus::AnswerIsNo => "AnswerIsNo",
            ExitStatus::BadArguments => "BadArguments",
            ExitStatus::ReadFailed => "ReadFailed",
            ExitStatus::WriteFailed => "WriteFailed",
            ExitStatus::NoMemory => "NoMemory",
            ExitStatus::SocketFailed => "SocketFailed",
            ExitStatus::NoThread => "NoThread",
        }
    }

    /// When a program has this exit status.
    pub fn when(&self) -> &'static str
        ensures { result.now ≡ exit_status_when self.now }
    {
        match self {
            ExitStatus::Done => "what was asked for was done",
            ExitStatus::AnswerIsNo => {
                "rme check and rme draw: the verdict is no or bad; rme threads: a worker was not done; rme serve: a worker was not given back; rme look: --check says no; rme ask: the server refused, or gave no answer"
            }
            ExitStatus::BadArguments =>
                "words of the command line, or a file or a log that they name, are refused",
            ExitStatus::ReadFailed => "reading failed",
            ExitStatus::WriteFailed => "writing failed",
            ExitStatus::NoMemory => "memory ran out",
            ExitStatus::SocketFailed =>
                "rme serve can't listen or accept a connection; rme ask can't connect; rme serve, rme look, rme move: no node of the cluster answers",
            ExitStatus::NoThread => "a connection can't have a thread",
        }
    }

    /// Its meaning and what the caller should do, in two or three sentences.
    pub fn advice(&self) -> &'static str
        ensures { result.now ≡ exit_status_advice self.now }
    {
        match self {
            ExitStatus::Done => {
                "All input was read and all output written. A line that was refused changes nothing in it: its answer alone says so."
            }
            ExitStatus::AnswerIsNo => {
                "Nothing went wrong with the program: this is its answer. After rme check and rme draw the verdict names the first line that the abstract machine does not have, or that is no event line; mend what wrote the transcript, or find out what it did there. After rme look --check it names the line that no server would accept. After rme ask the standard error names the refusal, or says what the server did."
            }
            ExitStatus::BadArguments => {
                "Nothing was read and nothing done. The standard error says what is wrong; `rme --help` and the --help of each command say what is right. With etcd:NAME rme look and rme move end so too where there is no such log, or the cluster refuses the user; and rme move where a server has the state, or something has its new name."
            }
            ExitStatus::ReadFailed => {
                "The standard input, or the file of --image, can't be read. What came before was obeyed and answered whole. Mend the input and run again; a world that --save would have saved is not saved. rme serve, rme look and rme move end so too where the file of a state can't be read, or what answers at --engine is no etcd."
            }
            ExitStatus::WriteFailed => {
                "The standard output, the file of --save or that of --state took no more; a front of the output was written, and nothing was answered that --state does not keep. Look for a full disk or a reader that went away, and run again. With etcd:NAME rme serve and rme move end so too where the cluster has no room, and rme serve where another server leads now, or the cluster does not answer. A state that rme move did not move stays where it is."
            }
            ExitStatus::NoMemory => {
                "There was no room for a line, an answer or the world itself. All answers to the lines before were written whole. Give the program more memory, or give it less to hold."
            }
            ExitStatus::SocketFailed => {
                "Another program may have the port: choose another --port, or 0 for a free one, and start again. Or the system allowed no more open sockets for a while: serve fewer --at-once, or raise the limit of open files. After rme ask no server listens there: start one, or name its --port or its --socket. With etcd:NAME no node of --engine answered rme serve, rme look or rme move within --patience: see whether the nodes run, and can be reached from here."
            }
            ExitStatus::NoThread => {
                "The system allowed no more threads, and the connection was closed. The other sessions went on to their ends. Serve fewer --at-once, or raise the limit of threads."
            }
        }
    }
}
