//! The command line of `rme`: its words, the tasks that they request, and the program's exit status.
//!
//! The crate stands on clap, which parses the words, on rme_cli_help, which has the texts of help, and on
//! rme_cli_messages, which has the faults and their statuses. It is separate because code that names clap's types is slow
//! to check. The programs use `read_words` and `finish_process`. Begin with `tasks.rt`, then `parsing.rt`; `commands.rt`
//! has the commands, `serve_arguments.rt` and `ask_arguments.rt` have the words of the two largest, and
//! `cluster_arguments.rt` has those of a log in a cluster.
#![tactic(auto)]

mod arguments;
mod ask_arguments;
mod ask_words;
mod cluster_arguments;
mod cluster_words;
mod command_line;
mod commands;
mod mistake;
mod parsing;
mod serve_arguments;
mod tasks;

pub use command_line::{ParsedCommandLine, finish_process, read_words};
pub use parsing::task_of;
pub use tasks::{
    AnswerForm, AskRequest, AskTask, CliTask, CreateTask, Diagnostics, DrawTask, DurableServeTask,
    EtcdLogin, EtcdPlace, FinishTask, LeaderSetting, LineTask, ListenAddresses, LookTask,
    MoveDirection, MoveTask, OutputFormat, ReplicatedServeTask, RunImages, ServeTask,
    ServerAddress, ServerLog, SpacesServeTask, SyncPolicy, ThreadsTask, WaitingPolicy,
};
