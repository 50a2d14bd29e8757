//! The command line: each command of the program, with its help, options and arguments.

use crate::arguments::{
    ArgumentKind, ArgumentSpec, ArgumentValue, command_of, option_of, optional, required,
    text_option, why, with_arguments, with_groups,
};
use crate::{ask_arguments, cluster_arguments, serve_arguments};
use clap::Command;
use std::alloc::{AllocError, Global};

/// A command of the program.
#[derive(Clone, Copy)]
enum CommandName {
    Run,
    Check,
    Draw,
    Explain,
    Threads,
    Serve,
    Look,
    Move,
    Ask,
}

/// The commands, in the order of help.
const COMMANDS: [CommandName; 9] = [
    CommandName::Run,
    CommandName::Check,
    CommandName::Draw,
    CommandName::Explain,
    CommandName::Threads,
    CommandName::Serve,
    CommandName::Look,
    CommandName::Move,
    CommandName::Ask,
];

/// The command line of the program.
pub fn command<'a>(alloc: Global) -> Result<Command<'a>, AllocError> {
    let mut program = program(alloc)?;
    for named in COMMANDS {
        program = program.subcommand(command_named(alloc, named)?)?;
    }
    Ok(program)
}

/// One of its commands.
fn command_named<'a>(alloc: Global, named: CommandName) -> Result<Command<'a>, AllocError> {
    match named {
        CommandName::Run => run_command(alloc),
        CommandName::Check => {
            command_of(
                alloc,
                "check",
                rme_cli_help::check_about(),
                rme_cli_help::check_lines(),
                &[],
            )
        }
        CommandName::Draw => draw_command(alloc),
        CommandName::Explain => explain_command(alloc),
        CommandName::Threads => threads_command(alloc),
        CommandName::Serve => serve_command(alloc),
        CommandName::Look => look_command(alloc),
        CommandName::Move => move_command(alloc),
        CommandName::Ask => ask_command(alloc),
    }
}

/// The program, with no command yet.
fn program<'a>(alloc: Global) -> Result<Command<'a>, AllocError> {
    let program = asking(command_of(
        alloc,
        "rme",
        rme_cli_help::about(),
        rme_cli_help::example(),
        &[],
    )?);
    program.version(rme_cli_help::version()).bin_name("rme")
}

/// The program, which requires a command.
fn asking(program: Command<'_>) -> Command<'_> {
    program
        .subcommand_required(true)
        .arg_required_else_help(true)
}

fn run_command<'a>(alloc: Global) -> Result<Command<'a>, AllocError> {
    let words = run_arguments();
    command_of(
        alloc,
        "run",
        rme_cli_help::run_about(),
        rme_cli_help::run_lines(),
        &words,
    )
}

fn run_arguments<'a>() -> [ArgumentSpec<'a>; 5] {
    [
        ArgumentSpec {
            conflicts: &["image", "save"],
            ..optional(
                "transcript",
                ArgumentKind::Flag('t'),
                rme_cli_help::transcript_help(),
            )
        },
        ArgumentSpec {
            needs: &["locks"],
            ..text_option("image", "FILE", rme_cli_help::image_help())
        },
        ArgumentSpec {
            needs: &["image"],
            ..optional(
                "locks",
                ArgumentKind::List("NAMES"),
                rme_cli_help::locks_help(),
            )
        },
        text_option("save", "FILE", rme_cli_help::save_help()),
        why(),
    ]
}

fn draw_command<'a>(alloc: Global) -> Result<Command<'a>, AllocError> {
    let words = draw_arguments();
    command_of(
        alloc,
        "draw",
        rme_cli_help::draw_about(),
        rme_cli_help::draw_lines(),
        &words,
    )
}

fn draw_arguments<'a>() -> [ArgumentSpec<'a>; 3] {
    [
        option_of(
            ArgumentValue::Line,
            "from",
            "LINE",
            rme_cli_help::draw_from_help(),
        ),
        option_of(
            ArgumentValue::Line,
            "to",
            "LINE",
            rme_cli_help::draw_to_help(),
        ),
        optional(
            "state",
            ArgumentKind::Flag('s'),
            rme_cli_help::draw_state_help(),
        ),
    ]
}

fn explain_command<'a>(alloc: Global) -> Result<Command<'a>, AllocError> {
    let words = [optional(
        "CODE",
        ArgumentKind::Arguments(0),
        "The number or the name of a refusal or of a status; without it each is named",
    )];
    command_of(
        alloc,
        "explain",
        rme_cli_help::explain_about(),
        rme_cli_help::explain_lines(),
        &words,
    )
}

fn threads_command<'a>(alloc: Global) -> Result<Command<'a>, AllocError> {
    let words = threads_arguments();
    command_of(
        alloc,
        "threads",
        rme_cli_help::threads_about(),
        rme_cli_help::threads_lines(),
        &words,
    )
}

fn threads_arguments<'a>() -> [ArgumentSpec<'a>; 4] {
    [
        required(
            ArgumentKind::Argument,
            ArgumentValue::Number,
            "WORKERS",
            "How many workers, 1 to 256",
        ),
        required(
            ArgumentKind::Argument,
            ArgumentValue::Number,
            "JOBS",
            "How many jobs each of them makes, 1 to 1000000",
        ),
        ArgumentSpec {
            value: ArgumentValue::Number,
            ..optional(
                "FALL",
                ArgumentKind::Arguments(0),
                "Each worker falls after this number of own steps; the numbers rise",
            )
        },
        optional(
            "quiet",
            ArgumentKind::Flag('q'),
            "Shows no progress on a terminal",
        ),
    ]
}

fn serve_command<'a>(alloc: Global) -> Result<Command<'a>, AllocError> {
    let sizes = serve_arguments::sizes();
    let addresses = serve_arguments::addresses();
    let files = serve_arguments::files();
    let policies = serve_arguments::policies();
    let sessions = serve_arguments::sessions();
    let cluster = cluster_arguments::cluster();
    let leader = cluster_arguments::leader();
    let others = serve_arguments::others();
    let groups: [&[ArgumentSpec]; 8] = [
        &sizes, &addresses, &files, &policies, &sessions, &cluster, &leader, &others,
    ];
    let lines = rme_cli_help::serve_lines();
    let command = command_of(alloc, "serve", rme_cli_help::serve_about(), lines, &[])?;
    with_groups(alloc, command, &groups)
}

fn look_command<'a>(alloc: Global) -> Result<Command<'a>, AllocError> {
    let words = look_arguments();
    let command = command_of(
        alloc,
        "look",
        rme_cli_help::look_about(),
        rme_cli_help::look_lines(),
        &words,
    )?;
    with_arguments(alloc, command, &cluster_arguments::cluster())
}

fn look_arguments<'a>() -> [ArgumentSpec<'a>; 5] {
    [
        ArgumentSpec {
            conflicts: &["check", "json", "lines"],
            ..optional(
                "all",
                ArgumentKind::Flag('a'),
                "Shows all workers, also those that are down and ready",
            )
        },
        ArgumentSpec {
            conflicts: &["check", "lines"],
            ..optional(
                "json",
                ArgumentKind::Flag('j'),
                "Prints it as the order `status` is answered",
            )
        },
        ArgumentSpec {
            conflicts: &["lines"],
            ..optional(
                "check",
                ArgumentKind::Flag('c'),
                "Says whether all of it can be read",
            )
        },
        optional(
            "lines",
            ArgumentKind::Flag('l'),
            "Prints the bytes of its state file: a copy to keep",
        ),
        required(
            ArgumentKind::Argument,
            ArgumentValue::Text,
            "FILE",
            "The file that `rme serve --state` keeps, or that `rme_create` made for processes; or etcd:NAME",
        ),
    ]
}

fn move_command<'a>(alloc: Global) -> Result<Command<'a>, AllocError> {
    let words = [
        required(
            ArgumentKind::Argument,
            ArgumentValue::Text,
            "FROM",
            "The state that is moved: a FILE, or etcd:NAME",
        ),
        required(
            ArgumentKind::Argument,
            ArgumentValue::Text,
            "TO",
            "Its new place, where nothing is yet: etcd:NAME, or a FILE",
        ),
    ];
    let command = command_of(
        alloc,
        "move",
        rme_cli_help::move_about(),
        rme_cli_help::move_lines(),
        &words,
    )?;
    with_arguments(alloc, command, &cluster_arguments::cluster())
}

fn ask_command<'a>(alloc: Global) -> Result<Command<'a>, AllocError> {
    let server = ask_arguments::server();
    let of_finish = ask_arguments::of_finish();
    let of_others = ask_arguments::of_top_and_create();
    let words = ask_arguments::words();
    let groups: [&[ArgumentSpec]; 4] = [&server, &of_finish, &of_others, &words];
    let lines = rme_cli_help::ask_lines();
    let command = command_of(alloc, "ask", rme_cli_help::ask_about(), lines, &[])?;
    with_groups(alloc, command, &groups)
}
