//! Options and arguments, and how clap's are made of them.
//!
//! Each is a value of `ArgumentSpec`, from which a few functions make clap's arguments, since each function that names
//! a type of clap takes seconds to check.

use clap::builder::ValueParser;
use clap::{Arg, ArgAction, Command, value_parser};
use std::alloc::{AllocError, Global};

/// An option or an argument of a command.
#[derive(Clone, Copy)]
pub(crate) struct ArgumentSpec<'a> {
    pub(crate) name: &'a str,
    pub(crate) help: &'a str,
    pub(crate) kind: ArgumentKind<'a>,
    pub(crate) value: ArgumentValue,
    pub(crate) presence: ArgumentPresence<'a>,
    /// The options that it requires.
    pub(crate) needs: &'a [&'a str],
    /// The options with which it conflicts.
    pub(crate) conflicts: &'a [&'a str],
}

/// Whether it is required.
#[derive(Clone, Copy)]
pub(crate) enum ArgumentPresence<'a> {
    Optional,
    Required,
    /// It is required unless one of these options is given.
    RequiredWithout(&'a [&'a str]),
}

/// The kind of an argument.
#[derive(Clone, Copy)]
pub(crate) enum ArgumentKind<'a> {
    /// An option without a value, which also has this letter.
    Flag(char),
    /// An option with a value, which help names like this.
    Option(&'a str),
    /// An option whose values are separated by commas; help names them like this.
    List(&'a str),
    /// An option that may be given several times, each time with a value, which help names like this.
    Repeated(&'a str),
    /// An argument.
    Argument,
    /// At least this number of arguments.
    Arguments(usize),
}

/// The type of its value.
#[derive(Clone, Copy)]
pub(crate) enum ArgumentValue {
    Text,
    Number,
    Port,
    /// The port of a server that listens, 1 to 65535.
    ServerPort,
    /// 1 to 1000000.
    Count,
    /// The number of a line, 1 to 4294967295.
    Line,
    /// `always` or `never`.
    Sync,
    /// `keep` or `withdraw`.
    Waiting,
    /// What a server is asked.
    AskWord,
}

/// The values of the sync policy.
const SYNCS: &[&str] = &["always", "never"];

/// What becomes of waiting jobs.
const WAITING: &[&str] = &["keep", "withdraw"];

/// What a server is asked.
const ASK_WORDS: &[&str] = &[
    "status", "owner", "cells", "ping", "finish", "top", "create", "drop", "spaces",
];

/// An argument that is optional, and takes a text or nothing.
pub(crate) fn optional<'a>(
    name: &'a str,
    kind: ArgumentKind<'a>,
    help: &'a str,
) -> ArgumentSpec<'a> {
    ArgumentSpec {
        name,
        help,
        kind,
        value: ArgumentValue::Text,
        presence: ArgumentPresence::Optional,
        needs: &[],
        conflicts: &[],
    }
}

/// An argument that is required.
pub(crate) fn required<'a>(
    kind: ArgumentKind<'a>,
    value: ArgumentValue,
    name: &'a str,
    help: &'a str,
) -> ArgumentSpec<'a> {
    ArgumentSpec {
        value,
        presence: ArgumentPresence::Required,
        ..optional(name, kind, help)
    }
}

/// An option with a text, which help names like this.
pub(crate) fn text_option<'a>(name: &'a str, shown: &'a str, help: &'a str) -> ArgumentSpec<'a> {
    optional(name, ArgumentKind::Option(shown), help)
}

/// An option whose value has this type.
pub(crate) fn option_of<'a>(
    value: ArgumentValue,
    name: &'a str,
    shown: &'a str,
    help: &'a str,
) -> ArgumentSpec<'a> {
    ArgumentSpec {
        value,
        ..text_option(name, shown, help)
    }
}

/// The option of the commands that answer lines.
pub(crate) fn why<'a>() -> ArgumentSpec<'a> {
    optional("why", ArgumentKind::Flag('w'), rme_cli_help::why_help())
}

/// A command with these texts and arguments.
pub(crate) fn command_of<'a>(
    alloc: Global,
    name: &'a str,
    about: &'a str,
    lines: &'a str,
    words: &[ArgumentSpec<'a>],
) -> Result<Command<'a>, AllocError> {
    let command = with_texts(Command::new(alloc, name), about, lines);
    with_arguments(alloc, command, words)
}

/// The command with these arguments behind those that it has.
pub(crate) fn with_arguments<'a>(
    alloc: Global,
    mut command: Command<'a>,
    words: &[ArgumentSpec<'a>],
) -> Result<Command<'a>, AllocError> {
    for word in words {
        command = with_argument(alloc, command, word)?;
    }
    Ok(command)
}

/// The command with the arguments of each group behind those that it has.
pub(crate) fn with_groups<'a>(
    alloc: Global,
    mut command: Command<'a>,
    groups: &[&[ArgumentSpec<'a>]],
) -> Result<Command<'a>, AllocError> {
    for group in groups {
        command = with_arguments(alloc, command, group)?;
    }
    Ok(command)
}

fn with_argument<'a>(
    alloc: Global,
    command: Command<'a>,
    word: &ArgumentSpec<'a>,
) -> Result<Command<'a>, AllocError> {
    command.arg(arg_of(alloc, word)?)
}

/// The command with these texts.
fn with_texts<'a>(command: Command<'a>, about: &'a str, lines: &'a str) -> Command<'a> {
    command.about(about).after_help(lines)
}

/// The argument in clap's form.
fn arg_of<'a>(alloc: Global, word: &ArgumentSpec<'a>) -> Result<Arg<'a>, AllocError> {
    let arg = demanded(Arg::new(alloc, word.name).help(word.help), word.presence)?;
    valued(given(arg, word), word.value)
        .requires_all(word.needs)?
        .conflicts_with_all(word.conflicts)
}

/// The argument, required or not.
fn demanded<'a>(arg: Arg<'a>, presence: ArgumentPresence<'a>) -> Result<Arg<'a>, AllocError> {
    match presence {
        ArgumentPresence::Optional => Ok(arg),
        ArgumentPresence::Required => Ok(arg.required(true)),
        ArgumentPresence::RequiredWithout(others) => arg.required_unless_present_any(others),
    }
}

/// The argument with its kind.
fn given<'a>(arg: Arg<'a>, word: &ArgumentSpec<'a>) -> Arg<'a> {
    let arg = arg.action(action_of(word.kind));
    match word.kind {
        ArgumentKind::Flag(letter) => arg.long(word.name).short(letter),
        ArgumentKind::Option(value) | ArgumentKind::Repeated(value) => {
            named(arg, word.name, value)
        }
        ArgumentKind::List(value) => named(arg, word.name, value).value_delimiter(','),
        ArgumentKind::Argument => arg,
        ArgumentKind::Arguments(least) => arg.num_args(least..),
    }
}

/// What clap does with an argument of this kind.
fn action_of(kind: ArgumentKind) -> ArgAction {
    match kind {
        ArgumentKind::Flag(_) => ArgAction::SetTrue,
        ArgumentKind::Option(_) | ArgumentKind::List(_) | ArgumentKind::Argument => ArgAction::Set,
        ArgumentKind::Repeated(_) | ArgumentKind::Arguments(_) => ArgAction::Append,
    }
}

/// The argument as an option of this name, whose value help names like this.
fn named<'a>(arg: Arg<'a>, name: &'a str, value: &'a str) -> Arg<'a> {
    arg.long(name).value_name(value)
}

/// The argument with this type of value.
fn valued(arg: Arg<'_>, value: ArgumentValue) -> Arg<'_> {
    match parser_of(value) {
        Some(parser) => arg.value_parser(parser),
        None => arg,
    }
}

/// How clap checks a value of this type, if not by the argument's action.
fn parser_of<'a>(value: ArgumentValue) -> Option<ValueParser<'a>> {
    match value {
        ArgumentValue::Text => None,
        ArgumentValue::Number => Some(value_parser!(u32)),
        ArgumentValue::Port => Some(value_parser!(u16)),
        ArgumentValue::ServerPort => Some(value_parser!(u16).range(1..=65_535)),
        ArgumentValue::Count => Some(value_parser!(u32).range(1..=1_000_000)),
        ArgumentValue::Line => Some(value_parser!(u64).range(1..=4_294_967_295)),
        ArgumentValue::Sync => Some(ValueParser::Names(SYNCS)),
        ArgumentValue::Waiting => Some(ValueParser::Names(WAITING)),
        ArgumentValue::AskWord => Some(ValueParser::Names(ASK_WORDS)),
    }
}
