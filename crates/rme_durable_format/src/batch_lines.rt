//! The log lines of an order.

ghost use Rattle.std.specs.Prelude.{◌≡◌, IfErr, OnOk, length, string_bytes};
ghost use Rattle.rme_durable_format.specs.BatchCommands.{start_commands, batch_commands, crash_commands, crash_commands_from, step_commands};
ghost use Rattle.rme_durable_format.specs.CommandLines.{AppendsCommands};
ghost use Rattle.rme_durable_format.specs.CommandTexts.{OneHasNoLine};
ghost use Rattle.rme_durable_format.specs.declared.fault.LineFault.TheVariants as LineFault;

use crate::command_writer::CommandWriter;
use crate::fault::LineFault;
use rme_session_world::{BatchStart, EventBatch};
use rme_wire::{Command, Names, Walk};
use rme_world::World;
use std::alloc::Global;

/// Appends the lines for the events of an event batch, in order, each with its newline.
///
/// After an error the text is of no use.
pub fn append_batch(
    out: &mut String,
    writer: &mut CommandWriter,
    names: &Names,
    batch: EventBatch,
) -> Result<(), LineFault>
    ensures written { OnOk result (AppendsCommands names.now (string_bytes out.old) (batch_commands batch)
        (string_bytes out.new)) }
    ensures none { IfErr result (λ why. why ≡ LineFault.NoLine → OneHasNoLine names.now (batch_commands batch)) }
{
    append_start(out, writer, names, batch.worker, batch.begins)?;
    append_steps(out, writer, names, batch.worker, batch.steps)?;
    append_crash(out, writer, names, batch.worker, batch.falls)
}

/// Appends the line of an event batch's first event, if that is more than a step.
fn append_start(
    out: &mut String,
    writer: &mut CommandWriter,
    names: &Names,
    worker: u32,
    begins: BatchStart,
) -> Result<(), LineFault>
    ensures written { OnOk result (AppendsCommands names.now (string_bytes out.old) (start_commands worker begins)
        (string_bytes out.new)) }
    ensures none { IfErr result (λ why. why ≡ LineFault.NoLine
        → OneHasNoLine names.now (start_commands worker begins)) }
{
    match begins {
        BatchStart::Restart => writer.push(out, names, Command::Restart(worker)),
        BatchStart::Submit(job) => writer.push(out, names, Command::Submit(worker, job)),
        BatchStart::Withdraw => writer.push(out, names, Command::Withdraw(worker)),
        BatchStart::GoOn => Ok(()),
    }
}

/// Appends the line of the own steps, if there are any.
fn append_steps(
    out: &mut String,
    writer: &mut CommandWriter,
    names: &Names,
    worker: u32,
    steps: u32,
) -> Result<(), LineFault>
    ensures written { OnOk result (AppendsCommands names.now (string_bytes out.old) (step_commands worker steps)
        (string_bytes out.new)) }
    ensures none { IfErr result (λ why. why ≡ LineFault.NoLine
        → OneHasNoLine names.now (step_commands worker steps)) }
{
    if steps == 0 {
        return Ok(());
    }
    let walk = Walk {
        worker,
        until: None,
        max: steps,
    };
    writer.push(out, names, Command::Walk(walk))
}

/// Appends the line of a crash, if there is one.
fn append_crash(
    out: &mut String,
    writer: &mut CommandWriter,
    names: &Names,
    worker: u32,
    falls: bool,
) -> Result<(), LineFault>
    ensures written { OnOk result (AppendsCommands names.now (string_bytes out.old) (crash_commands worker falls)
        (string_bytes out.new)) }
    ensures err { IfErr result (λ why. why ≡ LineFault.NoMemory) }
{
    if !falls {
        return Ok(());
    }
    writer.push(out, names, Command::Crash(worker))
}

/// Appends a crash line for each worker that is up.
///
/// After an error the text is of no use.
pub fn append_crashes(
    out: &mut String,
    alloc: Global,
    names: &Names,
    world: &World,
) -> Result<(), LineFault>
    ensures written { OnOk result (AppendsCommands names.now (string_bytes out.old)
        (crash_commands_from 0 world.now.privates) (string_bytes out.new)) }
    ensures err { IfErr result (λ why. why ≡ LineFault.NoMemory) }
{
    let mut writer = CommandWriter::new(alloc);
    for worker in 0..worker_count(world) {
        append_crash(
            out,
            &mut writer,
            names,
            worker,
            world.known(worker).is_some(),
        )?;
    }
    Ok(())
}

/// The number of workers of a world, up or down.
fn worker_count(world: &World) -> u32
    ensures { result ≡ length world.now.privates }
{
    let _ = world.known(0);
    world.shape().workers
}
