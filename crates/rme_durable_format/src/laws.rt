//! Theorems on all event batches and their lines, each the contract of a function that does nothing.

ghost use Rattle.std.specs.Prelude.{◌≡◌, ◌<◌, ◌^◌, ℕ, List, None, true};
ghost use Rattle.rme_script.specs.declared.job.Job.{Job};
ghost use Rattle.rme_words.specs.declared.shape.Shape.{Shape};
ghost use Rattle.rme_program.specs.declared.event.Event.{Event};
ghost use Rattle.rme_line_text.specs.declared.reply.Reply.{Reply};
ghost use Rattle.rme_wire.specs.declared.command.Command.{Command};
ghost use Rattle.rme_wire.specs.declared.command.Command.TheVariants.{Submit};
ghost use Rattle.rme_world.specs.Opening.{world_at_opening};
ghost use Rattle.rme_world.specs.WorldViews.{WorldView};
ghost use Rattle.rme_line_engine.specs.CommandEffects.{CommandEffect};
ghost use Rattle.rme_line_engine.specs.declared.tallied.TalliedWorld.{TalliedWorld};
ghost use Rattle.rme_durable_format.specs.CommandLines.{IsCommandLine};
ghost use Rattle.rme_durable_format.specs.CommandRuns.{IsCommandRun};
ghost use Rattle.rme_durable_format.specs.CommandTexts.{AlwaysHasLine, IsWritableJob, command_text, submission_text};
ghost use Rattle.rme_durable_format.specs.HeaderTexts.{AreLockNames, IsWritableHeader, header_text};
ghost use Rattle.rme_durable_format.specs.Headers.{HeaderValues, IsLogHeader, IsPossibleHeader};
ghost use Rattle.rme_durable_format.specs.Recovery.{RecoversWorld, changes_world, reply_refusal};
ghost use Rattle.rme_session_world.specs.EventBatches.{AppliesEvents, batch_events};
ghost use Rattle.rme_session_world.specs.declared.event_batch.EventBatch.{EventBatch};
ghost use Rattle.rme_durable_format.specs.BatchCommands.{all_asked_events, batch_commands};

/// The commands that are written for an event batch ask for exactly its events, in order.
pub fn event_batches()
    ensures { (batch : EventBatch) → all_asked_events (batch_commands batch) ≡ batch_events batch }
{}

/// The text of a restart, of a withdrawal, of a crash and of a walk of 1 to 10,000 steps is a line that asks for it.
pub fn command_lines()
    ensures { (names : List (List ℕ)) (command : Command) → AlwaysHasLine command
        → IsCommandLine names command (command_text names command) }
{}

/// The text of a submission is a line that asks for it, if its lock has a name and its script at most eight operations.
pub fn submission_lines()
    ensures { (names : List (List ℕ)) (worker : ℕ) (job : Job) → AreLockNames names → worker < 2 ^ 32
        → IsWritableJob names job → IsCommandLine names (Submit worker job) (submission_text names worker job) }
{}

/// The line that is written for a possible header is read as that header.
pub fn headers()
    ensures { (names : List (List ℕ)) (shape : Shape) (past : HeaderValues) → AreLockNames names
        → IsWritableHeader names past → IsPossibleHeader shape past
        → IsLogHeader names shape (header_text names past) past }
{}

/// A command that changes a world and is not refused is a list of its events, each with its whole contract.
pub fn commands()
    ensures { (old new : TalliedWorld) (command : Command) (reply : Reply) → changes_world command ≡ true
        → reply_refusal reply ≡ None → CommandEffect old command reply new
        → (events : List Event) × IsCommandRun command events × AppliesEvents old.world events new.world }
{}

/// The world of a file's bytes is one to which some events lead from a new world.
pub fn files()
    ensures { (bytes : List ℕ) (names : List (List ℕ)) (world : WorldView) → RecoversWorld bytes names world
        → (shape : Shape) × (events : List Event) × AppliesEvents (world_at_opening shape) events world }
{}
