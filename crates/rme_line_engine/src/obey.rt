//! The effect of each command on a world, and its answer.

ghost use Rattle.std.specs.Prelude.{◌≡◌};
ghost use Rattle.rme_line_text.specs.declared.reply.Reply.TheVariants as reply;
ghost use Rattle.rme_line_engine.specs.EngineStates as spec;

use crate::tallied::TalliedWorld;
use rme_history::Tally;
use rme_line_text::{Acknowledgement, Reply, TallyReport};
use rme_wire::{Command, Image};
use rme_words::{NoMemory, Refusal};

impl TalliedWorld {
    ghost use Rattle.std.specs.Prelude.{IfOk};
    ghost use Rattle.rme_world.specs.Images.{SaveContract};
    ghost use Rattle.rme_line_engine.specs.CommandEffects.{CommandEffect};

    /// The image of the world. `NoMemory` if memory for it was refused.
    pub fn image(&self) -> Result<Image, NoMemory>
        ensures { IfOk result (SaveContract self.now.world) }
    {
        let bytes = self.world.save()?;
        Ok(Image::new(bytes))
    }

    /// Executes a command, and answers the reply as plain data. A refused command changes nothing.
    pub fn obey(&mut self, command: Command) -> Reply
        ensures { CommandEffect self.old command result self.new }
    {
        match command {
            Command::Submit(worker, job) => match self.world.submit(worker, job) {
                Ok(number) => Reply::Handed(number),
                Err(refusal) => Reply::Refused(refusal),
            },
            Command::Step(worker) => match self.step(worker) {
                Ok(note) => Reply::Stepped(note),
                Err(refusal) => Reply::Refused(refusal),
            },
            Command::Walk(walk) => match self.walk(walk) {
                Ok(walked) => Reply::Walked(walked),
                Err(refusal) => Reply::Refused(refusal),
            },
            Command::Crash(worker) => done(self.world.crash(worker), Acknowledgement::Crash),
            Command::Restart(worker) => done(self.world.restart(worker), Acknowledgement::Restart),
            Command::Withdraw(worker) => done(
                self.world.withdraw(worker),
                Acknowledgement::Withdraw,
            ),
            Command::Owner(lock) => match self.world.owner(lock) {
                Ok(owner) => Reply::Owner(owner),
                Err(refusal) => Reply::Refused(refusal),
            },
            Command::Cells(lock) => match self.world.cells(lock) {
                Ok((row, settled)) => Reply::Cells(row, settled),
                Err(refusal) => Reply::Refused(refusal),
            },
            Command::Last(worker) => match self.world.last(worker) {
                Ok(last) => Reply::Last(last),
                Err(refusal) => Reply::Refused(refusal),
            },
            Command::History => Reply::History,
            Command::Report => Reply::Report(report_of(self.tally)),
            Command::Save => match self.image() {
                Ok(image) => Reply::Image(image),
                Err(_) => Reply::Refused(Refusal::NoMemory),
            },
        }
    }
}

/// The answer of a command that is only its word.
fn done(obeyed: Result<(), Refusal>, word: Acknowledgement) -> Reply
    ensures { result ≡ spec.reply_of_call (λ _. reply.Done word) obeyed }
{
    match obeyed {
        Ok(()) => Reply::Done(word),
        Err(refusal) => Reply::Refused(refusal),
    }
}

/// The five numbers of a tally.
fn report_of(tally: Tally) -> TallyReport
    ensures { result ≡ spec.report_of tally }
{
    let Tally {
        recover,
        post,
        enter,
        section,
        exit,
    } = tally;
    TallyReport {
        recover,
        post,
        enter,
        section,
        exit,
    }
}
