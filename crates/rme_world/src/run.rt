//! A list of events.

use crate::world::World;
use rme_program::{Answer, Event};
use rme_script::Job;
use rme_words::{NoMemory, Refusal};

impl World {
    ghost use Rattle.std.specs.Prelude.{◌≡◌, ◌≢◌, ◌≤◌, ◌+◌, ℕ, IfOk, IfErr, OnErr, length};
    ghost use Rattle.rme_words.specs.declared.refusal.Refusal.{Refusal};
    ghost use Rattle.rme_world.specs.Calls.{SubmitContract};
    ghost use Rattle.rme_world.specs.Refinement.{IsRefinement};
    ghost use Rattle.rme_world.specs.EventLists.{ListedEventContract, EventListContract};

    /// Executes the events of a list in order, and answers each as its single call would.
    ///
    /// All memory is taken first: after `NoMemory` nothing has changed, and no answer is the refusal `NoMemory`.
    pub fn run(&mut self, events: &[Event]) -> Result<Vec<Answer>, NoMemory>
        ensures headline { IfOk result (λ answers. IsRefinement self.old events.now answers.items self.new) }
        ensures each { IfOk result (λ answers. (room : ℕ)
            × EventListContract record self.old { room = room } events.now answers.items self.new) }
        ensures answers { IfOk result (λ answers. length answers.items ≡ length events.now) }
        ensures unchanged { OnErr result (self.new ≡ self.old) }
    {
        let alloc = *self.counts.allocator();
        let Ok(mut answers) = Vec::with_capacity(alloc, events.len()) else {
            return Err(NoMemory);
        };
        let workers = self.shape().workers as usize;
        if !self.make_room(workers.saturating_add(events.len())) {
            return Err(NoMemory);
        }
        for event in events {
            let answer = self.answer(event);
            if answers.push(answer).is_err() {
                unreachable!();
            }
        }
        Ok(answers)
    }

    /// Executes one event, after room in the history was reserved.
    fn answer(&mut self, event: &Event) -> Answer
        requires { self.old.shape.workers ≤ self.old.room }
        ensures happens { ListedEventContract self.old event.now result self.new }
        ensures shape { self.new.shape ≡ self.old.shape }
        ensures room { self.old.room ≤ self.new.room + 1 }
    {
        match *event {
            Event::Submit(worker, job) => match self.submit_with_room(worker, job) {
                Ok(number) => Answer::Handed(number),
                Err(refusal) => Answer::Refused(refusal),
            },
            Event::Step(worker) => match self.step(worker) {
                Ok(note) => Answer::Stepped(note),
                Err(refusal) => Answer::Refused(refusal),
            },
            Event::Crash(worker) => match self.crash(worker) {
                Ok(()) => Answer::Crashed,
                Err(refusal) => Answer::Refused(refusal),
            },
            Event::Restart(worker) => match self.restart(worker) {
                Ok(()) => Answer::Restarted,
                Err(refusal) => Answer::Refused(refusal),
            },
            Event::Withdraw(worker) => match self.withdraw(worker) {
                Ok(()) => Answer::Withdrawing,
                Err(refusal) => Answer::Refused(refusal),
            },
        }
    }

    /// Submits a job, after room in the history was reserved.
    fn submit_with_room(&mut self, worker: u32, job: Job) -> Result<u32, Refusal>
        requires { self.old.shape.workers ≤ self.old.room }
        ensures call { SubmitContract self.old worker job result self.new }
        ensures room { self.new.room ≡ self.old.room }
        ensures memory { IfErr result (λ refusal. refusal ≢ Refusal.NoMemory) }
    {
        match self.may_submit(worker, &job) {
            Ok(private) => Ok(self.submit_checked(worker, private, job)),
            Err(refusal) => Err(refusal),
        }
    }
}
