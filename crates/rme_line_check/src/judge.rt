//! The abstract machine, against which the lines of a transcript are checked in order.

ghost use Rattle.std.specs.Prelude.{◌≡◌, IfOk};
ghost use Rattle.rme_line_io.specs.Cuts.{input_line_of};
ghost use Rattle.rme_line_check.specs.Judging.{IsJudgeOfLine, EventFinding, IsLineFinding, IsJudgeOfOpening};
ghost use Rattle.rme_line_check.specs.Verdicts.{event_read};
ghost use Rattle.rme_line_check.specs.Observing.{ObserverSeesFinding, ObserverSeesLine};

use crate::check_observer::CheckObserver;
use crate::event::event_of_line;
use rme_core_checker::Machine;
use rme_line_text::EventLine;
use rme_wire::{Cut, Names, Opening, Request, ValueReader, names_and_shape, request_of};
use rme_words::{NoMemory, Refusal};
use std::alloc::Global;

/// The finding on one line.
#[derive(Clone, Copy)]
pub enum LineFinding {
    /// A step of the machine, which it made.
    Step,
    /// An event with an answer that the machine does not have.
    NoStep,
    /// No event line.
    NoEvent,
}

/// The machine that a transcript has opened, and the names of its locks.
#[derive(Drop)]
pub struct Judge {
    values: ValueReader,
    pub names: Names,
    pub machine: Machine,
}

impl Judge {
    /// The judge of a first line, if it opens a valid shape.
    pub fn of_line(alloc: Global, cut: Cut, line: &[u8]) -> Result<Option<Judge>, NoMemory>
        ensures { IfOk result (IsJudgeOfLine (input_line_of cut line.now)) }
    {
        if cut == Cut::TooLong {
            return Ok(None);
        }
        let names = Names::new(alloc)?;
        let mut values = ValueReader::new(alloc);
        match request_of(alloc, &mut values, &names, line)? {
            Some(Request::Open(opening)) => Judge::of_opening(alloc, values, &opening),
            _ => Ok(None),
        }
    }

    /// The judge of an opening, if its shape is valid.
    fn of_opening(
        alloc: Global,
        values: ValueReader,
        opening: &Opening,
    ) -> Result<Option<Judge>, NoMemory>
        ensures { IfOk result (IsJudgeOfOpening opening.now) }
    {
        match names_and_shape(alloc, opening) {
            Ok((names, shape)) => {
                let machine = Machine::new(alloc, shape)?;
                Ok(Some(Judge {
                    values,
                    names,
                    machine,
                }))
            }
            Err(Refusal::NoMemory) => Err(NoMemory),
            Err(_) => Ok(None),
        }
    }

    /// The finding on a further line. The observer sees only a step that the machine makes.
    pub fn judge_line<V: CheckObserver>(
        &mut self,
        cut: Cut,
        line: &[u8],
        watcher: &mut V,
    ) -> Result<LineFinding, NoMemory>
        ensures found { IfOk result (λ found. IsLineFinding self.old.names self.old.machine (input_line_of cut line.now)
            found self.new.machine) }
        ensures shown { IfOk result (λ found. ObserverSeesLine V.sees
            (event_read self.old.names (input_line_of cut line.now)) self.new.machine found watcher.old watcher.new) }
        ensures names { self.new.names ≡ self.old.names }
    {
        if cut == Cut::TooLong {
            return Ok(LineFinding::NoEvent);
        }
        match event_of_line(&mut self.values, &self.names, line)? {
            None => Ok(LineFinding::NoEvent),
            Some(told) => self.judge_event(&told, watcher),
        }
    }

    /// Whether the machine has the step of an event line; it makes the step then.
    fn judge_event<V: CheckObserver>(
        &mut self,
        line: &EventLine,
        watcher: &mut V,
    ) -> Result<LineFinding, NoMemory>
        ensures found { IfOk result (λ found. EventFinding self.old.machine line.now found self.new.machine) }
        ensures shown { IfOk result (λ found. ObserverSeesFinding V.sees line.now self.new.machine found watcher.old
            watcher.new) }
        ensures names { self.new.names ≡ self.old.names }
    {
        let event = line.event();
        let answer = line.answer();
        if !self.machine.admits(&event, &answer)? {
            return Ok(LineFinding::NoStep);
        }
        watcher.stepped(line, &self.machine)?;
        Ok(LineFinding::Step)
    }
}
