//! The observer of a run, which builds its picture.

ghost use Rattle.std.specs.Prelude.{◌≡◌, ◌++◌, IfOk, OnOk, map, nat_lt, string_bytes};
ghost use Rattle.rme_draw_history.specs.PictureBuilding as spec;
ghost use Rattle.rme_draw_picture.specs.Pictures.{picture_of_drawing};

use crate::blockers::{line_blocker, see_climb};
use crate::drawn_lines::{DrawRequest, DrawnLines, drawn_lines, is_up_to};
use crate::first_line::draw_from;
use crate::holds::{holding_after, push_holds, push_last_holds};
use crate::line_marks::{line_job_number, push_mark};
use crate::stays::{OngoingStay, first_stays, push_last_stays, push_stay};
use rme_core_checker::Machine;
use rme_draw_picture::{Drawing, Finish, Hold, Page, Paint};
use rme_line_check::CheckObserver;
use rme_line_text::{EventLine, Names};
use rme_program::{Note, Receipt};
use rme_wire::{EngineFault, Sink};
use rme_words::NoMemory;
use std::alloc::{AllocError, Global};

/// The observations of a run so far.
#[derive(Drop)]
pub struct PictureBuilder {
    pub alloc: Global,
    pub request: DrawRequest,
    /// The number of lines so far.
    pub lines: u64,
    /// What has ended.
    pub drawing: Drawing,
    /// For each worker its present stay.
    pub staying: Vec<OngoingStay>,
    /// For each lock its present hold, if it has an owner.
    pub holding: Vec<Option<Hold>>,
    /// For each worker the lock in whose tree it may hold nodes.
    pub climbing: Vec<Option<u32>>,
}

impl CheckObserver for PictureBuilder {
    ghost use Rattle.std.specs.Prelude.{◌≡◌};
    ghost use Rattle.rme_draw_history.specs.PictureBuilding as spec;

    ghost sees = { λ old observation new. spec.picture_state_of new ≡ spec.picture_state_after observation
        (spec.picture_state_of old) };

    fn opened(&mut self, names: &Names, machine: &Machine) -> Result<(), NoMemory> {
        match self.open(names, machine) {
            Ok(()) => Ok(()),
            Err(_) => Err(NoMemory),
        }
    }

    fn stepped(&mut self, line: &EventLine, machine: &Machine) -> Result<(), NoMemory> {
        match self.add_step(line, machine) {
            Ok(()) => Ok(()),
            Err(_) => Err(NoMemory),
        }
    }
}

impl PictureBuilder {
    ghost use Rattle.std.specs.Prelude.{◌≡◌, ◌≢◌, ℕ, List, [], false, IfErr, IfOk, OnErr, OnOk};
    ghost use Rattle.std.specs.Io.KnownBytes.{Appends};
    ghost use Rattle.rme_line_io.specs.StreamEvents.{LastWriteFailed};
    ghost use Rattle.rme_draw_picture.specs.Pages.{TextPut, page_state};
    ghost use Rattle.rme_draw_picture.specs.Pictures.{picture_of_drawing};
    ghost use Rattle.rme_draw_history.specs.DrawnLines as lines_spec;
    ghost use Rattle.rme_draw_history.specs.PictureBuilding as spec;

    /// Without an observation.
    pub fn new(alloc: Global, request: DrawRequest) -> PictureBuilder
        ensures { spec.picture_state_of result ≡ spec.empty_picture_state request }
    {
        PictureBuilder {
            alloc,
            request,
            lines: 0,
            drawing: Drawing::new(alloc),
            staying: Vec::new(alloc),
            holding: Vec::new(alloc),
            climbing: Vec::new(alloc),
        }
    }

    /// The lines that are drawn if the run ends here; `None` if it does not have all lines of the request.
    pub fn drawn_lines(&self) -> Option<DrawnLines>
        ensures { result ≡ lines_spec.drawn_lines self.now.request self.now.lines }
    {
        drawn_lines(&self.request, self.lines)
    }

    /// Writes the painter's text of the picture of these lines of the run, which ends here. Memory is taken before
    /// anything is written.
    pub fn write<W: Sink, P: Paint>(
        &mut self,
        drawn: DrawnLines,
        writer: &mut W,
        painter: &P,
    ) -> Result<(), EngineFault>
        ensures written { OnOk result ((text : List ℕ)
            × P.paints (spec.picture_of_lines drawn (spec.picture_state_of self.old)) text
            × Appends (W.contents writer.old) (W.contents writer.new) text) }
        ensures unwritten { IfErr result (λ fault. fault ≢ EngineFault.WriteFailed
            → W.contents writer.new ≡ W.contents writer.old) }
        ensures kind { IfErr result (λ fault. fault ≢ EngineFault.ReadFailed) }
        ensures broke { IfErr result (λ fault. fault ≡ EngineFault.WriteFailed
            → LastWriteFailed (W.took writer.old) (W.took writer.new)) }
    {
        let Ok(mut page) = self.painted(drawn, writer, painter) else {
            return Err(EngineFault::NoMemory);
        };
        match page.finish(writer) {
            Ok(()) => Ok(()),
            Err(fault) => Err(fault),
        }
    }

    /// The page on which the painter put the picture of these lines. After an error nothing was written.
    fn painted<W: Sink, P: Paint>(
        &mut self,
        drawn: DrawnLines,
        writer: &mut W,
        painter: &P,
    ) -> Result<Page, AllocError>
        ensures painted { IfOk result (λ page. (text : List ℕ)
            × P.paints (spec.picture_of_lines drawn (spec.picture_state_of self.old)) text
            × TextPut text
            record { pending = []; failed = false; contents = W.contents writer.old; took = W.took writer.old }
            (page_state W.contents W.took page writer.new)) }
        ensures unwritten { OnErr result (writer.new ≡ writer.old) }
    {
        let mut page = Page::new(self.alloc)?;
        self.end()?;
        draw_from(self.alloc, &mut self.drawing, drawn.first)?;
        painter.paint(self.alloc, &self.drawing, &mut page, writer)?;
        Ok(page)
    }

    /// Ends all stays and holds, one line after the last.
    fn end(&mut self) -> Result<(), AllocError>
        ensures { OnOk result (picture_of_drawing self.new.drawing ≡ spec.ended_picture
            (spec.picture_state_of self.old)) }
    {
        let end = self.drawing.last.saturating_add(1);
        push_last_stays(&mut self.drawing.stays, self.staying.as_slice(), end)?;
        push_last_holds(&mut self.drawing.holds, self.holding.as_slice(), end)?;
        self.drawing.lines = self.lines;
        self.drawing.has_checkpoint_worker = self.request.has_checkpoint_worker;
        Ok(())
    }

    /// Begins with all workers ready and all locks free.
    fn open(&mut self, names: &Names, machine: &Machine) -> Result<(), AllocError>
        ensures { OnOk result (spec.picture_state_of self.new ≡ spec.first_picture_state self.old.request names.now
            machine.now) }
    {
        let alloc = self.alloc;
        let shape = machine.shape();
        let mut drawing = Drawing::new(alloc);
        drawing.last = 1;
        drawing.workers = shape.workers();
        drawing.names = names_of(alloc, names)?;
        let staying = first_stays(alloc, shape.workers())?;
        let holding = vec![in alloc; None; names.len() as usize]?;
        let climbing = vec![in alloc; None; shape.workers() as usize]?;
        self.lines = 1;
        self.drawing = drawing;
        self.staying = staying;
        self.holding = holding;
        self.climbing = climbing;
        Ok(())
    }

    /// Counts the next line, and adds it unless it comes after the last line to draw.
    fn add_step(&mut self, event_line: &EventLine, machine: &Machine) -> Result<(), AllocError>
        ensures { OnOk result (spec.picture_state_of self.new ≡ spec.picture_state_after_step
            (spec.next_line_number self.old.lines) event_line.now machine.now (spec.picture_state_of self.old)) }
    {
        let line = self.lines.saturating_add(1);
        if is_up_to(self.request.to, line) {
            return self.add_line(event_line, machine, line);
        }
        self.lines = line;
        Ok(())
    }

    /// Adds the event of a line, and the machine's state after it.
    fn add_line(
        &mut self,
        event_line: &EventLine,
        machine: &Machine,
        line: u64,
    ) -> Result<(), AllocError>
        ensures { OnOk result (spec.picture_state_of self.new ≡ spec.picture_state_after_line line event_line.now
            machine.now (spec.picture_state_of self.old)) }
    {
        let holding = holding_after(self.alloc, self.holding.as_slice(), machine, line)?;
        self.lines = line;
        self.drawing.last = line;
        self.drawing.number = self.drawing.number.max(line_job_number(event_line));
        let blocker = line_blocker(self.climbing.as_slice(), event_line, machine);
        push_mark(&mut self.drawing.marks, event_line, blocker, line)?;
        push_finishes(&mut self.drawing.finishes, event_line, machine, line)?;
        push_stay(
            &mut self.drawing.stays,
            &mut self.staying,
            event_line,
            machine,
            line,
        )?;
        push_holds(
            &mut self.drawing.holds,
            self.holding.as_slice(),
            machine,
            line,
        )?;
        see_climb(&mut self.climbing, event_line, machine);
        self.holding = holding;
        Ok(())
    }
}

/// The names of the locks, each as an own text.
fn names_of(alloc: Global, names: &Names) -> Result<Vec<String>, AllocError>
    ensures { IfOk result (λ texts. map string_bytes texts.items ≡ names.now) }
{
    let mut texts = Vec::new(alloc);
    for number in 0..names.len() {
        texts.push(String::from_str(alloc, names.name(number))?)?;
    }
    Ok(texts)
}

/// Adds the section that a line finished, if it finished one, and the cells after it.
fn push_finishes(
    finishes: &mut Vec<Finish>,
    event_line: &EventLine,
    machine: &Machine,
    line: u64,
) -> Result<(), AllocError>
    ensures { OnOk result (finishes.new.items ≡ finishes.old.items
        ++ spec.finishes_of_line event_line.now machine.now line) }
{
    match event_line {
        EventLine::Note(_, note) => push_finishes_by(finishes, note, machine, line),
        _ => Ok(()),
    }
}

fn push_finishes_by(
    finishes: &mut Vec<Finish>,
    note: &Note,
    machine: &Machine,
    line: u64,
) -> Result<(), AllocError>
    ensures { OnOk result (finishes.new.items ≡ finishes.old.items ++ spec.finishes_of_note note.now machine.now line) }
{
    match note {
        Note::Finished(receipt) => push_finish(finishes, *receipt, machine, line),
        _ => Ok(()),
    }
}

/// Adds a section of a lock of the machine, and the cells after it.
fn push_finish(
    finishes: &mut Vec<Finish>,
    receipt: Receipt,
    machine: &Machine,
    line: u64,
) -> Result<(), AllocError>
    ensures { OnOk result (finishes.new.items ≡ finishes.old.items ++ spec.finish_if_lock
        (nat_lt receipt.lock machine.now.shape.locks) receipt machine.now line) }
{
    match machine.cells(receipt.lock) {
        Some(cells) => {
            finishes.push(Finish {
                line,
                receipt,
                cells,
            })?;
            Ok(())
        }
        None => Ok(()),
    }
}
