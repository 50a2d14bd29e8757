//! The whole of phase Section.

ghost use Rattle.std.specs.Prelude.{◌≡◌, ℕ, ◌+◌, ◌*◌, ◌<◌, MatchResult};
ghost use Rattle.rme_program.specs.declared.stage.Stage.TheVariants.{Logging};
ghost use Rattle.rme_program.specs.declared.stage.Log.TheVariants.{LoadTurn};
ghost use Rattle.rme_service_steps.specs.Parts.{unchanged_part};
ghost use Rattle.rme_service_steps.specs.CallSteps.{seat_call, CallFell, PartIsBeforeStage};
ghost use Rattle.rme_service_phases.specs.Sections.{SectionSteps};

use crate::open_section::OpenSection;
use crate::reading::read_script;
use rme_program::Receipt;
use rme_script::Script;
use rme_service_steps::{Chance, Fell, NoChange, WordTable, WorkerSeat, layout};

/// Phase Section: loads the turn. If it is even, runs the script and writes the redo log. Then, or at once if the turn
/// was odd, applies the redo log and finishes the job. `begun` is the job's number. Appends the job's entry to the
/// worker's.
pub fn perform<C: Chance>(
    seat: &mut WorkerSeat,
    service: &WordTable,
    chance: &mut C,
    begun: u32,
    lock: u32,
) -> Result<Receipt, Fell>
    requires ours { seat.old.ident ≡ service.now }
    requires lock { lock < service.now.shape.locks }
    requires begun { begun ≡ seat.old.part.private.begun }
    requires at { PartIsBeforeStage service.now.shape seat.old.part (Logging (LoadTurn lock)) }
    ensures { let call = seat_call service.now.shape unchanged_part seat.old seat.new (C.tally chance.old)
        (C.tally chance.new) in
        MatchResult result (λ receipt. SectionSteps call begun lock receipt)
        (λ _. CallFell call (35 + service.now.shape.cells * 4)) }
{
    let at = layout::turn_at(service.shape(), lock);
    let turn = seat.load::<NoChange, C>(service, chance, at)? as u32;
    let section = OpenSection { lock, turn, begun };
    let mut script = Script::of(&[]);
    if turn % 2 == 1 {
        read_script(seat, service, &mut script);
        return section.complete(seat, service, chance, &script);
    }
    section.log(seat, service, chance, &mut script)?;
    section.complete(seat, service, chance, &script)
}
