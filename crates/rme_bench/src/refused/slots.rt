//! The slots of a service's workers.

ghost use Rattle.std.specs.Prelude.{◌≡◌, IfOk};
ghost use Rattle.rme_service_steps.specs.Closing.{SeatsAreOfService};
ghost use Rattle.rme_session_threads.specs.WorkerSlots.{AreDownsInPlace};

use crate::fault::BenchFailure;
use crate::refused::close::{close_whole, print_closed};
use rme_session_threads::Slots;
use rme_table::{Down, Service, Tag};
use rme_words::Shape;
use std::alloc::Global;
use std::marker::Brand;
use std::sync::Wait;

/// Puts workers into slots and takes them out again. If that is refused, the workers, or the slots, come back.
pub fn slot_workers<R: Wait>(rt: &HostRuntime, threads: &R) -> Result<(), BenchFailure> {
    let (service, downs) = Service::new(rt.alloc(), Shape::new(3, 1, 1, 10)?)?;
    let downs = in_slots::<Brand, R>(rt, threads, &service, downs)?;
    let count = downs.len();
    print_closed(rt, &close_whole(service, downs)?)?;
    Ok(println!(rt; "workers {count}")?)
}

/// The workers of the service that K names, after they were in slots.
fn in_slots<K: Tag, R: Wait>(
    rt: &HostRuntime,
    threads: &R,
    service: &Service,
    downs: Vec<Down>,
) -> Result<Vec<Down>, BenchFailure>
    requires named { service.now ≡ K.ident }
    requires all { AreDownsInPlace service.now downs.items }
    ensures ours { IfOk result (λ downs. SeatsAreOfService service.now downs.items) }
{
    let slots = slots_of::<K, R>(rt, threads, downs)?;
    match slots.into_downs(threads) {
        Ok(downs) => Ok(downs),
        Err(slots) => downs_of(rt, threads, slots),
    }
}

/// Slots with these workers, by two tries.
fn slots_of<K: Tag, R: Wait>(
    rt: &HostRuntime,
    threads: &R,
    downs: Vec<Down>,
) -> Result<Slots<K>, BenchFailure>
    requires { AreDownsInPlace K.ident downs.items }
{
    let back = match Slots::<K>::new(threads, rt.alloc(), downs) {
        Ok(slots) => return Ok(slots),
        Err(back) => back,
    };
    println!(rt; "refused")?;
    match Slots::<K>::new(threads, rt.alloc(), back) {
        Ok(slots) => Ok(slots),
        Err(_) => Err(BenchFailure),
    }
}

/// The workers in slots that were refused the room for them.
fn downs_of<K: Tag, R: Wait>(
    rt: &HostRuntime,
    threads: &R,
    slots: Slots<K>,
) -> Result<Vec<Down>, BenchFailure>
    ensures ours { IfOk result (λ downs. SeatsAreOfService K.ident downs.items) }
{
    println!(rt; "refused")?;
    match slots.into_downs(threads) {
        Ok(downs) => Ok(downs),
        Err(_) => Err(BenchFailure),
    }
}
