//! The close of a service.

ghost use Rattle.std.specs.Prelude.{◌≡◌, IfOk};
ghost use Rattle.rme_service_steps.specs.Closing.{SeatsAreOfService};

use crate::fault::BenchFailure;
use crate::jobs::live;
use rme_table::{Closed, Down, Service, Unclosed};
use rme_words::{Refusal, Shape};
use std::alloc::Global;
use std::thread;
use std::thread::Threads;

/// The number of workers, each with a lock of its own, and of the jobs of each.
const WORKERS: u32 = 2;

const JOBS: u32 = 3;

/// Closes a service after some jobs. If that is refused, all workers come back.
pub fn close_service<R: Threads + Sync>(rt: &HostRuntime, threads: &R) -> Result<(), BenchFailure> {
    let shape = Shape::new(WORKERS, WORKERS, 1, JOBS)?;
    let (service, downs) = Service::new(rt.alloc(), shape)?;
    let shared = &service;
    let life = |down: Down| -> Down
        requires { down.ident ≡ shared.now }
        ensures { result.ident ≡ shared.entry.now }
    {
        let lock = down.worker();
        match live(shared, down, lock, JOBS) {
            Ok(ready) => ready.crash(),
            Err(down) => down,
        }
    };
    let downs = thread::map_vec(threads, downs, &life)?;
    close_and_print(rt, service, downs)
}

/// Closes the service, by two tries, and prints the result.
fn close_and_print(rt: &HostRuntime, service: Service, downs: Vec<Down>) -> Result<(), BenchFailure>
    requires ours { SeatsAreOfService service downs.items }
{
    let closed = match service.close(downs) {
        Ok(closed) => closed,
        Err(unclosed) => close_again(rt, unclosed)?,
    };
    print_closed(rt, &closed)
}

/// Closes it once more, after a refusal. Both workers must have come back.
pub fn close_again(rt: &HostRuntime, unclosed: Unclosed) -> Result<Closed, BenchFailure>
    requires { SeatsAreOfService unclosed.service unclosed.downs.items }
{
    let Unclosed {
        why,
        service,
        downs,
    } = unclosed;
    println!(rt; "refused")?;
    if why != Refusal::NoMemory || downs.len() != WORKERS as usize {
        return Err(BenchFailure);
    }
    close_whole(service, downs)
}

/// Closes a service, which must not be refused.
pub fn close_whole(service: Service, downs: Vec<Down>) -> Result<Closed, BenchFailure>
    requires { SeatsAreOfService service downs.items }
{
    match service.close(downs) {
        Ok(closed) => Ok(closed),
        Err(_) => Err(BenchFailure),
    }
}

/// Prints the cell and the number of entries of each lock.
pub fn print_closed(rt: &HostRuntime, closed: &Closed) -> Result<(), BenchFailure> {
    for lock in &closed.locks {
        let [cell] = lock.cells.as_slice() else {
            return Err(BenchFailure);
        };
        println!(rt; "cell {cell} entries {}", lock.entries.len())?;
    }
    Ok(())
}
