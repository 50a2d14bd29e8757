//! The worker that a waiting worker waits for.

ghost use Rattle.std.specs.Prelude.{◌≡◌, ◌≢◌, ◌<◌, ◌↔◌, ℕ, Some, IfSome};
ghost use Rattle.rme_words.specs.Words.{memory_of};
ghost use Rattle.rme_waiting.specs.Waiting.{WaitsForWorker, blocked_by};

use rme_core_image_check::is_pending;
use rme_tree::blocker;
use rme_words::{Address, Bank};

/// The worker that a worker waits for: the worker has a pending job and does not own the job's lock, and the other
/// holds the node above the levels that it holds there. `None` if the worker does not wait, or nobody holds that node.
///
/// Whether the workers are up or down makes no difference. `worker` is below the workers of the bank's shape.
pub fn blocked_by(bank: &Bank, worker: u32) -> Option<u32>
    requires { worker < bank.now.shape.workers }
    ensures blocked { result ≡ blocked_by bank.now.shape (memory_of bank.now) worker }
    ensures shown { (other : ℕ) → other < bank.now.shape.workers
        → (result ≡ Some other) ↔ WaitsForWorker bank.now.shape (memory_of bank.now) worker other }
    ensures worker { IfSome result (λ other. other < bank.now.shape.workers) }
    ensures other { IfSome result (λ other. other ≢ worker) }
{
    if !is_pending(bank, worker) {
        return None;
    }
    let lock = bank.load(Address::SlateLock(worker));
    if lock >= u64::from(bank.shape().locks) {
        return None;
    }
    blocker(bank, lock as u32, worker)
}
