//! The base that earlier epochs left, and the values that clients see by it.

ghost use Rattle.std.specs.Prelude.{◌≡◌, ◌+◌, ◌-◌, IfSome};
ghost use Rattle.rme_durable_epochs.specs.ClientValues as spec;
ghost use Rattle.rme_session_protocol.specs.ClientReplies.{pending_job_of_client};

use crate::client_session::{ClientPending, ClientReady, ClientSession};
use rme_line_text::ClientReceipt;
use rme_program::Receipt;
use rme_session_protocol::{
    ClientOutcome, ClientPendingJob, ClientReply, ClientToken, FencingToken, JobOutcome, Order,
    PendingJob, PendingWorker, ReadyWorker, Session, SessionReply, Submission,
};
use rme_words::Refusal;

/// The numbers of a worker in earlier epochs.
#[derive(Clone, Copy)]
pub struct WorkerBase {
    /// The count of its numbers.
    pub numbers: u64,
    /// The receipt of the last of them; `None` if it was withdrawn, or if there was none.
    pub last: Option<ClientReceipt>,
}

/// The offset of a lock's places: a client's place is the world's, plus `more`, minus `less`.
#[derive(Clone, Copy)]
pub struct PlaceOffset {
    /// The sections that the lock had in earlier epochs.
    pub more: u64,
    /// The sections that the checkpoint worker made in this epoch.
    pub less: u64,
}

/// What earlier epochs left: the numbers of each worker, and the place offset of each lock.
#[derive(Drop)]
pub struct Base {
    pub workers: Vec<WorkerBase>,
    pub places: Vec<PlaceOffset>,
}

impl Base {
    ghost use Rattle.std.specs.Prelude.{◌≡◌, IfSome, option_map};
    ghost use Rattle.rme_durable_epochs.specs.ClientValues as spec;
    ghost use Rattle.rme_durable_epochs.specs.ClientSessions.{pending_of_client, ready_of_client, session_of_client};
    ghost use Rattle.rme_session_protocol.specs.ClientReplies.{outcome_of_client, reply_of_client, token_of_client};
    ghost use Rattle.rme_line_text.specs.ClientReceipts.{as_receipt};

    /// The base of a worker; no numbers if the worker is not listed.
    pub fn worker_base(&self, worker: u32) -> WorkerBase
        ensures { result ≡ spec.worker_base self.now worker }
    {
        match self.workers.get(worker as usize) {
            Some(past) => *past,
            None => WorkerBase {
                numbers: 0,
                last: None,
            },
        }
    }

    /// A place of a lock, as clients see it; `None` if it is not a number of 64 bits.
    pub fn client_place(&self, lock: u32, place: u32) -> Option<u64>
        ensures { IfSome result (λ over. over ≡ spec.client_place self.now lock place) }
    {
        match self.places.get(lock as usize) {
            Some(shift) => offset_place(*shift, place),
            None => Some(u64::from(place)),
        }
    }

    /// A receipt, as clients see it; `None` if its number or place is not a number of 64 bits.
    pub fn client_receipt(&self, numbers: u64, receipt: Receipt) -> Option<ClientReceipt>
        ensures { IfSome result (λ over. as_receipt over ≡ spec.client_receipt self.now numbers receipt) }
    {
        Some(ClientReceipt {
            worker: receipt.worker,
            lock: receipt.lock,
            number: numbers.checked_add(u64::from(receipt.number))?,
            place: self.client_place(receipt.lock, receipt.place)?,
            reply: receipt.reply,
        })
    }

    /// The outcome of the last number of a worker with this base, as clients see it; `None` if a number or a place of
    /// it is not a number of 64 bits.
    pub fn client_last(
        &self,
        past: WorkerBase,
        number: u32,
        last: Option<Receipt>,
    ) -> Option<Option<ClientReceipt>>
        ensures { IfSome result (λ over. option_map as_receipt over ≡ spec.client_last self.now past number last) }
    {
        match last {
            Some(receipt) => Some(Some(self.client_receipt(past.numbers, receipt)?)),
            None if number == 0 => Some(past.last),
            None => Some(None),
        }
    }

    /// A worker that is ready, as its client sees it.
    pub fn client_ready(&self, ready: &ReadyWorker) -> Option<ClientReady>
        ensures { IfSome result (λ over. ready_of_client over ≡ spec.client_ready self.now ready.now) }
    {
        let past = self.worker_base(ready.worker);
        Some(ClientReady {
            worker: ready.worker,
            number: past.numbers.checked_add(u64::from(ready.number))?,
            last: self.client_last(past, ready.number, ready.last)?,
        })
    }

    /// A worker with a job, as its client sees it.
    pub fn client_pending(&self, pending: &PendingWorker) -> Option<ClientPending>
        ensures { IfSome result (λ over. pending_of_client over ≡ spec.client_pending self.now pending.now) }
    {
        let past = self.worker_base(pending.worker);
        Some(ClientPending {
            worker: pending.worker,
            number: past.numbers.checked_add(u64::from(pending.number))?,
            draft: pending.draft,
        })
    }

    /// A session, as its client sees it; `None` if a number or a place of it is not a number of 64 bits.
    pub fn client_session(&self, session: &Session) -> Option<ClientSession>
        ensures { IfSome result (λ over. session_of_client over ≡ spec.client_session self.now session.now) }
    {
        match session {
            Session::Nobody => Some(ClientSession::Nobody),
            Session::Ready(ready) => Some(ClientSession::Ready(self.client_ready(ready)?)),
            Session::Climb(pending) => Some(ClientSession::Climb(self.client_pending(pending)?)),
            Session::Held(pending) => Some(ClientSession::Held(self.client_pending(pending)?)),
        }
    }

    /// The count of earlier numbers of the worker that an order concerns.
    pub fn numbers_for(&self, session: &Session, order: &Order) -> u64
        ensures { result ≡ spec.numbers_for self.now session.now order.now }
    {
        match (session, order) {
            (Session::Ready(ready), _) => self.worker_base(ready.worker).numbers,
            (Session::Climb(pending) | Session::Held(pending), _) => {
                self.worker_base(pending.worker).numbers
            }
            (Session::Nobody, Order::Attach(asked)) => self.worker_base(asked.worker).numbers,
            (Session::Nobody, _) => 0,
        }
    }

    /// A fencing token, as its client sees it.
    fn client_token(&self, numbers: u64, token: FencingToken) -> Option<ClientToken>
        ensures { IfSome result (λ over. token_of_client over ≡ spec.client_token self.now numbers token) }
    {
        Some(ClientToken {
            lock: token.lock,
            number: numbers.checked_add(u64::from(token.number))?,
            section: self.client_place(token.lock, token.section)?,
            life: token.life,
        })
    }

    /// The outcome of a job, as its client sees it.
    fn client_outcome(&self, numbers: u64, became: JobOutcome) -> Option<ClientOutcome>
        ensures { IfSome result (λ over. outcome_of_client over ≡ spec.client_outcome self.now numbers became) }
    {
        Some(match became {
            JobOutcome::Receipt(receipt) => ClientOutcome::Receipt(self.client_receipt(
                numbers, receipt,
            )?),
            JobOutcome::Inside(token) => ClientOutcome::Inside(self.client_token(numbers, token)?),
            JobOutcome::Withdrawn => ClientOutcome::Withdrawn,
            JobOutcome::Waiting => ClientOutcome::Waiting,
            JobOutcome::Fell => ClientOutcome::Fell,
        })
    }

    /// The reply to an order of a worker with this count of earlier numbers, as its client sees it. `None` if a number
    /// or a place of it is not a number of 64 bits.
    pub fn client_reply(&self, numbers: u64, reply: SessionReply) -> Option<ClientReply>
        ensures { IfSome result (λ over. reply_of_client over ≡ spec.client_reply self.now numbers reply) }
    {
        Some(match reply {
            SessionReply::Attached(number, standing) => {
                ClientReply::Attached(numbers.checked_add(u64::from(number))?, standing)
            }
            SessionReply::Submitted(became) => ClientReply::Submitted(self.client_outcome(
                numbers, became,
            )?),
            SessionReply::Resumed(became) => ClientReply::Resumed(self.client_outcome(
                numbers, became,
            )?),
            SessionReply::Entered(became) => ClientReply::Entered(self.client_outcome(
                numbers, became,
            )?),
            SessionReply::Committed(became) => ClientReply::Committed(self.client_outcome(
                numbers, became,
            )?),
            SessionReply::Withdrew(number) => {
                ClientReply::Withdrew(numbers.checked_add(u64::from(number))?)
            }
            SessionReply::Last(Some(receipt)) => {
                ClientReply::Last(Some(self.client_receipt(numbers, receipt)?))
            }
            SessionReply::Refused(why) => ClientReply::Refused(client_refusal(numbers, why)?),
            SessionReply::Last(None) => ClientReply::Last(None),
            SessionReply::WithdrawFell => ClientReply::WithdrawFell,
            SessionReply::CrashPlanned => ClientReply::CrashPlanned,
            SessionReply::Detached => ClientReply::Detached,
            SessionReply::Pong => ClientReply::Pong,
            SessionReply::Pending(told) => {
                ClientReply::Pending(client_pending_job(numbers, told)?)
            }
        })
    }
}

/// A place of this epoch, with its offset.
fn offset_place(shift: PlaceOffset, place: u32) -> Option<u64>
    ensures { IfSome result (λ over. over ≡ (place + shift.more) - shift.less) }
{
    let over = u64::from(place).checked_add(shift.more)?;
    Some(over.saturating_sub(shift.less))
}

/// A pending job, as the client sees it.
fn client_pending_job(numbers: u64, told: PendingJob) -> Option<ClientPendingJob>
    ensures { IfSome result (λ over. pending_job_of_client over ≡ spec.client_pending_job numbers told) }
{
    Some(ClientPendingJob {
        number: numbers.checked_add(u64::from(told.number))?,
        job: told.job,
        stance: told.stance,
    })
}

/// A refusal, as the client sees it.
fn client_refusal(numbers: u64, why: Refusal) -> Option<Refusal>
    ensures { IfSome result (λ over. over ≡ spec.client_refusal numbers why) }
{
    match why {
        Refusal::WrongNumber(next) => Some(Refusal::WrongNumber(numbers.checked_add(next)?)),
        why => Some(why),
    }
}

/// An order with the numbers of this epoch's world, for a worker with this count of earlier numbers.
pub fn epoch_order(numbers: u64, order: &Order) -> Order
    ensures { result ≡ spec.epoch_order numbers order.now }
{
    match order {
        Order::Submit(its) => Order::Submit(epoch_submission(numbers, its)),
        Order::Enter(its) => Order::Enter(epoch_submission(numbers, its)),
        order => *order,
    }
}

fn epoch_submission(numbers: u64, its: &Submission) -> Submission
    ensures { result ≡ spec.epoch_submission numbers its.now }
{
    Submission {
        number: its.number.saturating_sub(numbers),
        job: its.job,
        patience: its.patience,
    }
}
