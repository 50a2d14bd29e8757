//! The model: what the answers of a server have told so far, and what each further answer may be.

use crate::answer::{SeenAnswer, SeenReceipt, SeenStance};
use crate::counted::{CountedJob, CountedJobs};
use crate::found::{Found, is_or};
use crate::request::{AttachRequest, NumberedJob, SimulatedRequest, SimulatedSubmission};
use crate::view::{KnownStanding, KnownWorker, SeenPendingJob};
use std::alloc::{AllocError, Global};

/// What the answers so far tell of a server.
#[derive(Drop)]
pub struct Model {
    pub alloc: Global,
    pub cells: u32,
    pub workers: Vec<KnownWorker>,
    pub locks: Vec<CountedJobs>,
    /// Whether jobs are withdrawn that wait while no session has their workers.
    pub withdraws: bool,
    /// Whether answers may be lost: the machine has stopped, and nothing was synced.
    pub is_lossy: bool,
}

/// Checks that an answer is this refusal.
pub fn refused(answer: &SeenAnswer, code: u64) -> Found {
    match answer {
        SeenAnswer::Refused(found, _) if *found == code => Ok(()),
        SeenAnswer::Refused(..) => Err("another refusal than the one that is due"),
        _ => Err("an answer in place of a refusal"),
    }
}

/// Checks that an answer is that the number is wrong, and which one is expected.
fn expects(answer: &SeenAnswer, number: u64) -> Found {
    match answer {
        SeenAnswer::Refused(16, Some(expected)) if *expected == number => Ok(()),
        _ => Err("another answer than the number that is expected"),
    }
}

impl Model {
    /// The model of a server that has not answered yet.
    pub fn new(alloc: Global, withdraws: bool) -> Model {
        Model {
            alloc,
            cells: 0,
            workers: Vec::new(alloc),
            locks: Vec::new(alloc),
            withdraws,
            is_lossy: false,
        }
    }

    /// The server has at least these numbers of workers, locks and cells.
    pub fn grow(&mut self, workers: u32, locks: u32, cells: u32) -> Result<(), AllocError> {
        self.cells = self.cells.max(cells);
        for _ in self.workers.len()..workers as usize {
            self.workers.push(KnownWorker::NEW)?;
        }
        for _ in self.locks.len()..locks as usize {
            self.locks.push(CountedJobs::new(self.alloc))?;
        }
        Ok(())
    }

    /// The number of workers.
    pub fn worker_count(&self) -> u32 {
        u32::try_from(self.workers.len()).unwrap_or(u32::MAX)
    }

    /// The number of locks.
    pub fn lock_count(&self) -> u32 {
        u32::try_from(self.locks.len()).unwrap_or(u32::MAX)
    }

    /// The view of a worker; for a number of no worker that of a new one.
    pub fn view(&self, worker: u32) -> KnownWorker {
        match self.workers.get(worker as usize) {
            Some(view) => *view,
            None => KnownWorker::NEW,
        }
    }

    pub fn put(&mut self, worker: u32, view: KnownWorker) {
        if let Some(place) = self.workers.get_mut(worker as usize) {
            *place = view;
        }
    }

    /// The worker that a session has.
    pub fn worker_of(&self, session: u32) -> Option<u32> {
        (0..self.worker_count()).find(|worker| self.view(*worker).session == Some(session))
    }

    /// The first place of a lock after all that were answered.
    pub fn end(&self, lock: u32) -> u64 {
        match self.locks.get(lock as usize) {
            Some(counted) => counted.end(),
            None => 0,
        }
    }

    /// The worker that is known to be inside a lock.
    pub fn holder(&self, lock: u32) -> Option<u32> {
        (0..self.worker_count()).find(|worker| self.view(*worker).holds(lock))
    }

    /// The number of workers that may be inside a lock, or may have finished there without an answer.
    pub fn unsure_count(&self, lock: u32) -> u64 {
        let mut count = 0u64;
        for view in &self.workers {
            if view.may_be_inside(lock) {
                count = count.saturating_add(1);
            }
        }
        count
    }

    /// All sessions are gone with their server.
    pub fn crash(&mut self) {
        for worker in 0..self.worker_count() {
            let mut view = self.view(worker);
            view.leave(self.withdraws);
            self.put(worker, view);
        }
    }

    /// A session ends.
    pub fn end_session(&mut self, session: u32) {
        if let Some(worker) = self.worker_of(session) {
            let mut view = self.view(worker);
            view.leave(self.withdraws);
            self.put(worker, view);
        }
    }

    /// A request of a session has no answer: it was executed, or a part of it, or not.
    pub fn miss(&mut self, session: u32, request: &SimulatedRequest) {
        if let Some(worker) = self.worker_of(session) {
            let mut view = self.view(worker);
            view.become_unsure(request, self.end_for(request));
            self.put(worker, view);
        }
    }

    /// The least place of a request's job.
    fn end_for(&self, request: &SimulatedRequest) -> u64 {
        match request {
            SimulatedRequest::Submit(submission) => self.end(submission.job.lock),
            _ => 0,
        }
    }

    /// Checks the answer to a request of a session, and learns from it.
    pub fn learn(
        &mut self,
        session: u32,
        request: &SimulatedRequest,
        answer: &SeenAnswer,
    ) -> Found {
        match request {
            SimulatedRequest::Ping => is_or(
                matches!(answer, SeenAnswer::Pong),
                "no answer to a ping",
            ),
            SimulatedRequest::BadLine => refused(answer, 1),
            SimulatedRequest::Owner(_) | SimulatedRequest::Cells(_) | SimulatedRequest::Status => {
                self.check_lookup(request, answer)
            }
            SimulatedRequest::Attach(asked) => self.learn_attachment(session, asked, answer),
            SimulatedRequest::AttachAny { pending } => self.learn_choice(session, *pending, answer),
            _ => match self.worker_of(session) {
                Some(worker) => self.learn_order(worker, request, answer),
                None => refused(answer, 19),
            },
        }
    }

    /// Checks the answer to an order of a session that has this worker.
    fn learn_order(
        &mut self,
        worker: u32,
        request: &SimulatedRequest,
        answer: &SeenAnswer,
    ) -> Found {
        if matches!(answer, SeenAnswer::Fell) {
            return self.fall(worker, request);
        }
        let standing = self.view(worker).standing;
        match request {
            SimulatedRequest::Submit(submission) => self.learn_submission(
                worker, submission, answer,
            ),
            SimulatedRequest::Resume if standing == KnownStanding::Ready => refused(answer, 10),
            SimulatedRequest::Resume => self.learn_outcome(worker, false, answer),
            SimulatedRequest::Commit => self.learn_commit(worker, answer),
            SimulatedRequest::Withdraw => self.learn_withdrawal(worker, answer),
            SimulatedRequest::Last => self.learn_last(worker, answer),
            SimulatedRequest::Pending => self.check_pending(worker, answer),
            SimulatedRequest::CrashAfter(_) => self.plan(worker, answer),
            SimulatedRequest::Detach => {
                is_or(
                    matches!(answer, SeenAnswer::Detached),
                    "no answer to detach",
                )?;
                let mut view = self.view(worker);
                view.leave(false);
                self.put(worker, view);
                Ok(())
            }
            _ => Err("no order"),
        }
    }

    /// The planned crash came.
    fn fall(&mut self, worker: u32, request: &SimulatedRequest) -> Found {
        let mut view = self.view(worker);
        is_or(view.has_plan, "a worker fell without a plan")?;
        let end = self.end_for(request);
        view.become_unsure(request, end);
        view.leave(false);
        self.put(worker, view);
        Ok(())
    }

    fn plan(&mut self, worker: u32, answer: &SeenAnswer) -> Found {
        is_or(
            matches!(answer, SeenAnswer::Planned),
            "a plan was not taken",
        )?;
        let mut view = self.view(worker);
        view.has_plan = true;
        self.put(worker, view);
        Ok(())
    }

    fn learn_attachment(
        &mut self,
        session: u32,
        asked: &AttachRequest,
        answer: &SeenAnswer,
    ) -> Found {
        if asked.worker >= self.worker_count() {
            return refused(answer, 6);
        }
        if self.worker_of(session).is_some() {
            return refused(answer, 9);
        }
        let view = self.view(asked.worker);
        let is_overtaken = asked.after.is_some_and(|after| after < view.least_life());
        match answer {
            SeenAnswer::Refused(26, _) => is_or(asked.after.is_some(), "overtaken without a life"),
            _ if is_overtaken => Err("an attachment after a later life"),
            _ if view.session.is_some() => refused(answer, 18),
            SeenAnswer::Attached { number, stance, .. } => {
                self.attach(session, asked.worker, *number, *stance)
            }
            _ => Err("a free worker is not attached"),
        }
    }

    fn learn_choice(&mut self, session: u32, pending: bool, answer: &SeenAnswer) -> Found {
        if self.worker_of(session).is_some() {
            return refused(answer, 9);
        }
        let SeenAnswer::Attached {
            number,
            stance,
            worker: Some(worker),
        } = answer
        else {
            let is_free = self.has_free(pending);
            is_or(!is_free, "no worker is chosen, and one is free")?;
            return refused(answer, 18);
        };
        is_or(
            self.view(*worker).session.is_none(),
            "a worker is chosen that a session has",
        )?;
        is_or(
            pending == (*stance != SeenStance::Ready)
                || self.view(*worker).standing == KnownStanding::Unsure,
            "a worker is chosen that is not of the choice",
        )?;
        self.attach(session, *worker, *number, *stance)
    }

    /// Whether a worker is known that no session has and that a choice takes.
    fn has_free(&self, pending: bool) -> bool {
        self.workers.iter().any(|view| {
            view.session.is_none()
                && match view.standing {
                    KnownStanding::Ready => !pending,
                    KnownStanding::Climb | KnownStanding::Held => pending,
                    _ => false,
                }
        })
    }

    /// A session has attached a worker, and was told where it stands.
    fn attach(&mut self, session: u32, worker: u32, number: u64, stance: SeenStance) -> Found {
        let mut view = self.view(worker);
        let pending = view.pending_number();
        match (view.standing, stance) {
            (KnownStanding::Ready, SeenStance::Ready) => {
                is_or(number == view.done, "a ready worker has another number")?;
            }
            (KnownStanding::Climb, SeenStance::Climb)
            | (KnownStanding::Held, SeenStance::Held)
            | (KnownStanding::Unlearned, SeenStance::Ready) => {
                is_or(number == pending, "a pending job has another number")?;
            }
            (KnownStanding::Unsure, _) => self.learn_unsure(&mut view, number, stance)?,
            (KnownStanding::Climb | KnownStanding::Held, SeenStance::Ready) => {
                return Err("a pending job is lost");
            }
            _ => return Err("a worker stands otherwise than it was told"),
        }
        view.session = Some(session);
        view.attachments = view.attachments.saturating_add(1);
        self.put(worker, view);
        Ok(())
    }

    /// An attachment tells where a worker stands whose last order had no answer.
    fn learn_unsure(&self, view: &mut KnownWorker, number: u64, stance: SeenStance) -> Found {
        let Some(pending) = view.job() else {
            return Err("nothing is pending");
        };
        if number == view.done && stance == SeenStance::Ready {
            is_or(!pending.begun, "a job that was begun is lost")?;
            view.pending = None;
            view.standing = KnownStanding::Ready;
            return Ok(());
        }
        is_or(number == pending.job.number, "an unknown number is pending")?;
        match stance {
            SeenStance::Ready => view.standing = KnownStanding::Unlearned,
            SeenStance::Climb => {
                is_or(!pending.was_held, "a worker that was inside waits")?;
                view.stand(KnownStanding::Climb);
            }
            SeenStance::Held => {
                let holder = self.holder(pending.job.lock);
                is_or(holder.is_none(), "two workers are inside one lock")?;
                view.stand(KnownStanding::Held);
            }
        }
        Ok(())
    }

    fn learn_submission(
        &mut self,
        worker: u32,
        submission: &SimulatedSubmission,
        answer: &SeenAnswer,
    ) -> Found {
        let view = self.view(worker);
        let number = submission.job.number;
        if let Some(pending) = view.job() {
            if view.standing == KnownStanding::Unlearned && number == pending.job.number {
                return self.learn_outcome(worker, submission.enters, answer);
            }
            if number != pending.job.number {
                return expects(answer, pending.job.number);
            }
            if submission.job != pending.job {
                return refused(answer, 17);
            }
            return self.learn_outcome(worker, submission.enters, answer);
        }
        if number == view.next() {
            return self.learn_new_job(worker, submission, answer);
        }
        if number == view.done && number > 0 {
            return learn_again(&view, answer);
        }
        expects(answer, view.next())
    }

    fn learn_new_job(
        &mut self,
        worker: u32,
        submission: &SimulatedSubmission,
        answer: &SeenAnswer,
    ) -> Found {
        if submission.job.lock >= self.lock_count() {
            return refused(answer, 11);
        }
        if let SeenAnswer::Refused(..) = answer {
            return refused(answer, 14);
        }
        let mut view = self.view(worker);
        view.pending = Some(new_pending(submission.job, self.end(submission.job.lock)));
        view.standing = KnownStanding::Climb;
        self.put(worker, view);
        self.learn_outcome(worker, submission.enters, answer)
    }

    /// Checks how a pending job goes on.
    fn learn_outcome(&mut self, worker: u32, enters: bool, answer: &SeenAnswer) -> Found {
        let mut view = self.view(worker);
        match answer {
            SeenAnswer::Receipt(receipt) => {
                let is_due = !enters || view.standing == KnownStanding::Unlearned;
                is_or(is_due, "an entry that is a section")?;
                self.take_receipt(worker, *receipt)
            }
            SeenAnswer::Waiting => {
                is_or(
                    view.standing == KnownStanding::Climb,
                    "a worker waits that does not climb",
                )?;
                view.stand(KnownStanding::Climb);
                self.put(worker, view);
                Ok(())
            }
            SeenAnswer::Inside {
                life,
                number,
                section,
            } => {
                is_or(enters, "a submission that stops inside")?;
                self.hold(worker, *life, *number, *section)
            }
            SeenAnswer::Withdrawn => self.settle_withdrawal(worker),
            _ => Err("another answer than an outcome"),
        }
    }

    /// A worker is told to be inside.
    fn hold(&mut self, worker: u32, life: u64, number: u64, section: u64) -> Found {
        let mut view = self.view(worker);
        let Some(pending) = &mut view.pending else {
            return Err("a worker is inside without a job");
        };
        is_or(
            number == pending.job.number,
            "a worker is inside with another job",
        )?;
        is_or(
            life >= view.life.saturating_add(view.attachments),
            "a life has fallen",
        )?;
        is_or(
            view.attachments > 0 || life == view.life,
            "a life has risen without an attachment",
        )?;
        let lock = pending.job.lock;
        let earlier = pending.section.replace(section);
        is_or(
            earlier.is_none() || earlier == Some(section),
            "the section of an entry has changed",
        )?;
        self.check_section(worker, lock, section)?;
        view.life = life;
        view.attachments = 0;
        view.stand(KnownStanding::Held);
        self.put(worker, view);
        Ok(())
    }

    /// Checks the section of a worker that is inside a lock.
    fn check_section(&self, worker: u32, lock: u32, section: u64) -> Found {
        if let Some(holder) = self.holder(lock) {
            is_or(holder == worker, "two workers are inside one lock")?;
        }
        let end = self.end(lock);
        let most = end.saturating_add(self.unsure_count(lock));
        is_or(section >= end, "a section before that of an earlier answer")?;
        is_or(section <= most, "a section after a hole")
    }

    fn take_receipt(&mut self, worker: u32, receipt: SeenReceipt) -> Found {
        let mut view = self.view(worker);
        is_or(receipt.worker == worker, "a receipt of another worker")?;
        let Some(pending) = view.job() else {
            return Err("a receipt without a job");
        };
        is_or(
            receipt.number == pending.job.number,
            "a receipt of another number",
        )?;
        is_or(
            receipt.lock == pending.job.lock,
            "a receipt of another lock",
        )?;
        is_or(
            receipt.place >= pending.floor,
            "a place before that of an earlier answer",
        )?;
        is_or(
            pending.section.is_none() || pending.section == Some(receipt.place),
            "another place than the section of the entry",
        )?;
        self.check_beside(worker, &receipt)?;
        let job = CountedJob {
            worker,
            number: receipt.number,
            script: pending.job.script,
            reply: receipt.reply,
        };
        match self.locks.get_mut(receipt.lock as usize) {
            Some(counted) => counted.count(receipt.place, job)?,
            None => return Err("a receipt of no lock"),
        }
        view.finish(receipt.number, Some(receipt));
        self.put(worker, view);
        Ok(())
    }

    /// Checks that no other worker is inside the lock of a receipt since before it.
    fn check_beside(&self, worker: u32, receipt: &SeenReceipt) -> Found {
        let Some(holder) = self.holder(receipt.lock) else {
            return Ok(());
        };
        if holder == worker {
            return Ok(());
        }
        let section = self.view(holder).job().and_then(|pending| pending.section);
        is_or(
            section.is_none_or(|section| receipt.place < section),
            "a section beside another worker that is inside",
        )
    }

    /// The pending job is told to be withdrawn.
    fn settle_withdrawal(&mut self, worker: u32) -> Found {
        let mut view = self.view(worker);
        let Some(pending) = view.job() else {
            return Err("nothing is there to be withdrawn");
        };
        is_or(
            pending.may_be_withdrawn,
            "a job is withdrawn that nobody gave up",
        )?;
        view.finish(pending.job.number, None);
        self.put(worker, view);
        Ok(())
    }

    fn learn_commit(&mut self, worker: u32, answer: &SeenAnswer) -> Found {
        match self.view(worker).standing {
            KnownStanding::Ready | KnownStanding::Unlearned => refused(answer, 10),
            KnownStanding::Climb => refused(answer, 22),
            _ => match answer {
                SeenAnswer::Receipt(receipt) => self.take_receipt(worker, *receipt),
                _ => Err("a commit without a receipt"),
            },
        }
    }

    fn learn_withdrawal(&mut self, worker: u32, answer: &SeenAnswer) -> Found {
        let mut view = self.view(worker);
        if view.standing != KnownStanding::Climb {
            return refused(answer, 21);
        }
        let number = view.pending_number();
        match answer {
            SeenAnswer::Withdrew(found) => {
                is_or(*found == number, "another number is withdrawn")?;
                view.finish(number, None);
                self.put(worker, view);
                Ok(())
            }
            _ => Err("a waiting job is not withdrawn"),
        }
    }

    fn learn_last(&mut self, worker: u32, answer: &SeenAnswer) -> Found {
        let view = self.view(worker);
        match (view.standing, answer) {
            (KnownStanding::Ready, SeenAnswer::Last(last)) => {
                is_or(*last == view.last, "another last receipt")
            }
            (KnownStanding::Unlearned, SeenAnswer::Last(Some(receipt))) => {
                self.take_receipt(worker, *receipt)
            }
            (KnownStanding::Unlearned, SeenAnswer::Last(None)) => self.settle_withdrawal(worker),
            (KnownStanding::Climb | KnownStanding::Held, _) => refused(answer, 9),
            _ => Err("no last receipt"),
        }
    }

    fn check_pending(&self, worker: u32, answer: &SeenAnswer) -> Found {
        match (self.view(worker).standing, answer) {
            (KnownStanding::Ready | KnownStanding::Unlearned, _) => refused(answer, 10),
            (KnownStanding::Climb, SeenAnswer::Pending(SeenStance::Climb)) => Ok(()),
            (KnownStanding::Held, SeenAnswer::Pending(SeenStance::Held)) => Ok(()),
            _ => Err("another pending job"),
        }
    }
}

/// A job that is asked for the first time.
fn new_pending(job: NumberedJob, floor: u64) -> SeenPendingJob {
    SeenPendingJob {
        job,
        floor,
        begun: false,
        was_held: false,
        may_be_withdrawn: false,
        section: None,
    }
}

/// Checks the answer to the last number, which is asked again.
fn learn_again(view: &KnownWorker, answer: &SeenAnswer) -> Found {
    match (answer, view.last) {
        (SeenAnswer::Receipt(receipt), Some(last)) => is_or(*receipt == last, "another receipt"),
        (SeenAnswer::Withdrawn, None) => Ok(()),
        _ => Err("another outcome of the last number"),
    }
}
