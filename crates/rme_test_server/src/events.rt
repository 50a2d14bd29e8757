//! What clients are told of, and whom a take-over closes.

ghost use Rattle.std.specs.Prelude.{◌≡◌, IfOk, OnOk, string_bytes};
ghost use Rattle.rme_line_io.specs.Cuts.{input_line_of};
ghost use Rattle.rme_service_steps.specs.Closing.{SeatsAreOfService};
ghost use Rattle.rme_session_threads.specs.Stands.{IsValidHolding};
ghost use Rattle.rme_session_threads.specs.WorkerSlots.{AreDownsInPlace};
ghost use Rattle.rme_test_server.specs.Answers.{AnswersLine};

use rme_server::ServiceBackend;
use rme_session_loop::{
    AnswerError, Backend, Buffers, Client, CloseHandle, OrderAttempts, OrderRequest, SessionEvent,
    SessionRegistry, session,
};
use rme_session_protocol::{Attachment, Order, SessionReply, SessionStance};
use rme_session_threads::{Slots, Stand};
use rme_table::{Down, Service, Tag};
use rme_wire::{LineReader, Names, Sink};
use rme_words::{Refusal, Shape};
use std::alloc::Global;
use std::cell::{Cell, RefCell};
use std::marker::Brand;
use std::process::Abort;
use std::sync::Wait;
use std::test::*;
use std::time::Clock;

/// What a client was told of, and how often it was closed.
#[derive(Drop)]
struct ClientRecord {
    events: RefCell<Vec<SessionEvent>>,
    closed: Cell<u32>,
}

impl ClientRecord {
    fn new(alloc: Global) -> ClientRecord {
        ClientRecord {
            events: RefCell::new(Vec::new(alloc)),
            closed: Cell::new(0),
        }
    }

    /// Whether the client was told of these events since the last call, and of no others.
    fn was_told(&self, wanted: &[SessionEvent]) -> bool {
        let Ok(mut events) = self.events.try_borrow_mut() else {
            return false;
        };
        let is_same = events.as_slice() == wanted;
        events.clear();
        is_same
    }
}

/// A client that keeps a record.
#[derive(Clone, Copy)]
struct RecordedClient<'a>(&'a ClientRecord);

impl<'a> Client for RecordedClient<'a> {
    type Handle = RecordedClose<'a>;

    fn is_gone(&self) -> bool {
        false
    }

    fn handle(&self) -> Option<RecordedClose<'a>> {
        Some(RecordedClose(self.0))
    }

    fn observe(&self, event: SessionEvent) {
        if let Ok(mut events) = self.0.events.try_borrow_mut() {
            let _ = events.push(event);
        }
    }
}

/// Its handle.
#[derive(Clone, Copy, Drop)]
struct RecordedClose<'a>(&'a ClientRecord);

impl CloseHandle for RecordedClose<'_> {
    fn close(&self) {
        self.0.closed.set(self.0.closed.get().saturating_add(1));
    }
}

/// A session that attaches a worker, lets it go, asks for one with a pending job, of which there is none, and ends with
/// one that has none.
const SAID: &str = r#"{"do":"attach","worker":1}
{"do":"detach"}
{"any":"pending","do":"attach"}
{"any":"ready","do":"attach"}
"#;

/// What it is told of, with the workers that the choice does not take.
const TOLD: [SessionEvent; 8] = [
    SessionEvent::Attached(1),
    SessionEvent::Detached(1),
    SessionEvent::Attached(0),
    SessionEvent::Detached(0),
    SessionEvent::Attached(1),
    SessionEvent::Detached(1),
    SessionEvent::Attached(0),
    SessionEvent::Ended(0),
];

fn attach(take: bool, after: Option<u64>) -> Order {
    Order::Attach(Attachment {
        worker: 0,
        take,
        after,
        label: None,
    })
}

/// A session from lines in memory.
fn talk<'a, K: Tag, R: Abort + Wait + Clock>(
    rt: &R,
    host: &ServiceBackend<'_, K, RecordedClose<'a>>,
    record: &'a ClientRecord,
) -> Result<(), Fail>
    requires ours { host.now.service.now ≡ K.ident }
{
    let mut lines = LineReader::new(host.alloc, SAID.as_bytes())?;
    let mut heard = Vec::new(host.alloc);
    session(rt, host, &RecordedClient(record), &mut lines, &mut heard)?;
    assert!(rt; record.was_told(&TOLD));
    Ok(())
}

/// Answers the last line of a session, as `session` does.
fn answer_line<'a, K: Tag, R: Wait + Clock, O: Sink>(
    rt: &R,
    host: &ServiceBackend<'_, K, RecordedClose<'a>>,
    stand: Stand,
    buffers: &mut Buffers,
    connection: (&mut O, &RecordedClient<'a>),
) -> (Stand, Result<(), AnswerError>)
    requires ours { host.now.service.now ≡ K.ident }
    requires stand { IsValidHolding K.ident host.now.slots.now stand.value }
    ensures ours { IsValidHolding K.ident host.now.slots.now result.0.value }
    ensures says { OnOk result.1 (AnswersLine host.now.names.now stand
        (input_line_of buffers.old.cut buffers.old.exchange.line.items) (string_bytes buffers.new.text) result.0) }
{
    let (writer, client) = connection;
    host.answer(rt, stand, buffers, writer, client)
}

/// One try of an order.
fn attempt<'a, K: Tag, R: Abort + Wait + Clock>(
    rt: &R,
    host: &ServiceBackend<'_, K, RecordedClose<'a>>,
    stand: Stand,
    order: Order,
    client: &RecordedClient<'a>,
) -> (Stand, SessionReply)
    requires ours { host.now.service.now ≡ K.ident }
    requires stand { IsValidHolding K.ident host.now.slots.now stand.value }
    ensures { IsValidHolding K.ident host.now.slots.now result.0.value }
{
    let (stand, tried) = host.begin(rt, stand, &OrderRequest { client, order }, true);
    match tried {
        Ok(first) => (stand, first.reply),
        Err(_) => panic!(rt; "the order was not tried"),
    }
}

/// One session has a worker, and others ask for it: only one that takes it over and was not overtaken closes the first,
/// and does so once.
fn take_over<'a, K: Tag, R: Abort + Wait + Clock>(
    rt: &R,
    host: &ServiceBackend<'_, K, RecordedClose<'a>>,
    record: &'a ClientRecord,
    other: &'a ClientRecord,
)
    requires ours { host.now.service.now ≡ K.ident }
{
    let (client, taker) = (RecordedClient(record), RecordedClient(other));
    let (stand, reply) = attempt(rt, host, Stand::empty(), attach(false, None), &client);
    assert!(rt; reply == SessionReply::Attached(0, SessionStance::Ready));
    assert!(rt; record.was_told(&[SessionEvent::Attached(0)]));
    let (next, reply) = attempt(rt, host, Stand::empty(), attach(true, Some(0)), &taker);
    assert!(rt; reply == SessionReply::Refused(Refusal::Overtaken));
    let (next, reply) = attempt(rt, host, next, attach(false, None), &taker);
    assert!(rt; reply == SessionReply::Refused(Refusal::Taken));
    assert!(rt; other.was_told(&[]) && record.closed.get() == 0);
    let (next, reply) = attempt(rt, host, next, attach(true, None), &taker);
    assert!(rt; reply == SessionReply::Refused(Refusal::Taken));
    assert!(rt; other.was_told(&[SessionEvent::TakesOver(0)]) && record.closed.get() == 1);
    let (next, _) = attempt(rt, host, next, attach(true, None), &taker);
    assert!(rt; other.was_told(&[]) && record.closed.get() == 1);
    assert!(rt; host.end_session(rt, stand, &client).is_ok());
    assert!(rt; record.was_told(&[SessionEvent::Ended(0)]));
    let (next, reply) = attempt(rt, host, next, attach(true, None), &taker);
    assert!(rt; reply == SessionReply::Attached(0, SessionStance::Ready));
    assert!(rt; other.was_told(&[SessionEvent::Attached(0)]));
    assert!(rt; host.end_session(rt, next, &taker).is_ok());
    assert!(rt; other.was_told(&[SessionEvent::Ended(0)]) && other.closed.get() == 0);
}

/// Both over one service of two workers, whose Downs come back.
fn try_service<'a, K: Tag, R: Abort + Wait + Clock>(
    rt: &R,
    alloc: Global,
    service: &Service,
    downs: Vec<Down>,
    records: (&'a ClientRecord, &'a ClientRecord),
) -> Result<Vec<Down>, Fail>
    requires named { service.now ≡ K.ident }
    requires all { AreDownsInPlace service.now downs.items }
    ensures ours { IfOk result (λ downs. SeatsAreOfService service.now downs.items) }
{
    let mut names = Names::new(alloc)?;
    names.add("bank")?;
    let Ok(slots) = Slots::<K>::new(rt, alloc, downs) else {
        panic!(rt; "no room for the slots");
    };
    let host = ServiceBackend {
        alloc,
        service,
        slots: &slots,
        names: &names,
        registry: &SessionRegistry::<RecordedClose<'a>>::new(alloc, service.shape())?,
    };
    let (record, other) = records;
    take_over(rt, &host, record, other);
    talk(rt, &host, record)?;
    match slots.into_downs(rt) {
        Ok(downs) => Ok(downs),
        Err(_) => panic!(rt; "no room for the Downs"),
    }
}

#[test]
fn clients_are_told_of_what_happens_to_their_workers(rt: HostRuntime) -> Result<(), Fail> {
    let alloc = rt.alloc();
    let (service, downs) = Service::new(alloc, Shape::new(2, 1, 1, 10)?)?;
    let records = (&ClientRecord::new(alloc), &ClientRecord::new(alloc));
    let downs = try_service::<Brand, _>(&rt, alloc, &service, downs, records)?;
    assert!(rt; service.close(downs).is_ok());
    Ok(())
}
