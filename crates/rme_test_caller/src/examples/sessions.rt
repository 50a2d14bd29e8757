//! A session over lines in memory.

ghost use Rattle.std.specs.Prelude.{◌≡◌, IfOk};
ghost use Rattle.rme.specs.Closing.{SeatsAreOfService};
ghost use Rattle.rme.specs.WorkerSlots.{AreDownsInPlace};

use rme::Shape;
use rme::lines::{LineReader, Names};
use rme::service::{Down, Service, Tag};
use rme::sessions::{LocalClient, ServiceBackend, SessionRegistry, Slots, session};
use std::alloc::Global;
use std::marker::Brand;
use std::process::Abort;
use std::sync::Wait;
use std::test::Fail;
use std::time::Clock;

/// What a client says: the worker crashes in the middle of its job, and the job is submitted again.
const SAID: &str = r#"{"do":"attach","worker":0}
{"do":"crash_after","steps":20}
{"do":"submit","lock":"bank","number":1,"script":[["add",0,5]]}
{"do":"attach","worker":0}
{"do":"submit","lock":"bank","number":1,"script":[["add",0,5]]}
"#;

/// What it is answered.
const HEARD: &str = r#"{"number":0,"ok":"attach","stance":"ready"}
{"ok":"crash_after"}
{"fell":true,"ok":"submit"}
{"number":1,"ok":"attach","stance":"held"}
{"ok":"submit","receipt":{"lock":"bank","number":1,"place":0,"reply":5,"worker":0}}
"#;

/// What a client says of which worker it was inside with: that was the worker's first life, and then its second, and then
/// it is told that it was overtaken. A worker of the service's choice begins a life as well.
const LIVES_SAID: &str = r#"{"after":0,"do":"attach","worker":0}
{"do":"enter","lock":"bank","number":1,"script":[["add",0,5]]}
{"do":"detach"}
{"after":1,"do":"attach","worker":0}
{"do":"enter","lock":"bank","number":1,"script":[["add",0,5]]}
{"after":1,"do":"attach","worker":0}
{"do":"detach"}
{"after":1,"do":"attach","take":true,"worker":0}
{"any":"pending","do":"attach"}
{"do":"enter","lock":"bank","number":1,"script":[["add",0,5]]}
{"do":"commit"}
"#;

/// What it is answered.
const LIVES_HEARD: &str = r#"{"number":0,"ok":"attach","stance":"ready"}
{"life":1,"number":1,"ok":"enter","section":0,"stance":"held"}
{"ok":"detach"}
{"number":1,"ok":"attach","stance":"held"}
{"life":2,"number":1,"ok":"enter","section":0,"stance":"held"}
{"code":9,"error":"Busy"}
{"ok":"detach"}
{"code":26,"error":"Overtaken"}
{"number":1,"ok":"attach","stance":"held","worker":0}
{"life":3,"number":1,"ok":"enter","section":0,"stance":"held"}
{"ok":"commit","receipt":{"lock":"bank","number":1,"place":0,"reply":5,"worker":0}}
"#;

/// What a client says, and what it is answered.
#[derive(Clone, Copy)]
struct PlayedSession {
    said: &'static str,
    heard: &'static str,
}

/// One session of the service that K names, from a text in memory to bytes in memory. Answers the Downs that lie in
/// the slots after it.
fn talk<K: Tag, R: Abort + Wait + Clock>(
    rt: &R,
    alloc: Global,
    service: &Service,
    downs: Vec<Down>,
    conversation: PlayedSession,
) -> Result<Vec<Down>, Fail>
    requires named { service.now ≡ K.ident }
    requires all { AreDownsInPlace service.now downs.items }
    ensures ours { IfOk result (λ downs. SeatsAreOfService service.now downs.items) }
{
    let mut names = Names::new(alloc)?;
    names.add("bank")?;
    let Ok(slots) = Slots::<K>::new(rt, alloc, downs) else {
        panic!(rt; "no room for the slots");
    };
    let mut lines = LineReader::new(alloc, conversation.said.as_bytes())?;
    let mut heard = Vec::new(alloc);
    let host = ServiceBackend {
        alloc,
        service,
        slots: &slots,
        names: &names,
        registry: &SessionRegistry::new(alloc, service.shape())?,
    };
    session(rt, &host, &LocalClient, &mut lines, &mut heard)?;
    assert!(rt; str::from_utf8(heard.as_slice()).ok() == Some(conversation.heard));
    match slots.into_downs(rt) {
        Ok(downs) => Ok(downs),
        Err(_) => panic!(rt; "no room for the Downs"),
    }
}

/// The client's job counts once.
fn hold<R: Abort + Wait + Clock>(
    rt: &R,
    alloc: Global,
    conversation: PlayedSession,
) -> Result<(), Fail> {
    let (service, downs) = Service::new(alloc, Shape::new(2, 1, 1, 10)?)?;
    let downs = talk::<Brand, R>(rt, alloc, &service, downs, conversation)?;
    let Ok(closed) = service.close(downs) else {
        panic!(rt; "the service was not closed");
    };
    assert!(rt; closed.locks.len() == 1);
    assert!(rt; closed.locks[0].cells.as_slice() == [5].as_slice());
    Ok(())
}

#[test]
fn session_in_memory(rt: HostRuntime) -> Result<(), Fail> {
    hold(
        &rt,
        rt.alloc(),
        PlayedSession {
            said: SAID,
            heard: HEARD,
        },
    )
}

#[test]
fn session_with_lives(rt: HostRuntime) -> Result<(), Fail> {
    hold(
        &rt,
        rt.alloc(),
        PlayedSession {
            said: LIVES_SAID,
            heard: LIVES_HEARD,
        },
    )
}
