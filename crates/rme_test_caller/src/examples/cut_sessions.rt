//! Sessions in memory that are cut after each byte of their lines, and continued by another session.

ghost use Rattle.rme.specs.WorkerSlots.{AreDownsInPlace};
ghost use Rattle.std.specs.Prelude.{◌≡◌};

use rme::Shape;
use rme::lines::{LineReader, Names};
use rme::service::{Down, Service, Tag};
use rme::sessions::{LocalClient, NoCloseHandle, ServiceBackend, SessionRegistry, Slots, session};
use std::alloc::Global;
use std::marker::Brand;
use std::process::Abort;
use std::sync::Wait;
use std::test::Fail;
use std::time::Clock;

/// The lines of a client that enters and commits.
const SAID: &str = r#"{"do":"attach","worker":0}
{"do":"enter","lock":"bank","number":1,"script":[["add",0,5]]}
{"do":"commit"}
"#;

/// The lines of the next client, with the same job.
const THEN: &str = r#"{"do":"attach","worker":0}
{"do":"submit","lock":"bank","number":1,"script":[["add",0,5]]}
"#;

/// Its last answer.
const RECEIPT: &str =
    r#"{"ok":"submit","receipt":{"lock":"bank","number":1,"place":0,"reply":5,"worker":0}}
"#;

/// The answers to these lines by a new session.
fn answered<K: Tag, R: Wait + Clock>(
    rt: &R,
    host: &ServiceBackend<'_, K, NoCloseHandle>,
    said: &[u8],
) -> Result<Vec<u8>, Fail>
    requires named { host.now.service.now ≡ K.ident }
{
    let mut lines = LineReader::new(host.alloc, said)?;
    let mut heard = Vec::new(host.alloc);
    session(rt, host, &LocalClient, &mut lines, &mut heard)?;
    Ok(heard)
}

/// A session that is cut after this number of bytes, and the next one, which finishes the job or makes it.
fn cut<K: Tag, R: Abort + Wait + Clock>(
    rt: &R,
    alloc: Global,
    service: &Service,
    downs: Vec<Down>,
    bytes: usize,
) -> Result<(), Fail>
    requires named { service.now ≡ K.ident }
    requires all { AreDownsInPlace service.now downs.items }
{
    let mut names = Names::new(alloc)?;
    names.add("bank")?;
    let Ok(slots) = Slots::<K>::new(rt, alloc, downs) else {
        panic!(rt; "no room for the slots");
    };
    let host = ServiceBackend {
        alloc,
        service,
        slots: &slots,
        names: &names,
        registry: &SessionRegistry::new(alloc, service.shape())?,
    };
    let front = SAID.as_bytes().get(..bytes).unwrap_or(SAID.as_bytes());
    answered(rt, &host, front)?;
    let heard = answered(rt, &host, THEN.as_bytes())?;
    assert!(rt;
        heard.as_slice().ends_with(RECEIPT.as_bytes()),
        "a cut after {bytes} bytes"
    );
    let again = answered(rt, &host, THEN.as_bytes())?;
    assert!(rt;
        again.as_slice().ends_with(RECEIPT.as_bytes()),
        "once more after {bytes} bytes"
    );
    Ok(())
}

/// Wherever a session is cut, its job counts once.
#[test]
fn cut_sessions_in_memory(rt: HostRuntime) -> Result<(), Fail> {
    for bytes in 0..SAID.len() {
        let (service, downs) = Service::new(rt.alloc(), Shape::new(1, 1, 1, 10)?)?;
        cut::<Brand, HostRuntime>(&rt, rt.alloc(), &service, downs, bytes)?;
    }
    Ok(())
}
