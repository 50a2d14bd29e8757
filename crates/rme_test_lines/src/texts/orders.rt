//! The orders that the lines of sessions are.

use crate::texts::lock_names;
use rme_script::{Job, Op, Script};
use rme_session_protocol::{
    Attachment, ChoiceRequest, ClientLabel, Order, Patience, SERVICE_NUMBERS, Submission,
    WORLD_NUMBERS, WorkerChoice, parse_order, parse_worker_choice,
};
use rme_wire::{Names, ValueReader};
use rme_words::NoMemory;
use std::alloc::Global;
use std::process::Abort;
use std::test::Fail;

/// Lines that submit the job that adds 5, with its number, its lock and its tries. A lock that the service does not
/// have is the number of its locks.
const SUBMISSIONS: &[(&str, u64, u32, u32)] = &[
    (
        r#"{"do":"submit","lock":"a","number":1,"script":[["add",0,5]]}"#,
        1,
        0,
        1_000,
    ),
    (
        r#"{"do":"submit","lock":"a","number":0,"script":[["add",0,5]],"tries":1}"#,
        0,
        0,
        1,
    ),
    (
        r#"{"do":"submit","lock":"b","number":4294967295,"script":[["add",0,5]],"tries":1000000}"#,
        4_294_967_295,
        1,
        1_000_000,
    ),
];

fn attach(worker: u32, take: bool) -> Order {
    Order::Attach(Attachment {
        worker,
        take,
        after: None,
        label: None,
    })
}

fn attach_after(worker: u32, take: bool, after: u64) -> Order {
    Order::Attach(Attachment {
        worker,
        take,
        after: Some(after),
        label: None,
    })
}

fn attach_as(worker: u32, take: bool, after: Option<u64>, label: &str) -> Order {
    Order::Attach(Attachment {
        worker,
        take,
        after,
        label: ClientLabel::of(label),
    })
}

/// A line must give this order.
fn check_order(
    rt: &impl Abort,
    alloc: Global,
    names: &Names,
    line: &str,
    wanted: Order,
) -> Result<(), NoMemory> {
    let order = parse_order(
        &mut ValueReader::new(alloc),
        names,
        WORLD_NUMBERS,
        line.as_bytes(),
    )?;
    assert!(rt; order == Some(wanted));
    Ok(())
}

/// A line and its order.
type OrderLine = (&'static str, Order);

/// The orders without a script and with no number of tries or time to wait.
fn plain_lines() -> [OrderLine; 11] {
    [
        (r#"{"do":"attach","worker":0}"#, attach(0, false)),
        (r#"{"worker":9,"do":"attach"}"#, attach(9, false)),
        (
            r#"{"do":"attach","take":false,"worker":1}"#,
            attach(1, false),
        ),
        (r#"{"do":"attach","take":true,"worker":1}"#, attach(1, true)),
        (r#"{"do":"commit"}"#, Order::Commit),
        (r#"{"do":"withdraw"}"#, Order::Withdraw),
        (r#"{"do":"last"}"#, Order::Last),
        (r#"{"do":"crash_after","steps":0}"#, Order::CrashAfter(0)),
        (r#"{"do":"detach"}"#, Order::Detach),
        (r#"{"do":"ping"}"#, Order::Ping),
        (r#"{"do":"pending"}"#, Order::Pending),
    ]
}

/// Attachments of a worker that was not restarted since a life.
fn lines_after() -> [OrderLine; 4] {
    [
        (
            r#"{"after":0,"do":"attach","worker":0}"#,
            attach_after(0, false, 0),
        ),
        (
            r#"{"do":"attach","worker":1,"after":9007199254740992}"#,
            attach_after(1, false, 9_007_199_254_740_992),
        ),
        (
            r#"{"after":3,"do":"attach","take":true,"worker":2}"#,
            attach_after(2, true, 3),
        ),
        (
            r#"{"after":3,"do":"attach","take":false,"worker":2}"#,
            attach_after(2, false, 3),
        ),
    ]
}

/// 64 bytes, of 64 characters and of 32.
const LONGEST: &str = "0123456789abcdef0123456789abcdef0123456789abcdef0123456789abcdef";

const LONGEST_OF_TWO_BYTES: &str = "äöüßäöüßäöüßäöüßäöüßäöüßäöüßäöüß";

/// Attachments with the label of a client, which has at most 64 bytes and may be empty.
fn lines_as() -> [OrderLine; 6] {
    [
        (
            r#"{"as":"host7:cron","do":"attach","worker":0}"#,
            attach_as(0, false, None, "host7:cron"),
        ),
        (
            r#"{"after":3,"as":"host7:cron","do":"attach","take":true,"worker":2}"#,
            attach_as(2, true, Some(3), "host7:cron"),
        ),
        (
            r#"{"do":"attach","worker":0,"as":""}"#,
            attach_as(0, false, None, ""),
        ),
        (
            r#"{"as":"\u0022\n","do":"attach","worker":0}"#,
            attach_as(0, false, None, "\"\n"),
        ),
        (
            r#"{"as":"0123456789abcdef0123456789abcdef0123456789abcdef0123456789abcdef","do":"attach","worker":1}"#,
            attach_as(1, false, None, LONGEST),
        ),
        (
            r#"{"as":"äöüßäöüßäöüßäöüßäöüßäöüßäöüßäöüß","do":"attach","worker":1}"#,
            attach_as(1, false, None, LONGEST_OF_TWO_BYTES),
        ),
    ]
}

/// Numbers at their limits. An order without a number of tries asks for 1,000.
fn numbered_lines() -> [OrderLine; 6] {
    [
        (r#"{"do":"resume"}"#, Order::Resume(Patience::Tries(1_000))),
        (
            r#"{"do":"resume","tries":1}"#,
            Order::Resume(Patience::Tries(1)),
        ),
        (
            r#"{"do":"resume","tries":1000000}"#,
            Order::Resume(Patience::Tries(1_000_000)),
        ),
        (
            r#"{"do":"resume","wait":0}"#,
            Order::Resume(Patience::Wait(0)),
        ),
        (
            r#"{"do":"resume","wait":3600000}"#,
            Order::Resume(Patience::Wait(3_600_000)),
        ),
        (
            r#"{"do":"crash_after","steps":1000000}"#,
            Order::CrashAfter(1_000_000),
        ),
    ]
}

/// Each line must give its order.
fn check_orders(
    rt: &impl Abort,
    alloc: Global,
    names: &Names,
    lines: &[OrderLine],
) -> Result<(), NoMemory> {
    for (line, wanted) in lines {
        check_order(rt, alloc, names, line, *wanted)?;
    }
    Ok(())
}

#[test]
fn orders(rt: HostRuntime) -> Result<(), Fail> {
    let names = lock_names(&rt, rt.alloc());
    check_orders(&rt, rt.alloc(), &names, &plain_lines())?;
    check_orders(&rt, rt.alloc(), &names, &lines_after())?;
    check_orders(&rt, rt.alloc(), &names, &lines_as())?;
    check_orders(&rt, rt.alloc(), &names, &numbered_lines())?;
    Ok(())
}

/// Texts of which labels are made.
const LABELS: [&str; 4] = ["", "host7:cron", LONGEST, LONGEST_OF_TWO_BYTES];

/// Whether a label is made of this text, and has it.
fn has_label(text: &str) -> bool {
    match ClientLabel::of(text) {
        Some(label) => label.as_str() == text,
        None => false,
    }
}

/// A label has the text of which it was made, and a text of 65 bytes makes none.
#[test]
fn labels(rt: HostRuntime) {
    for text in &LABELS {
        assert!(rt; has_label(text));
    }
    let longer = "0123456789abcdef0123456789abcdef0123456789abcdef0123456789abcdefg";
    assert!(rt; ClientLabel::of(longer).is_none());
    assert!(rt; ClientLabel::of("a") != ClientLabel::of("a\0"));
}

/// The line of `enter` has the form of that of `submit`.
#[test]
fn entering(rt: HostRuntime) -> Result<(), Fail> {
    check_entering(&rt, rt.alloc(), &lock_names(&rt, rt.alloc()))?;
    Ok(())
}

fn check_entering(rt: &impl Abort, alloc: Global, names: &Names) -> Result<(), NoMemory> {
    let line = r#"{"do":"enter","lock":"a","number":1,"script":[["add",0,5]],"tries":3}"#;
    let submission = Submission {
        number: 1,
        job: Job {
            lock: 0,
            script: Script::of(&[Op::Add(0, 5)]),
        },
        patience: Patience::Tries(3),
    };
    check_order(rt, alloc, names, line, Order::Enter(submission))
}

/// Lines that lack a key, have an extra one, or a value of another kind.
const NO_ORDERS: [&str; 28] = [
    r#"{"do":"commit","number":1}"#,
    r#"{"do":"commit","tries":1}"#,
    r#"{"do":"enter","lock":"a","number":1}"#,
    r#"{"do":"enter","lock":"a","script":[]}"#,
    r#"{"do":"enter","number":1,"script":[]}"#,
    r#"{"do":"enter","lock":0,"number":1,"script":[]}"#,
    r#"{"do":"enter","lock":"a","number":1,"script":[],"tries":0}"#,
    r#"{"do":"enter","lock":"a","number":1,"script":[],"worker":0}"#,
    r#"{"do":"enter","lock":"a","number":1,"script":[],"wait":3600001}"#,
    r#"{"do":"enter","lock":"a","number":1,"script":[],"tries":1,"wait":1}"#,
    r#"{"do":"resume","tries":1,"wait":1}"#,
    r#"{"do":"resume","wait":-1}"#,
    r#"{"do":"attach","take":1,"worker":0}"#,
    r#"{"do":"attach","take":true}"#,
    r#"{"after":3,"do":"attach"}"#,
    r#"{"after":-1,"do":"attach","worker":0}"#,
    r#"{"after":1.5,"do":"attach","worker":0}"#,
    r#"{"after":"3","do":"attach","worker":0}"#,
    r#"{"after":null,"do":"attach","worker":0}"#,
    r#"{"after":9007199254740993,"do":"attach","worker":0}"#,
    r#"{"after":3,"do":"detach"}"#,
    r#"{"as":"host7:cron","do":"attach"}"#,
    r#"{"as":7,"do":"attach","worker":0}"#,
    r#"{"as":null,"do":"attach","worker":0}"#,
    r#"{"as":"host7:cron","do":"detach"}"#,
    r#"{"as":"0123456789abcdef0123456789abcdef0123456789abcdef0123456789abcdefg","do":"attach","worker":0}"#,
    r#"{"as":"äöüßäöüßäöüßäöüßäöüßäöüßäöüßäöüßa","do":"attach","worker":0}"#,
    r#"{"do":"submit","lock":"a","number":4294967296,"script":[]}"#,
];

/// Whether a line is no order.
fn is_no_order(alloc: Global, names: &Names, line: &str) -> Result<bool, NoMemory> {
    let mut values = ValueReader::new(alloc);
    match parse_order(&mut values, names, WORLD_NUMBERS, line.as_bytes()) {
        Ok(None) => Ok(true),
        Ok(Some(_)) => Ok(false),
        Err(why) => Err(why),
    }
}

#[test]
fn no_orders(rt: HostRuntime) -> Result<(), Fail> {
    check_no_orders(&rt, rt.alloc(), &lock_names(&rt, rt.alloc()))?;
    Ok(())
}

fn check_no_orders(rt: &impl Abort, alloc: Global, names: &Names) -> Result<(), NoMemory> {
    for line in &NO_ORDERS {
        assert!(rt; is_no_order(alloc, names, line)?);
    }
    Ok(())
}

#[test]
fn submissions(rt: HostRuntime) -> Result<(), Fail> {
    check_submissions(&rt, rt.alloc(), &lock_names(&rt, rt.alloc()))?;
    Ok(())
}

fn check_submissions(rt: &impl Abort, alloc: Global, names: &Names) -> Result<(), NoMemory> {
    let script = Script::of(&[Op::Add(0, 5)]);
    for (line, number, lock, tries) in SUBMISSIONS {
        let submission = Submission {
            number: *number,
            job: Job {
                lock: *lock,
                script,
            },
            patience: Patience::Tries(*tries),
        };
        check_order(rt, alloc, names, line, Order::Submit(submission))?;
    }
    Ok(())
}

/// The number of the job that a line of a client of a service over epochs submits.
fn submitted_number(alloc: Global, names: &Names, line: &str) -> Result<Option<u64>, NoMemory> {
    let mut values = ValueReader::new(alloc);
    match parse_order(&mut values, names, SERVICE_NUMBERS, line.as_bytes())? {
        Some(Order::Submit(its)) => Ok(Some(its.number)),
        _ => Ok(None),
    }
}

/// The client of a service over epochs may give its jobs numbers up to 2^53.
#[test]
fn large_numbers(rt: HostRuntime) -> Result<(), Fail> {
    check_large_numbers(&rt, rt.alloc(), &lock_names(&rt, rt.alloc()))?;
    Ok(())
}

fn check_large_numbers(rt: &impl Abort, alloc: Global, names: &Names) -> Result<(), NoMemory> {
    let largest = r#"{"do":"submit","lock":"a","number":9007199254740992,"script":[]}"#;
    let number = submitted_number(alloc, names, largest)?;
    assert!(rt; number == Some(9_007_199_254_740_992));
    let larger = r#"{"do":"submit","lock":"a","number":9007199254740993,"script":[]}"#;
    assert!(rt; submitted_number(alloc, names, larger)? == None);
    Ok(())
}

/// Lines that leave the choice of a worker to the server, with the label that they give, and lines that do not.
const CHOICES: &[(&str, Option<(WorkerChoice, Option<&str>)>)] = &[
    (
        r#"{"any":"pending","do":"attach"}"#,
        Some((WorkerChoice::Pending, None)),
    ),
    (
        r#"{"do":"attach","any":"ready"}"#,
        Some((WorkerChoice::Ready, None)),
    ),
    (
        r#"{"any":"ready","as":"host7:cron","do":"attach"}"#,
        Some((WorkerChoice::Ready, Some("host7:cron"))),
    ),
    (
        r#"{"any":"pending","as":"äöüßäöüßäöüßäöüßäöüßäöüßäöüßäöüß","do":"attach"}"#,
        Some((WorkerChoice::Pending, Some(LONGEST_OF_TWO_BYTES))),
    ),
    (r#"{"any":"idle","do":"attach"}"#, None),
    (r#"{"any":0,"do":"attach"}"#, None),
    (r#"{"any":"ready","as":0,"do":"attach"}"#, None),
    (
        r#"{"any":"ready","as":"äöüßäöüßäöüßäöüßäöüßäöüßäöüßäöüßa","do":"attach"}"#,
        None,
    ),
    (r#"{"any":"ready","do":"attach","take":true}"#, None),
    (r#"{"after":3,"any":"ready","do":"attach"}"#, None),
    (r#"{"any":"ready","do":"attach","worker":0}"#, None),
    (r#"{"any":"ready","do":"detach"}"#, None),
    (r#"{"as":"host7:cron","do":"attach"}"#, None),
    (r#"{"do":"attach"}"#, None),
    ("ready", None),
];

/// The request for a choice, with a label if one is given.
fn request_for(choice: WorkerChoice, label: Option<&str>) -> ChoiceRequest {
    let label = match label {
        Some(text) => ClientLabel::of(text),
        None => None,
    };
    ChoiceRequest { choice, label }
}

/// Whether a line is this request for a choice.
fn is_choice(alloc: Global, line: &str, wanted: ChoiceRequest) -> Result<bool, NoMemory> {
    let choice = parse_worker_choice(&mut ValueReader::new(alloc), line.as_bytes())?;
    Ok(choice == Some(wanted))
}

/// Whether a line is no request for a choice.
fn is_no_choice(alloc: Global, line: &str) -> Result<bool, NoMemory> {
    match parse_worker_choice(&mut ValueReader::new(alloc), line.as_bytes()) {
        Ok(None) => Ok(true),
        Ok(Some(_)) => Ok(false),
        Err(why) => Err(why),
    }
}

/// A choice is no order, and an order is no choice.
#[test]
fn choices(rt: HostRuntime) -> Result<(), Fail> {
    let names = lock_names(&rt, rt.alloc());
    for (line, wanted) in CHOICES {
        assert!(rt; is_no_order(rt.alloc(), &names, line)?);
        let is_read = match *wanted {
            Some((choice, label)) => is_choice(rt.alloc(), line, request_for(choice, label))?,
            None => is_no_choice(rt.alloc(), line)?,
        };
        assert!(rt; is_read);
    }
    let plain = r#"{"do":"attach","worker":0}"#;
    assert!(rt; is_no_choice(rt.alloc(), plain)?);
    Ok(())
}
