//! The numbers and names that accepted answers say.

use crate::client_requests::answer_to;
use rme_ask_client::{
    ClientError, ClientRequest, ReportedOutcome, ReportedStance, ServerAnswer, ServerStatus,
    attached_worker, cells_answer, job_outcome, last_receipt, owner_answer, pending_job,
    server_status, spaces_page, withdrawn_number,
};
use std::test::Fail;

#[test]
fn answers_on_jobs_are_read(rt: HostRuntime) -> Result<(), Fail> {
    let alloc = rt.alloc();
    let told = b"{\"number\":2,\"ok\":\"attach\",\"stance\":\"held\"}\n";
    let ServerAnswer::Accepted(value) = answer_to(alloc, ClientRequest::Attach(0), told)? else {
        return Err(Fail::from("attach"));
    };
    let worker = attached_worker(&value)?;
    assert!(rt; worker.number == 2 && worker.stance == ReportedStance::Held);
    let told =
        b"{\"lock\":\"bank\",\"number\":2,\"ok\":\"pending\",\"script\":[[\"add\",0,5]],\"stance\":\"climb\"}\n";
    let ServerAnswer::Accepted(value) = answer_to(alloc, ClientRequest::Pending, told)? else {
        return Err(Fail::from("pending"));
    };
    let job = pending_job(alloc, &value)?;
    assert_eq!(rt; job.script.as_str(), "[[\"add\",0,5]]");
    assert!(rt;
        job.lock.as_str() == "bank" && job.number == 2 && job.stance == ReportedStance::Climb
    );
    let told = b"{\"number\":3,\"ok\":\"withdraw\"}\n";
    let ServerAnswer::Accepted(value) = answer_to(alloc, ClientRequest::Withdraw, told)? else {
        return Err(Fail::from("withdraw"));
    };
    assert_eq!(rt; withdrawn_number(&value)?, 3);
    Ok(())
}

#[test]
fn outcomes_and_receipts_are_read(rt: HostRuntime) -> Result<(), Fail> {
    let alloc = rt.alloc();
    let told =
        b"{\"ok\":\"resume\",\"receipt\":{\"lock\":\"bank\",\"number\":2,\"place\":1,\"reply\":10,\"worker\":0}}\n";
    let ServerAnswer::Accepted(value) = answer_to(alloc, ClientRequest::Resume(0), told)? else {
        return Err(Fail::from("resume"));
    };
    let ReportedOutcome::Receipt(receipt) = job_outcome(alloc, &value)? else {
        return Err(Fail::from("no receipt"));
    };
    let text = format!(in alloc; "{receipt}")?;
    assert_eq!(rt;
        text.as_str(),
        "job 2 of worker 0 on lock bank: place 1, reply 10"
    );
    let told = b"{\"ok\":\"resume\",\"waiting\":true}\n";
    let ServerAnswer::Accepted(value) = answer_to(alloc, ClientRequest::Resume(0), told)? else {
        return Err(Fail::from("waiting"));
    };
    assert!(rt; matches!(job_outcome(alloc, &value)?, ReportedOutcome::Waiting));
    let told = b"{\"last\":null,\"ok\":\"last\"}\n";
    let ServerAnswer::Accepted(value) = answer_to(alloc, ClientRequest::Last, told)? else {
        return Err(Fail::from("last"));
    };
    assert!(rt; last_receipt(alloc, &value)?.is_none());
    Ok(())
}

#[test]
fn look_ups_are_read(rt: HostRuntime) -> Result<(), Fail> {
    let alloc = rt.alloc();
    let told =
        b"{\"epoch\":4,\"locks\":[{\"cells\":[5,7],\"name\":\"bank\",\"owner\":1,\"sections\":2,\"settled\":false}],\"ok\":\"status\",\"workers\":[{\"attached\":true,\"number\":0,\"stance\":\"ready\"},{\"attached\":false,\"lock\":\"bank\",\"number\":3,\"stance\":\"held\"},{\"as\":\"host7:\\u001bcron\",\"attached\":true,\"blocked_by\":1,\"lock\":\"bank\",\"number\":2,\"seconds\":12,\"stance\":\"climb\"}]}\n";
    let ServerAnswer::Accepted(value) = answer_to(alloc, ClientRequest::Status, told)? else {
        return Err(Fail::from("status"));
    };
    let status = server_status(alloc, &value)?;
    assert!(rt; status.epoch == 4 && status.locks.len() == 1 && status.workers.len() == 3);
    assert!(rt; status.leader.is_none());
    assert_eq!(rt; status.locks[0].cells.as_slice(), [5, 7].as_slice());
    assert!(rt; status.locks[0].owner == Some(1) && !status.locks[0].settled);
    assert!(rt; status.workers[0].attached && status.workers[0].lock.is_none());
    assert!(rt; status.workers[1].number == 3 && status.workers[1].stance == ReportedStance::Held);
    let (inside, waits) = (&status.workers[1], &status.workers[2]);
    assert!(rt; inside.blocked_by.is_none() && inside.seconds.is_none() && inside.client.is_none());
    assert!(rt; waits.blocked_by == Some(1) && waits.seconds == Some(12));
    assert_eq!(rt;
        waits.client.as_ref().map(|name| name.as_str()),
        Some("host7:\u{1b}cron")
    );
    let told = b"{\"ok\":\"owner\",\"owner\":null}\n";
    let ServerAnswer::Accepted(value) = answer_to(alloc, ClientRequest::Owner("bank"), told)? else {
        return Err(Fail::from("owner"));
    };
    assert_eq!(rt; owner_answer(&value)?, None);
    let told = b"{\"cells\":[1],\"ok\":\"cells\",\"settled\":true}\n";
    let ServerAnswer::Accepted(value) = answer_to(alloc, ClientRequest::Cells("bank"), told)? else {
        return Err(Fail::from("cells"));
    };
    assert!(rt; cells_answer(alloc, &value)?.settled);
    Ok(())
}

#[test]
fn a_leader_is_read(rt: HostRuntime) -> Result<(), Fail> {
    let alloc = rt.alloc();
    let told =
        b"{\"epoch\":0,\"leader\":\"host7:1\\u001b\",\"locks\":[],\"ok\":\"status\",\"term\":7,\"workers\":[]}\n";
    let ServerAnswer::Accepted(value) = answer_to(alloc, ClientRequest::Status, told)? else {
        return Err(Fail::from("status"));
    };
    let ServerStatus { leader, .. } = server_status(alloc, &value)?;
    let Some(leader) = leader else {
        return Err(Fail::from("leader"));
    };
    assert_eq!(rt; leader.address.as_str(), "host7:1\u{1b}");
    assert_eq!(rt; leader.term, 7);
    Ok(())
}

#[test]
fn a_leader_without_a_term_is_no_status(rt: HostRuntime) -> Result<(), Fail> {
    let alloc = rt.alloc();
    let told =
        b"{\"epoch\":0,\"leader\":\"host7:1\",\"locks\":[],\"ok\":\"status\",\"workers\":[]}\n";
    let ServerAnswer::Accepted(value) = answer_to(alloc, ClientRequest::Status, told)? else {
        return Err(Fail::from("status"));
    };
    assert_eq!(rt;
        server_status(alloc, &value).err(),
        Some(ClientError::NoMember("term"))
    );
    Ok(())
}

#[test]
fn pages_of_spaces_are_read(rt: HostRuntime) -> Result<(), Fail> {
    let alloc = rt.alloc();
    let told = b"{\"more\":true,\"ok\":\"spaces\",\"spaces\":[\"a\",\"b\\u001b\"]}\n";
    let ServerAnswer::Accepted(value) = answer_to(alloc, ClientRequest::Spaces(None), told)? else {
        return Err(Fail::from("spaces"));
    };
    let page = spaces_page(alloc, &value)?;
    assert!(rt; page.more && page.spaces.len() == 2);
    assert!(rt; page.spaces[0].as_str() == "a" && page.spaces[1].as_str() == "b\u{1b}");
    let told = b"{\"more\":false,\"ok\":\"spaces\",\"spaces\":[1]}\n";
    let ServerAnswer::Accepted(value) = answer_to(alloc, ClientRequest::Spaces(None), told)? else {
        return Err(Fail::from("spaces"));
    };
    assert_eq!(rt;
        spaces_page(alloc, &value).err(),
        Some(ClientError::NoMember("spaces"))
    );
    let told = b"{\"ok\":\"spaces\",\"spaces\":[]}\n";
    let ServerAnswer::Accepted(value) = answer_to(alloc, ClientRequest::Spaces(None), told)? else {
        return Err(Fail::from("spaces"));
    };
    assert_eq!(rt;
        spaces_page(alloc, &value).err(),
        Some(ClientError::NoMember("more"))
    );
    Ok(())
}
