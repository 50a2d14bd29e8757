//! Conversations over memory: what is sent, what is answered, and what is no answer.

ghost use Rattle.std.specs.Prelude.{◌++◌, ◌∷◌, [], IfOk, OnOk, codes, decimal};
ghost use Rattle.std.specs.Io.KnownBytes.{Appends};
ghost use Rattle.rme_ask_client.specs.Conversations.{sent_bytes};
ghost use Rattle.rme_ask_client.specs.RequestTexts.{request_word};
ghost use Rattle.rme_test_server.specs.Repeating.{RepeatsWord};

use rme_ask_client::{
    ClientError, ClientRequest, Conversation, CreateRequest, ServerAnswer, push_request,
};
use rme_line_io::{Sink, Source};
use std::alloc::Global;
use std::test::Fail;

/// The line of a request.
fn line_of(alloc: Global, request: ClientRequest<'_>) -> Result<String, Fail> {
    let mut line = String::new(alloc);
    push_request(&mut line, alloc, request)?;
    Ok(line)
}

/// The answer to a request of which a server would answer these bytes. If it is accepted it repeats the request's word.
pub fn answer_to(
    alloc: Global,
    request: ClientRequest<'_>,
    told: &[u8],
) -> Result<ServerAnswer, ClientError>
    ensures { IfOk result (RepeatsWord (request_word request.entry)) }
{
    let mut talk = Conversation::new(alloc, told, Vec::new(alloc))?;
    talk.ask(request)
}

/// Attaches a worker, unless a session has it: the line that is sent takes none over.
fn attach<R: Source + Drop, W: Sink + Drop>(
    talk: &mut Conversation<R, W>,
    worker: u32,
) -> Result<ServerAnswer, ClientError>
    ensures { OnOk result (Appends (sent_bytes W.contents talk.old) (sent_bytes W.contents talk.new)
        ((codes "{\"do\":\"attach\",\"worker\":" ++ (decimal worker ++ codes "}")) ++ 10 ∷ [])) }
{
    talk.ask(ClientRequest::Attach(worker))
}

/// Why these bytes are no answer.
fn why_no_answer(alloc: Global, told: &[u8]) -> Option<ClientError> {
    answer_to(alloc, ClientRequest::Ping, told).err()
}

#[test]
fn requests_have_their_lines(rt: HostRuntime) -> Result<(), Fail> {
    let alloc = rt.alloc();
    assert_eq!(rt;
        line_of(alloc, ClientRequest::Status)?.as_str(),
        "{\"do\":\"status\"}"
    );
    assert_eq!(rt;
        line_of(alloc, ClientRequest::Owner("bank"))?.as_str(),
        "{\"do\":\"owner\",\"lock\":\"bank\"}"
    );
    let odd = line_of(alloc, ClientRequest::Cells("a\"\n\u{e9}"))?;
    assert_eq!(rt;
        odd.as_str(),
        "{\"do\":\"cells\",\"lock\":\"a\\\"\\n\u{e9}\"}"
    );
    assert_eq!(rt;
        line_of(alloc, ClientRequest::Attach(7))?.as_str(),
        "{\"do\":\"attach\",\"worker\":7}"
    );
    let over = line_of(alloc, ClientRequest::TakeOver(7))?;
    assert_eq!(rt;
        over.as_str(),
        "{\"do\":\"attach\",\"take\":true,\"worker\":7}"
    );
    assert_eq!(rt;
        line_of(alloc, ClientRequest::Resume(250))?.as_str(),
        "{\"do\":\"resume\",\"wait\":250}"
    );
    Ok(())
}

#[test]
fn requests_about_spaces_have_their_lines(rt: HostRuntime) -> Result<(), Fail> {
    let alloc = rt.alloc();
    assert_eq!(rt;
        line_of(alloc, ClientRequest::UseSpace("a\nb"))?.as_str(),
        "{\"do\":\"use\",\"space\":\"a\\nb\"}"
    );
    assert_eq!(rt;
        line_of(alloc, ClientRequest::DropSpace("team-7"))?.as_str(),
        "{\"do\":\"drop\",\"space\":\"team-7\"}"
    );
    assert_eq!(rt;
        line_of(alloc, ClientRequest::Spaces(None))?.as_str(),
        "{\"do\":\"spaces\"}"
    );
    assert_eq!(rt;
        line_of(alloc, ClientRequest::Spaces(Some("team-7")))?.as_str(),
        "{\"do\":\"spaces\",\"after\":\"team-7\"}"
    );
    Ok(())
}

#[test]
fn requests_to_create_a_space_have_their_lines(rt: HostRuntime) -> Result<(), Fail> {
    let alloc = rt.alloc();
    let locks = vec![in alloc;
        String::from_str(alloc, "bank")?,
        String::from_str(alloc, "a\"b")?,
    ]?;
    let small = ClientRequest::CreateSpace(CreateRequest {
        name: "team-7",
        locks: &locks[..1],
        workers: None,
        cells: None,
    });
    assert_eq!(rt;
        line_of(alloc, small)?.as_str(),
        "{\"do\":\"create\",\"space\":\"team-7\",\"locks\":[\"bank\"]}"
    );
    let large = ClientRequest::CreateSpace(CreateRequest {
        name: "team-7",
        locks: locks.as_slice(),
        workers: Some(255),
        cells: Some(16),
    });
    assert_eq!(rt;
        line_of(alloc, large)?.as_str(),
        "{\"do\":\"create\",\"space\":\"team-7\",\"locks\":[\"bank\",\"a\\\"b\"],\"workers\":255,\"cells\":16}"
    );
    Ok(())
}

#[test]
fn a_conversation_goes_line_by_line(rt: HostRuntime) -> Result<(), Fail> {
    let told: &[u8] =
        b"{\"number\":0,\"ok\":\"attach\",\"stance\":\"ready\"}\n{\"ok\":\"ping\"}\n{\"code\":10,\"error\":\"Idle\"}\n";
    let mut talk = Conversation::new(rt.alloc(), told, Vec::new(rt.alloc()))?;
    assert!(rt; matches!(attach(&mut talk, 7)?, ServerAnswer::Accepted(_)));
    assert!(rt; matches!(talk.ask(ClientRequest::Ping)?, ServerAnswer::Accepted(_)));
    assert_eq!(rt; talk.answer_line(), b"{\"ok\":\"ping\"}".as_slice());
    let ServerAnswer::Refused(refused) = talk.ask(ClientRequest::Pending)? else {
        return Err(Fail::from("it was not refused"));
    };
    assert_eq!(rt; refused.code, 10);
    assert_eq!(rt; refused.name.as_str(), "Idle");
    assert!(rt; matches!(talk.ask(ClientRequest::Detach), Err(ClientError::Ended)));
    Ok(())
}

#[test]
fn what_is_no_answer_is_an_error(rt: HostRuntime) -> Result<(), Fail> {
    let alloc = rt.alloc();
    assert_eq!(rt; why_no_answer(alloc, b""), Some(ClientError::Ended));
    assert_eq!(rt;
        why_no_answer(alloc, b"HTTP/1.1 400 Bad Request\n"),
        Some(ClientError::NoJson)
    );
    assert_eq!(rt;
        why_no_answer(alloc, b"{\"ok\":\"pi"),
        Some(ClientError::NoJson)
    );
    assert_eq!(rt;
        why_no_answer(alloc, b"[]\n"),
        Some(ClientError::NoMember("ok"))
    );
    assert_eq!(rt;
        why_no_answer(alloc, b"{\"ok\":1}\n"),
        Some(ClientError::NoMember("ok"))
    );
    assert_eq!(rt;
        why_no_answer(alloc, b"{\"ok\":\"last\"}\n"),
        Some(ClientError::OtherAnswer)
    );
    assert_eq!(rt;
        why_no_answer(alloc, b"{\"error\":\"Idle\"}\n"),
        Some(ClientError::NoMember("code"))
    );
    let long = vec![in alloc; b' '; 65_537]?;
    assert_eq!(rt;
        why_no_answer(alloc, long.as_slice()),
        Some(ClientError::TooLong)
    );
    Ok(())
}
