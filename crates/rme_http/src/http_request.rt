//! What a request asks for.

ghost use Rattle.std.specs.Prelude.{◌≡◌, ◌≤◌, ℕ, List, length};
ghost use Rattle.std.specs.Option.{option_copied};
ghost use Rattle.httparse.specs.Grammar.{ReadsRequest, RequestHead};
ghost use Rattle.httparse.specs.Spans.{IsRequestAt, IsRequestOf, IsRequestWithin};
ghost use Rattle.rme_http.specs.Targets as spec;
ghost use Rattle.rme_http.specs.Targets.{IsTarget, NamesSpace};
ghost use Rattle.rme_http.specs.Reading.{ReadsHead};

use crate::http_host::name_this_machine;
use httparse::Status;
use httparse::spans::{EMPTY_HEADER_SPAN, HeaderSpan, RequestSpans, parse_request};

/// The most bytes of a request's head.
const MOST_HEAD: usize = 8192;

/// The most fields of a request's head.
const MOST_FIELDS: usize = 64;

/// The methods that are told apart.
#[derive(Clone, Copy, Debug, PartialEq, Eq)]
pub(crate) enum HttpMethod {
    Get,
    Head,
    Other,
}

impl HttpMethod {
    ghost use Rattle.std.specs.Prelude.{◌≡◌};
    ghost use Rattle.rme_http.specs.Targets as spec;

    /// Whether the response has its content; the response to `HEAD` has none.
    pub(crate) fn wants_content(self) -> bool
        ensures { result ≡ spec.wants_content self }
    {
        match self {
            HttpMethod::Head => false,
            HttpMethod::Get => true,
            HttpMethod::Other => true,
        }
    }
}

/// What a path names.
#[derive(Clone, Copy, Debug, PartialEq, Eq)]
pub(crate) enum Resource {
    Metrics,
    Status,
    Health,
    Page,
    Missing,
}

/// What a request's target names: a resource, and a space if the query names one.
#[derive(Clone, Copy)]
pub(crate) struct HttpTarget<'a> {
    pub(crate) resource: Resource,
    pub(crate) space: Option<&'a [u8]>,
}

/// What was read of a request.
#[derive(Clone, Copy)]
pub(crate) enum RequestRead<'a> {
    /// Its head is not whole yet.
    NeedMore,
    /// Its head is whole, and names this machine.
    Whole(HttpMethod, HttpTarget<'a>),
    /// Its head is whole, and names no machine, or another one.
    OtherHost(HttpMethod),
    /// Its head has more bytes or fields than are read.
    TooLarge,
    /// It is no request.
    Malformed,
}

/// Reads the head of a request.
pub(crate) fn read_request(input: &[u8]) -> RequestRead<'_>
    ensures { ReadsHead input.now result }
{
    let mut fields = [EMPTY_HEADER_SPAN; MOST_FIELDS];
    match parse_request(input, fields.as_mut_slice()) {
        Ok(Status::Complete(head)) => read_head(input, head, fields.as_slice()),
        Ok(Status::Partial) => {
            if input.len() < MOST_HEAD {
                return RequestRead::NeedMore;
            }
            RequestRead::TooLarge
        }
        Err(httparse::Error::TooManyHeaders) => RequestRead::TooLarge,
        Err(_) => RequestRead::Malformed,
    }
}

/// Reads the head that the parser found at these places.
fn read_head<'a>(input: &'a [u8], head: RequestSpans, fields: &[HeaderSpan]) -> RequestRead<'a>
    requires within { IsRequestWithin input.now fields.now head }
    requires few { length fields.now ≤ 64 }
    requires is_there { IsRequestOf input.now fields.now head }
    requires is_it { (other : RequestHead) (rest : List ℕ) → ReadsRequest input.now other rest
        → length other.fields ≤ 64 → IsRequestAt input.now fields.now head other }
    ensures { ReadsHead input.now result }
{
    if head.len > MOST_HEAD {
        return RequestRead::TooLarge;
    }
    let method = method_of(head.method.of(input));
    if !name_this_machine(input, &fields[..head.headers]) {
        return RequestRead::OtherHost(method);
    }
    RequestRead::Whole(method, target_of(head.path.of(input)))
}

fn method_of(word: &[u8]) -> HttpMethod
    ensures { result ≡ spec.method_of word.now }
{
    if word == b"GET".as_slice() {
        return HttpMethod::Get;
    }
    if word == b"HEAD".as_slice() {
        return HttpMethod::Head;
    }
    HttpMethod::Other
}

fn resource_of(path: &[u8]) -> Resource
    ensures { result ≡ spec.resource_of path.now }
{
    if path == b"/metrics".as_slice() {
        return Resource::Metrics;
    }
    if path == b"/status".as_slice() {
        return Resource::Status;
    }
    if path == b"/healthz".as_slice() {
        return Resource::Health;
    }
    if path == b"/".as_slice() {
        return Resource::Page;
    }
    Resource::Missing
}

/// What a target names: its path up to the first question mark, and its query behind that.
fn target_of(target: &[u8]) -> HttpTarget<'_>
    ensures { IsTarget target.now result }
{
    match target.iter().position(|byte| *byte == b'?') {
        Some(at) => HttpTarget {
            resource: resource_of(&target[..at]),
            space: space_of(&target[at + 1..]),
        },
        None => HttpTarget {
            resource: resource_of(target),
            space: None,
        },
    }
}

/// The space that a query names, as `space=name`.
fn space_of(query: &[u8]) -> Option<&[u8]>
    ensures { NamesSpace query.now (option_copied result) }
{
    query.strip_prefix(b"space=".as_slice())
}
