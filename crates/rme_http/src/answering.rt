//! What is answered to a request.

ghost use Rattle.std.specs.Prelude.{◌≡◌, IfOk, option_map, string_bytes};
ghost use Rattle.rme_http.specs.Answering.{AnswersBytes, FindsContent, RespondsTo, RespondsToGet, ShowsPage, refusal_text};

use crate::http_request::{HttpMethod, HttpTarget, RequestRead, Resource, read_request};
use crate::http_response::{CLOSED_POLICY, ContentKind, HttpAnswer, HttpStatus, push_response};
use crate::page::{PAGE_POLICY, page};
use crate::pages::Pages;
use rme_words::NoMemory;
use std::alloc::{AllocError, Global};
use std::sync::Wait;
use std::time::Clock;

/// What is done after some bytes of a request.
#[derive(Drop)]
pub enum HttpOutcome {
    /// More bytes are read.
    NeedMore,
    /// This response is sent, and the connection is closed.
    Respond(String),
}

/// What is done after these bytes of a request, which are all that came.
pub fn answer_request<P: Pages, R: Wait + Clock>(
    rt: &R,
    alloc: Global,
    pages: &P,
    input: &[u8],
) -> Result<HttpOutcome, NoMemory>
    ensures { IfOk result (AnswersBytes (P.metrics_texts pages.now) (P.status_texts pages.now) input.now) }
{
    match read_request(input) {
        RequestRead::NeedMore => Ok(HttpOutcome::NeedMore),
        RequestRead::TooLarge => {
            let text = refuse(alloc, HttpStatus::HeadTooLarge, true)?;
            Ok(HttpOutcome::Respond(text))
        }
        RequestRead::Malformed => {
            let text = refuse(alloc, HttpStatus::BadRequest, true)?;
            Ok(HttpOutcome::Respond(text))
        }
        RequestRead::OtherHost(method) => {
            let text = refuse(alloc, HttpStatus::Forbidden, method.wants_content())?;
            Ok(HttpOutcome::Respond(text))
        }
        RequestRead::Whole(method, target) => {
            let text = respond(rt, alloc, pages, method, target)?;
            Ok(HttpOutcome::Respond(text))
        }
    }
}

/// The response to a request with a whole head.
fn respond<P: Pages, R: Wait + Clock>(
    rt: &R,
    alloc: Global,
    pages: &P,
    method: HttpMethod,
    target: HttpTarget,
) -> Result<String, NoMemory>
    ensures { IfOk result (λ text. RespondsTo (P.metrics_texts pages.now) (P.status_texts pages.now) method
        target.entry (string_bytes text)) }
{
    match method {
        HttpMethod::Get => respond_to_get(rt, alloc, pages, target, true),
        HttpMethod::Head => respond_to_get(rt, alloc, pages, target, false),
        HttpMethod::Other => Ok(refuse(alloc, HttpStatus::MethodNotAllowed, true)?),
    }
}

/// The response to `GET`, and with no content to `HEAD`.
fn respond_to_get<P: Pages, R: Wait + Clock>(
    rt: &R,
    alloc: Global,
    pages: &P,
    target: HttpTarget,
    has_content: bool,
) -> Result<String, NoMemory>
    ensures { IfOk result (λ text. RespondsToGet (P.metrics_texts pages.now) (P.status_texts pages.now) has_content
        target.entry (string_bytes text)) }
{
    match target.resource {
        Resource::Metrics => {
            let found = pages.metrics(rt, target.space)?;
            Ok(found_text(alloc, found, ContentKind::MetricsText, has_content)?)
        }
        Resource::Status => {
            let found = pages.status(rt, target.space)?;
            Ok(found_text(alloc, found, ContentKind::Json, has_content)?)
        }
        Resource::Health => {
            if pages.is_healthy(rt) {
                return Ok(refuse(alloc, HttpStatus::Success, has_content)?);
            }
            Ok(refuse(alloc, HttpStatus::Unavailable, has_content)?)
        }
        Resource::Page => {
            if pages.has_page() {
                return Ok(page_text(alloc, has_content)?);
            }
            Ok(refuse(alloc, HttpStatus::NotFound, has_content)?)
        }
        Resource::Missing => Ok(refuse(alloc, HttpStatus::NotFound, has_content)?),
    }
}

/// The response with a text that was found; without a text, 404.
fn found_text(
    alloc: Global,
    found: Option<String>,
    kind: ContentKind,
    has_content: bool,
) -> Result<String, AllocError>
    ensures { IfOk result (λ text. FindsContent kind has_content (option_map string_bytes found) (string_bytes text)) }
{
    let Some(content) = found else {
        return refuse(alloc, HttpStatus::NotFound, has_content);
    };
    let mut out = String::new(alloc);
    push_response(
        &mut out,
        &HttpAnswer {
            status: HttpStatus::Success,
            kind,
            policy: CLOSED_POLICY,
            content: content.as_str(),
            has_content,
        },
    )?;
    Ok(out)
}

/// The response with the page.
fn page_text(alloc: Global, has_content: bool) -> Result<String, AllocError>
    ensures { IfOk result (λ text. ShowsPage has_content (string_bytes text)) }
{
    let content = page(alloc)?;
    let mut out = String::new(alloc);
    push_response(
        &mut out,
        &HttpAnswer {
            status: HttpStatus::Success,
            kind: ContentKind::Html,
            policy: PAGE_POLICY,
            content: content.as_str(),
            has_content,
        },
    )?;
    Ok(out)
}

/// The response whose content is its status.
fn refuse(alloc: Global, status: HttpStatus, has_content: bool) -> Result<String, AllocError>
    ensures { IfOk result (λ text. string_bytes text ≡ refusal_text status has_content) }
{
    let line = status.line();
    let content = format!(in alloc; "{line}\n")?;
    let mut out = String::new(alloc);
    push_response(
        &mut out,
        &HttpAnswer {
            status,
            kind: ContentKind::Plain,
            policy: CLOSED_POLICY,
            content: content.as_str(),
            has_content,
        },
    )?;
    Ok(out)
}
