//! The text of a response.

ghost use Rattle.std.specs.Prelude.{◌≡◌, ◌++◌, OnOk, string_bytes};
ghost use Rattle.rme_http.specs.Responses.{response_front, response_text};

use std::alloc::AllocError;

/// The policy of what needs none: it loads nothing and stands in no frame.
pub(crate) const CLOSED_POLICY: &str = "default-src 'none'; frame-ancestors 'none'";

/// The status of a response.
#[derive(Clone, Copy, Debug, PartialEq, Eq)]
pub(crate) enum HttpStatus {
    Success,
    BadRequest,
    Forbidden,
    NotFound,
    MethodNotAllowed,
    HeadTooLarge,
    Unavailable,
}

impl HttpStatus {
    ghost use Rattle.std.specs.Prelude.{◌≡◌};
    ghost use Rattle.rme_http.specs.Responses as spec;

    /// Its number and its words.
    pub(crate) fn line(self) -> &'static str
        ensures { result.now ≡ spec.status_line self }
    {
        match self {
            HttpStatus::Success => "200 OK",
            HttpStatus::BadRequest => "400 Bad Request",
            HttpStatus::Forbidden => "403 Forbidden",
            HttpStatus::NotFound => "404 Not Found",
            HttpStatus::MethodNotAllowed => "405 Method Not Allowed",
            HttpStatus::HeadTooLarge => "431 Request Header Fields Too Large",
            HttpStatus::Unavailable => "503 Service Unavailable",
        }
    }

    /// The fields that only this status has.
    fn fields(self) -> &'static str
        ensures { result.now ≡ spec.status_fields self }
    {
        match self {
            HttpStatus::MethodNotAllowed => "Allow: GET, HEAD\r\n",
            _ => "",
        }
    }
}

/// The type of a response's content.
#[derive(Clone, Copy, Debug, PartialEq, Eq)]
pub(crate) enum ContentKind {
    Plain,
    Json,
    MetricsText,
    Html,
}

impl ContentKind {
    ghost use Rattle.std.specs.Prelude.{◌≡◌};
    ghost use Rattle.rme_http.specs.Responses as spec;

    /// Its name in a response.
    fn media_type(self) -> &'static str
        ensures { result.now ≡ spec.content_type self }
    {
        match self {
            ContentKind::Plain => "text/plain; charset=utf-8",
            ContentKind::Json => "application/json",
            ContentKind::MetricsText => "text/plain; version=0.0.4; charset=utf-8",
            ContentKind::Html => "text/html; charset=utf-8",
        }
    }
}

/// A response.
#[derive(Clone, Copy)]
pub(crate) struct HttpAnswer<'a> {
    pub(crate) status: HttpStatus,
    pub(crate) kind: ContentKind,
    /// The policy of the content.
    pub(crate) policy: &'a str,
    pub(crate) content: &'a str,
    /// Whether the content follows the fields; the answer to `HEAD` has only its length.
    pub(crate) has_content: bool,
}

/// Appends a response.
pub(crate) fn push_response(out: &mut String, answer: &HttpAnswer) -> Result<(), AllocError>
    ensures { OnOk result (string_bytes out.new ≡ string_bytes out.old
        ++ response_text answer.now.status answer.now.kind answer.now.policy.now answer.now.content.now
        answer.now.has_content) }
{
    push_fields(out, answer)?;
    if answer.has_content {
        out.push_str(answer.content)?;
    }
    Ok(())
}

/// Appends a response up to its content.
fn push_fields(out: &mut String, answer: &HttpAnswer) -> Result<(), AllocError>
    ensures { OnOk result (string_bytes out.new ≡ string_bytes out.old
        ++ response_front answer.now.status answer.now.kind answer.now.policy.now answer.now.content.now) }
{
    let line = answer.status.line();
    let media = answer.kind.media_type();
    let length = answer.content.len();
    let policy = answer.policy;
    let fields = answer.status.fields();
    write!(
        out,
        "HTTP/1.1 {line}\r\nContent-Type: {media}\r\nContent-Length: {length}\r\nContent-Security-Policy: {policy}\r\n{fields}Cache-Control: no-store\r\nX-Content-Type-Options: nosniff\r\nConnection: close\r\n\r\n"
    )
}
