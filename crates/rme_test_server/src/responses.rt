//! Requests and their responses.

use rme_http::{HttpOutcome, Pages, answer_request};
use rme_words::NoMemory;
use std::alloc::Global;
use std::sync::Wait;
use std::test::Fail;
use std::time::Clock;

/// A server with the space `a`.
#[derive(Drop)]
pub(crate) struct FakePages {
    pub(crate) alloc: Global,
    pub(crate) healthy: bool,
}

impl Pages for FakePages {
    ghost use Rattle.std.specs.Prelude.{⊤};

    ghost metrics_texts = { λ _ _ _. ⊤ };

    ghost status_texts = { λ _ _ _. ⊤ };

    fn metrics<R: Wait + Clock>(
        &self,
        _rt: &R,
        _space: Option<&[u8]>,
    ) -> Result<Option<String>, NoMemory> {
        Ok(Some(String::from_str(self.alloc, "a 1\n")?))
    }

    fn status<R: Wait + Clock>(
        &self,
        _rt: &R,
        space: Option<&[u8]>,
    ) -> Result<Option<String>, NoMemory> {
        match space {
            Some(b"a") => Ok(Some(String::from_str(self.alloc, "{}\n")?)),
            _ => Ok(None),
        }
    }

    fn has_page(&self) -> bool {
        true
    }

    fn is_healthy<R: Wait + Clock>(&self, _rt: &R) -> bool {
        self.healthy
    }
}

/// The response to a request; an empty one if more bytes are read.
fn response_to<R: Wait + Clock>(
    rt: &R,
    pages: &FakePages,
    request: &[u8],
) -> Result<String, NoMemory> {
    match answer_request(rt, pages.alloc, pages, request)? {
        HttpOutcome::NeedMore => Ok(String::new(pages.alloc)),
        HttpOutcome::Respond(text) => Ok(text),
    }
}

pub(crate) const METRICS: &str =
    "HTTP/1.1 200 OK\r\nContent-Type: text/plain; version=0.0.4; charset=utf-8\r\nContent-Length: 4\r\nContent-Security-Policy: default-src 'none'; frame-ancestors 'none'\r\nCache-Control: no-store\r\nX-Content-Type-Options: nosniff\r\nConnection: close\r\n\r\na 1\n";

const NOT_ALLOWED: &str =
    "HTTP/1.1 405 Method Not Allowed\r\nContent-Type: text/plain; charset=utf-8\r\nContent-Length: 23\r\nContent-Security-Policy: default-src 'none'; frame-ancestors 'none'\r\nAllow: GET, HEAD\r\nCache-Control: no-store\r\nX-Content-Type-Options: nosniff\r\nConnection: close\r\n\r\n405 Method Not Allowed\n";

#[test]
fn requests_have_their_responses(rt: HostRuntime) -> Result<(), Fail> {
    let pages = FakePages {
        alloc: rt.alloc(),
        healthy: true,
    };
    let get = response_to(
        &rt,
        &pages,
        b"GET /metrics HTTP/1.1\r\nHost: localhost\r\n\r\n",
    )?;
    assert_eq!(rt; get.as_str(), METRICS);
    let head = response_to(
        &rt,
        &pages,
        b"HEAD /metrics HTTP/1.1\r\nHost: localhost\r\n\r\n",
    )?;
    assert!(rt; METRICS.starts_with(head.as_str()));
    assert_eq!(rt; head.len() + 4, METRICS.len());
    let post = response_to(
        &rt,
        &pages,
        b"POST /metrics HTTP/1.1\r\nHost: localhost\r\n\r\n",
    )?;
    assert_eq!(rt; post.as_str(), NOT_ALLOWED);
    let part = response_to(&rt, &pages, b"GET /metrics HTTP/1.1\r\nHost: localhost\r\n")?;
    assert_eq!(rt; part.as_str(), "");
    let no_http = response_to(&rt, &pages, b"{\"do\":\"ping\"}\r\n\r\n")?;
    assert!(rt; no_http.as_str().starts_with("HTTP/1.1 400 Bad Request\r\n"));
    let space = response_to(
        &rt,
        &pages,
        b"GET /status?space=a HTTP/1.1\r\nHost: 127.0.0.1:80\r\n\r\n",
    )?;
    assert!(rt;
        space
            .as_str()
            .starts_with("HTTP/1.1 200 OK\r\nContent-Type: application/json\r\n")
    );
    let none = response_to(
        &rt,
        &pages,
        b"GET /status HTTP/1.1\r\nHost: 127.0.0.1:80\r\n\r\n",
    )?;
    assert!(rt; none.as_str().starts_with("HTTP/1.1 404 Not Found\r\n"));
    let page = response_to(
        &rt,
        &pages,
        b"GET /?space=a HTTP/1.1\r\nHost: 127.0.0.1:80\r\n\r\n",
    )?;
    assert!(rt;
        page.as_str()
            .starts_with("HTTP/1.1 200 OK\r\nContent-Type: text/html")
    );
    let health = response_to(
        &rt,
        &pages,
        b"GET /healthz HTTP/1.1\r\nHost: 127.0.0.1:80\r\n\r\n",
    )?;
    assert!(rt; health.as_str().starts_with("HTTP/1.1 200 OK\r\n"));
    Ok(())
}

/// The response to a `GET` of the health, with these fields.
fn response_with<R: Wait + Clock>(
    rt: &R,
    pages: &FakePages,
    fields: &str,
) -> Result<String, NoMemory> {
    let request = format!(in pages.alloc; "GET /healthz HTTP/1.1\r\n{fields}\r\n")?;
    response_to(rt, pages, request.as_bytes())
}

#[test]
fn requests_that_name_this_machine_are_answered(rt: HostRuntime) -> Result<(), Fail> {
    let pages = FakePages {
        alloc: rt.alloc(),
        healthy: true,
    };
    for fields in [
        "Host: localhost\r\n",
        "HOST:LocalHost:9464\r\n",
        "a: b\r\nhost: 127.0.0.1 \r\n",
        "Host: [::1]:9464\r\n",
        "Host: localhost\r\nHost: [::1]\r\n",
    ] {
        let text = response_with(&rt, &pages, fields)?;
        assert!(rt; text.as_str().starts_with("HTTP/1.1 200 OK\r\n"));
    }
    Ok(())
}

#[test]
fn requests_that_name_no_machine_or_another_are_refused(rt: HostRuntime) -> Result<(), Fail> {
    let pages = FakePages {
        alloc: rt.alloc(),
        healthy: true,
    };
    for fields in [
        "",
        "Host:\r\n",
        "Host: example.com\r\n",
        "Host: localhost.example.com\r\n",
        "Host: localhost:80.example.com\r\n",
        "Host: 127.0.0.10\r\n",
        "Host: example.com\r\nHost: localhost\r\n",
    ] {
        let text = response_with(&rt, &pages, fields)?;
        assert!(rt; text.as_str().starts_with("HTTP/1.1 403 Forbidden\r\n"));
    }
    Ok(())
}

#[test]
fn a_server_that_does_not_answer_is_unavailable(rt: HostRuntime) -> Result<(), Fail> {
    let pages = FakePages {
        alloc: rt.alloc(),
        healthy: false,
    };
    let health = response_to(
        &rt,
        &pages,
        b"GET /healthz HTTP/1.1\r\nHost: 127.0.0.1:80\r\n\r\n",
    )?;
    assert!(rt;
        health
            .as_str()
            .starts_with("HTTP/1.1 503 Service Unavailable\r\n")
    );
    Ok(())
}

#[test]
fn a_head_that_is_too_large_is_refused(rt: HostRuntime) -> Result<(), Fail> {
    let pages = FakePages {
        alloc: rt.alloc(),
        healthy: true,
    };
    let mut request = Vec::from_slice(rt.alloc(), b"GET / HTTP/1.1\r\nA: ".as_slice())?;
    for _ in 0..8200 {
        request.push(b'a')?;
    }
    let text = response_to(&rt, &pages, request.as_slice())?;
    assert!(rt; text.as_str().starts_with("HTTP/1.1 431 "));
    Ok(())
}
