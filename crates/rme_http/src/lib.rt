//! A read-only HTTP server: the metrics, the status and the page of a server, and whether it answers.
//!
//! `answer_request` is a function from the bytes of a request, and from `Pages`, to the bytes of the response: it knows
//! no socket. `HttpServer` serves it on one listener, at most 32 connections at once, and ends slow clients. The crate
//! stands on httparse, which reads heads by the grammar of HTTP/1.1, and on no crate of this repository but rme_words.
//! Begin with `specs/Answering.antt`, then `answering.rt` and `pages.rt`; `page.rt` and the two files beside it have
//! the page.
#![tactic(auto)]

mod answering;
mod http_connection;
mod http_host;
mod http_request;
mod http_response;
mod http_server;
mod page;
mod page_script;
mod page_style;
mod pages;

pub use answering::{HttpOutcome, answer_request};
pub use http_server::HttpServer;
pub use pages::Pages;
