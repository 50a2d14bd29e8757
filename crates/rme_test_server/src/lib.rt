//! Tests of sessions and of the running service as their backend, of the client `rme ask`, and of the crates behind
//! `rme serve --http`.
//!
//! The crate has only tests: what clients are told, whom a take-over closes, the registry of open spaces, and the count
//! of the lives of a worker, of which no clause speaks; what the client sends and reads; callers that need the clauses of
//! the calls; the texts of metrics, what answers count as, and what requests over HTTP are answered. It stands on the
//! crates that it tests, so that none of them is proved a second time with its tests. Begin with `lives.rt`, then
//! `registry.rt` and `events.rt`, for the client with `client_requests.rt`, and for HTTP with `responses.rt`.
#![tactic(auto)]

#[cfg(test)]
mod client_answers;
#[cfg(test)]
mod client_requests;
#[cfg(test)]
mod counted_answers;
#[cfg(test)]
mod events;
#[cfg(test)]
mod http_sockets;
#[cfg(test)]
mod lives;
#[cfg(test)]
mod metrics_texts;
#[cfg(test)]
mod registry;
#[cfg(test)]
mod responses;
#[cfg(test)]
mod space_registry;
