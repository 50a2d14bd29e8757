//! Serving sessions, and pages beside them.

use crate::http_port::HttpPort;
use rme_http::Pages;
use rme_line_io::ServeFault;
use rme_metrics::ServerCounters;
use rme_session_loop::Backend;
use rme_session_metrics::MeteredBackend;
use rme_session_server::{Acceptor, Closer, Listeners, ServerObserver, serve};
use std::sync::{Arc, Wait};
use std::thread;
use std::thread::{Builder, Threads};
use std::time::Clock;

/// The stack size in bytes of a thread that accepts HTTP connections.
pub const HTTP_STACK: usize = 524_288;

/// What a server is served with, beside its backend.
#[derive(Drop)]
pub struct MeteredSite<'a, T, P> {
    pub acceptor: &'a Arc<Acceptor>,
    pub observer: &'a T,
    /// Its HTTP port, if it has one. Without one nothing is counted.
    pub http: Option<&'a HttpPort>,
    pub counters: &'a ServerCounters,
    pub pages: &'a P,
}

/// Serves sessions as `serve` does, counts what they are answered, and serves the pages on the HTTP port meanwhile.
/// Without an HTTP port it only serves sessions.
pub fn serve_metered<
    B: Backend<Handle = Closer> + Sync,
    R: Threads + Wait + Clock + Sync,
    T: ServerObserver + Sync,
    P: Pages + Sync,
>(
    threads: &R,
    listeners: Listeners,
    site: &MeteredSite<'_, T, P>,
    backend: &B,
) -> Result<(), ServeFault>
    requires fits { B.fits backend.now }
{
    let Some(http) = site.http else {
        return serve(threads, listeners, site.acceptor, site.observer, backend);
    };
    let metered = MeteredBackend {
        backend,
        counters: Some(site.counters),
    };
    let metered = &metered;
    let (acceptor, observer, pages) = (site.acceptor, site.observer, site.pages);
    thread::scope(
        thread::scope_env(),
        threads,
        move |scope| -> Result<(), ServeFault>
            requires fits { B.fits metered.now.backend.now }
        {
            let serving = move || http.serve(threads, pages);
            let Ok(serving) = Builder::new()
                .stack_size(HTTP_STACK)
                .spawn_scoped(scope, serving)
            else {
                return Err(ServeFault::NoThread);
            };
            let served = serve(threads, listeners, acceptor, observer, metered);
            http.stop();
            serving.join(threads);
            served
        },
    )
}
