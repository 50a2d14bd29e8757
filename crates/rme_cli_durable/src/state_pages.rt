//! What a durable server shows over HTTP.

use crate::state_watch::StateWatch;
use rme_cli_listen::{StatusText, look_up_status, state_metrics_text};
use rme_durable_server::{DurableServer, LogStore, ServerTag};
use rme_http::Pages;
use rme_metrics::{LogCounters, ServerCounters};
use rme_session_loop::Backend;
use rme_session_server::Closer;
use rme_words::NoMemory;
use std::sync::Wait;
use std::time::Clock;

/// The pages of a durable server. A request for a space finds nothing.
#[derive(Drop)]
pub(crate) struct StatePages<'a, L: LogStore, J: ServerTag, W> {
    pub(crate) rt: &'a HostRuntime,
    pub(crate) kept: &'a DurableServer<L, Closer, J>,
    pub(crate) counters: &'a ServerCounters,
    pub(crate) log: &'a LogCounters,
    pub(crate) watch: &'a W,
}

impl<L: LogStore, J: ServerTag, W: StateWatch> Pages for StatePages<'_, L, J, W> {
    ghost use Rattle.std.specs.Prelude.{None};
    ghost use Rattle.rme_cli_listen.specs.MetricsTexts.{IsMetricsText};
    ghost use Rattle.rme_cli_listen.specs.StatusLookUps.{AnswersStatus};
    ghost use Rattle.rme_durable_server.specs.DurableAnswers.{DurableLineAnswer};
    ghost use Rattle.rme_durable_server.specs.DurableOrders.{client_terms};
    ghost use Rattle.rme_session_loop.specs.SessionRuns.{AnswersWhileOpen};

    ghost metrics_texts = { λ _ _. IsMetricsText };

    ghost status_texts = { λ pages _. AnswersStatus (AnswersWhileOpen (λ _. ⊥)
        (DurableLineAnswer L.holds (client_terms pages.kept.now.clients L.shared J.opening))) None };

    fn metrics<R: Wait + Clock>(
        &self,
        rt: &R,
        space: Option<&[u8]>,
    ) -> Result<Option<String>, NoMemory> {
        if space.is_some() {
            return Ok(None);
        }
        let alloc = self.rt.alloc();
        let found = look_up_status(rt, self.kept)?;
        let status = match &found {
            Some(text) => Some(StatusText {
                text: text.as_str(),
                file_bytes: self.watch.bytes(self.rt),
            }),
            None => None,
        };
        let sessions = Some(self.counters.told(alloc)?);
        let log = Some(self.log.told(alloc)?);
        let text = state_metrics_text(alloc, sessions, log, status)?;
        Ok(Some(text))
    }

    fn status<R: Wait + Clock>(
        &self,
        rt: &R,
        space: Option<&[u8]>,
    ) -> Result<Option<String>, NoMemory> {
        if space.is_some() {
            return Ok(None);
        }
        look_up_status(rt, self.kept)
    }

    fn has_page(&self) -> bool {
        true
    }

    fn is_healthy<R: Wait + Clock>(&self, rt: &R) -> bool {
        !self.kept.is_over(rt)
    }
}
