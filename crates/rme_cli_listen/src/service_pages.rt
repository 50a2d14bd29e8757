//! The pages of a server without a state.

use crate::state_metrics::state_metrics_text;
use rme_http::Pages;
use rme_metrics::ServerCounters;
use rme_words::NoMemory;
use std::alloc::Global;
use std::sync::Wait;
use std::time::Clock;

/// The pages of a server without a state: it has metrics of its sessions, and no status.
#[derive(Drop)]
pub struct ServicePages<'a> {
    pub alloc: Global,
    pub counters: &'a ServerCounters,
}

impl Pages for ServicePages<'_> {
    ghost use Rattle.rme_cli_listen.specs.MetricsTexts.{IsMetricsText};

    ghost metrics_texts = { λ _ _. IsMetricsText };

    ghost status_texts = { λ _ _ _. ⊥ };

    fn metrics<R: Wait + Clock>(
        &self,
        _rt: &R,
        space: Option<&[u8]>,
    ) -> Result<Option<String>, NoMemory> {
        if space.is_some() {
            return Ok(None);
        }
        let sessions = Some(self.counters.told(self.alloc)?);
        Ok(Some(state_metrics_text(self.alloc, sessions, None, None)?))
    }

    fn status<R: Wait + Clock>(
        &self,
        _rt: &R,
        _space: Option<&[u8]>,
    ) -> Result<Option<String>, NoMemory> {
        Ok(None)
    }

    fn has_page(&self) -> bool {
        false
    }

    fn is_healthy<R: Wait + Clock>(&self, _rt: &R) -> bool {
        true
    }
}
