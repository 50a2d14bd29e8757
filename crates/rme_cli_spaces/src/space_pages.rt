//! What a server of spaces shows over HTTP.

use crate::space_guest::{SpaceGuest, StatusQuestion};
use crate::space_server::SpacesContext;
use rme_cli_listen::{StatusText, state_metrics_text};
use rme_http::Pages;
use rme_space_orders::SpaceName;
use rme_words::NoMemory;
use std::alloc::AllocError;
use std::sync::{Arc, Wait};
use std::time::Clock;
use std::{fs, str};

/// The pages of a server of spaces: the metrics of all its sessions and logs, and the metrics and the status of each
/// space. A space is opened if it is not open.
#[derive(Drop)]
pub(crate) struct SpacesPages<'v, 'a, 'g> {
    pub(crate) context: &'v SpacesContext<'a, 'g>,
}

impl Pages for SpacesPages<'_, '_, '_> {
    ghost use Rattle.std.specs.Prelude.{⊤};
    ghost use Rattle.rme_cli_listen.specs.MetricsTexts.{IsMetricsText};

    ghost metrics_texts = { λ _ _. IsMetricsText };

    // The thread of the space asks its server, of which no contract here knows.
    ghost status_texts = { λ _ _ _. ⊤ };

    fn metrics<R: Wait + Clock>(
        &self,
        rt: &R,
        space: Option<&[u8]>,
    ) -> Result<Option<String>, NoMemory> {
        let alloc = self.context.rt.alloc();
        let Some(space) = space else {
            return self.server_metrics();
        };
        let Some(name) = self.name_of(space)? else {
            return Ok(None);
        };
        let Some(status) = self.ask(rt, &name)? else {
            return Ok(None);
        };
        let told = StatusText {
            text: status.as_str(),
            file_bytes: self.file_bytes(&name)?,
        };
        let text = state_metrics_text(alloc, None, None, Some(told))?;
        Ok(Some(text))
    }

    fn status<R: Wait + Clock>(
        &self,
        rt: &R,
        space: Option<&[u8]>,
    ) -> Result<Option<String>, NoMemory> {
        let Some(space) = space else {
            return Ok(None);
        };
        match self.name_of(space)? {
            Some(name) => self.ask(rt, &name),
            None => Ok(None),
        }
    }

    fn has_page(&self) -> bool {
        true
    }

    fn is_healthy<R: Wait + Clock>(&self, _rt: &R) -> bool {
        true
    }
}

impl SpacesPages<'_, '_, '_> {
    ghost use Rattle.std.specs.Prelude.{IfOk, IfSome, string_bytes};
    ghost use Rattle.rme_cli_listen.specs.MetricsTexts.{IsMetricsText};

    /// The metrics of all sessions and logs; `None` if they are not counted.
    fn server_metrics(&self) -> Result<Option<String>, NoMemory>
        ensures { IfOk result (λ found. IfSome found (λ text. IsMetricsText (string_bytes text))) }
    {
        let Some(counters) = &self.context.spaces.counters else {
            return Ok(None);
        };
        let alloc = self.context.rt.alloc();
        let sessions = Some(counters.sessions.told(alloc)?);
        let log = Some(counters.writes.told(alloc)?);
        let text = state_metrics_text(alloc, sessions, log, None)?;
        Ok(Some(text))
    }

    /// The name of a space that a request has; `None` if it is no name.
    fn name_of(&self, space: &[u8]) -> Result<Option<SpaceName>, AllocError> {
        match str::from_utf8(space) {
            Ok(text) => SpaceName::parse(self.context.rt.alloc(), text),
            Err(_) => Ok(None),
        }
    }

    /// The status of a space; `None` if it can't be opened, or does not answer in time.
    fn ask<R: Wait + Clock>(&self, rt: &R, name: &SpaceName) -> Result<Option<String>, NoMemory> {
        let Ok(question) = Arc::new(self.context.rt.alloc(), StatusQuestion::new()) else {
            return Err(NoMemory);
        };
        let own = Arc::try_clone(&question)?;
        let registry = &self.context.spaces.registry;
        let Ok(visit) = registry.enter(rt, name) else {
            return Ok(None);
        };
        match registry.hand_over(rt, visit, SpaceGuest::Question(own)) {
            Ok(()) => Ok(question.wait(rt)),
            Err(_) => Ok(None),
        }
    }

    /// The bytes of the file of a space; 0 if they can't be told.
    fn file_bytes(&self, name: &SpaceName) -> Result<u64, AllocError> {
        let path = self.context.spaces.folder.path_of(name)?;
        match fs::metadata(self.context.rt, path.as_str()) {
            Ok(found) => Ok(found.len()),
            Err(_) => Ok(0),
        }
    }
}
