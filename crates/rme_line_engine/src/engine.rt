//! The state that the lines so far have opened.

ghost use Rattle.std.specs.Prelude.{◌≡◌};
ghost use Rattle.rme_line_engine.specs.Transcripts as spec;

use crate::event_lines::{push_events, push_opened};
use crate::loaded::load_world;
use crate::opened_world::open_world;
use crate::tallied::TalliedWorld;
use rme_history::EntryList;
use rme_line_text::{Acknowledgement, Reply, push_reply};
use rme_wire::{
    Cut, EngineFault, Image, Loading, Names, Opening, Request, ValueReader, request_of,
};
use rme_words::{NoMemory, Refusal};
use std::alloc::{AllocError, Global};

/// The output of a run for each line.
#[derive(Clone, Copy)]
pub enum LineOutput {
    /// Its answer.
    Answers,
    /// The events that the world accepted, and their answers.
    Transcript,
}

/// The open world, if any, with its tally, and the names of its locks.
///
/// To begin with a saved world, load it before the first line; to save the last state, save it after the last line.
#[derive(Drop)]
pub struct Engine {
    pub(crate) alloc: Global,
    values: ValueReader,
    /// The names of the locks, each at its number; none if no world is open.
    names: Names,
    /// The open world, if any.
    world: Option<TalliedWorld>,
}

impl Engine {
    ghost use Rattle.std.specs.Prelude.{◌≡◌, ◌++◌, Some, IfOk, IfErr, OnOk, option_map, string_bytes};
    ghost use Rattle.rme_line_io.specs.Cuts.{input_line_of};
    ghost use Rattle.rme_line_engine.specs.EngineStates.{history_of, nothing_open, reply_of_call, text_of_reply};
    ghost use Rattle.rme_line_engine.specs.Lines.{LineAnswerBytes, LoadEffect, RequestEffect, OpenEffect, LineReply, with_newline};
    ghost use Rattle.rme_line_engine.specs.Transcripts.{LineTranscriptBytes, request_events_text};
    ghost use Rattle.rme_line_engine.specs.Outputs.{LineOutputBytes};
    ghost use Rattle.rme_line_text.specs.declared.answer.Acknowledgement.TheVariants as word;
    ghost use Rattle.rme_line_text.specs.declared.reply.Reply.TheVariants as reply;
    ghost use Rattle.rme_line_engine.specs.CommandEffects.{OpenWorldImage};
    ghost use Rattle.rme_line_engine.specs.Engines.{engine_state_of};

    /// No world is open.
    pub fn new(alloc: Global) -> Result<Engine, NoMemory>
        ensures { IfOk result (λ engine. engine_state_of engine ≡ nothing_open) }
    {
        let names = Names::new(alloc)?;
        Ok(Engine {
            alloc,
            values: ValueReader::new(alloc),
            names,
            world: None,
        })
    }

    /// Executes the line that was cut, and replaces the contents of `out` by its output.
    ///
    /// `NoMemory` if memory for the line's value or the text was refused.
    pub fn process_line(
        &mut self,
        output: LineOutput,
        cut: Cut,
        line: &[u8],
        out: &mut String,
    ) -> Result<(), EngineFault>
        ensures told { OnOk result (LineOutputBytes output (engine_state_of self.old) (input_line_of cut line.now)
            (string_bytes out.new) (engine_state_of self.new)) }
        ensures kind { IfErr result (λ fault. fault ≡ EngineFault.NoMemory) }
    {
        match output {
            LineOutput::Answers => self.answer_line(cut, line, out),
            LineOutput::Transcript => self.transcribe_line(cut, line, out),
        }
    }

    /// Executes the line that was cut, and replaces the contents of `out` by its answer and a newline.
    fn answer_line(&mut self, cut: Cut, line: &[u8], out: &mut String) -> Result<(), EngineFault>
        ensures told { OnOk result (LineAnswerBytes (engine_state_of self.old) (input_line_of cut line.now)
            (string_bytes out.new) (engine_state_of self.new)) }
        ensures kind { IfErr result (λ fault. fault ≡ EngineFault.NoMemory) }
    {
        out.clear();
        let Ok(reply) = self.reply(cut, line) else {
            return Err(EngineFault::NoMemory);
        };
        match self.push_answer(out, &reply) {
            Ok(()) => Ok(()),
            Err(_) => Err(EngineFault::NoMemory),
        }
    }

    /// Executes the line that was cut, and replaces the contents of `out` by the lines of its events.
    fn transcribe_line(
        &mut self,
        cut: Cut,
        line: &[u8],
        out: &mut String,
    ) -> Result<(), EngineFault>
        ensures told { OnOk result (LineTranscriptBytes (engine_state_of self.old) (input_line_of cut line.now)
            (string_bytes out.new) (engine_state_of self.new)) }
        ensures kind { IfErr result (λ fault. fault ≡ EngineFault.NoMemory) }
    {
        out.clear();
        if cut == Cut::TooLong {
            return Ok(());
        }
        let Ok(request) = request_of(self.alloc, &mut self.values, &self.names, line) else {
            return Err(EngineFault::NoMemory);
        };
        let request = unless_load(request);
        let reply = self.obey(&request);
        match self.push_transcript(out, &request, &reply) {
            Ok(()) => Ok(()),
            Err(_) => Err(EngineFault::NoMemory),
        }
    }

    /// Appends the lines of a request's events, from its reply.
    fn push_transcript(
        &self,
        out: &mut String,
        request: &Option<Request>,
        reply: &Reply,
    ) -> Result<(), AllocError>
        ensures { OnOk result (string_bytes out.new ≡ string_bytes out.old ++ request_events_text
            (engine_state_of self.now) request.now reply.now) }
    {
        match request {
            None => Ok(()),
            Some(Request::Open(_)) => push_opened(out, &self.names, &self.world, reply),
            Some(Request::Load(_)) => Ok(()),
            Some(Request::World(command)) => push_events(out, &self.names, *command, reply),
        }
    }

    /// Appends the text of a reply, and a newline.
    fn push_answer(&self, out: &mut String, reply: &Reply) -> Result<(), AllocError>
        ensures { OnOk result (string_bytes out.new ≡ string_bytes out.old ++ with_newline
            (text_of_reply (engine_state_of self.now) reply.now)) }
    {
        self.push_reply(out, reply)?;
        out.push_str("\n")
    }

    /// Appends the text of a reply, with the history of the open world, if any.
    fn push_reply(&self, out: &mut String, reply: &Reply) -> Result<(), AllocError>
        ensures { OnOk result (string_bytes out.new ≡ string_bytes out.old ++ text_of_reply (engine_state_of self.now)
            reply.now) }
    {
        match &self.world {
            None => push_reply(out, &self.names, &EntryList::new(self.alloc), reply),
            Some(tallied) => push_reply(out, &self.names, tallied.world.history(), reply),
        }
    }

    /// Executes the line that was cut, and answers the reply as plain data.
    fn reply(&mut self, cut: Cut, line: &[u8]) -> Result<Reply, NoMemory>
        ensures { IfOk result (λ reply. LineReply (engine_state_of self.old) (input_line_of cut line.now) reply
            (engine_state_of self.new)) }
    {
        if cut == Cut::TooLong {
            return Ok(Reply::Refused(Refusal::LineTooLong));
        }
        match request_of(self.alloc, &mut self.values, &self.names, line) {
            Ok(request) => Ok(self.obey(&request)),
            Err(_) => Err(NoMemory),
        }
    }

    /// Executes the request of a line, if it has one.
    fn obey(&mut self, request: &Option<Request>) -> Reply
        ensures { RequestEffect (engine_state_of self.old) request.now result (engine_state_of self.new) }
    {
        match request {
            None => Reply::Refused(Refusal::BadLine),
            Some(request) => self.obey_request(request),
        }
    }

    /// Executes a request, and answers the reply as plain data. A refused request changes nothing.
    pub fn obey_request(&mut self, request: &Request) -> Reply
        ensures { RequestEffect (engine_state_of self.old) (Some request.now) result (engine_state_of self.new) }
    {
        match request {
            Request::Open(opening) => self.open(opening),
            Request::Load(loading) => match self.load(loading) {
                Ok(()) => Reply::Done(Acknowledgement::Load),
                Err(refusal) => Reply::Refused(refusal),
            },
            Request::World(command) => match &mut self.world {
                None => Reply::Refused(Refusal::NotOpen),
                Some(world) => world.obey(*command),
            },
        }
    }

    /// Opens a world if none is open.
    fn open(&mut self, opening: &Opening) -> Reply
        ensures { OpenEffect self.old.world (engine_state_of self.old) opening.now result (engine_state_of self.new) }
    {
        if self.world.is_some() {
            return Reply::Refused(Refusal::AlreadyOpen);
        }
        match open_world(self.alloc, opening) {
            Err(refusal) => Reply::Refused(refusal),
            Ok(opened) => {
                self.names = opened.names;
                self.world = Some(opened.world);
                Reply::Done(Acknowledgement::Open)
            }
        }
    }

    /// Loads a world in place of the open one, if any: its locks get the given names, and its tally is empty.
    ///
    /// Refused by `BadImage`, then by `BadShape` if the names are outside the limits or their number is not that of the
    /// image's locks; `NoMemory` may come before either. A refusal changes nothing.
    pub fn load(&mut self, loading: &Loading) -> Result<(), Refusal>
        ensures { LoadEffect (engine_state_of self.old) loading.now (reply_of_call (λ _. reply.Done word.Load) result)
            (engine_state_of self.new) }
    {
        let loaded = match load_world(self.alloc, loading) {
            Ok(loaded) => loaded,
            Err(refusal) => return Err(refusal),
        };
        self.names = loaded.names;
        self.world = Some(loaded.world);
        Ok(())
    }

    /// The names of the open world's locks; none if no world is open.
    pub fn names(&self) -> &Names
        ensures { result.now ≡ (engine_state_of self.now).names }
    {
        &self.names
    }

    /// The open world, if any, and the names of its locks.
    pub fn into_world(self) -> Option<(Names, TalliedWorld)>
        ensures { result ≡ option_map (λ world. ((engine_state_of self).names, world)) (engine_state_of self).world }
    {
        let Engine { names, world, .. } = self;
        Some((names, world?))
    }

    /// The image of the open world, if any. `NoMemory` if memory for it was refused.
    pub fn save(&self) -> Result<Option<Image>, NoMemory>
        ensures { IfOk result (OpenWorldImage (engine_state_of self.now).world) }
    {
        match &self.world {
            None => Ok(None),
            Some(tallied) => Ok(Some(tallied.image()?)),
        }
    }
}

/// The request, unless it is to load: a transcript begins with an opening.
fn unless_load(request: Option<Request>) -> Option<Request>
    ensures { result ≡ spec.unless_load request }
{
    match request {
        Some(Request::Load(_)) => None,
        other => other,
    }
}
