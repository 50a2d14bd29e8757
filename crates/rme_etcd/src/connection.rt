//! A connection to one node.

use crate::etcd_fault::EtcdFault;
use crate::gateway_request::{GatewayRequest, request_bytes};
use crate::try_deadline::TryDeadline;
use http1::{Client, Event, Limits};
use httparse::spans::EMPTY_HEADER_SPAN;
use std::alloc::Global;
use std::io::{Read, Write};
use std::net::TcpStream;
use std::time::Clock;

/// The longest body of an answer.
const MOST_BODY: usize = 64 * 1024 * 1024;
/// The number of bytes of one read. They are on the stack of a session.
const READ_LENGTH: usize = 8_192;
/// The most headers of an answer.
const MOST_HEADERS: usize = 64;

/// A connection to one node, for one request after another.
#[derive(Drop)]
pub(crate) struct NodeConnection {
    /// The node, as requests name it.
    host: String,
    stream: TcpStream,
    client: Client,
    /// What came and was not consumed.
    unread: Vec<u8>,
}

/// An answer of a node.
#[derive(Drop)]
pub(crate) struct GatewayAnswer {
    /// The status of HTTP.
    pub(crate) status: u16,
    pub(crate) body: Vec<u8>,
}

/// What to do after a step.
#[derive(Clone, Copy)]
enum AfterStep {
    GoOn,
    ReadMore,
    End,
}

impl NodeConnection {
    /// A connection to the node of this name over this stream, on which nothing was sent.
    pub(crate) fn new(alloc: Global, host: String, stream: TcpStream) -> NodeConnection {
        NodeConnection {
            host,
            stream,
            client: Client::new(Limits::default()),
            unread: Vec::new(alloc),
        }
    }

    /// Whether another request can be sent: the node keeps the connection, and sent nothing that was not asked for.
    pub(crate) fn is_idle(&self) -> bool {
        self.client.is_idle() && self.unread.is_empty()
    }

    /// Sends a request, and reads its answer. No wait is longer than what the deadline leaves when it begins.
    pub(crate) fn ask(
        &mut self,
        alloc: Global,
        clock: &impl Clock,
        deadline: TryDeadline,
        request: GatewayRequest<'_, '_>,
    ) -> Result<GatewayAnswer, EtcdFault> {
        let bytes = request_bytes(alloc, &mut self.client, self.host.as_str(), request)?;
        self.write(clock, deadline, bytes.as_slice())?;
        let mut answer = GatewayAnswer {
            status: 0,
            body: Vec::new(alloc),
        };
        for _ in 0..u64::MAX {
            match self.step(&mut answer)? {
                AfterStep::GoOn => {}
                AfterStep::ReadMore => self.read_more(clock, deadline)?,
                AfterStep::End => return Ok(answer),
            }
        }
        Err(EtcdFault::BadAnswer)
    }

    /// Writes the bytes of a request.
    fn write(
        &mut self,
        clock: &impl Clock,
        deadline: TryDeadline,
        bytes: &[u8],
    ) -> Result<(), EtcdFault> {
        let Some(left) = deadline.left(clock) else {
            return Err(EtcdFault::Unreachable);
        };
        self.stream.set_write_timeout(Some(left))?;
        self.stream.write_all(bytes)?;
        Ok(())
    }

    /// Consumes the next part of the answer.
    fn step(&mut self, answer: &mut GatewayAnswer) -> Result<AfterStep, EtcdFault> {
        let mut headers = [EMPTY_HEADER_SPAN; MOST_HEADERS];
        let Ok(progress) = self.client.read(self.unread.as_slice(), &mut headers) else {
            return Err(EtcdFault::BadAnswer);
        };
        let after = match progress.event {
            Event::NeedMore => AfterStep::ReadMore,
            Event::Head(head) => {
                answer.status = head.code;
                AfterStep::GoOn
            }
            Event::Informational(_) => AfterStep::GoOn,
            Event::Data(span) => {
                let Some(piece) = self.unread.as_slice().get(span.start..span.end) else {
                    return Err(EtcdFault::BadAnswer);
                };
                if answer.body.len() > MOST_BODY {
                    return Err(EtcdFault::BadAnswer);
                }
                answer.body.extend_from_slice(piece)?;
                AfterStep::GoOn
            }
            Event::End(_) => AfterStep::End,
            Event::Paused | Event::Upgraded | Event::Closed => return Err(EtcdFault::BadAnswer),
        };
        self.unread.drain(..progress.consumed);
        Ok(after)
    }

    /// Reads more bytes.
    fn read_more(&mut self, clock: &impl Clock, deadline: TryDeadline) -> Result<(), EtcdFault> {
        let Some(left) = deadline.left(clock) else {
            return Err(EtcdFault::Unreachable);
        };
        self.stream.set_read_timeout(Some(left))?;
        let mut buffer = [0; READ_LENGTH];
        let count = self.stream.read(&mut buffer)?;
        if count == 0 {
            return Err(EtcdFault::Unreachable);
        }
        self.unread.extend_from_slice(&buffer[..count])?;
        Ok(())
    }
}
