//! A connection, whose request is answered within ten seconds.

use crate::answering::{HttpOutcome, answer_request};
use crate::pages::Pages;
use std::alloc::Global;
use std::io::{Error, ErrorKind, Read, Result, Write};
use std::net::{Shutdown, TcpStream};
use std::sync::Wait;
use std::time::{Clock, Duration, Instant};

/// The seconds after which a connection ends, whatever its client does.
const DEADLINE: u64 = 10;

/// The bytes that one call reads.
const READ_SIZE: usize = 1024;

/// The most calls that read a request, which may come a byte at a time.
const MOST_READS: u32 = 10_000;

/// The most calls that write a response, or read what follows a request.
const MOST_WRITES: u32 = 1_000_000;

/// An accepted connection, and when it was accepted.
#[derive(Drop)]
pub(crate) struct HttpConnection {
    stream: TcpStream,
    began: Instant,
}

impl HttpConnection {
    /// A connection that was accepted now. `None` if the clock can't be read.
    pub(crate) fn new<R: Clock>(rt: &R, stream: TcpStream) -> Option<HttpConnection> {
        let began = Instant::now(rt).ok()?;
        // A socket that refuses this is served without it.
        let _ = stream.set_nodelay(true);
        Some(HttpConnection { stream, began })
    }

    /// Reads a request, sends its response, and closes the connection. An error if that can't be done in time.
    pub(crate) fn answer<P: Pages, R: Wait + Clock>(
        &self,
        rt: &R,
        alloc: Global,
        pages: &P,
    ) -> Result<()> {
        let mut input = Vec::new(alloc);
        for _ in 0..MOST_READS {
            if !self.read_more(rt, &mut input)? {
                return Ok(());
            }
            match answer_request(rt, alloc, pages, input.as_slice()) {
                Ok(HttpOutcome::NeedMore) => {}
                Ok(HttpOutcome::Respond(text)) => return self.respond(rt, text.as_bytes()),
                Err(_) => return Err(Error::from(ErrorKind::OutOfMemory)),
            }
        }
        Ok(())
    }

    /// Reads more of the request. Answers false at its end.
    fn read_more<R: Clock>(&self, rt: &R, input: &mut Vec<u8>) -> Result<bool> {
        self.stream.set_read_timeout(Some(self.time_left(rt)?))?;
        let mut piece = [0; READ_SIZE];
        let mut stream = &self.stream;
        let count = stream.read(&mut piece)?;
        input.extend_from_slice(&piece[..count])?;
        Ok(count > 0)
    }

    /// Sends a response, and then reads what its client still sends, so that the system does not reset the connection
    /// before the client has read the response.
    fn respond<R: Clock>(&self, rt: &R, text: &[u8]) -> Result<()> {
        let mut rest = text;
        for _ in 0..MOST_WRITES {
            if rest.is_empty() {
                break;
            }
            self.stream.set_write_timeout(Some(self.time_left(rt)?))?;
            let mut stream = &self.stream;
            let count = stream.write(rest)?;
            if count == 0 {
                break;
            }
            rest = &rest[count..];
        }
        self.stream.shutdown(Shutdown::Write)?;
        self.read_rest(rt)
    }

    /// Reads until the client closes the connection.
    fn read_rest<R: Clock>(&self, rt: &R) -> Result<()> {
        let mut piece = [0; READ_SIZE];
        for _ in 0..MOST_WRITES {
            self.stream.set_read_timeout(Some(self.time_left(rt)?))?;
            let mut stream = &self.stream;
            if stream.read(&mut piece)? == 0 {
                break;
            }
        }
        Ok(())
    }

    /// The time until the deadline. An error once it is over.
    fn time_left<R: Clock>(&self, rt: &R) -> Result<Duration> {
        let passed = self.began.elapsed(rt)?;
        match Duration::from_secs(DEADLINE).checked_sub(passed) {
            Some(left) if !left.is_zero() => Ok(left),
            _ => Err(Error::from(ErrorKind::TimedOut)),
        }
    }
}
