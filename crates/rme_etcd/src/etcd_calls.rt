//! Calls of a cluster: the endpoints in turn, the user's token, and the time that a call may take.

ghost use Rattle.std.specs.Prelude.{◌≡◌, ◌/◌, ◌≤◌};
ghost use Rattle.std.specs.Duration.{as_nanos};

use crate::connection::{GatewayAnswer, NodeConnection};
use crate::endpoint::Endpoint;
use crate::etcd_fault::EtcdFault;
use crate::gateway_request::GatewayRequest;
use crate::try_deadline::TryDeadline;
use rme_etcd_requests::{EtcdRefusal, login_request, login_token, refusal_of};
use std::alloc::Global;
use std::net::TcpStream;
use std::thread;
use std::time::Duration;

/// The pause after all endpoints failed in turn, in milliseconds.
const PAUSE: u64 = 50;

/// A user of the cluster.
#[derive(Drop)]
pub struct EtcdUser {
    pub name: String,
    pub password: String,
}

/// How many times a store tries a call that is lost.
const STORE_TRIES: u32 = 8;

/// The time that calls may take. A store tries a call that is lost eight times, and each of its tries may take this
/// time.
#[derive(Clone, Copy)]
pub struct CallLimits {
    /// The time of one try at one endpoint, or what the call has left if that is less.
    pub one_try: Duration,
    /// The time of all tries of a call.
    pub call: Duration,
}

impl CallLimits {
    /// Limits by which the eight tries of a store together have this patience. One try at one endpoint has the second
    /// time, or an eighth of the patience if that is less.
    pub fn of_patience(patience: Duration, one_try: Duration) -> CallLimits
        ensures share { as_nanos result.call ≡ as_nanos patience / 8 }
        ensures bounded { as_nanos result.one_try ≤ as_nanos one_try }
        ensures whole { as_nanos one_try ≤ as_nanos patience / 8 → result.one_try ≡ one_try }
    {
        let call = patience / STORE_TRIES;
        let one_try = match call.checked_sub(one_try) {
            Some(_) => one_try,
            None => call,
        };
        CallLimits { one_try, call }
    }
}

/// Calls of a cluster.
#[derive(Drop)]
pub(crate) struct EtcdCalls {
    rt: HostRuntime,
    alloc: Global,
    endpoints: Vec<Endpoint>,
    /// The endpoint that is tried next.
    turn: usize,
    connection: Option<NodeConnection>,
    user: Option<EtcdUser>,
    token: Option<String>,
    limits: CallLimits,
}

impl EtcdCalls {
    /// Calls of the cluster with these nodes, as this user if there is one.
    pub(crate) fn new(
        rt: HostRuntime,
        endpoints: Vec<Endpoint>,
        user: Option<EtcdUser>,
        limits: CallLimits,
    ) -> EtcdCalls {
        EtcdCalls {
            alloc: rt.alloc(),
            rt,
            endpoints,
            turn: 0,
            connection: None,
            user,
            token: None,
            limits,
        }
    }

    /// This time from now on; `None` if the clock cannot be read.
    pub(crate) fn since(&self, limit: Duration) -> Option<TryDeadline> {
        TryDeadline::start(&self.rt, limit)
    }

    /// Whether this time is over.
    pub(crate) fn is_over(&self, deadline: TryDeadline) -> bool {
        deadline.is_over(&self.rt)
    }

    /// The body of the answer to this request. The same bytes are sent until a whole answer came.
    pub(crate) fn call(&mut self, path: &str, body: &[u8]) -> Result<Vec<u8>, EtcdFault> {
        let Some(deadline) = TryDeadline::start(&self.rt, self.limits.call) else {
            return Err(EtcdFault::Unreachable);
        };
        for _ in 0..u64::MAX {
            match self.try_call(deadline, path, body) {
                Ok(answer) => return Ok(answer),
                Err(EtcdFault::NoSpace) => return Err(EtcdFault::NoSpace),
                Err(EtcdFault::NotAllowed) => return Err(EtcdFault::NotAllowed),
                Err(fault) => {
                    self.take_next_endpoint(deadline);
                    if deadline.is_over(&self.rt) {
                        return Err(fault);
                    }
                }
            }
        }
        Err(EtcdFault::Unreachable)
    }

    /// Closes the connection, and goes to the next endpoint. Pauses after the last, within the time of the call.
    fn take_next_endpoint(&mut self, deadline: TryDeadline) {
        self.connection = None;
        self.turn = self.turn.saturating_add(1);
        if self.turn >= self.endpoints.len() {
            self.turn = 0;
            let pause = Duration::from_millis(PAUSE);
            if let Some(left) = deadline.left(&self.rt) {
                thread::sleep(&self.rt, if left < pause { left } else { pause });
            }
        }
    }

    /// Tries once, at the present endpoint. A token that was refused is asked for again once.
    fn try_call(
        &mut self,
        deadline: TryDeadline,
        path: &str,
        body: &[u8],
    ) -> Result<Vec<u8>, EtcdFault> {
        self.log_in(deadline)?;
        match self.ask(deadline, path, body)? {
            Ok(answer) => Ok(answer),
            Err(EtcdFault::NotAllowed) if self.token.is_some() => {
                self.token = None;
                self.log_in(deadline)?;
                self.ask(deadline, path, body)?
            }
            Err(fault) => Err(fault),
        }
    }

    /// Asks for a token, if there is a user and none is known.
    fn log_in(&mut self, deadline: TryDeadline) -> Result<(), EtcdFault> {
        if self.token.is_some() {
            return Ok(());
        }
        let Some(user) = &self.user else {
            return Ok(());
        };
        let body = login_request(self.alloc, user.name.as_str(), user.password.as_str())?;
        let answer = self.ask(deadline, "/v3/auth/authenticate", body.as_bytes())??;
        self.token = Some(login_token(self.alloc, answer.as_slice())?);
        Ok(())
    }

    /// Sends a request once, and answers the body of its answer, or what it was refused for. An error if no whole
    /// answer came within the time of one try, or what is left of the call.
    fn ask<'a>(
        &mut self,
        deadline: TryDeadline,
        path: &'a str,
        body: &'a [u8],
    ) -> Result<Result<Vec<u8>, EtcdFault>, EtcdFault> {
        let Some(deadline) = deadline.part(&self.rt, self.limits.one_try) else {
            return Err(EtcdFault::Unreachable);
        };
        let mut connection = self.connect(deadline)?;
        let token = match &self.token {
            Some(token) => Some(token.as_str()),
            None => None,
        };
        let request = GatewayRequest { path, body, token };
        let answer = connection.ask(self.alloc, &self.rt, deadline, request)?;
        if connection.is_idle() {
            self.connection = Some(connection);
        }
        Ok(checked(self.alloc, answer))
    }

    /// The connection to the present endpoint.
    fn connect(&mut self, deadline: TryDeadline) -> Result<NodeConnection, EtcdFault> {
        if let Some(connection) = self.connection.take() {
            return Ok(connection);
        }
        let (Some(endpoint), Some(left)) = (self.endpoints.get(self.turn), deadline.left(&self.rt))
        else {
            return Err(EtcdFault::Unreachable);
        };
        let stream = TcpStream::connect_timeout(&self.rt, &endpoint.address, left)?;
        stream.set_nodelay(true)?;
        let host = String::from_str(self.alloc, endpoint.host.as_str())?;
        Ok(NodeConnection::new(self.alloc, host, stream))
    }
}

/// The body of an answer of status 200; what another was refused for.
fn checked(alloc: Global, answer: GatewayAnswer) -> Result<Vec<u8>, EtcdFault> {
    let GatewayAnswer { status, body } = answer;
    if status == 200 {
        return Ok(body);
    }
    match refusal_of(alloc, body.as_slice()) {
        EtcdRefusal::NoSpace => Err(EtcdFault::NoSpace),
        EtcdRefusal::NotAllowed => Err(EtcdFault::NotAllowed),
        EtcdRefusal::Other => Err(EtcdFault::Refused(status)),
    }
}
