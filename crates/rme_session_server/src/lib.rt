//! Sessions over TCP and Unix sockets, for any backend.
//!
//! `serve` accepts connections, with a thread for each, until its limit is reached or its backend is over; without
//! either it runs on. `serve_connections` gives each `AcceptedConnection` to a handler, which may hold sessions over it
//! and move it to another thread between two of them. An `Acceptor` has the limits and the open connections; it is made
//! before a server tells its addresses, so that nothing that the server needs can be refused after that. The crate
//! stands on rme_session_loop, whose `session` answers the lines, on rme_line_io, and on rme_line_diagnose, which says
//! why a line is no order. Begin with `server.rt` and `acceptor.rt`, then `accepted_connection.rt`.
#![tactic(auto)]

mod accepted_connection;
mod acceptor;
mod connection;
mod connection_handler;
mod open_connections;
mod server;

pub use accepted_connection::AcceptedConnection;
pub use acceptor::{Acceptor, ServerLimits};
pub use connection::{Closer, Connection, Listener, Listeners};
pub use connection_handler::ConnectionHandler;
pub use server::{ServerObserver, SharedObserver, serve, serve_connections};
