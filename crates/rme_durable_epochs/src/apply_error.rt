//! Why an order has no reply.

/// Why an order has no reply.
#[derive(Clone, Copy, Debug, PartialEq, Eq)]
pub enum ApplyError {
    /// Memory was refused, and nothing is changed.
    NoMemory,
    /// The order was executed, and its events could not be logged: the world no longer agrees with the log.
    NotLogged,
}
