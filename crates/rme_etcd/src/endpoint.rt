//! The address of one node.

use std::alloc::{AllocError, Global};
use std::net::SocketAddr;

/// The address of one node of the cluster.
#[derive(Drop)]
pub struct Endpoint {
    /// The host and the port, as the request names them.
    pub(crate) host: String,
    pub(crate) address: SocketAddr,
}

impl Endpoint {
    /// The node at this address. The text is what requests call it.
    pub fn new(alloc: Global, host: &str, address: SocketAddr) -> Result<Endpoint, AllocError> {
        Ok(Endpoint {
            host: String::from_str(alloc, host)?,
            address,
        })
    }
}
