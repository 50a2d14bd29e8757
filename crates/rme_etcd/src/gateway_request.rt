//! A request to the gateway, as bytes.

ghost use Rattle.std.specs.Prelude.{◌≡◌, IfOk};
ghost use Rattle.http1.specs.Head.{pairs};
ghost use Rattle.rme_etcd.specs.GatewayTexts.{post_text};

use crate::etcd_fault::EtcdFault;
use http1::{BodySize, Client, Header};
use std::alloc::Global;

/// A request to the gateway of a node.
#[derive(Clone, Copy)]
pub(crate) struct GatewayRequest<'a, 't> {
    pub(crate) path: &'a str,
    pub(crate) body: &'a [u8],
    /// The token of the user, if there is one.
    pub(crate) token: Option<&'t str>,
}

/// The bytes of this request to the node of this name. The client reads its answer next.
pub(crate) fn request_bytes(
    alloc: Global,
    client: &mut Client,
    host: &str,
    request: GatewayRequest<'_, '_>,
) -> Result<Vec<u8>, EtcdFault> {
    let mut headers = Vec::new(alloc);
    headers
        .push(Header {
            name: b"host",
            value: host.as_bytes(),
        })
        .map_err(no_memory)?;
    if let Some(token) = request.token {
        headers
            .push(Header {
                name: b"authorization",
                value: token.as_bytes(),
            })
            .map_err(no_memory)?;
    }
    post_bytes(
        alloc,
        client,
        request.path.as_bytes(),
        headers.as_slice(),
        request.body,
    )
}

/// Memory was not enough.
fn no_memory<E: Drop>(_error: E) -> EtcdFault {
    EtcdFault::OutOfMemory
}

/// The bytes of a request that posts this body.
fn post_bytes(
    alloc: Global,
    client: &mut Client,
    path: &[u8],
    headers: &[Header<'_>],
    body: &[u8],
) -> Result<Vec<u8>, EtcdFault>
    ensures { IfOk result (λ bytes. bytes.items ≡ post_text client.old path.now (pairs headers.now) body.now) }
{
    let mut bytes = Vec::new(alloc);
    let size = BodySize::Known(body.len() as u64);
    let Ok(()) = client.write_request(&mut bytes, b"POST", path, headers, size) else {
        return Err(EtcdFault::OutOfMemory);
    };
    let Ok(()) = client.write_data(&mut bytes, body) else {
        return Err(EtcdFault::OutOfMemory);
    };
    let Ok(()) = client.write_end(&mut bytes, &[]) else {
        return Err(EtcdFault::OutOfMemory);
    };
    Ok(bytes)
}
