//! A receipt as clients get it.

ghost use Rattle.std.specs.Prelude.{◌≡◌, option_map};
ghost use Rattle.rme_line_text.specs.ClientReceipts as spec;

use rme_program::Receipt;

/// A receipt over all worlds of a service: its number and its place may exceed those of one world.
#[derive(Clone, Copy, Debug, PartialEq, Eq)]
pub struct ClientReceipt {
    pub worker: u32,
    pub lock: u32,
    pub number: u64,
    pub place: u64,
    pub reply: u64,
}

impl From<Receipt> for ClientReceipt {
    ghost from_gives = { λ receipt told. spec.as_receipt told ≡ receipt };

    fn from(receipt: Receipt) -> ClientReceipt {
        ClientReceipt {
            worker: receipt.worker,
            lock: receipt.lock,
            number: u64::from(receipt.number),
            place: u64::from(receipt.place),
            reply: receipt.reply,
        }
    }
}

/// The last receipt of a world's worker, as its client gets it in a service without earlier worlds.
pub fn client_receipt_of(last: Option<Receipt>) -> Option<ClientReceipt>
    ensures { option_map spec.as_receipt result ≡ last }
{
    match last {
        Some(receipt) => Some(ClientReceipt::from(receipt)),
        None => None,
    }
}
