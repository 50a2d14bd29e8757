//! A client label: the text by which a client says whose session has a worker.

ghost use Rattle.std.specs.Prelude.{◌≡◌};
ghost use Rattle.rme_session_protocol.specs.ClientLabels.{client_label};

use std::marker::Model;

/// The greatest length of a client label in bytes.
const MOST_LABEL_BYTES: usize = 64;

/// A text of at most 64 bytes of UTF-8, such as `host7:cron`.
///
/// Two labels are equal if and only if their texts are.
#[derive(Clone, Copy, PartialEq, Eq)]
pub struct ClientLabel {
    bytes: [u8; MOST_LABEL_BYTES],
    len: u8,
}

impl Model for ClientLabel {
    ghost use Rattle.std.specs.Prelude.{ℕ, List, ◌-◌, ◌++◌, take, replicate, length};
    ghost use Rattle.std.specs.Str.{IsUtf8};
    ghost use Rattle.rme_script.specs.Padding.{IsPaddedList, padding_is_restored};

    ghost Value = { List ℕ };

    ghost view = { λ label. take label.len label.bytes };

    ghost invariant = { λ label. IsPaddedList 0 64 label.len label.bytes × IsUtf8 (take label.len label.bytes) };

    ghost inverse = { λ text. record { bytes = text ++ replicate (64 - length text) 0; len = length text } };

    ghost inverse_ok = { λ label h. padding_is_restored (λ bytes len. record { bytes = bytes; len = len }) 0 64
        label.len label.bytes h.0 };
}

impl ClientLabel {
    /// The label with this text, or `None` if the text is longer than 64 bytes. It may be empty.
    pub fn of(text: &str) -> Option<ClientLabel>
        ensures { result ≡ client_label text.now }
    {
        let given = text.as_bytes();
        if given.len() > MOST_LABEL_BYTES {
            return None;
        }
        let mut bytes = [0; MOST_LABEL_BYTES];
        bytes[..given.len()].copy_from_slice(given);
        Some(ClientLabel {
            bytes,
            len: given.len() as u8,
        })
    }

    /// The text.
    pub fn as_str(&self) -> &str
        ensures { result.now ≡ self.now }
    {
        let Ok(text) = str::from_utf8(&self.bytes[..self.len as usize]) else {
            unreachable!();
        };
        text
    }
}
