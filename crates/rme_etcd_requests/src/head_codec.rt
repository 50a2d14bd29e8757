//! A head as the text of its key.

ghost use Rattle.std.specs.Prelude.{◌≡◌, IfOk, Ok, Some, string_bytes};
ghost use Rattle.hex.specs.Hex.{decode_sized};
ghost use Rattle.serde_json.specs.Data.{Data};
ghost use Rattle.serde_json.specs.Read.{read};
ghost use Rattle.serde_json.specs.View.{view};
ghost use Rattle.rme_etcd_requests.specs.HeadTexts.{SaysHead, head_data};

use crate::answer_members::{number_at, text_at};
use crate::answers::AnswerFault;
use rme_replica::Head;
use serde_json::{Value, json};
use std::alloc::{AllocError, Global};

/// The version of the form of heads and records.
const VERSION: u64 = 1;

/// The text of a head. Two heads have one text only if they are equal.
pub fn head_text(alloc: Global, head: &Head) -> Result<String, AllocError>
    ensures { IfOk result (λ text. read (string_bytes text) ≡ Some (head_data head.now)) }
{
    let whole = head_value(alloc, head)?;
    let text = whole.to_string(alloc)?;
    Ok(text)
}

/// A head as JSON.
fn head_value(alloc: Global, head: &Head) -> Result<Value, AllocError>
    ensures { IfOk result (λ whole. view whole ≡ head_data head.now) }
{
    let writer = hex::encode(alloc, head.writer())?;
    let (epoch, sequence, term) = (head.epoch(), head.sequence(), head.term());
    json!(in alloc; {
        "addr": head.address(), "epoch": epoch, "rme": "kept", "seq": sequence, "term": term, "version": VERSION,
        "writer": writer
    })
}

/// The head of a text.
pub fn read_head(alloc: Global, text: &[u8]) -> Result<Head, AnswerFault>
    ensures { IfOk result (λ head. (whole : Data) × (read text.now ≡ Some whole) × SaysHead whole head) }
{
    let whole = Value::from_slice(alloc, text)?;
    if text_at(&whole, "rme")? != "kept" {
        return Err(AnswerFault::NotRead);
    }
    if number_at(&whole, "version")? != VERSION {
        return Err(AnswerFault::NotRead);
    }
    let writer = writer_of(text_at(&whole, "writer")?)?;
    let address = String::from_str(alloc, text_at(&whole, "addr")?)?;
    let mut head = Head::new(address, number_at(&whole, "term")?, writer);
    head.set_place(number_at(&whole, "epoch")?, number_at(&whole, "seq")?);
    Ok(head)
}

/// The mark that these hex digits write.
fn writer_of(digits: &str) -> Result<[u8; 12], AnswerFault>
    ensures { IfOk result (λ writer. decode_sized digits.now 12 ≡ Ok writer) }
{
    let mut writer = [0; 12];
    match hex::decode_to_slice(digits, &mut writer) {
        Ok(()) => Ok(writer),
        Err(_) => Err(AnswerFault::NotRead),
    }
}
