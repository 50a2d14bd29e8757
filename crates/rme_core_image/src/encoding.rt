//! Writing an image.

ghost use Rattle.std.specs.Prelude.{◌≡◌, ◌<◌, ◌^◌, ◌++◌, length, OnOk, IfOk};
ghost use Rattle.std.specs.List.{All};
ghost use Rattle.rme_words.specs.Words.{word_count};
ghost use Rattle.rme_script.specs.Scripts.{IsScript, OpIsWithin};
ghost use Rattle.rme_core_image.specs.Images.{IsSmallOp, IsSmallScript, IsSmallReceipt, IsSmallEntry, EntryFitsItsBytes, BytesEncodeImage, header_bytes, image_header, script_of_ops, version_omits_word, words_bytes, op_bytes, script_bytes, receipt_bytes, entry_bytes, entries_bytes, image_of};

use crate::header::{MAGIC, VERSION};
use rme_history::EntryList;
use rme_program::Receipt;
use rme_script::{Op, op_words};
use rme_words::{NoMemory, Shape};
use std::alloc::Global;

/// Appends some bytes.
fn put(out: &mut Vec<u8>, bytes: &[u8]) -> Result<(), NoMemory>
    ensures { OnOk result (out.new.items ≡ out.old.items ++ bytes.now) }
{
    match out.extend_from_slice(bytes) {
        Ok(()) => Ok(()),
        Err(_) => Err(NoMemory),
    }
}

/// Writes the header of an image of the newest version.
fn put_header(out: &mut Vec<u8>, shape: Shape) -> Result<(), NoMemory>
    ensures { OnOk result (out.new.items ≡ out.old.items ++ header_bytes (image_header 2 shape)) }
{
    put(out, &MAGIC.to_be_bytes())?;
    put(out, &VERSION.to_be_bytes())?;
    put(out, &(shape.workers as u16).to_be_bytes())?;
    put(out, &(shape.locks as u8).to_be_bytes())?;
    put(out, &(shape.cells as u8).to_be_bytes())?;
    put(out, &shape.jobs.to_be_bytes())?;
    Ok(())
}

/// Writes all words.
fn put_words(out: &mut Vec<u8>, shape: Shape, words: &[u64]) -> Result<(), NoMemory>
    ensures { OnOk result (out.new.items ≡ out.old.items ++ words_bytes (version_omits_word 2 shape) 0 words.now) }
{
    for word in words {
        put(out, &word.to_be_bytes())?;
    }
    Ok(())
}

/// Writes an operation.
fn put_op(out: &mut Vec<u8>, op: Op) -> Result<(), NoMemory>
    requires { OpIsWithin 256 op }
    ensures put { OnOk result (out.new.items ≡ out.old.items ++ op_bytes op) }
    ensures small { OnOk result (IsSmallOp op) }
{
    let [kind, first, second] = op_words(op);
    put(out, &(kind as u8).to_be_bytes())?;
    put(out, &(first as u8).to_be_bytes())?;
    put(out, &second.to_be_bytes())?;
    Ok(())
}

/// Writes a script, which has these operations.
fn put_script(out: &mut Vec<u8>, ops: &[Op]) -> Result<(), NoMemory>
    requires { IsScript 256 (script_of_ops ops.now) }
    ensures put { OnOk result (out.new.items ≡ out.old.items ++ script_bytes (script_of_ops ops.now)) }
    ensures small { OnOk result (IsSmallScript (script_of_ops ops.now)) }
{
    put(out, &(ops.len() as u8).to_be_bytes())?;
    for op in ops {
        put_op(out, *op)?;
    }
    Ok(())
}

/// Writes a receipt.
fn put_receipt(out: &mut Vec<u8>, receipt: Receipt) -> Result<(), NoMemory>
    requires worker { receipt.worker < 2 ^ 16 }
    requires lock { receipt.lock < 2 ^ 8 }
    ensures put { OnOk result (out.new.items ≡ out.old.items ++ receipt_bytes receipt) }
    ensures small { OnOk result (IsSmallReceipt receipt) }
{
    put(out, &(receipt.worker as u16).to_be_bytes())?;
    put(out, &receipt.number.to_be_bytes())?;
    put(out, &(receipt.lock as u8).to_be_bytes())?;
    put(out, &receipt.place.to_be_bytes())?;
    put(out, &receipt.reply.to_be_bytes())?;
    Ok(())
}

/// Writes the number of entries, and all entries.
fn put_entries(out: &mut Vec<u8>, entries: &EntryList) -> Result<(), NoMemory>
    requires few { length entries.now.entries < 2 ^ 32 }
    requires within { All EntryFitsItsBytes entries.now.entries }
    ensures put { OnOk result (out.new.items ≡ out.old.items ++ entries_bytes entries.now.entries) }
    ensures small { OnOk result (All IsSmallEntry entries.now.entries) }
{
    put(out, &(entries.len() as u32).to_be_bytes())?;
    for i in 0..entries.len() {
        let Some(receipt) = entries.receipt(i) else {
            unreachable!();
        };
        let Some(ops) = entries.operations(i) else {
            unreachable!();
        };
        put_receipt(out, receipt)?;
        put_script(out, ops)?;
    }
    Ok(())
}

/// The image of these words and entries, in version 2.
///
/// The words are all of the shape's, in order of their numbers. There are fewer than 2^32 entries, and the worker, the
/// lock and the cells of each fit their bytes, as those of a world's entries do. Takes memory for the image; `NoMemory`
/// if that was refused.
pub fn encode(
    alloc: Global,
    shape: Shape,
    words: &[u64],
    entries: &EntryList,
) -> Result<Vec<u8>, NoMemory>
    requires few { length entries.now.entries < 2 ^ 32 }
    requires within { All EntryFitsItsBytes entries.now.entries }
    ensures image { IfOk result (λ bytes. bytes.items ≡ image_of 2 shape words.now entries.now.entries) }
    ensures spelled { length words.now ≡ word_count shape
        → IfOk result (λ bytes. BytesEncodeImage 2 bytes.items shape words.now entries.now.entries) }
{
    let mut out = Vec::new(alloc);
    put_header(&mut out, shape)?;
    put_words(&mut out, shape, words)?;
    put_entries(&mut out, entries)?;
    Ok(out)
}
