//! The calls that write, read and check an image, each by itself.

use rme_core_image::{Parsed, encode, parse};
use rme_core_image_check::is_valid_memory;
use rme_history::EntryList;
use rme_words::{Bank, Refusal, Shape};
use std::alloc::Global;
use std::process::Abort;
use std::test::Fail;

/// The smallest image, of one worker, one lock, one cell and one job: the header, 37 words of 0 and no entry.
fn smallest(alloc: Global) -> Result<Vec<u8>, Fail> {
    let mut image = Vec::from_slice(
        alloc,
        &[
            0x52, 0x4d, 0x45, 0x49, 0x02, 0x00, 0x01, 0x01, 0x01, 0x00, 0x00, 0x00, 0x01,
        ],
    )?;
    image.resize(313, 0)?;
    Ok(image)
}

/// `encode` of words and no entries is the smallest image.
#[test]
fn encoded(rt: HostRuntime) -> Result<(), Fail> {
    let image = smallest(rt.alloc())?;
    let none = EntryList::new(rt.alloc());
    let encoded = encode(rt.alloc(), Shape::new(1, 1, 1, 1)?, &[0; 37], &none)?;
    assert!(rt; encoded.as_slice() == image.as_slice());
    Ok(())
}

/// `parse` of the smallest image finds those words and no entries, and refuses it without its last byte.
#[test]
fn parsed(rt: HostRuntime) -> Result<(), Fail> {
    let mut image = smallest(rt.alloc())?;
    check_parsed(&rt, &parse(rt.alloc(), &image)?);
    let _ = image.pop();
    assert!(rt; parse(rt.alloc(), &image).err() == Some(Refusal::BadImage));
    Ok(())
}

fn check_parsed(rt: &impl Abort, parsed: &Parsed) {
    let shape = parsed.shape;
    assert!(rt; (shape.workers(), shape.locks(), shape.cells(), shape.jobs()) == (1, 1, 1, 1));
    assert!(rt; (parsed.version, parsed.entries.len()) == (2, 0));
    assert!(rt; parsed.words.as_slice() == [0; 37].as_slice());
}

/// Whether these words are valid, in a world of one worker, one lock, one cell and one job that has no entries.
fn are_good(rt: &impl Abort, alloc: Global, words: &[u64]) -> Result<bool, Fail> {
    let shape = Shape::new(1, 1, 1, 1)?;
    let words = Vec::from_slice(alloc, words)?;
    assert!(rt; words.len() == shape.words());
    let bank = Bank::of(shape, words);
    Ok(is_valid_memory(alloc, &bank, &EntryList::new(alloc))?)
}

/// `is_valid_memory` is true for `Begun` 1, and false for `Turn` 1.
#[test]
fn judged(rt: HostRuntime) -> Result<(), Fail> {
    let mut words = [0; 37];
    assert!(rt; are_good(&rt, rt.alloc(), &words)?);
    words[0] = 1;
    assert!(rt; are_good(&rt, rt.alloc(), &words)?);
    words[32] = 1;
    assert!(rt; !are_good(&rt, rt.alloc(), &words)?);
    Ok(())
}
