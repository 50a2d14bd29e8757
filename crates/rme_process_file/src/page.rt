//! The page before the words: its numbers, its names and its zeros.

ghost use Rattle.std.specs.Prelude.{◌≡◌, ◌<◌, ◌≤◌, ◌==◌, ◌+◌, ◌*◌, ◌^◌, ◌↔◌, IsTrue, IfOk, Some, None, true, false, [], length, take, drop, slice_range, codes, MatchOption, IfSome, position, if◌then◌else◌, ◌&&◌};
ghost use Rattle.rme_words.specs.Shapes.{IsWithinLimits};
ghost use Rattle.rme_words.specs.Words.{word_count};
ghost use Rattle.rme_line_io.specs.Names.{is_name};
ghost use Rattle.rme_process_file.specs.ProcessFiles.{PageHasSizes, file_u64_at, are_zero, is_file_version, life_count, is_zero_around_lives, name_field_length, name_field_text, is_zero_padded, with_name_field, with_name_fields};

use rme_line_io::{Names, is_name};
use rme_words::{NoMemory, Refusal, Shape};
use std::alloc::Global;

/// The number of bytes before the words.
pub const PAGE: usize = 4096;

/// The number of words that would fit the page.
pub const PAGE_WORDS: usize = 512;

/// The versions: of a file without lives of its workers, and of one with them.
const WITHOUT_LIVES: u64 = 1;

const WITH_LIVES: u64 = 2;

/// The value of the byte-order field.
pub const ORDER: u64 = 0x0102_0304_0506_0708;

/// The offset and the length of the machine's boot.
const BOOT_AT: usize = 24;

pub const BOOT_BYTES: usize = 40;

/// The offset of the names, and the length of each.
const NAMES_AT: usize = 112;

const NAME_BYTES: usize = 32;

/// The offset of the lives, and the length of each.
const LIVES_AT: usize = 2048;

const LIFE_BYTES: usize = 8;

/// Whether bytes begin as those of a file of words, which distinguishes such a file from other kinds.
pub fn is_process_file(bytes: &[u8]) -> bool
    ensures { IsTrue result ↔ (take 8 bytes.now ≡ codes "rmewords") }
{
    bytes.starts_with(b"rmewords")
}

/// The little-endian number in the eight bytes from byte `8 * at` on.
#[tactic(auto, unfolding(crate::specs::ProcessFiles::file_u64_at))]
pub fn file_u64_at(bytes: &[u8], at: usize) -> u64
    requires { 8 * at + 8 ≤ length bytes.now }
    ensures { result ≡ file_u64_at bytes.now at }
{
    let Some((front, _)) = bytes[8 * at..].split_first_chunk::<8>() else {
        unreachable!();
    };
    u64::from_le_bytes(*front)
}

/// A number of the page, if it fits 32 bits.
fn small(bytes: &[u8], at: usize) -> Option<u32>
    requires { 8 * at + 8 ≤ length bytes.now }
    ensures { MatchOption result (2 ^ 32 ≤ file_u64_at bytes.now at) (λ n. file_u64_at bytes.now at ≡ n) }
{
    match u32::try_from(file_u64_at(bytes, at)) {
        Ok(n) => Some(n),
        Err(_) => None,
    }
}

/// The shape of the page, if it is within the limits.
pub fn shape_of(bytes: &[u8]) -> Option<Shape>
    requires { 4096 ≤ length bytes.now }
    ensures { MatchOption result
        (IsWithinLimits (file_u64_at bytes.now 8) (file_u64_at bytes.now 9) (file_u64_at bytes.now 10)
        (file_u64_at bytes.now 11)
        → ⊥)
        (λ shape. PageHasSizes bytes.now shape) }
{
    let Some(workers) = small(bytes, 8) else {
        return None;
    };
    let Some(locks) = small(bytes, 9) else {
        return None;
    };
    let Some(cells) = small(bytes, 10) else {
        return None;
    };
    let Some(jobs) = small(bytes, 11) else {
        return None;
    };
    match Shape::new(workers, locks, cells, jobs) {
        Ok(shape) => Some(shape),
        Err(_) => None,
    }
}

/// Whether the number of words is that of the shape, and the page has that number.
pub fn is_of_size(bytes: &[u8], shape: Shape) -> bool
    requires { 4096 ≤ length bytes.now }
    ensures { IsTrue result
        ↔ ((file_u64_at bytes.now 12 ≡ word_count shape) × (length bytes.now ≡ 4096 + 8 * word_count shape)) }
{
    let count = shape.words();
    if file_u64_at(bytes, 12) != count as u64 {
        return false;
    }
    bytes.len() == PAGE + 8 * count
}

/// Whether all of these bytes are 0.
fn are_zero(bytes: &[u8]) -> bool
    ensures { result ≡ are_zero bytes.now }
{
    bytes.iter().all(|byte| *byte == 0)
}

/// Whether a file of this version is one that is read.
pub fn is_file_version(version: u64) -> bool
    ensures { result ≡ is_file_version version }
{
    version == WITHOUT_LIVES || version == WITH_LIVES
}

/// The number of lives in the page of a file of this version.
pub fn life_count(version: u64, workers: u32) -> u32
    ensures count { result ≡ life_count version workers }
    ensures few { result ≤ workers }
{
    if version == WITH_LIVES { workers } else { 0 }
}

/// Whether the page has only zeros after the names of the locks, but for the lives.
pub fn is_zero_around_lives(bytes: &[u8], locks: u32, lives: u32) -> bool
    requires page { 4096 ≤ length bytes.now }
    requires locks { locks ≤ 16 }
    requires lives { lives ≤ 256 }
    ensures { result ≡ is_zero_around_lives bytes.now locks lives }
{
    if !are_zero(&bytes[NAMES_AT + NAME_BYTES * locks as usize..LIVES_AT]) {
        return false;
    }
    are_zero(&bytes[LIVES_AT + LIFE_BYTES * lives as usize..PAGE])
}

/// The index of the first 0, if there is one.
fn first_zero(field: &[u8]) -> Option<usize>
    ensures first { result ≡ position (λ byte. byte == 0) field.now }
    ensures within { IfSome result (λ at. at < length field.now) }
{
    field.iter().position(|byte| *byte == 0)
}

/// The number of bytes before the first 0.
fn name_field_length(field: &[u8]) -> usize
    ensures length { result ≡ name_field_length field.now }
    ensures within { result ≤ length field.now }
{
    match first_zero(field) {
        Some(at) => at,
        None => field.len(),
    }
}

/// The text before the first 0, if it may name a lock and only zeros follow.
fn name_field_text(field: &[u8]) -> Option<&str>
    ensures { MatchOption result ((is_zero_padded field.now && is_name (name_field_text field.now)) ≡ false)
        (λ text. (is_zero_padded field.now ≡ true) × (text.now ≡ name_field_text field.now)) }
{
    let length = name_field_length(field);
    if !are_zero(&field[length..]) {
        return None;
    }
    lock_name_text(&field[..length])
}

/// The text of these bytes, if they are a text that may name a lock.
fn lock_name_text(bytes: &[u8]) -> Option<&str>
    ensures { MatchOption result (is_name bytes.now ≡ false) (λ text. text.now ≡ bytes.now) }
{
    match str::from_utf8(bytes) {
        Ok(text) if is_name(text) => Some(text),
        _ => None,
    }
}

/// Adds the name of a field, and answers whether it has one that may be added.
fn add_name(names: &mut Names, field: &[u8]) -> Result<bool, NoMemory>
    ensures { IfOk result (λ added. (if added then Some names.new else None) ≡ with_name_field names.old field.now) }
{
    let Some(text) = name_field_text(field) else {
        return Ok(false);
    };
    match names.add(text) {
        Ok(_) => Ok(true),
        Err(Refusal::NoMemory) => Err(NoMemory),
        Err(_) => Ok(false),
    }
}

/// The boot of the machine on which the file was made: 36 bytes of text and four zeros.
pub fn boot_of(bytes: &[u8]) -> [u8; BOOT_BYTES]
    requires { 4096 ≤ length bytes.now }
    ensures { result ≡ take 40 (drop 24 bytes.now) }
{
    let Some((boot, _)) = bytes[BOOT_AT..].split_first_chunk::<BOOT_BYTES>() else {
        unreachable!();
    };
    *boot
}

/// The names of the locks, if each has its own.
pub fn names_of(alloc: Global, bytes: &[u8], locks: u32) -> Result<Option<Names>, NoMemory>
    requires page { 4096 ≤ length bytes.now }
    requires locks { locks ≤ 16 }
    ensures { IfOk result (λ names. names ≡ with_name_fields bytes.now locks 0 []) }
{
    let mut names = Names::new(alloc)?;
    for lock in 0..locks {
        let start = NAMES_AT + NAME_BYTES * lock as usize;
        if !add_name(&mut names, &bytes[start..start + NAME_BYTES])? {
            return Ok(None);
        }
    }
    Ok(Some(names))
}
