//! A file of words with two workers, and a lock with two cells.

ghost use Rattle.std.specs.Prelude.{◌≡◌, ◌<◌, ◌↔◌, IfOk, IsTrue};
ghost use Rattle.rme_process_file.specs.ProcessFiles.{IsFile, file_memory};
ghost use Rattle.rme_process_file.specs.FileContents.{blocked_by_in, file_stance_in, sections_in};
ghost use Rattle.rme_process_file.specs.Sound.{IsSound};

use rme_process_file::{
    FileDefect, FileStance, ProcessFile, is_process_file, push_damage, push_json,
};
use std::alloc::{AllocError, Global};
use std::process::Abort;
use std::test::Fail;

/// The byte of the life of worker 0.
const LIVES: usize = 2048;

/// The bytes of a file of this version whose words begin with these; all others are 0.
fn file_of(alloc: Global, version: u64, words: &[u64]) -> Result<Vec<u8>, AllocError> {
    let mut bytes = Vec::new(alloc);
    push_file(&mut bytes, version, words)?;
    Ok(bytes)
}

fn push_file(bytes: &mut Vec<u8>, version: u64, words: &[u64]) -> Result<(), AllocError> {
    bytes.extend_from_slice(b"rmewords")?;
    push_numbers(bytes, &[version, 0x0102_0304_0506_0708])?;
    bytes.extend_from_slice(b"0f3c52aa-3b9b-44b5-9d6c-54b2a4bd7a11\0\0\0\0")?;
    push_numbers(bytes, &[2, 1, 2, 5, 70, 0])?;
    bytes.extend_from_slice(b"bank")?;
    fill(bytes, 4096)?;
    push_numbers(bytes, words)?;
    fill(bytes, 4096 + 8 * 70)
}

fn push_numbers(bytes: &mut Vec<u8>, numbers: &[u64]) -> Result<(), AllocError> {
    for number in numbers {
        bytes.extend_from_slice(&number.to_le_bytes())?;
    }
    Ok(())
}

/// Appends zeros up to this length.
fn fill(bytes: &mut Vec<u8>, length: usize) -> Result<(), AllocError> {
    for _ in bytes.len()..length {
        bytes.push(0)?;
    }
    Ok(())
}

/// The words of a state: worker 0 has begun job 1, which adds 5 to cell 1 of lock 0, and owns the lock; worker 1 has
/// withdrawn its job 1.
fn words_of_state() -> [u64; 70] {
    let mut words = [0; 70];
    words[0] = 1;
    words[6] = 1;
    words[7] = 2;
    words[8] = 1;
    words[9] = 5;
    words[31] = 1;
    words[32] = 1;
    words[34] = u64::MAX;
    words[62] = 1;
    words[63] = 4;
    words[65] = 7;
    words
}

/// The contents of the file of that state.
fn mapped_of(alloc: Global) -> Result<ProcessFile, Fail> {
    mapped_with(alloc, &words_of_state())
}

/// Reads bytes that are exactly a file's.
fn read(alloc: Global, bytes: &[u8]) -> Result<ProcessFile, FileDefect>
    ensures { IfOk result (λ mapped. IsFile bytes.now mapped) }
{
    ProcessFile::read(alloc, bytes)
}

/// The contents of the file with these words.
fn mapped_with(alloc: Global, words: &[u64]) -> Result<ProcessFile, Fail> {
    let bytes = file_of(alloc, 1, words)?;
    match read(alloc, &bytes) {
        Ok(mapped) => Ok(mapped),
        Err(_) => Err(Fail::from("unread")),
    }
}

/// The finished sections of a lock, and where a worker stands, by the words only.
fn sections(mapped: &ProcessFile, lock: u32) -> u64
    requires { lock < mapped.now.shape.locks }
    ensures { result ≡ sections_in mapped.now lock }
{
    mapped.sections(lock)
}

fn stance(mapped: &ProcessFile, worker: u32) -> FileStance
    requires { worker < mapped.now.shape.workers }
    ensures { result ≡ file_stance_in mapped.now worker }
{
    mapped.stance(worker)
}

/// Whether a world can have these words at some moment, as far as words tell.
fn is_sound(mapped: &ProcessFile) -> bool
    ensures { IsTrue result ↔ IsSound mapped.now.shape (file_memory mapped.now) }
{
    mapped.first_damage().is_none()
}

/// Whether these bytes are no file of words, for this reason.
fn is_unread(alloc: Global, bytes: &[u8], reason: &str) -> Result<bool, AllocError> {
    match read(alloc, bytes) {
        Ok(_) => Ok(false),
        Err(why) => Ok(format!(in alloc; "{why}")?.as_str() == reason),
    }
}

/// Whether this is the name of the first damaged words of a file with these words, or `none`.
fn is_damage(alloc: Global, words: &[u64], wanted: &str) -> Result<bool, Fail> {
    let mapped = mapped_with(alloc, words)?;
    Ok(is_first_damage(alloc, &mapped, wanted)?)
}

fn is_first_damage(alloc: Global, mapped: &ProcessFile, wanted: &str) -> Result<bool, AllocError> {
    let Some(damage) = mapped.first_damage() else {
        return Ok(wanted == "none");
    };
    let mut text = String::new(alloc);
    push_damage(&mut text, mapped.names(), damage)?;
    Ok(text.as_str() == wanted)
}

#[test]
fn page_is_read(rt: HostRuntime) -> Result<(), Fail> {
    check_page(&rt, &mapped_of(rt.alloc())?);
    Ok(())
}

fn check_page(rt: &impl Abort, mapped: &ProcessFile) {
    assert!(rt;
        mapped
            .boot()
            .starts_with(b"0f3c52aa-3b9b-44b5-9d6c-54b2a4bd7a11")
    );
    assert!(rt; !mapped.moved());
    assert!(rt; mapped.names().number("bank") == Some(0));
}

#[test]
fn owner_is_inside(rt: HostRuntime) -> Result<(), Fail> {
    let mapped = mapped_of(rt.alloc())?;
    check_lock(&rt, &mapped);
    check_workers(&rt, &mapped);
    assert!(rt; is_sound(&mapped));
    Ok(())
}

/// Worker 0 owns the lock, whose cells are unsettled.
fn check_lock(rt: &impl Abort, mapped: &ProcessFile) {
    assert!(rt; mapped.shape().locks() == 1);
    assert!(rt; mapped.owner(0) == Some(0));
    assert!(rt; sections(mapped, 0) == 2);
    let (_cells, settled) = mapped.cells(0);
    assert!(rt; !settled);
}

fn check_workers(rt: &impl Abort, mapped: &ProcessFile) {
    assert!(rt; mapped.shape().workers() == 2);
    assert!(rt; mapped.number(1) == 1);
    assert!(rt; stance(mapped, 0) == FileStance::Held(0));
    assert!(rt; stance(mapped, 1) == FileStance::Ready);
    assert!(rt; mapped.pending(0).is_some());
}

/// Worker 1 waits for worker 0 in place of its withdrawn job.
#[test]
fn waiting_is_written(rt: HostRuntime) -> Result<(), Fail> {
    let mut words = words_of_state();
    words[32] = 0;
    let mapped = mapped_with(rt.alloc(), &words)?;
    check_waiting(&rt, rt.alloc(), &mapped)?;
    Ok(())
}

fn check_waiting(rt: &impl Abort, alloc: Global, mapped: &ProcessFile) -> Result<(), AllocError> {
    let mut text = String::new(alloc);
    push_json(&mut text, mapped, &[true])?;
    assert!(rt; text.as_str().ends_with(WAITING));
    assert!(rt; mapped.shape().workers() == 2 && mapped.shape().locks() == 1);
    assert!(rt; waits_for(mapped, 0).is_none() && waits_for(mapped, 1) == Some(0));
    assert!(rt; mapped.levels(0, 0) == 1 && mapped.levels(0, 1) == 0);
    Ok(())
}

/// The workers of that file.
const WAITING: &str =
    "\"workers\":[{\"living\":true,\"lock\":\"bank\",\"number\":1,\"stance\":\"held\"},{\"blocked_by\":0,\"lock\":\"bank\",\"number\":1,\"stance\":\"climb\"}]}";

/// The worker that a worker waits for, by the words only.
fn waits_for(mapped: &ProcessFile, worker: u32) -> Option<u32>
    requires { worker < mapped.now.shape.workers }
    ensures { result ≡ blocked_by_in mapped.now worker }
{
    mapped.blocked_by(worker)
}

#[test]
fn object_is_written(rt: HostRuntime) -> Result<(), Fail> {
    let mapped = mapped_of(rt.alloc())?;
    check_json(&rt, rt.alloc(), &mapped)?;
    Ok(())
}

fn check_json(rt: &impl Abort, alloc: Global, mapped: &ProcessFile) -> Result<(), AllocError> {
    let mut text = String::new(alloc);
    push_json(&mut text, mapped, &[])?;
    assert!(rt;
        text.as_str()
            == "{\"locks\":[{\"cells\":[0,7],\"name\":\"bank\",\"owner\":0,\"sections\":2,\"settled\":false}],\"moved\":false,\"ok\":\"status\",\"workers\":[{\"lock\":\"bank\",\"number\":1,\"stance\":\"held\"},{\"number\":1,\"stance\":\"ready\"}]}"
    );
    Ok(())
}

#[test]
fn other_bytes_are_unread(rt: HostRuntime) -> Result<(), Fail> {
    let other = file_of(rt.alloc(), 3, &[])?;
    assert!(rt; is_process_file(&other));
    assert!(rt; is_unread(rt.alloc(), &other, "its version is neither 1 nor 2")?);
    assert!(rt; is_unread(rt.alloc(), b"rmewords", "it is shorter than its first page")?);
    assert!(rt; is_unread(rt.alloc(), b"{}", "it does not begin as a file of words")?);
    Ok(())
}

/// A file with a life of worker 1, and then with one of a worker that is not there.
#[test]
fn lives_are_of_workers(rt: HostRuntime) -> Result<(), Fail> {
    for version in [1, 2] {
        let mut bytes = file_of(rt.alloc(), version, &words_of_state())?;
        assert!(rt; read(rt.alloc(), &bytes).is_ok());
        put(&mut bytes, LIVES + 8, 7);
        assert!(rt; read(rt.alloc(), &bytes).is_ok() == (version == 2));
        put(&mut bytes, LIVES + 16, 7);
        let reason = "its first page has more than there is to say";
        assert!(rt; is_unread(rt.alloc(), &bytes, reason)?);
    }
    Ok(())
}

fn put(bytes: &mut [u8], at: usize, value: u8) {
    if let Some(byte) = bytes.get_mut(at) {
        *byte = value;
    }
}

#[test]
fn damage_is_named(rt: HostRuntime) -> Result<(), Fail> {
    let mut words = words_of_state();
    assert!(rt; is_damage(rt.alloc(), &words, "none")?);
    words[8] = 2;
    assert!(rt; is_damage(rt.alloc(), &words, "the slate of worker 0")?);
    words[0] = 0;
    let nodes = "the nodes of lock bank that worker 0 holds";
    assert!(rt; is_damage(rt.alloc(), &words, nodes)?);
    Ok(())
}

#[test]
fn odd_turn_is_damage(rt: HostRuntime) -> Result<(), Fail> {
    let mut words = [0; 70];
    words[63] = 1;
    assert!(rt; is_damage(rt.alloc(), &words, "the word turn of lock bank")?);
    Ok(())
}
