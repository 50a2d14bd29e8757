//! The contents of a file of words.

ghost use Rattle.std.specs.Prelude.{◌≡◌, ◌≤◌, ◌+◌, ◌*◌, IfOk, MatchResult, length, map};
ghost use Rattle.std.specs.List.{range_with_len};
ghost use Rattle.rme_process_file.specs.ProcessFiles.{IsPage, file_u64_at};
ghost use Rattle.rme_process_file.specs.FileDefects.{HasFileDefect};

use crate::file_defect::FileDefect;
use crate::page::{
    BOOT_BYTES, ORDER, PAGE, PAGE_WORDS, boot_of, file_u64_at, is_file_version, is_of_size,
    is_process_file, is_zero_around_lives, life_count, names_of, shape_of,
};
use rme_line_io::Names;
use rme_words::{Bank, NoMemory, Shape};
use std::alloc::Global;
use std::marker::Model;

/// The contents of a file of words, at the time when its bytes were read.
///
/// If processes stepped meanwhile, the words may be of different moments.
#[derive(Drop)]
pub struct ProcessFile {
    pub(crate) bank: Bank,
    pub(crate) names: Names,
    moved: bool,
    boot: [u8; BOOT_BYTES],
}

impl Model for ProcessFile {
    ghost use Rattle.rme_process_file.specs.ProcessFiles.{ProcessFileView};

    ghost Value = { ProcessFileView };

    ghost view = { λ mapped. record {
      shape = mapped.bank.shape;
      names = mapped.names;
      moved = mapped.moved;
      boot =
          mapped.boot;
      words = mapped.bank.words;
    } };
}

/// The words after the page.
fn words_of(alloc: Global, bytes: &[u8], count: usize) -> Result<Vec<u64>, NoMemory>
    requires { 4096 + 8 * count ≤ length bytes.now }
    ensures { IfOk result (λ words. words.items ≡ map (λ i. file_u64_at bytes.now (512 + i)) (range_with_len 0 count)) }
{
    let mut words = Vec::new(alloc);
    for at in 0..count {
        match words.push(file_u64_at(bytes, PAGE_WORDS + at)) {
            Ok(()) => {}
            Err(_) => return Err(NoMemory),
        }
    }
    Ok(words)
}

/// The shape of the page, which is checked except for the names of its locks.
fn checked_shape(bytes: &[u8]) -> Result<Shape, FileDefect>
    ensures { MatchResult result (λ shape. IsPage bytes.now shape) (λ why. HasFileDefect bytes.now why) }
{
    if !is_process_file(bytes) {
        return Err(FileDefect::NoMagic);
    }
    if bytes.len() < PAGE {
        return Err(FileDefect::TooShort);
    }
    if file_u64_at(bytes, 2) != ORDER {
        return Err(FileDefect::ByteOrder);
    }
    let version = file_u64_at(bytes, 1);
    if !is_file_version(version) {
        return Err(FileDefect::Version);
    }
    let Some(shape) = shape_of(bytes) else {
        return Err(FileDefect::Limits);
    };
    if !is_of_size(bytes, shape) {
        return Err(FileDefect::Size);
    }
    if !is_zero_around_lives(bytes, shape.locks, life_count(version, shape.workers)) {
        return Err(FileDefect::Rest);
    }
    if file_u64_at(bytes, 13) > 1 {
        return Err(FileDefect::Moved);
    }
    Ok(shape)
}

impl ProcessFile {
    ghost use Rattle.std.specs.Prelude.{◌≡◌, IfOk, IfErr};
    ghost use Rattle.rme_process_file.specs.ProcessFiles.{ProcessFileView, IsFile};
    ghost use Rattle.rme_process_file.specs.FileDefects.{HasFileDefect};

    /// Reads all bytes of a file. Takes memory for the words and the names.
    ///
    /// An error is the first defect found, in the order of the page, if the bytes are no file of words. The values of
    /// the words are not checked: see `first_damage`.
    pub fn read(alloc: Global, bytes: &[u8]) -> Result<ProcessFile, FileDefect>
        ensures read { IfOk result (λ mapped. IsFile bytes.now mapped) }
        ensures only { (file : ProcessFileView) → IsFile bytes.now file
            → IfOk result (λ mapped. mapped ≡ file) × IfErr result (λ why. why ≡ FileDefect.NoMemory) }
        ensures refused { IfErr result (λ why. HasFileDefect bytes.now why) }
    {
        let shape = match checked_shape(bytes) {
            Ok(shape) => shape,
            Err(why) => return Err(why),
        };
        let Ok(found) = names_of(alloc, bytes, shape.locks) else {
            return Err(FileDefect::NoMemory);
        };
        let Some(names) = found else {
            return Err(FileDefect::Names);
        };
        let Ok(words) = words_of(alloc, bytes, shape.words()) else {
            return Err(FileDefect::NoMemory);
        };
        Ok(ProcessFile {
            bank: Bank::of(shape, words),
            names,
            moved: file_u64_at(bytes, 13) == 1,
            boot: boot_of(bytes),
        })
    }

    /// The shape of the words.
    pub fn shape(&self) -> Shape
        ensures { result ≡ self.now.shape }
    {
        self.bank.shape()
    }

    /// The names of the locks.
    pub fn names(&self) -> &Names
        ensures { result.now ≡ self.now.names }
    {
        &self.names
    }

    /// Whether the file was renewed: another file has the cells since.
    pub fn moved(&self) -> bool
        ensures { result ≡ self.now.moved }
    {
        self.moved
    }

    /// The boot of the machine on which the file was made, in that machine's own text: 36 bytes and four zeros. After
    /// another boot no process may continue with the file.
    pub fn boot(&self) -> &[u8]
        ensures { result.now ≡ self.now.boot }
    {
        &self.boot
    }
}
