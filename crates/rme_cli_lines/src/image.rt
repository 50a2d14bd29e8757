//! `rme run` with images: the world that a run begins with, and the world that it leaves.

use crate::lines::given_lines;
use crate::saving::{check_save_target, replace_image_file};
use rme_cli_messages::{BadArgument, CliFault};
use rme_cli_options::{Diagnostics, RunImages};
use rme_line_diagnose::Vocabulary;
use rme_line_engine::{Engine, answer_lines};
use rme_wire::{GivenNames, Image, Loading};
use std::io::ErrorKind;
use std::{fs, io};

/// Answers the lines of the standard input over a loaded world, saves the world that they leave, and answers the
/// status.
///
/// A fault before the end of the input saves nothing. If the world cannot be saved, the run is refused before the first
/// line is read.
pub fn run_images(
    rt: &HostRuntime,
    images: RunImages,
    diagnostics: Diagnostics,
) -> Result<u8, CliFault> {
    let RunImages { load, locks, save } = images;
    check_file_name("--image", &load)?;
    check_file_name("--save", &save)?;
    if let Some(file) = &save {
        check_save_target(rt, file.as_str())?;
    }
    let mut engine = begin_engine(rt, load, GivenNames::of(locks))?;
    answer(rt, &mut engine, diagnostics)?;
    match save {
        None => Ok(0),
        Some(file) => save_in(rt, &engine, file),
    }
}

/// Checks that the file of an option, if one was given, has a name.
fn check_file_name(option: &'static str, file: &Option<String>) -> Result<(), CliFault> {
    match file {
        Some(name) if name.is_empty() => Err(CliFault::BadArguments(BadArgument::NoFile(option))),
        _ => Ok(()),
    }
}

/// The engine with the world of a file, if one is named, otherwise without a world.
fn begin_engine(
    rt: &HostRuntime,
    file: Option<String>,
    locks: GivenNames,
) -> Result<Engine, CliFault> {
    let mut engine = Engine::new(rt.alloc())?;
    if let Some(file) = file {
        load(rt, &mut engine, file, locks)?;
    }
    Ok(engine)
}

/// Answers the lines of the standard input.
fn answer(rt: &HostRuntime, engine: &mut Engine, diagnostics: Diagnostics) -> Result<(), CliFault> {
    let mut lines = given_lines(rt, Vocabulary::Commands, diagnostics)?;
    answer_lines(engine, &mut lines, &mut io::writer(rt))?;
    Ok(())
}

/// Loads the world of a file. If the file does not exist, as at a first start, no world is open.
fn load(
    rt: &HostRuntime,
    engine: &mut Engine,
    file: String,
    locks: GivenNames,
) -> Result<(), CliFault> {
    if !locks.are_names() {
        return Err(CliFault::BadNames);
    }
    let bytes = match fs::read(rt, file.as_str()) {
        Ok(bytes) => bytes,
        Err(error) if error.kind() == ErrorKind::NotFound => {
            let _ = eprintln!(rt; "nothing is open at the beginning: {file} is not there");
            return Ok(());
        }
        Err(error) => {
            let kind = error.kind();
            return Err(CliFault::on_file(kind, CliFault::ImageUnread(file, error)));
        }
    };
    let loading = Loading {
        image: Some(Image::new(bytes)),
        locks,
    };
    match engine.load(&loading) {
        Ok(()) => Ok(()),
        Err(refusal) => Err(CliFault::of_loading(refusal, file, loading.locks.len())),
    }
}

/// Saves the open world, and answers the status. If none is open, the file stays unchanged.
fn save_in(rt: &HostRuntime, engine: &Engine, file: String) -> Result<u8, CliFault> {
    let Some(image) = engine.save()? else {
        let _ = eprintln!(rt; "nothing is open at the end: {file} stays as it is");
        return Ok(0);
    };
    replace_image_file(rt, file, image.as_slice())?;
    Ok(0)
}
