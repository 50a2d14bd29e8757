//! The words that the program is called with.

use crate::defect::Defect;
use crate::fault::SimulationFailure;
use crate::plan::Asked;
use std::env;

/// The most words behind the seed and the count.
const MOST_WORDS: usize = 16;

/// What the words ask for: simulations of this number of seeds.
#[derive(Clone, Copy)]
pub struct Task {
    pub first: u64,
    pub count: u64,
    pub asked: Asked,
}

/// Reads `SEED [COUNT] [--trace] [--defect NAME] [--steps N] [--sessions N]`.
pub fn read_words(rt: &HostRuntime) -> Result<Task, SimulationFailure> {
    let mut words = env::args(rt)?;
    let _program = words.next();
    let first = number_of(words.next())?;
    let count = match words.next() {
        Some(word) => number_of(Some(word))?,
        None => 1,
    };
    let mut asked = Asked {
        defect: Defect::None,
        traces: false,
        steps: u32::MAX,
        sessions: 8,
    };
    for _ in 0..MOST_WORDS {
        let Some(word) = words.next() else {
            break;
        };
        match word.as_str() {
            "--trace" => asked.traces = true,
            "--defect" => asked.defect = defect_of(words.next())?,
            "--steps" => asked.steps = small_of(words.next())?,
            "--sessions" => asked.sessions = small_of(words.next())?,
            _ => return Err(SimulationFailure::BadWords),
        }
    }
    Ok(Task {
        first,
        count,
        asked,
    })
}

fn number_of(word: Option<String>) -> Result<u64, SimulationFailure> {
    let Some(word) = word else {
        return Err(SimulationFailure::BadWords);
    };
    match word.as_str().parse::<u64>() {
        Ok(number) => Ok(number),
        Err(_) => Err(SimulationFailure::BadWords),
    }
}

fn small_of(word: Option<String>) -> Result<u32, SimulationFailure> {
    match u32::try_from(number_of(word)?) {
        Ok(number) => Ok(number),
        Err(_) => Err(SimulationFailure::BadWords),
    }
}

fn defect_of(word: Option<String>) -> Result<Defect, SimulationFailure> {
    let Some(word) = word else {
        return Err(SimulationFailure::BadWords);
    };
    match Defect::named(word.as_str()) {
        Some(defect) => Ok(defect),
        None => Err(SimulationFailure::BadWords),
    }
}
