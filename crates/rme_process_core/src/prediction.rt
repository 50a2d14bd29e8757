//! The input of the parts of a prediction.

use rme_program::Visit;
use rme_script::Row;
use rme_words::Shape;

/// The shape, and the kind of note that ends the batch.
#[derive(Clone, Copy)]
pub struct PredictionContext {
    pub shape: Shape,
    pub until: u32,
}

/// The result of a section's script: the section, its named cells with their values, and the reply.
#[derive(Clone, Copy)]
pub struct SectionResult {
    pub visit: Visit,
    pub named: u64,
    pub row: Row,
    pub reply: u64,
}
