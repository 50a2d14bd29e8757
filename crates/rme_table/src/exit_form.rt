//! The two forms of Exit.

/// The form of a worker's exit: the whole of Exit, or only the release of its lower nodes.
#[derive(Clone, Copy)]
pub(crate) enum ExitForm {
    Whole,
    Partial { level: u32 },
}
