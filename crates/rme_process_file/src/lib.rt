//! Reading a file of words that processes map.
//!
//! The crate reads the bytes of such a file, the page and the words of a world, and answers the state of each lock and
//! of each worker from the words. It stands on rme_words, rme_tree, rme_script and rme_line_io, on rme_machine,
//! rme_core_image_check and rme_waiting for the meaning of words, and on rme_line_text; it maps nothing, and no worker's step depends
//! on it. The crates above use the contract of `ProcessFile::read`: it accepts exactly the bytes of `IsFile`. Begin
//! with `specs/ProcessFiles.antt`, and then `process_file.rt`.
#![tactic(auto)]

mod damage;
mod file_contents;
mod file_defect;
pub mod laws;
mod only;
mod page;
mod process_file;
mod sound;
mod stance;
mod texts;

pub use damage::Damage;
pub use file_defect::FileDefect;
pub use page::is_process_file;
pub use process_file::ProcessFile;
pub use stance::FileStance;
pub use texts::{push_damage, push_json};
