//! `rme serve --spaces`: a folder of spaces, each a durable server of its own.
//!
//! A session begins in no space (`serve_spaces.rt`). Once its order `use` succeeds, it is moved to the thread of that
//! space, which runs it in a thread of its own (`space_server.rt`), and from there to the next one. A space is opened
//! at its first visit (`opened_space.rt`), and closed when nobody has visited it for a while. `spaces_folder.rt` has
//! the files, `space_pages.rt` what is shown over HTTP. The crate stands on rme_session_spaces for the lines and the
//! open spaces, on rme_durable_server and rme_durable_file for a space, and on rme_cli_durable, which makes and opens
//! states.
#![tactic(auto)]

mod counted_answers;
mod opened_space;
mod serve_spaces;
mod space_directory;
mod space_guest;
mod space_pages;
mod space_server;
mod space_sessions;
mod spaces_folder;

pub use serve_spaces::run_serve_spaces;
