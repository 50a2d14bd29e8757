//! The texts of help, and of mistakes in the words of the command line.
//!
//! They are functions, not constants: the value of a constant is known wherever it is used, and a long text is slow to
//! check there. They are a crate of their own, since beside clap's types each takes seconds to check. The crate stands on
//! nothing; rme_cli_options uses all of it. Begin with `program.rt`.
#![tactic(auto)]

mod ask;
mod lines;
mod mistakes;
mod program;
mod serve;
mod state;

pub use ask::{ask_about, ask_lines};
pub use lines::{
    check_about, check_lines, draw_about, draw_from_help, draw_lines, draw_state_help,
    draw_to_help, explain_about, explain_lines, image_help, locks_help, run_about, run_lines,
    save_help, threads_about, threads_lines, transcript_help, why_help,
};
pub use mistakes::{
    address_wanted, ask_words_wanted, cluster_options_alone, count_option_alone,
    create_options_alone, draw_lines_in_order, engine_wanted, finish_options_alone, folder_wanted,
    leader_options_alone, log_name_wanted, move_words_wanted, node_wanted, other_address_wanted,
    password_file_wanted, shortest_start, spaces_option_alone, state_options_alone,
    sync_with_files, user_wanted, worker_wanted,
};
pub use program::{about, example, version};
pub use serve::{log_help, serve_about, serve_lines};
pub use state::{look_about, look_lines, move_about, move_lines};
