//! What is wrong with the words of a command.

pub fn draw_lines_in_order<'a>() -> &'a str {
    "the LINE of --from comes after that of --to"
}

/// The text for a `serve` whose required arguments are missing.
pub fn shortest_start<'a>() -> &'a str {
    "the shortest start is `rme serve --state FILE bank`; without --state or --spaces a server needs --workers, --cells, --jobs, --port or --socket, and the names of its locks"
}

pub fn spaces_option_alone<'a>() -> &'a str {
    "--close-after is an option of --spaces"
}

pub fn state_options_alone<'a>() -> &'a str {
    "--sync, --waiting and --sections are options of --state and --spaces"
}

pub fn log_name_wanted<'a>() -> &'a str {
    "the name of a log, behind etcd:, has 1 to 64 of a-z 0-9 _ -"
}

pub fn engine_wanted<'a>() -> &'a str {
    "etcd:NAME needs --engine HOST:PORT, the nodes of the cluster, with commas between"
}

pub fn node_wanted<'a>() -> &'a str {
    "--engine takes HOST:PORT of each node, with commas between, as 10.0.0.1:2379,10.0.0.2:2379"
}

pub fn password_file_wanted<'a>() -> &'a str {
    "--user needs --password-file FILE, whose first line is that user's password"
}

pub fn user_wanted<'a>() -> &'a str {
    "--password-file needs --user NAME, the user of the cluster whose password it has"
}

pub fn address_wanted<'a>() -> &'a str {
    "--state etcd:NAME needs --name ADDRESS: where clients reach this server, as db1:7000"
}

pub fn other_address_wanted<'a>() -> &'a str {
    "the ADDRESS of --name has 1 to 255 printable characters of ASCII, and no spaces"
}

pub fn folder_wanted<'a>() -> &'a str {
    "--spaces takes a folder: spaces are not kept in a cluster"
}

pub fn sync_with_files<'a>() -> &'a str {
    "--sync is an option of files: with etcd:NAME each answer waits until the cluster has it"
}

pub fn leader_options_alone<'a>() -> &'a str {
    "--engine, --patience, --user, --password-file, --name, --quiet and --take are options of --state etcd:NAME"
}

pub fn cluster_options_alone<'a>() -> &'a str {
    "--engine, --patience, --user and --password-file are options of etcd:NAME"
}

pub fn move_words_wanted<'a>() -> &'a str {
    "of FROM and TO one is a FILE, and the other is etcd:NAME"
}

pub fn ask_words_wanted<'a>() -> &'a str {
    "what is asked is status, ping, top, spaces, owner LOCK, cells LOCK, finish WORKER, create NAME LOCK.. or drop NAME"
}

pub fn worker_wanted<'a>() -> &'a str {
    "finish takes the number of a worker, from 0"
}

pub fn finish_options_alone<'a>() -> &'a str {
    "--take, --wait and --withdraw are options of finish"
}

pub fn count_option_alone<'a>() -> &'a str {
    "--count is an option of top"
}

pub fn create_options_alone<'a>() -> &'a str {
    "--workers and --cells are options of create"
}
