//! The tasks of the command line.

/// A task of the command line.
#[derive(Drop)]
pub enum CliTask {
    /// A command that only reads and writes lines, or an explanation.
    Lines(LineTask),
    /// Draw the transcript on the standard input.
    Draw(DrawTask),
    /// Supervise workers that add to one cell.
    Threads(ThreadsTask),
    /// Serve workers to the sessions of connections.
    Serve(ServeTask),
    /// Serve workers of a world that is logged to a file.
    ServeDurable(DurableServeTask),
    /// Serve workers of a world that is logged to an etcd cluster, or stand by for the server that does.
    ServeReplicated(ReplicatedServeTask),
    /// Serve the spaces of a folder, each of which is a state of its own.
    ServeSpaces(SpacesServeTask),
    /// Look at a file of a durable world, or at its log in a cluster.
    Look(LookTask),
    /// Move a state from a file to a log in a cluster, or back.
    Move(MoveTask),
    /// Ask a server.
    Ask(AskTask),
}

/// A command that only reads and writes lines, without threads and pictures.
#[derive(Drop)]
pub enum LineTask {
    /// Answer the lines of the standard input.
    Run(Diagnostics),
    /// Answer them over a loaded world, save the world that they leave, or both.
    Images(RunImages, Diagnostics),
    /// Execute the lines of the standard input, and write a transcript.
    Transcript(Diagnostics),
    /// Check the transcript on the standard input.
    Check,
    /// Explain these words; without words list all.
    Explain(Vec<String>),
}

/// The diagnostics of lines on the standard error.
#[derive(Clone, Copy, PartialEq, Eq)]
pub enum Diagnostics {
    Nothing,
    /// Why a line is answered `BadLine`.
    Why,
}

/// The log of a server on the standard error.
#[derive(Clone, Copy, PartialEq, Eq)]
pub enum ServerLog {
    Off,
    /// A line for each attachment, take-over and end of a session, each withdrawal by the server, and each checkpoint.
    On,
}

/// The images with which a run begins and ends.
#[derive(Drop)]
pub struct RunImages {
    /// The file of the world to load, if one was named.
    pub load: Option<String>,
    /// The words for the names of the loaded world's locks.
    pub locks: Vec<String>,
    /// The file to save the last world to, if one was named.
    pub save: Option<String>,
}

/// The request of `rme draw`. Lines are counted from 1.
#[derive(Clone, Copy)]
pub struct DrawTask {
    /// The first line to draw, if one was named.
    pub from: Option<u64>,
    /// The last line to draw, if one was named; it is not before the first.
    pub to: Option<u64>,
    /// Whether the transcript is that of a state's file, whose last worker is the checkpoint worker.
    pub is_of_state: bool,
}

/// The request of `rme threads`: this number of workers, with this number of jobs each, all with the same falls.
#[derive(Drop)]
pub struct ThreadsTask {
    pub workers: u32,
    pub jobs: u32,
    pub falls: Vec<u32>,
    pub is_quiet: bool,
}

/// The addresses of a server.
#[derive(Drop)]
pub enum ListenAddresses {
    /// This port; a free one for 0.
    Port(u16),
    /// The Unix socket of this path.
    Socket(String),
    Both(u16, String),
}

/// The request of `rme serve`: a service of these sizes with these locks, its addresses and its limits.
#[derive(Drop)]
pub struct ServeTask {
    pub workers: u32,
    pub cells: u32,
    pub jobs: u32,
    pub places: ListenAddresses,
    /// The HTTP port, if it has one; a free one for 0.
    pub http: Option<u16>,
    /// The number of connections, or until it is killed.
    pub connections: Option<u32>,
    /// The greatest number of sessions at a time.
    pub at_once: u32,
    /// The number of seconds of silence that end a session, if any.
    pub idle: Option<u32>,
    pub diagnostics: Diagnostics,
    pub log: ServerLog,
    /// The file of its keys, if its sessions need one.
    pub keys: Option<String>,
    /// The words for the names of its locks.
    pub locks: Vec<String>,
}

/// The sync policy: when logged lines are on the disk.
#[derive(Clone, Copy, PartialEq, Eq)]
pub enum SyncPolicy {
    /// Before each answer that depends on them.
    Always,
    /// When the system writes them: an answered event survives the process, but not the machine.
    Never,
}

/// What becomes of a job that waits for its lock when its session ends.
#[derive(Clone, Copy, PartialEq, Eq)]
pub enum WaitingPolicy {
    /// It keeps its place.
    Keep,
    /// It is withdrawn.
    Withdraw,
}

/// A log in an etcd cluster.
#[derive(Drop)]
pub struct EtcdPlace {
    /// The name of the log: NAME of `etcd:NAME`.
    pub name: String,
    /// The nodes of the cluster, each as HOST:PORT, as they were given; at least one.
    pub engines: Vec<String>,
    /// The user of the cluster, if it asks for one.
    pub login: Option<EtcdLogin>,
    /// The number of seconds that a call may wait for the cluster, at least 1.
    pub patience: u32,
}

/// A user of an etcd cluster.
#[derive(Drop)]
pub struct EtcdLogin {
    pub user: String,
    /// The file whose first line is the password.
    pub password_file: String,
}

/// How a server takes the lead of a log that another one may have.
#[derive(Drop)]
pub struct LeaderSetting {
    /// Where clients reach it, which it tells others.
    pub address: String,
    /// The number of seconds for which the leader must be quiet before this server takes over, at least 1.
    pub quiet: u32,
    /// Whether it takes over at once.
    pub takes: bool,
}

/// The request of `rme serve --state etcd:NAME`.
#[derive(Drop)]
pub struct ReplicatedServeTask {
    /// The service; its `state` is the text `etcd:NAME`.
    pub serve: DurableServeTask,
    pub log: EtcdPlace,
    pub leader: LeaderSetting,
}

/// The request of `rme serve --state`. A size that is not given is that of the state, or the default.
#[derive(Drop)]
pub struct DurableServeTask {
    /// The file of the state.
    pub state: String,
    pub workers: Option<u32>,
    pub cells: Option<u32>,
    pub jobs: Option<u32>,
    /// The number of finished jobs after which the state's file is replaced by a checkpoint.
    pub sections: u32,
    pub places: ListenAddresses,
    /// The HTTP port, if it has one; a free one for 0.
    pub http: Option<u16>,
    /// The greatest number of sessions at a time.
    pub at_once: u32,
    /// The number of seconds of silence that end a session, if any.
    pub idle: Option<u32>,
    pub sync: SyncPolicy,
    pub waiting: WaitingPolicy,
    pub diagnostics: Diagnostics,
    pub log: ServerLog,
    /// The file of its keys, if its sessions need one.
    pub keys: Option<String>,
    /// The words for the names of its locks; an empty list stands for the names in the state.
    pub locks: Vec<String>,
}

/// The request of `rme serve --spaces`. Its policies and `sections` hold for each space.
#[derive(Drop)]
pub struct SpacesServeTask {
    /// The folder with the files of the spaces.
    pub folder: String,
    /// The number of seconds without a session after which a space is closed, at least 1.
    pub close_after: u32,
    pub places: ListenAddresses,
    /// The HTTP port, if it has one; a free one for 0.
    pub http: Option<u16>,
    /// The greatest number of sessions at a time, over all spaces.
    pub at_once: u32,
    /// The number of seconds of silence that end a session, if any.
    pub idle: Option<u32>,
    pub sync: SyncPolicy,
    pub waiting: WaitingPolicy,
    /// The number of finished jobs after which a space's file is replaced by a checkpoint.
    pub sections: u32,
    /// The file of its keys, if its sessions need one.
    pub keys: Option<String>,
    pub log: ServerLog,
    pub diagnostics: Diagnostics,
}

/// The request of `rme look`.
#[derive(Drop)]
pub struct LookTask {
    /// The file of the state, or the text `etcd:NAME`.
    pub state: String,
    /// The log in a cluster, if `state` names one.
    pub log: Option<EtcdPlace>,
    pub form: OutputFormat,
}

/// The request of `rme move`.
#[derive(Drop)]
pub struct MoveTask {
    pub direction: MoveDirection,
    /// The file of the state.
    pub file: String,
    pub log: EtcdPlace,
}

/// The direction of a move.
#[derive(Clone, Copy, PartialEq, Eq)]
pub enum MoveDirection {
    FileToLog,
    LogToFile,
}

/// The output of `rme look`.
#[derive(Clone, Copy, PartialEq, Eq)]
pub enum OutputFormat {
    /// Tables for people, without workers that are down and ready and hold nothing.
    Tables,
    /// The same with all workers.
    AllTables,
    /// The answer to the order `status`.
    Json,
    /// Whether all of it can be read.
    Check,
    /// The bytes of its state file.
    Lines,
}

/// The request of `rme ask`.
#[derive(Drop)]
pub struct AskTask {
    /// The addresses of the server, in the order in which they are tried; at least one.
    pub servers: Vec<ServerAddress>,
    /// The file with the secret of the client's key, if it has one.
    pub key_file: Option<String>,
    /// The space in which it asks, if one was named.
    pub space: Option<String>,
    pub request: AskRequest,
    pub form: AnswerForm,
}

/// The address of a server, on this machine.
#[derive(Drop)]
pub enum ServerAddress {
    Port(u16),
    /// The Unix socket of this path.
    Socket(String),
}

/// The form of the answers that are printed.
#[derive(Clone, Copy, PartialEq, Eq)]
pub enum AnswerForm {
    /// Tables and sentences for people.
    Text,
    /// The server's lines.
    Json,
}

/// What a server is asked.
#[derive(Drop)]
pub enum AskRequest {
    /// Each line of the standard input, in order.
    Lines,
    Status,
    /// The owner of the lock of this name.
    Owner(String),
    /// The cells of the lock of this name.
    Cells(String),
    Ping,
    Finish(FinishTask),
    /// The locks, once a second: this number of times, or until it is interrupted.
    Top(Option<u32>),
    /// Create a space.
    CreateSpace(CreateTask),
    /// Drop the space of this name, and all that it holds.
    DropSpace(String),
    /// The names of all spaces.
    Spaces,
}

/// The request to create a space. A size that is not given is the server's default.
#[derive(Drop)]
pub struct CreateTask {
    /// The word for its name.
    pub space: String,
    /// The words for the names of its locks, at least one.
    pub locks: Vec<String>,
    pub workers: Option<u32>,
    /// The number of cells of each lock.
    pub cells: Option<u32>,
}

/// The request to finish the pending job of a worker.
#[derive(Clone, Copy)]
pub struct FinishTask {
    pub worker: u32,
    /// Whether the worker is also taken from a session that has it.
    pub takes_over: bool,
    /// The number of seconds to wait for the lock; `None` waits without a limit.
    pub seconds: Option<u32>,
    /// Whether a job that waits for its lock is withdrawn.
    pub withdraws: bool,
}
