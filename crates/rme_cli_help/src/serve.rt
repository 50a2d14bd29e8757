//! The servers.

pub fn log_help<'a>() -> &'a str {
    "Writes a line to the standard error for what happens to each worker, and for each checkpoint"
}

pub fn serve_about<'a>() -> &'a str {
    "Serves a lock service to clients over TCP on 127.0.0.1 or a Unix socket, a session for each connection"
}

pub fn serve_lines<'a>() -> &'a str {
    "\
The shortest start, of a server that keeps its state in FILE, with 8 workers, a lock `bank` of 1 cell, and the
port 7000:

  rme serve --state FILE bank

It prints `listening PORT` as soon as clients can connect, and `listening PATH` where there is a socket. With
--connections it takes no more over both, and when all of these have ended it logs `served n` to the standard
error, closes the service, and prints a line for each lock: `lock NAME cells V V .. entries E`, with what its
cells hold and how many jobs they have seen.

A connection for which there is no room (--at-once) is answered {\"code\":9,\"error\":\"Busy\"} and closed. One that
can't be accepted or have a thread is told of on the standard error, and the server goes on.

Each line of a client is one JSON object, which is obeyed and answered by one line:

  {\"do\":\"attach\",\"worker\":W}     takes a worker that no other session has, and recovers it:
                                 {\"number\":N,\"ok\":\"attach\",\"stance\":\"ready\"} with its last number, or the
                                 stance climb or held with that of the job that it is in. With \"take\":true
                                 also from a session that has it, which is ended. With \"after\":L only
                                 where the worker was not restarted since life L, else refused, 26.
                                 With \"as\":TEXT, of at most 64 bytes, a state's `status` shows TEXT
  {\"do\":\"submit\",\"number\":N,\"lock\":NAME,\"script\":[OP,..]}
                                 makes the job of the number after the last: {\"ok\":\"submit\",\"receipt\":{..}};
                                 {\"ok\":\"submit\",\"waiting\":true} where the lock was not had in 1000 tries, or
                                 in \"tries\":N, 1 to 1000000, or in \"wait\":MS, milliseconds, 0 to 3600000;
                                 {\"fell\":true,\"ok\":\"submit\"} at a planned crash.
                                 The same line again goes on with the job, or answers its receipt, or
                                 {\"ok\":\"submit\",\"withdrawn\":true}: a job counts once. The operations are
                                 those of `rme run --help`
  {\"do\":\"enter\",..}              as submit, and stops inside the lock, for work of one's own:
                                 {\"life\":L,\"number\":N,\"ok\":\"enter\",\"section\":K,\"stance\":\"held\"};
                                 nobody else enters before. K is the place that the receipt will have, and L
                                 how often the worker was restarted: each attach does it
  {\"do\":\"commit\"}                makes the section and leaves: {\"ok\":\"commit\",\"receipt\":{..}}
  {\"do\":\"resume\"}                goes on with the job that the worker is in, answered as submit is, with
                                 \"ok\":\"resume\"; it takes \"tries\" and \"wait\" too
  {\"do\":\"withdraw\"}              gives up a job that waits: {\"number\":N,\"ok\":\"withdraw\"}, or with
                                 \"fell\":true in the number's place at a planned crash
  {\"do\":\"last\"}                  the receipt of the last job, or null: {\"last\":{..},\"ok\":\"last\"}
  {\"do\":\"crash_after\",\"steps\":N} plans a crash after N further own steps, at most 1000000:
                                 {\"ok\":\"crash_after\"}
  {\"do\":\"detach\"}                lets the worker go: {\"ok\":\"detach\"}
  {\"do\":\"ping\"}                  changes nothing: {\"ok\":\"ping\"}

A line that is refused is answered {\"code\":N,\"error\":NAME} and changes nothing. --why says on the standard
error what is wrong with one that is no order; where that is a pipe that nobody reads, it is left out. A
worker that a session lets go, or whose session ends, falls; whoever attaches it next goes on where it was.

--log says on the standard error who had which worker, and when, in UTC; it too is left out where nobody reads:

  rme: 2026-11-29T05:07:18.250Z connection 12 attached worker 3
  rme: 2026-11-29T05:07:19.013Z connection 13 takes over worker 3
  rme: 2026-11-29T05:07:19.014Z connection 12 ended, worker 3 is free
  rme: 2026-11-29T05:07:19.020Z connection 13 attached worker 3
  rme: 2026-11-29T05:07:21.500Z connection 13 let worker 3 go

and with --state `withdrew the job of worker 3` and `checkpoint, epoch 4`. Connections count from 1; the lines of
one worker stand in their order.

With --keys FILE a session begins with {\"do\":\"hello\",\"secret\":TEXT}, answered {\"name\":NAME,\"ok\":\"hello\"}.
Before it every other line is refused, 25; a wrong secret is refused after a second, and ends the session. Each
line of FILE is NAME SHA256 WORKERS [SPACES], and # begins a comment: a name, the SHA-256 of the secret in
hexadecimal, and the workers that may be attached, as 0-3,7, or * for all, or - for none, which leaves
look-ups. To attach another one is refused, 25; \"any\" asks for a key to all workers. FILE is read again
when it has changed and a session begins; one with an error leaves the keys as they were. A FILE that other
users can read or write is refused, status 2. scripts/new-key makes a secret and its line.

The file of a --socket is made with mode 0600. One that no server listens on is replaced; one that is listened on,
and whatever else is there, is refused. It is removed at the end, but not after a signal.

A server and a client, for bash:

  rme serve --workers 2 --cells 1 --jobs 10 --port 0 --connections 1 bank | {
    read -r _ port
    exec 3<>/dev/tcp/127.0.0.1/$port
    echo '{\"do\":\"attach\",\"worker\":0}' >&3
    echo '{\"do\":\"submit\",\"number\":1,\"lock\":\"bank\",\"script\":[[\"add\",0,5]]}' >&3
    head -n 2 <&3
    exec 3>&-
    cat
  }

  {\"number\":0,\"ok\":\"attach\",\"stance\":\"ready\"}
  {\"ok\":\"submit\",\"receipt\":{\"lock\":\"bank\",\"number\":1,\"place\":0,\"reply\":5,\"worker\":0}}
  lock bank cells 5 entries 1

A client that is stuck or silent keeps its own worker alone, with what this one holds of a lock; the server
goes on for all others. --idle ends a session that is silent for so long, and one whose client takes no answer
for 10 seconds is ended always. SIGTERM ends the server at once, with no closing lines, and all that the
service held is gone.

With --state FILE it keeps what it did in FILE before it answers, and goes on from there when it is started
again with the same words, however it ended. What is no longer so:

  - it serves until it is killed, or ends with status 4 where it can't keep what it did; there are no closing
    lines and no --connections
  - sizes and LOCKs may be left out: they are those of FILE, or 8 workers, 1 cell and 10000 jobs
  - further lines, in any stance: {\"do\":\"owner\",\"lock\":NAME} and {\"do\":\"cells\",\"lock\":NAME}, as for
    `rme run`, and {\"do\":\"status\"}, all of it at once; `rme look FILE` prints the same of a file
  - --sync always: what is answered survives the machine too; without it it survives the process
  - --waiting withdraw: a job that waits when its session ends is withdrawn, and so is each that waits at a
    start; without it such a job keeps its place, and may keep others out until its worker is attached again
  - FILE is renewed when a worker has made its --jobs, and after --sections finished jobs of all: a new file
    with what they came to takes its place. Clients see no difference: numbers and places go on, up to
    9007199254740992 (2^53)

FILE is a first line and then lines of `rme run`: `tail -n +2 FILE | rme run` shows its state. A last piece
without its newline is cut off at the start. A line that is none or is refused ends the start with `fault: bad
state` and its number, and leaves FILE as it was. So does each start that is refused. A server whose FILE is
removed, renamed or replaced ends with status 4 within a second or two.

With --state etcd:NAME it keeps what it did in a log of an etcd cluster, so that the state outlives the machine. NAME
has 1 to 64 of a-z 0-9 _ -. Servers on several machines are started with the same words, but for --name, which says
where clients reach each:

  rme serve --state etcd:bank --engine 10.0.0.1:2379,10.0.0.2:2379,10.0.0.3:2379 --name db1:7000 bank

One of them leads: it listens, and prints `listening PORT`. Each other prints `standby behind ADDRESS`, the --name of
the leader, and takes over when that was quiet for --quiet seconds, or at once with --take. Clients have the addresses
of all, and go on to the next.

  - each answer waits until most nodes have what was done; --sync is refused
  - a leader that another one took over from answers nothing more, and ends with status 4
  - where no node answers, orders wait; after --patience the server ends, with status 4
  - `rme look etcd:NAME` prints the state and who leads; `rme move` makes the log of a FILE, and a FILE of the log
  - the log is in the keys that begin with rme/NAME/. --user and --password-file are for a cluster that asks who it
    is. Connections to it are not encrypted: a tunnel on this machine can do that, of which --engine is the address

With --spaces DIR it serves spaces, as many as there are users. Each is a state of its own in DIR/NAME.state, a FILE
as above, with workers and locks of its own. NAME has 1 to 64 of a-z 0-9 _ -. A session begins in no space, and is
refused, 23, what needs one. Its further lines:

  {\"do\":\"create\",\"space\":NAME,\"locks\":[NAME,..]}
                                 creates a space, with \"workers\":N (8 without it) and \"cells\":N (1):
                                 {\"ok\":\"create\"}, also where it is there just so; 24 where it differs
  {\"do\":\"use\",\"space\":NAME}    works in a space: {\"ok\":\"use\"}; from then on all is as with --state. 9 where
                                 the session has a worker, 23 where there is no such space
  {\"do\":\"spaces\"}               the names, at most 1000, with \"after\":NAME those behind it:
                                 {\"more\":false,\"ok\":\"spaces\",\"spaces\":[NAME,..]}
  {\"do\":\"drop\",\"space\":NAME}   removes a space, with all that it holds: {\"ok\":\"drop\"}; 9 where a
                                 session uses it, or a job is pending in it

A space is opened when it is first used, and closed after --close-after seconds without a session. --sync, --waiting
and --sections hold for each. Where the file of one can't be written, its sessions end, and all others go on. One
whose file can't be read or is no state is refused, 23; the standard error says why.

With --keys, SPACES names the spaces of a key, with commas between, as team-7,shop-*, or * for all, which it has also
without the word. A + in front of the word lets the key create and drop them too. Other spaces are refused, 25.

Status: 0 after the closing lines, 1 with none of them where a worker was not given back, 2 for words that
are refused (also 0 or more than 256 workers, 16 locks, 16 cells or 1000000 jobs, and a name that is none
or stands twice; a socket that is listened on, and another file in its place; a FILE or DIR that another
server has, and a FILE that is no state, or that the words contradict), 3 where FILE or DIR can't be read, 4 where
writing failed, FILE included, 5 where memory ran out, 6 where it can't listen on the port or the socket, and where no
node of the cluster answers at its start. After the closing lines it is 5, 6 or 7 where a connection found no memory,
could not be accepted or had no thread."
}
