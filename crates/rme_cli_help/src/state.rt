//! The commands that show and move a state.

pub fn look_about<'a>() -> &'a str {
    "Looks at the file of a state, at its log in a cluster, or at words that processes map"
}

pub fn look_lines<'a>() -> &'a str {
    "\
It reads the file as a server would that starts from it, and changes nothing. It prints tables, as

  epoch 0

  LOCK  OWNER  CELLS  SETTLED  SECTIONS
  bank  0      5,7    no       2

  WORKER  SESSION   STANCE  LOCK  NUMBER  BLOCKED BY
  0       down      held    bank  3       -
  1       attached  climb   bank  1       0

  worker 0 is down inside lock bank, and keeps 1 waiting: rme ask finish 0

with the owner, or nobody; what the cells hold, which is not settled while the lock is owned; whether a session
has the worker; what the worker is at, with its last number; and the worker that it waits for. A worker that is
down, is ready and holds nothing is left out without --all. A line at the end for each worker that is down and
holds something says whom it keeps waiting, and how to go on. --json prints it all as the answer to the order
`status`. An end that was never known to be with the disk, which a server cuts off, is left out.

Whether a server has the file makes no difference. --lines prints the bytes of the state's file, without such an end:
a copy that a server can start from, also while another one has the file.

--check prints yes; or `yes, up to line L: N bytes behind it were never known to be with the disk`; or `no L` for
the first line that a server would not accept, or at which a write ends that was with the disk and has changed.

Of etcd:NAME it prints the same, of the log of that name in the cluster of --engine, and before the tables who leads:

  leader db1:7000 term 7 seq 41 changed 0.4 s ago

with the --name of the server that claimed the log last, how many claims there were, how many records the log's epoch
has, and how long ago, at most, that server changed something, which it does each second. It is `quiet` where nothing
changed in 1.5 seconds: no server leads, or it does not reach the cluster. --lines makes a copy of the log:

  rme look etcd:bank --engine 10.0.0.1:2379 --lines >bank.state

Of a file that `rme_create` made for processes it prints the same tables, with the process of each worker in
place of the session (`living` where another user has it, `dead` for a worker with a job and no process), and
first `moved` or `old boot` where nobody may go on with it. --check prints yes, or `no: ` and why the words are
those of no world: of words alone, since the file has no history. Where processes step meanwhile, they are of no
one moment.

Status: 0, 1 after no, 2 for words that are refused, for a file that nobody would accept, and where there is no such
log or the cluster refuses the user, 3 where reading failed, 4 where writing failed, 5 where memory ran out, 6 where no
node of the cluster answers."
}

pub fn move_about<'a>() -> &'a str {
    "Moves a state from a file to a log in an etcd cluster, or back, while no server has it"
}

pub fn move_lines<'a>() -> &'a str {
    "\
A server with a file that becomes one of several servers over a log in a cluster:

  systemctl stop rme
  rme move bank.state etcd:bank --engine 10.0.0.1:2379,10.0.0.2:2379,10.0.0.3:2379
  rme serve --state etcd:bank --engine 10.0.0.1:2379,10.0.0.2:2379,10.0.0.3:2379 --name db1:7000

The move says what it did:

  moved bank.state to etcd:bank: epoch 3, 5120 bytes

It is all of the state: cells, receipts, and what each worker is at. Clients go on with their numbers. The way back, when
all servers of the log have ended, those that stand by too:

  rme move etcd:bank bank.state --engine 10.0.0.1:2379,10.0.0.2:2379,10.0.0.3:2379

FROM stays as it is. Put it away: where servers go on from both, there are two states, and each counts its own jobs.

A FILE that a server has is refused, and so is one that is no state, a log that has changed within 3 seconds, since a
server leads it, and a TO that is there already, which stays as it is.

A log has the state at one moment, and before it nothing that a server starts from; a FILE has its name once the disk has
all of it. A move to a log that was interrupted is finished by the same move again; where that is refused, since the log
is there, it was made all the same, and `rme look` shows it.

Status: 0 after the move, 2 for words and states that are refused, and where there is no such log or the cluster refuses
the user, 3 where reading failed, 4 where writing failed or the cluster has no room, 5 where memory ran out, 6 where no
node of the cluster answers."
}
