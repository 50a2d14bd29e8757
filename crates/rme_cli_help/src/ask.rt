//! The client.

pub fn ask_about<'a>() -> &'a str {
    "Asks a server: a look at it, a worker's job finished by hand, its spaces, or lines as they are"
}

pub fn ask_lines<'a>() -> &'a str {
    "\
What is asked:

  rme ask status                 each lock and each worker, of a server with a state
  rme ask owner LOCK             who owns the lock, or nobody
  rme ask cells LOCK             what its cells hold, with `unsettled` behind while it is owned
  rme ask ping                   whether the server answers
  rme ask top                    the locks, once a second, until it is interrupted
  rme ask finish WORKER          finishes the job of a worker whose client will not come back
  rme ask create NAME LOCK..     creates a space with these locks, of a server with spaces
  rme ask drop NAME              drops a space, with all that it holds
  rme ask spaces                 the names of all spaces, one a line
  rme ask <LINES                 sends each line, and prints each answer

The table of `status`, in which worker 0 died inside its lock:

  LOCK  OWNER  STATE  CELLS        SECTIONS
  bank  0      DEAD   5 unsettled  1

  WORKER  SESSION  STANCE  LOCK  JOB  BLOCKED BY  SINCE  AS
  0       none     held    bank  2    -           3m12s  -
  1       yes      climb   bank  1    0           12s    host7:cron

`held` in the place of DEAD says that a session has the owner. SINCE is how long the stance is as it is, and AS the
name that the client gave. --json prints the server's line as it came. Who waits for a lock whose owner is dead
waits until somebody finishes the owner's job:

  rme ask finish 0

It attaches the worker, prints its pending job, waits for its lock if it has to, and prints the receipt: the
job counts once, whoever finishes it. See first that the worker's client is gone; one that is connected keeps its
worker (18 Taken) unless --take ends its session. --withdraw gives up a job that waits, so that its worker holds
nothing any more; one that is inside its lock is finished all the same. After --wait it lets the worker go, and
the job is still pending. Without a pending job it says so, with the last receipt.

A server without a state has no look-ups: it refuses status, owner, cells and top. One with spaces takes these, and
finish, in a space alone, which --space names, and else refuses them (23 NoSpace):

  rme ask create team-7 bank --workers 20
  rme ask --space team-7 status

Of several servers over one log in a cluster one leads, and the others refuse connections or answer nothing. With the
addresses of all they are tried in turn, each for its share of 10 seconds, and the first that answers is asked:

  rme ask --port 7001,7002 status

If none answers, the standard error says why of each. Where `top` loses its server it goes on with the next that
answers.

With --space all is asked in that space, lines too. The name of a space has 1 to 64 of a-z 0-9 _ -. One that is there
with the same workers, cells and locks is created again without a change; with others it is refused (24
SpaceDiffers). One that a session uses, or in which a job is pending, is not dropped (9 Busy). A key creates and drops
only where its SPACES begin with + (25 NotAllowed).

Status: 0; 1 where the server refused, which is explained on the standard error, ended the session or answered
what is no answer, and where a job still waits after --wait; 2 for words that are refused; 3 where the
standard input or the file of --key-file can't be read, 4 where writing failed, 5 where memory ran out, 6 where
no server is there. Of lines the answers say what was refused, and the status is 0 at the end of the input."
}
