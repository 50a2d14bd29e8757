//! The commands that answer, check, draw and explain lines, and the command that runs threads.

pub fn run_about<'a>() -> &'a str {
    "Answers each line of the standard input by one line of the standard output"
}

pub fn transcript_help<'a>() -> &'a str {
    "Writes what happened in the place of answers: each event that the world took, for `rme check`"
}

pub fn why_help<'a>() -> &'a str {
    "Says on the standard error why a line is answered BadLine"
}

pub fn image_help<'a>() -> &'a str {
    "Begins with the world that was saved in this file; with nothing, where the file is not there"
}

pub fn locks_help<'a>() -> &'a str {
    "Names the locks of that world, in order and with commas between: an image has no names"
}

pub fn save_help<'a>() -> &'a str {
    "Saves the world that is open at the end of the input in this file"
}

pub fn check_about<'a>() -> &'a str {
    "Checks a transcript on the standard input: whether the abstract machine has each of its steps"
}

pub fn check_lines<'a>() -> &'a str {
    "\
A transcript is what `rme run --transcript` writes, or another program in its form: a first line that
opens a world, and then one line for each event, as

  {\"do\":\"submit\",\"lock\":NAME,\"number\":N,\"script\":[OP,..],\"worker\":W}
  {\"do\":\"crash\",\"worker\":W}      or \"restart\", or \"withdraw\"
  {\"do\":\"note\",\"note\":NOTE,\"worker\":W}
                                 a step of a worker, with its note: [\"asked\",k] [\"blocked\"]
                                 [\"entered\",NAME] [\"reentered\",NAME] [\"left\",NAME] [\"ready\"]
                                 [\"withdrew\",k] [\"finished\",NAME,number,place,reply] [\"quiet\"]

It prints one line: yes, where the abstract machine has all these steps in turn; no LINE for the first
line whose step it does not have there; bad LINE for the first line that is no event line, or for the
first of all where it opens no world.

Status: 0 after yes, 1 after no and bad, 2 for words that are refused, 3 where reading failed, 4 where
writing failed, 5 where memory ran out."
}

pub fn draw_about<'a>() -> &'a str {
    "Draws a transcript on the standard input: a picture in SVG on the standard output"
}

pub fn draw_lines<'a>() -> &'a str {
    "\
The picture has a row for each worker, with its phases, and a row for each lock, with its owner, its finished
sections and what its cells held after them; there is a column for each line of the transcript. It opens in
any browser. A worker that crashes in its section, and what becomes of the lock:

  rme run --transcript >run.jsonl <<'END'
  {\"do\":\"open\",\"workers\":2,\"locks\":[\"bank\"],\"cells\":1,\"jobs\":10}
  {\"do\":\"submit\",\"worker\":0,\"lock\":\"bank\",\"script\":[[\"add\",0,5]]}
  {\"do\":\"walk\",\"worker\":0,\"until\":\"entered\"}
  {\"do\":\"crash\",\"worker\":0}
  {\"do\":\"restart\",\"worker\":0}
  {\"do\":\"walk\",\"worker\":0}
  END
  rme draw <run.jsonl >run.svg

A transcript is checked as `rme check` does it, and drawn only where that says yes to all of it. Else there is no
picture, and its verdict, no LINE or bad LINE, stands on the standard error.

Lines count from 1. Without --from and --to the last 2000 lines are drawn at most; the standard error says which
lines where that is not all. With one of them, or both, just these lines are drawn, however many. The picture
begins with the world as the lines before leave it: what a worker is at, and who owns a lock, goes on from the left
edge. A transcript that does not have all these lines is refused:

  rme draw --from 5 <run.jsonl >end.svg

The transcript of a state's FILE has one worker more than clients have, the checkpoint worker:

  tail -n +2 FILE | rme run --transcript | rme draw --state >state.svg

Status: 0 after a picture, 1 after no and bad, 2 for words that are refused, also LINEs that are not there, 3 where
reading failed, 4 where writing failed, 5 where memory ran out."
}

pub fn draw_from_help<'a>() -> &'a str {
    "The first line of the transcript that is drawn, from 1; without it the first, or one of the last"
}

pub fn draw_to_help<'a>() -> &'a str {
    "The last line of the transcript that is drawn; without it the last"
}

pub fn draw_state_help<'a>() -> &'a str {
    "Labels the last worker as the checkpoint worker: the transcript is that of a state"
}

pub fn explain_about<'a>() -> &'a str {
    "Explains a refusal or a status of the program, by its number or its name"
}

pub fn explain_lines<'a>() -> &'a str {
    "\
A refused line is answered {\"code\":N,\"error\":NAME}; a program that ends has a status, 0 to 7. Where a refusal
and a status have the same number or name, both are explained; `rme explain status 1` is about the status
alone. Several are explained in turn:

  rme explain TooManyJobs

  14 TooManyJobs: the worker has begun all its jobs
    The world was opened with so many jobs for each worker, and a withdrawn one counts too. Use another worker, or open the next world with more `jobs`.

Status: 0 after an explanation, 2 where no refusal and no status has the number or the name, 4 where writing
failed, 5 where memory ran out."
}

pub fn run_lines<'a>() -> &'a str {
    "\
Each line is one JSON object; its keys may come in any order. A world must be open or loaded first.

  {\"do\":\"open\",\"workers\":N,\"locks\":[NAME,..],\"cells\":N,\"jobs\":N}
                                 opens a world: 1 to 256 workers, 1 to 16 locks of 1 to 16 cells each, at
                                 most 1000000 jobs for each worker; a name has 1 to 32 of a-z 0-9 _ -
  {\"do\":\"submit\",\"worker\":W,\"lock\":NAME,\"script\":[OP,..]}
                                 hands a ready worker a job: at most 8 operations on that lock's cells,
                                 [\"get\",c] [\"set\",c,v] [\"add\",c,v] [\"copy\",a,b] [\"swap\",a,b]
  {\"do\":\"step\",\"worker\":W}       one step of a worker: one operation on one shared word
  {\"do\":\"walk\",\"worker\":W}       steps until the worker is ready or blocked; \"until\":KIND ends it at a
                                 note of that kind (asked entered reentered finished left ready
                                 withdrew), \"max\":N after 1 to 10000 steps
  {\"do\":\"crash\",\"worker\":W}      the worker loses all that it alone knows
  {\"do\":\"restart\",\"worker\":W}    the worker begins to recover
  {\"do\":\"withdraw\",\"worker\":W}   a waiting worker gives up its job
  {\"do\":\"owner\",\"lock\":NAME}     who owns the lock
  {\"do\":\"cells\",\"lock\":NAME}     what its cells hold, and whether no section is half done
  {\"do\":\"last\",\"worker\":W}       the receipt of the worker's last job
  {\"do\":\"history\"}               all finished jobs, in order
  {\"do\":\"report\"}                the most steps of one stay in each phase, over all workers
  {\"do\":\"save\"}                  the image of the world, in hexadecimal
  {\"do\":\"load\",\"image\":HEX,\"locks\":[NAME,..]}
                                 goes on with the world of an image, in the place of one that is open; its
                                 locks have the given names, and all its workers are down

A line that is refused is answered {\"code\":N,\"error\":NAME} and changes nothing. --why says on the standard
error what is wrong with one that is no command: {\"code\":1,\"error\":\"BadLine\"}.

A run that begins with the world that the last one left, and leaves its own:

  rme run --image bank.rme --locks bank --save bank.rme

A world is saved at the end of the input alone: a run that ends early leaves bank.rme as it was, and so does
one that ends with no world open. A new file beside it is written first, and then put in the place of
bank.rme, with its mode.

Status: 0 at the end of the input, 2 for words that are refused, for an image that is broken, for --locks that
don't fit it and where nothing can be saved in the file, 3 where reading failed, 4 where writing failed, 5
where memory ran out."
}

pub fn threads_about<'a>() -> &'a str {
    "Supervises workers in threads, which fall and go on, and prints what their lock then holds"
}

pub fn threads_lines<'a>() -> &'a str {
    "\
Each worker makes JOBS jobs, one after another, on one lock with one cell; a job adds 1 to it. Where a
worker falls its thread ends there and all that it knew is lost, and its next life goes on. Each job
counts once all the same:

  rme threads 8 100 7 19 40

  workers 8
  jobs 100
  all done 8
  cell 800
  entries 800

Status: 0 where all workers were done, 1 where one was not, 2 for words that are refused (falls that do
not rise, or more than 256 workers or 1000000 jobs), 4 where writing failed, 5 where memory ran out."
}
