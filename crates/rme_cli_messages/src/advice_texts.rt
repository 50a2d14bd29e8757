//! The meaning of the refusals, in two or three sentences each.
//!
//! The texts are functions, not constants: the value of a constant is known wherever it is used, and a long text is
//! slow to check there.

ghost use Rattle.std.specs.Prelude.{◌≡◌, ℕ};
ghost use Rattle.rme_words.specs.declared.refusal.Refusal.TheVariants.{BadLine, LineTooLong, NotOpen, AlreadyOpen, BadShape, NoWorker, Down, Up, Busy, Idle, NoLock, BadScript, NoCell, TooManyJobs, BadImage, WrongNumber, Differs, Taken, NotAttached, NoMemory, NotWaiting, NotInside, NoSpace, SpaceDiffers, NotAllowed, Overtaken};
ghost use Rattle.rme_cli_messages.specs.Explanations.{refusal_advice};

pub fn bad_line() -> &'static str
    ensures { result.now ≡ refusal_advice BadLine }
{
    "\
The line is not one JSON object with the keys of a command and no others, or a value has the wrong type or \
is too large. Nothing was done. With `--why` rme says what is wrong with it. Compare it with the forms of \
`rme run --help`, or of `rme serve --help` in a session, and mend the program that wrote it."
}

pub fn line_too_long() -> &'static str
    ensures { result.now ≡ refusal_advice LineTooLong }
{
    "\
The line was read to its newline and thrown away; the next one is read as usual. Send shorter lines. An \
image that fits no line is loaded with `rme run --image`."
}

pub fn not_open() -> &'static str
    ensures { result.now ≡ refusal_advice NotOpen }
{
    "\
There is no world yet to obey the line. Send `open` first, or `load` with the image of a saved world."
}

pub fn already_open() -> &'static str
    ensures { result.now ≡ refusal_advice AlreadyOpen }
{
    "\
A run has one world, and it stays open to the end of the input. Go on with it; to begin anew start another \
run, or `load` an image in its place."
}

pub fn bad_shape() -> &'static str
    ensures { result.now ≡ refusal_advice BadShape }
{
    "\
The limits are 1 to 256 workers, 1 to 16 locks, 1 to 16 cells and 1 to 1000000 jobs; a name has 1 to 32 of \
a-z 0-9 _ and -, and stands once. For `load` give one name for each lock of the image. What was open stays \
open."
}

pub fn no_worker() -> &'static str
    ensures { result.now ≡ refusal_advice NoWorker }
{
    "\
Workers are numbered from 0, so the last is one less than their number. Mend the number in the line."
}

pub fn down() -> &'static str
    ensures { result.now ≡ refusal_advice Down }
{
    "\
The worker crashed and has not come up, so it can't do this. Send `restart` for it, then let it recover by \
`walk`."
}

pub fn up() -> &'static str
    ensures { result.now ≡ refusal_advice Up }
{
    "\
Only a worker that is down can be restarted, and this one runs. Nothing is lost: go on with it."
}

pub fn busy() -> &'static str
    ensures { result.now ≡ refusal_advice Busy }
{
    "\
The worker has a job still, or is on its way out of its lock. Let it go on by `walk` until it is ready, then \
submit again. A session that has a worker sends `detach` or `resume` first."
}

pub fn idle() -> &'static str
    ensures { result.now ≡ refusal_advice Idle }
{
    "\
The worker is ready and has nothing to do. Hand it a job by `submit`. In a session it means that the job is \
done: its number, sent again, answers the receipt."
}

pub fn no_lock() -> &'static str
    ensures { result.now ≡ refusal_advice NoLock }
{
    "\
The locks are those that `open`, `load` or `rme serve` named. Mend the name. A number that was sent with it \
was not used."
}

pub fn bad_script() -> &'static str
    ensures { result.now ≡ refusal_advice BadScript }
{
    "\
A script has at most 8 operations. Split the job in two, where it need not be done in one section. The \
number was not used."
}

pub fn no_cell() -> &'static str
    ensures { result.now ≡ refusal_advice NoCell }
{
    "\
Cells are numbered from 0, and each lock has as many as `cells` says. Mend the operation. The number was not \
used."
}

pub fn too_many_jobs() -> &'static str
    ensures { result.now ≡ refusal_advice TooManyJobs }
{
    "\
The world was opened with so many jobs for each worker, and a withdrawn one counts too. Use another worker, \
or open the next world with more `jobs`."
}

pub fn bad_image() -> &'static str
    ensures { result.now ≡ refusal_advice BadImage }
{
    "\
The bytes were cut, changed or never the image of a world, and no part of them was taken. Load the image as \
`save` wrote it, in lower-case hexadecimal. What was open stays open."
}

pub fn wrong_number() -> &'static str
    ensures { (expected : ℕ) → result.now ≡ refusal_advice (WrongNumber expected) }
{
    "\
A session's jobs are numbered in turn; `expected` in the answer is the number that would be taken. Look \
first whether a receipt was missed, or whether another client used the worker: the job may have counted \
already. A worker has one job at a time: while one waits, or is inside its lock, a job on another lock is \
refused so too, and `expected` is the number of that one."
}

pub fn differs() -> &'static str
    ensures { result.now ≡ refusal_advice Differs }
{
    "\
Another job is pending under this number, so this one was not taken. Send `resume` to finish that one, and \
then this job under the next number. If nobody here began it, find out who else uses the worker."
}

pub fn taken() -> &'static str
    ensures { result.now ≡ refusal_advice Taken }
{
    "\
One session has a worker at a time. Attach another worker, or wait a little and try again: after a broken \
connection the old session may not have seen its end yet."
}

pub fn not_attached() -> &'static str
    ensures { result.now ≡ refusal_advice NotAttached }
{
    "\
The session has taken no worker, or it let it go or lost it by a planned crash. Send `attach` first."
}

pub fn no_memory() -> &'static str
    ensures { result.now ≡ refusal_advice NoMemory }
{
    "\
The line changed nothing, so it can be sent again when there is memory. If it comes again and again, give \
the program more memory or open a smaller world."
}

pub fn not_waiting() -> &'static str
    ensures { result.now ≡ refusal_advice NotWaiting }
{
    "\
Only a worker that waits for its lock can give its job up. One that is inside finishes by `walk`, or \
`resume` in a session; one that is ready or leaves has nothing to give up."
}

pub fn not_inside() -> &'static str
    ensures { result.now ≡ refusal_advice NotInside }
{
    "\
The worker's job waits for its lock. Send `enter` again until its answer says held, do what is to be done inside, \
and then commit; or let `resume` make the job whole."
}

pub fn no_space() -> &'static str
    ensures { result.now ≡ refusal_advice NoSpace }
{
    "\
A space is there from its `create` to its `drop`. Mend the name, or create the space first; `spaces` lists the names \
that are there."
}

pub fn space_differs() -> &'static str
    ensures { result.now ≡ refusal_advice SpaceDiffers }
{
    "\
Nothing was changed. Use the space with the workers, cells and locks that it has, or create one under another \
name."
}

pub fn not_allowed() -> &'static str
    ensures { result.now ≡ refusal_advice NotAllowed }
{
    "\
Nothing was done. Send `hello` with the secret of a key that may do this, or ask whoever runs the server for \
such a key."
}

pub fn overtaken() -> &'static str
    ensures { result.now ≡ refusal_advice Overtaken }
{
    "\
Another session had the worker meanwhile, and may have been inside its lock. Give up what was done since the \
connection broke, then attach without `after` and see what is pending."
}
