//! Laws of one log and many servers, each the contract of a function that does nothing.

ghost use Rattle.rme_laws.specs.Puts.{IsOneLog, IsOneRun, IsUnbroken};

/// Between two puts of a server, of which the second saw the head of the first, nobody put anything: what a server put
/// to the log is one unbroken part of it.
pub fn own_puts_follow_one_another()
    ensures { IsUnbroken }
{}

/// A server that knows a head knows all that was put before it: two servers that read one head read the same bytes.
pub fn own_head_tells_log()
    ensures { IsOneLog }
{}

/// Of any two moments of the log one continues the other: the answers of all servers are those of one run.
pub fn log_is_one_run()
    ensures { IsOneRun }
{}
