//! The program: what it is, its version and an example.

pub fn about<'a>() -> &'a str {
    "A recoverable mutual exclusion lock service, for workers that may be killed at any moment"
}

/// The program's version, and below it the version of the toolchain that proved it.
pub fn version<'a>() -> &'a str {
    "0.3.0\nrattle-kit-13f logic dac8208d650f15bf"
}

pub fn example<'a>() -> &'a str {
    "\
A server that keeps what it did in a file, and goes on from it however it ended:

  rme serve --state bank.state bank

Or by hand: a worker asks for a lock, enters, crashes inside, and goes on where it fell.

  rme run <<'END'
  {\"do\":\"open\",\"workers\":2,\"locks\":[\"bank\"],\"cells\":1,\"jobs\":10}
  {\"do\":\"submit\",\"worker\":0,\"lock\":\"bank\",\"script\":[[\"add\",0,5]]}
  {\"do\":\"walk\",\"worker\":0,\"until\":\"entered\"}
  {\"do\":\"crash\",\"worker\":0}
  {\"do\":\"owner\",\"lock\":\"bank\"}
  {\"do\":\"restart\",\"worker\":0}
  {\"do\":\"walk\",\"worker\":0}
  {\"do\":\"cells\",\"lock\":\"bank\"}
  END

`rme serve --help` says what a client sends, `rme run --help` what the lines mean."
}
