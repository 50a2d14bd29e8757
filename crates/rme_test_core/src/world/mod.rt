//! Worlds by calls, and histories as an observer reads them.

mod calls;
mod histories;
mod runs;
mod walks;
