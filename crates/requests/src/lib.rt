//! Doing what a person asks of `ldaodt`, and telling how it ended.
//!
//! `attempt` does a request, as `request_values` has them, in a `System`, which comes back, and answers the exit
//! status, and how many characters a machine's line changed; where it can't be done, one line on standard error says why, by the name of what was at fault. Behind all
//! else one may say how many characters a machine's line changed. Its contract says what is written, and, part by part
//! where the system tells, what was asked of it: the files that are named, the console that is named and no other,
//! what was said on its line until that was given back, of the disk what the record takes, or the tape that is saved or
//! made.
//!
//! What becomes of a request at a real machine stands here, of any other in `tape_commands`; which status and which
//! line a failure has in `endings`. The program `ldaodt` has the request from `command_line`, which makes it of words.
#![tactic(auto)]

mod attempted;
mod changed_line;
mod ending;
mod handling;
mod listening;
mod loading;
mod making;
mod planning;
mod probing;
mod request_fault;
mod saving;
mod system;
mod test_line;
mod testing;
mod verifying;
mod watch;

pub use attempted::Attempted;
pub use handling::attempt;
pub use system::{Kinds, SharedSystem, System, WatchedSystem};
