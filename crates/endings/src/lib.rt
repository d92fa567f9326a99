//! How the program ends: its exit status, and what it says where it did not do what it was asked.
//!
//! A `CommandFault` says why a command about tapes did not do what it was asked; by the names of its inputs it is a
//! `Failure`. A `Failure` has one line on standard error and one status. `print_failure` prints the line, in one write, and
//! answers the status; a file's name in it can't break the line, since `shown_character` shows what is of control by an
//! escape. Words of the command line that ask for nothing to be done are explained: `show` prints help to standard output,
//! `refuse` says on standard error what is wrong with them. `Streams` are the three standard streams, as one value; an
//! `Output` knows whether nobody reads it any more, and then nothing is said of what can't be written there. What is said on
//! a `FaultOutput` is said whole, unless that fails. Used by the crates of requests, by `command_line`, `run_log` and
//! `ldaodt`.
#![tactic(auto)]

mod command_fault;
mod explaining;
mod failure;
mod fault_output;
mod line_words;
mod output;
mod place;
mod printing;
mod shown;
mod status;
mod streams;
mod system_reason;

pub use command_fault::CommandFault;
pub use explaining::{refuse, show};
pub use failure::{Failure, STANDARD_INPUT};
pub use fault_output::{FaultOutput, say};
pub use output::{Output, PipedOutput};
pub use place::Place;
pub use printing::{print_failure, write_name};
pub use shown::{ShownCharacter, shown_character};
pub use status::Status;
pub use streams::Streams;
pub use system_reason::print_with_reason;
