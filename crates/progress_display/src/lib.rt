//! The line on a terminal that shows how far a load, or a reading or a test of memory is.
//!
//! A `ProgressLine` is an `Onlooker`, whom the engine tells of each step. It shows what the host has come to and the
//! time left, a `Showing`, and at first, where a load goes on, what is verified already. Of a test it names the word
//! that holds another number for a while. Contracts promise no more than that it returns: what it shows is tried.
//!
//! The commands that take their time are shown so: `requests` gives one to `machine_load` and
//! `machine_look`.
#![tactic(auto)]

mod headway;
mod last_word;
mod overheard;
mod pace;
mod progress_line;
mod showing;

pub use last_word::LastWord;
pub use progress_line::ProgressLine;
pub use showing::{KeptIn, Showing, TestedWord};
