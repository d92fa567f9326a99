//! The command `memory`: which chip of a board is it?
//!
//! `test_memory` first tries, as `probe` does, whether the console forgets digits at an illegal key, and then turns over each
//! word that is asked for and puts it back. Where a bank does not answer the test goes on behind it. Where no word of the range
//! is left out it then tests the bus at one word, by loads of that word and looks around it. Its contract says which hosts were
//! led over the line, one after another, that nothing else was said, and exactly what was reported: a function of what was
//! read. Over an honest line each host leaves every word as it was, but the one that the report names (`memory_law`), and good
//! memory is never called bad. Used by `requests`.
#![tactic(auto)]

mod behind;
mod bus_course;
mod bus_numbers;
mod bus_steps;
mod command;
mod course;
mod memory_end;
mod memory_options;
mod neighbours;
mod steps;
mod words;

pub use command::test_memory;
pub use machine_probe::ProbeFault;
pub use memory_end::MemoryEnd;
pub use memory_engine::{Borrowed, WordWatch};
pub use memory_options::MemoryOptions;
pub use memory_report::TestEnd;
