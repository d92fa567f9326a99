//! The command `probe`: whether a console is one that a load may trust.
//!
//! `probe` looks at a word, types digits and an illegal key into it, looks again, and then finds where memory ends, all
//! over one line. Its contract says which of these runs were made, what was said in each, that nothing else was said,
//! and exactly what was reported. Over a console like the simulated one memory is what it was; where another stored the
//! digits, the word's old number is put back. `find_end` finds memory's end in three passes of at most 92 looks; a hole
//! that ends before a word that was looked at is not seen. Used by `requests`.
#![tactic(auto)]

mod memory_end;
mod noted_line;
mod pieces;
mod probe_fault;
mod probe_options;
mod probing;
mod putting_back;
mod room;
mod runs;
mod search;
mod stopwatch;

pub use memory_end::find_end;
pub use probe_fault::ProbeFault;
pub use probe_options::ProbeOptions;
pub use probing::probe;
pub use putting_back::Deposit;
pub use runs::try_console;
pub use search::{Search, Searched};
