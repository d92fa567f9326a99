//! The record of a load: which words of a plan are verified, as a text that outlives the host.
//!
//! `read_record` reads a record of either version against a plan, also one that was cut off in the
//! middle, and `FileKeep` writes one, a word at a time. The contract of the reader gives each
//! answer exactly; above it stands the law that a restart rests on, `cut_record`: a record that is
//! cut at any byte is read as no more words than were written, and with the mark only where it stood.
//!
//! The text is described in docs/RECORD.md. Nothing here takes memory. The command `load` (crate
//! `machine_load`) uses it.
#![tactic(auto)]

mod file_keep;
mod lasting_write;
mod law;
mod line;
mod output;
mod reader;
mod run;
mod version;

pub use file_keep::FileKeep;
pub use lasting_write::LastingWrite;
pub use law::{cut_record, first_lines, longest_runs, whole_record};
pub use reader::{RECORD_LIMIT, RecordError, read_record};
pub use version::Version;
