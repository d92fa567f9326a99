//! The line of a run in a log: when it ended, what was asked for, and what came of it.
//!
//! A `NotedOutput` hands each call on to an output and notes, of what was taken there, how a report ended and what it
//! counted, however the report is cut into writes. `log_run` says the line of a run at a machine, in one write: the time,
//! by a calendar of the kit's, the command and its names as a fault shows them, the status, and what was noted. Used by
//! `ldaodt`.
#![tactic(auto)]

mod line;
mod noted_output;
mod report_notes;
mod time_text;

pub use line::{Run, log_run};
pub use noted_output::{FirstHeld, NotedOutput};
pub use report_notes::ReportNotes;
