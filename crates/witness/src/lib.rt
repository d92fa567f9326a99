//! What was seen of a system, so that a person can be told why something failed.
//!
//! The crates that open, read and write say what could not be done, and to which name. The system's own reason is
//! seen beside them: a part of a system that is `Watched` hands each call on, unchanged, and so does a `WatchedFile`; how
//! one failed stands in the `Witness` that they share, until something is opened, and so do the first bytes of the file
//! that was begun last. What is asked of a watched part is what is asked of the part itself, which the contracts say where it
//! tells. Of each step of a host it is told, too, and counts the characters that the line changed. What a `Witness` holds
//! contracts can't say. Used by `requests` and `ldaodt`.
#![tactic(auto)]

mod changed;
mod disk;
mod file;
mod inputs;
mod outlets;
mod seen;
mod watched;

pub use file::WatchedFile;
pub use seen::{END_LENGTH, End, FRONT_LENGTH, Front, Witness};
pub use watched::Watched;
