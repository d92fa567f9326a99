//! Looking at a machine that nothing is to change: the commands `verify` and `save`.
//!
//! `verify` looks at every word of a plan and lists those that memory does not have, `save` reads a range
//! of words and puts the tape of them on a `Shelf` (`tape_shelf`), block by block, behind those that an earlier
//! one left there, and neither types a digit into a word. Both are promised to write exactly their report, and
//! to say of memory only what was read; over an honest line that is what memory holds, and it is what it was. Of
//! the words that a save found it says that they are what the text has that was left there, where the shelf tells
//! that, and that samples of them stood.
//!
//! The crate `requests` calls them, and their tests stand in `load_tests` and `command_tests`.
#![tactic(auto)]

mod behind;
mod blocks;
mod comparing;
mod difference;
mod differences;
mod failures;
mod hosts;
mod look_fault;
mod reading_blocks;
mod save_end;
mod save_report;
mod saving;
mod trust;
mod verify_end;
mod verify_report;
mod verifying;

pub use look_fault::LookFault;
pub use save_end::SaveEnd;
pub use save_report::SaveCounts;
pub use saving::{SaveOptions, save};
pub use verify_end::VerifyEnd;
pub use verifying::{VerifyOptions, verify};
