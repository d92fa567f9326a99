//! What tests have in place of a system that tells: its calls as values, and disks that list them or tell what they
//! hold.
//!
//! A `ToldDisk` has real files, and lists each call with what came of it; a `MemoryDisk` has one file that can only be
//! read, and tells what it holds. They are the witnesses that what `record_file` and `tape_shelf` promise of a disk
//! that tells can be met. A `ToldOpening` and a `LineRequest` are what is listed of inputs and of lines by the systems
//! of `command_tests` and `device_tests`. `specs/` says which calls of the contracts these values stand for. The tests
//! use it; the program does not.
#![tactic(auto)]

mod line_request;
mod memory_disk;
mod memory_file;
mod told_disk;
mod told_file;
mod told_opening;
mod told_step;

pub use line_request::LineRequest;
pub use memory_disk::MemoryDisk;
pub use memory_file::MemoryFile;
pub use told_disk::ToldDisk;
pub use told_file::ToldFile;
pub use told_opening::ToldOpening;
pub use told_step::{ToldRequest, ToldStep};
