//! The record of a load as a file on the disk.
//!
//! One load at a time has it: `RecordFile` holds its file from its reading on. What the file held is read
//! whole, with how it may be begun anew (`OldRecord`); a record that is begun anew replaces it whole, or is
//! written over it where a rename would not reach it and no byte that stands there becomes another one
//! (`DiskRecord`); and what was kept in it is on the disk (`DurableWriter`). Where the system of files tells
//! what was asked of it (`Disk`), the contracts say that, step by step. Every system that `Locks` is such a
//! one, and tells nothing.
//!
//! The crate `machine_load` uses it, and `tape_shelf` its `Disk`; its tests stand in `load_tests` and
//! `record_tests`.
#![tactic(auto)]

mod beside;
mod disk;
mod disk_file;
mod disk_record;
mod durable;
mod file_id;
mod held_file;
mod in_place;
mod locks;
mod made;
mod old_record;
mod record_fault;
mod record_file;
mod synced;

pub use beside::{BESIDE, folder_of, make_new};
pub use disk::{Access, Disk};
pub use disk_file::{DiskFile, SystemFile, take_up_to};
pub use disk_record::DiskRecord;
pub use durable::{DurableWriter, SyncWrite};
pub use locks::Locks;
pub use old_record::{OldRecord, Writable, holds_no_record};
pub use record_fault::RecordFault;
pub use record_file::RecordFile;
