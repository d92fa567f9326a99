//! What a disk is asked, with whether it was done.

use record_file::Access;
use std::fmt;
use std::fmt::{Formatter, Write};

/// What a disk is asked, with copies of the names, and of what was written of a file.
#[derive(Drop)]
pub enum ToldRequest {
    /// What a name leads to.
    Look(String),

    /// What stands under a name.
    LookAtName(String),

    /// Whether that is a plain file without another name.
    FindSoleFile(String),

    /// Whether that is an open file of which this much was written.
    FindFile(String, Vec<u8>),

    /// Which name it leads to.
    Resolve(String),

    /// That a file is opened, or made.
    Open(Access, String),

    /// That an open file is held.
    Hold(String),

    /// That a file gets a second name.
    Link(String, String),

    /// That a file, of which this is on the disk, gets another name.
    Rename(String, String, Vec<u8>),

    /// That a name goes.
    Remove(String),

    /// That an open folder is brought to the disk.
    SyncFolder(String),

    /// That a file, of which this was written, is cut at a length.
    Cut(Vec<u8>, u64),

    /// That it is brought to the disk.
    SyncFile(Vec<u8>),
}

/// What came of it.
#[derive(Drop)]
pub enum ToldStep {
    /// It was done.
    Did(ToldRequest),

    /// It was not, or it is not so.
    Failed(ToldRequest),

    /// A name led to another.
    LedTo(String, String),
}

// How a file was opened, as it is shown.
fn access_name(access: Access) -> &'static str {
    match access {
        Access::ReadOnly => "to read",
        Access::ReadWrite => "to write",
        Access::New => "new",
        Access::Created => "or make",
    }
}

// What was written, as it is shown.
fn shown(text: &[u8]) -> &str {
    match str::from_utf8(text) {
        Ok(text) => text,
        Err(_) => "?",
    }
}

impl fmt::Display for ToldRequest {
    fn fmt<W: Write>(&self, f: &mut Formatter<W>) -> fmt::Result {
        match self {
            ToldRequest::Look(name) => write!(f, "look {name}"),
            ToldRequest::LookAtName(name) => write!(f, "look at name {name}"),
            ToldRequest::FindSoleFile(name) => write!(f, "sole {name}"),
            ToldRequest::FindFile(name, text) => write!(f, "find {name} {}", shown(text)),
            ToldRequest::Resolve(name) => write!(f, "resolve {name}"),
            ToldRequest::Open(access, name) => write!(f, "open {} {name}", access_name(*access)),
            ToldRequest::Hold(name) => write!(f, "hold {name}"),
            ToldRequest::Link(from, to) => write!(f, "link {from} {to}"),
            ToldRequest::Rename(from, to, _) => write!(f, "rename {from} {to}"),
            ToldRequest::Remove(name) => write!(f, "remove {name}"),
            ToldRequest::SyncFolder(name) => write!(f, "sync folder {name}"),
            ToldRequest::Cut(text, _) => write!(f, "cut {}", shown(text)),
            ToldRequest::SyncFile(text) => write!(f, "sync {}", shown(text)),
        }
    }
}

/// As it is shown: `+` before what was done, `-` before what failed.
impl fmt::Display for ToldStep {
    fn fmt<W: Write>(&self, f: &mut Formatter<W>) -> fmt::Result {
        match self {
            ToldStep::Did(request) => write!(f, "+ {request}"),
            ToldStep::Failed(request) => write!(f, "- {request}"),
            ToldStep::LedTo(name, target) => write!(f, "+ resolve {name} {target}"),
        }
    }
}
