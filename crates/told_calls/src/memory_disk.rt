//! A disk in memory, which tells what its file holds.
ghost use Rattle.std.specs.Prelude.{◌≡◌, None, Some, if◌then◌else◌};
ghost use Rattle.std.specs.Str.{bytes_eq};

use crate::memory_file::{MemoryFile, refused};
use record_file::{Access, Disk};
use std::alloc::Global;
use std::fs::Metadata;
use std::io;
use std::path::PathBuf;

/// A disk with one file, in one folder. It can be opened and held, its folder synced, and nothing on it can be changed.
#[derive(Drop)]
pub struct MemoryDisk<'a> {
    name: &'a str,
    text: &'a [u8],
}

impl<'a> MemoryDisk<'a> {
    /// A disk on which a file of this name holds this text.
    pub fn new(name: &'a str, text: &'a [u8]) -> MemoryDisk<'a>
        ensures name { result.name.now ≡ name.now }
        ensures text { result.text.now ≡ text.now }
    {
        MemoryDisk { name, text }
    }
}

impl<'a> Disk for MemoryDisk<'a> {
    type File = MemoryFile<'a>;

    ghost holds = { λ disk name. if bytes_eq name disk.name.now then Some disk.text.now else None };

    fn look(&mut self, name: &str) -> io::Result<Metadata> {
        if name == self.name {
            Ok(Metadata::of_file(self.text.len() as u64))
        } else {
            refused()
        }
    }

    fn look_at_name(&mut self, _name: &str) -> io::Result<Metadata> {
        refused()
    }

    fn is_sole_file(&mut self, name: &str) -> bool {
        name == self.name
    }

    fn has_name(&mut self, name: &str, _file: &MemoryFile<'a>) -> bool {
        name == self.name
    }

    fn resolve(&mut self, _alloc: Global, _name: &str) -> io::Result<PathBuf<Global>> {
        refused()
    }

    // What has another name is the folder, in which nothing is to be read.
    fn open(&mut self, _access: Access, name: &str) -> io::Result<MemoryFile<'a>> {
        if name == self.name {
            Ok(MemoryFile::new(self.text))
        } else {
            Ok(MemoryFile::new(&[]))
        }
    }

    fn hold(&mut self, _file: &MemoryFile<'a>) -> bool {
        true
    }

    fn link(&mut self, _from: &str, _to: &str) -> io::Result<()> {
        refused()
    }

    fn rename(&mut self, _file: &MemoryFile<'a>, _from: &str, _to: &str) -> io::Result<()> {
        refused()
    }

    fn remove(&mut self, _name: &str) -> io::Result<()> {
        refused()
    }

    // Its folder's names are as they were.
    fn sync_folder(&mut self, _folder: &MemoryFile<'a>) -> io::Result<()> {
        Ok(())
    }

    fn cut(&mut self, _file: &MemoryFile<'a>, _length: u64) -> io::Result<()> {
        refused()
    }

    fn sync_file(&mut self, _file: &MemoryFile<'a>) -> io::Result<()> {
        refused()
    }
}
