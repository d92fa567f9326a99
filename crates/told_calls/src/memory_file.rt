//! A file in memory that is only read.
ghost use Rattle.std.specs.Prelude.{◌≡◌, Some, IsErr};

use record_file::{DiskFile, SyncWrite};
use std::fs::{Metadata, Permissions};
use std::io;
use std::io::{ErrorKind, Read, Write};

/// An open file with this much of its text left to be read.
#[derive(Drop)]
pub struct MemoryFile<'a> {
    left: &'a [u8],
}

impl<'a> MemoryFile<'a> {
    /// A file with this text, of which nothing was read yet.
    pub(crate) fn new(text: &'a [u8]) -> MemoryFile<'a>
        ensures { result.left.now ≡ text.now }
    {
        MemoryFile { left: text }
    }
}

/// The answer to what can't be done in memory.
pub(crate) fn refused<T>() -> io::Result<T>
    ensures { IsErr result }
{
    Err(io::Error::from(ErrorKind::Unsupported))
}

impl Write for MemoryFile<'_> {
    fn write(&mut self, _buf: &[u8]) -> io::Result<usize> {
        refused()
    }

    fn flush(&mut self) -> io::Result<()> {
        refused()
    }
}

impl SyncWrite for MemoryFile<'_> {
    fn hand_on(&mut self) -> io::Result<()> {
        refused()
    }

    fn sync(&mut self) -> io::Result<()> {
        refused()
    }
}

impl DiskFile for MemoryFile<'_> {
    ghost unread = { λ file. Some file.left.now };

    fn metadata(&self) -> io::Result<Metadata> {
        Ok(Metadata::of_file(self.left.len() as u64))
    }

    fn read_next(&mut self, buf: &mut [u8]) -> io::Result<usize> {
        self.left.read(buf)
    }

    fn go_back(&mut self) -> io::Result<()> {
        refused()
    }

    fn set_permissions(&mut self, _permissions: Permissions) -> io::Result<()> {
        refused()
    }
}
