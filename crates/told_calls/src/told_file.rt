//! A file that knows under which name it was opened, and what was written to it.
ghost use Rattle.std.specs.Prelude.{Some, take};

use record_file::{DiskFile, SyncWrite, SystemFile};
use std::fs::{File, Metadata, Permissions};
use std::io;
use std::io::Write;

/// A file, with the name under which it was opened, all that was written to it since, and how many of its bytes
/// are on the disk.
#[derive(Drop)]
pub struct ToldFile {
    pub(crate) file: SystemFile<File>,
    pub(crate) name: String,
    pub(crate) written: Vec<u8>,
    pub(crate) on_disk: usize,
}

impl Write for ToldFile {
    ghost contents = { λ file. Some file.written.items };

    // There is room to tell of it before it is written.
    fn write(&mut self, buf: &[u8]) -> io::Result<usize> {
        self.written.reserve(buf.len())?;
        let count = self.file.write(buf)?;
        self.written.extend_from_slice(&buf[..count])?;
        Ok(count)
    }

    fn flush(&mut self) -> io::Result<()> {
        self.file.flush()
    }
}

impl SyncWrite for ToldFile {
    ghost handed_on = { λ file. Some file.written.items };

    ghost on_disk = { λ file. Some (take file.on_disk file.written.items) };

    fn hand_on(&mut self) -> io::Result<()> {
        self.file.hand_on()
    }

    fn sync(&mut self) -> io::Result<()> {
        self.file.sync()?;
        self.on_disk = self.written.len();
        Ok(())
    }
}

impl DiskFile for ToldFile {
    ghost written = { λ file. Some file.written.items };

    fn metadata(&self) -> io::Result<Metadata> {
        self.file.metadata()
    }

    fn read_next(&mut self, buf: &mut [u8]) -> io::Result<usize> {
        self.file.read_next(buf)
    }

    fn go_back(&mut self) -> io::Result<()> {
        self.file.go_back()
    }

    fn set_permissions(&mut self, permissions: Permissions) -> io::Result<()> {
        self.file.set_permissions(permissions)
    }
}
