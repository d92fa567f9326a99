//! An open file of a system that is watched.
ghost use Rattle.std.specs.Prelude.{◌≡◌};

use crate::seen::Witness;
use record_file::{DiskFile, SyncWrite};
use std::cell::Cell;
use std::fs::{Metadata, Permissions};
use std::io;
use std::io::{Read, Write};

/// An open file, or another input. Each call is handed on; how one failed is kept, and what was read first.
#[derive(Drop)]
pub struct WatchedFile<'c, T> {
    pub(crate) file: T,
    witness: &'c Witness,

    // Whether something was read of it.
    is_begun: Cell<bool>,
}

impl<'c, T> WatchedFile<'c, T> {
    /// Watches a file.
    pub fn new(file: T, witness: &'c Witness) -> WatchedFile<'c, T>
        ensures { result.file ≡ file }
    {
        WatchedFile {
            file,
            witness,
            is_begun: Cell::new(false),
        }
    }

    // Keeps which bytes were read first, and last.
    fn see(&self, bytes: &[u8]) {
        if !self.is_begun.get() {
            self.is_begun.set(true);
            self.witness.see_front(bytes);
        }
        self.witness.see_end(bytes);
    }
}

impl<T: Read> Read for WatchedFile<'_, T> {
    ghost remaining = { λ watched. T.remaining watched.file };

    fn read(&mut self, buf: &mut [u8]) -> io::Result<usize> {
        let answer = self.file.read(buf);
        if let Ok(count) = answer {
            self.see(&buf[..count]);
        }
        self.witness.of_read(answer)
    }
}

impl<T: Write> Write for WatchedFile<'_, T> {
    ghost contents = { λ watched. T.contents watched.file };

    fn write(&mut self, buf: &[u8]) -> io::Result<usize> {
        let answer = self.file.write(buf);
        self.witness.of_call(answer)
    }

    fn flush(&mut self) -> io::Result<()> {
        let answer = self.file.flush();
        self.witness.of_call(answer)
    }
}

impl<T: SyncWrite> SyncWrite for WatchedFile<'_, T> {
    ghost handed_on = { λ watched. T.handed_on watched.file };

    ghost on_disk = { λ watched. T.on_disk watched.file };

    fn hand_on(&mut self) -> io::Result<()> {
        let answer = self.file.hand_on();
        self.witness.of_call(answer)
    }

    fn sync(&mut self) -> io::Result<()> {
        let answer = self.file.sync();
        self.witness.of_call(answer)
    }
}

impl<T: DiskFile> DiskFile for WatchedFile<'_, T> {
    ghost written = { λ watched. T.written watched.file };

    ghost unread = { λ watched. T.unread watched.file };

    fn metadata(&self) -> io::Result<Metadata> {
        self.witness.of_call(self.file.metadata())
    }

    fn read_next(&mut self, buf: &mut [u8]) -> io::Result<usize> {
        let answer = self.file.read_next(buf);
        if let Ok(count) = answer {
            self.see(&buf[..count]);
        }
        self.witness.of_read(answer)
    }

    fn go_back(&mut self) -> io::Result<()> {
        let answer = self.file.go_back();
        self.witness.of_call(answer)
    }

    // Which of them a new record has is no matter that a load fails by.
    fn set_permissions(&mut self, permissions: Permissions) -> io::Result<()> {
        self.file.set_permissions(permissions)
    }
}
