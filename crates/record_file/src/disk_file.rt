//! An open file of a disk: what a record and the tape of a save do with it, and nothing else.
ghost use Rattle.std.specs.Prelude.{◌≡◌, [], ℕ, List, Option, None, Some, IfOk, IsSome, OnOk};
ghost use Rattle.std.specs.Fs.{IsFile, file_type};
ghost use Rattle.std.specs.Io.{ReadsAtMost};
ghost use Rattle.std.specs.Io.KnownBytes.{ReadConsumes};
ghost use Rattle.byte_io.specs.Input.{IsTaken};

use crate::durable::SyncWrite;
use crate::synced::synced;
use byte_io::InputFault;
use std::alloc::Global;
use std::fs::{Metadata, OpenFile, Permissions};
use std::io;
use std::io::{Read, Seek, Write};

/// An open file, with no more than is needed of one: whatever changes it takes it mutably, and is told.
///
/// What it tells as a writer (`contents`) is what was written to it from its front on.
pub trait DiskFile: SyncWrite + Drop {
    /// All that was written to it, wherever; None where the type doesn't tell.
    ghost written: { Self → Option (List ℕ) } = { λ _. None };

    /// What is left to be read of it, which is told of plain files alone; None where the type doesn't tell.
    ghost unread: { Self → Option (List ℕ) } = { λ _. None };

    /// What file it is.
    fn metadata(&self) -> io::Result<Metadata>
        ensures plain { IfOk result (λ metadata. IsSome (unread self.now) → IsFile (file_type metadata)) };

    /// Reads the next bytes, no more than there is room for; none where it is at its end.
    fn read_next(&mut self, buf: &mut [u8]) -> io::Result<usize>
        ensures bound { ReadsAtMost result buf.new }
        ensures bytes { ReadConsumes (unread self.old) (unread self.new) result buf.new }
        ensures untouched { written self.new ≡ written self.old };

    /// Goes back to its front, to be written from there on.
    fn go_back(&mut self) -> io::Result<()>
        ensures front { OnOk result (written self.old ≡ Some [] → Self.contents self.new ≡ Some []) };

    /// Lets others read and write it as these permissions say. No byte of it changes.
    fn set_permissions(&mut self, permissions: Permissions) -> io::Result<()>
        ensures same { Self.contents self.new ≡ Self.contents self.old };
}

// How many bytes are asked for in one read.
const PIECE: usize = 8192;

/// All that is left to be read of a file, or so many bytes. A read of no bytes is the end.
pub fn take_up_to<F: DiskFile>(
    alloc: Global,
    file: &mut F,
    limit: usize,
) -> Result<Vec<u8>, InputFault>
    ensures taken { IfOk result (λ bytes. IsTaken (F.unread file.old) (F.unread file.new) limit bytes.items) }
    ensures untouched { F.written file.new ≡ F.written file.old }
{
    let mut bytes = Vec::new(alloc);
    let mut piece = [0u8; PIECE];
    while bytes.len() < limit {
        let room = (limit - bytes.len()).min(PIECE);
        let count = file.read_next(&mut piece[..room])?;
        if count == 0 {
            break;
        }
        bytes.extend_from_slice(&piece[..count])?;
    }
    Ok(bytes)
}

/// An open file of a real system, which tells nothing.
#[derive(Drop)]
pub struct SystemFile<F: Drop> {
    pub(crate) file: F,
}

impl<F: Write + Drop> Write for SystemFile<F> {
    fn write(&mut self, buf: &[u8]) -> io::Result<usize> {
        self.file.write(buf)
    }

    fn flush(&mut self) -> io::Result<()> {
        self.file.flush()
    }
}

impl<F: Write + OpenFile + Drop> SyncWrite for SystemFile<F> {
    fn hand_on(&mut self) -> io::Result<()> {
        self.file.flush()
    }

    fn sync(&mut self) -> io::Result<()> {
        synced(self.file.sync_data())
    }
}

impl<F: Read + Write + Seek + OpenFile + Drop> DiskFile for SystemFile<F> {
    fn metadata(&self) -> io::Result<Metadata> {
        self.file.metadata()
    }

    fn read_next(&mut self, buf: &mut [u8]) -> io::Result<usize> {
        self.file.read(buf)
    }

    fn go_back(&mut self) -> io::Result<()> {
        self.file.rewind()
    }

    fn set_permissions(&mut self, permissions: Permissions) -> io::Result<()> {
        self.file.set_permissions(permissions)
    }
}
