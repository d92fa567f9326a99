//! Writing to a file so that what was written can be brought to the disk.
ghost use Rattle.std.specs.Prelude.{◌≡◌, ℕ, List, Option, None, OnOk};
ghost use Rattle.std.specs.Io.KnownBytes.{Keeps};
ghost use Rattle.load_record.specs.Keeper.{Lasts};

use load_record::LastingWrite;
use std::io;
use std::io::Write;

/// A writer whose bytes can be made to reach the disk, and not only a buffer of the system.
pub trait SyncWrite: Write {
    /// What the writer has handed on to the system; None where the type doesn't tell.
    ghost handed_on: { Self → Option (List ℕ) } = { λ _. None };

    /// What a loss of power leaves; None where the type doesn't tell.
    ghost on_disk: { Self → Option (List ℕ) } = { λ _. None };

    /// Hands on to the system all that was written so far.
    fn hand_on(&mut self) -> io::Result<()>
        ensures handed_on { OnOk result (Lasts (handed_on self.new) (Self.contents self.new)) }
        ensures same { Keeps (Self.contents self.old) (Self.contents self.new) };

    /// Brings to the disk what was handed on so far, and nothing else.
    fn sync(&mut self) -> io::Result<()>
        ensures on_disk { OnOk result (on_disk self.new ≡ handed_on self.old) }
        ensures same { Keeps (Self.contents self.old) (Self.contents self.new) };
}

/// A writer to a file, which lasts once it was handed on and is on the disk.
#[derive(Drop)]
pub struct DurableWriter<F: SyncWrite> {
    /// Where it writes.
    pub(crate) file: F,
}

impl<F: SyncWrite> DurableWriter<F> {
    /// A writer to a file.
    pub(crate) fn new(file: F) -> DurableWriter<F>
        ensures { result ≡ record { file = file } }
    {
        DurableWriter { file }
    }
}

impl<F: SyncWrite> Write for DurableWriter<F> {
    ghost contents = { λ writer. F.contents writer.file };

    fn write(&mut self, buf: &[u8]) -> io::Result<usize> {
        self.file.write(buf)
    }

    fn flush(&mut self) -> io::Result<()> {
        self.file.flush()
    }
}

impl<F: SyncWrite> LastingWrite for DurableWriter<F> {
    ghost lasting = { λ writer. F.on_disk writer.file };

    fn make_last(&mut self) -> io::Result<()> {
        self.file.hand_on()?;
        self.file.sync()
    }
}
