//! A file in memory that tells what a loss of power would leave of it.
ghost use Rattle.std.specs.Prelude.{◌≡◌, [], Some, take};

use load_record::LastingWrite;
use std::alloc::Global;
use std::io;
use std::io::Write;

/// The text of a file, and how much of it is on the disk.
#[derive(Drop)]
pub(crate) struct DiskText {
    text: Vec<u8>,
    on_disk: usize,
}

impl DiskText {
    /// An empty file.
    pub(crate) fn new(alloc: Global) -> DiskText
        ensures { result.text.items ≡ [] }
    {
        DiskText {
            text: Vec::new(alloc),
            on_disk: 0,
        }
    }

    /// All that was written.
    pub(crate) fn text(&self) -> &[u8]
        ensures { result.now ≡ self.now.text.items }
    {
        &self.text
    }

    /// What a loss of power would leave now.
    pub(crate) fn left(&self) -> &[u8] {
        match self.text.get(..self.on_disk) {
            Some(left) => left,
            None => &self.text,
        }
    }
}

impl Write for DiskText {
    ghost contents = { λ file. Some file.text.items };

    fn write(&mut self, buf: &[u8]) -> io::Result<usize> {
        self.text.extend_from_slice(buf)?;
        Ok(buf.len())
    }

    fn flush(&mut self) -> io::Result<()> {
        Ok(())
    }
}

impl LastingWrite for DiskText {
    ghost lasting = { λ file. Some (take file.on_disk file.text.items) };

    fn make_last(&mut self) -> io::Result<()> {
        self.on_disk = self.text.len();
        Ok(())
    }
}
