//! Which file it is, whatever its names.
ghost use Rattle.std.specs.Prelude.{◌≡◌, ◌↔◌, IsOk, IsOkAnd, IsTrue};
ghost use Rattle.std.specs.Bool.{OnTrue};
ghost use Rattle.std.specs.Fs.{IsFile, file_type};

use std::fs::Metadata;
use std::io;
use std::os::unix::fs::MetadataExt;

/// Which file it is, whatever its names: no two files that are there have the same device and inode.
#[derive(Clone, Copy, PartialEq)]
pub(crate) struct FileId {
    device: u64,
    inode: u64,
}

impl FileId {
    // The file of this device and inode.
    fn new(device: u64, inode: u64) -> FileId
        ensures { result ≡ record { device = device; inode = inode } }
    {
        FileId { device, inode }
    }
}

impl From<&Metadata> for FileId {
    fn from(metadata: &Metadata) -> FileId {
        FileId::new(metadata.dev(), metadata.ino())
    }
}

/// Whether two looks found one file.
pub(crate) fn found_same(one: &io::Result<Metadata>, other: &io::Result<Metadata>) -> bool
    ensures { OnTrue result (IsOk one.now × IsOk other.now) }
{
    match (one, other) {
        (Ok(one), Ok(other)) => FileId::from(one) == FileId::from(other),
        _ => false,
    }
}

/// Whether a look found a plain file that has no other name.
pub(crate) fn found_sole(found: &io::Result<Metadata>) -> bool
    ensures { OnTrue result (IsOkAnd found.now (λ metadata. IsFile (file_type metadata))) }
{
    match found {
        Ok(metadata) => is_sole(metadata.is_file(), metadata.nlink()),
        Err(_) => false,
    }
}

// Whether it is a plain file, and has one name.
fn is_sole(is_plain: bool, names: u64) -> bool
    ensures { IsTrue result ↔ (IsTrue is_plain × (names ≡ 1)) }
{
    is_plain && names == 1
}
