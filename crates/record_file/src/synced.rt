//! What it means that a file can't be brought to the disk.
ghost use Rattle.std.specs.Prelude.{◌≡◌, ◌↔◌, IfErr, IsOk, OnErr};
ghost use Rattle.std.specs.IoError.{error_kind};

use std::io;
use std::io::ErrorKind;

/// What comes of bringing a file to the disk. A pipe, a terminal or a device has no disk behind it, and says so: it
/// counts as synced.
pub(crate) fn synced(answer: io::Result<()>) -> io::Result<()>
    ensures ok { IsOk result ↔ IfErr answer (λ error. error_kind error ≡ ErrorKind.InvalidInput) }
    ensures same { OnErr result (result ≡ answer) }
{
    match answer {
        Err(error) if error.kind() == ErrorKind::InvalidInput => Ok(()),
        outcome => outcome,
    }
}
