//! Files that one program at a time can hold.
ghost use Rattle.std.specs.Prelude.{◌≡◌, ◌↔◌, Err, false};

use std::fs::{File, TryLockError};
use std::rt::Files;

/// A system whose open files can each be held by one program alone.
pub trait Locks: Files {
    /// Holds an open file until it is closed, which the program's death does, too. False where somebody
    /// else holds it. Where the file system knows no locks nobody can hold it, and it counts as held.
    fn hold(&self, file: &Self::File) -> bool;
}

impl Locks for HostRuntime {
    fn hold(&self, file: &File) -> bool {
        counts_as_held(&file.try_lock())
    }
}

// Whether a file is held behind a try to lock it: unless somebody else holds it.
fn counts_as_held(tried: &Result<(), TryLockError>) -> bool
    ensures { (result ≡ false) ↔ (tried.now ≡ Err TryLockError.WouldBlock) }
{
    !matches!(tried, Err(TryLockError::WouldBlock))
}
