//! What opens serial devices.
ghost use Rattle.std.specs.Prelude.{◌↔◌, List, ℕ, ⊤, IfOk, IsOk, IsTrue, OnOk};
ghost use Rattle.std.specs.Bool.{OnTrue};

use crate::terminal::Terminal;
use std::fs::File;
use std::io::{ErrorKind, IsTerminal};
use std::net::TcpStream;
use std::os::fd::OwnedFd;
use std::os::unix::fs::FileTypeExt;
use std::{fs, io};

/// A system that has serial devices, asked one thing at a time.
pub trait Devices {
    /// What an open device is.
    type Terminal: Terminal + Drop;

    /// Whether a path was found to be that of a device, where the type says it.
    ghost leads_to_device: { List ℕ → Type 0 } = { λ _. ⊤ };

    /// Whether an open device was found to be a terminal, where the type says it.
    ghost was_terminal: { Self.Terminal → Type 0 } = { λ _. ⊤ };

    /// Whether an open device is locked for one user alone, where the type says it.
    ghost is_locked: { Self.Terminal → Type 0 } = { λ _. ⊤ };

    /// Whether no read and no write of an open device waits, where the type says it.
    ghost never_waits: { Self.Terminal → Type 0 } = { λ _. ⊤ };

    /// Whether a path leads to a character device.
    fn is_device(&self, path: &str) -> io::Result<bool>
        ensures { IfOk result (λ is. OnTrue is (leads_to_device path.now)) };

    /// Opens a device, to be read and written. To open a pipe or a file may do something.
    fn open(&self, path: &str) -> io::Result<Self::Terminal>
        requires { leads_to_device path.now };

    /// Whether an open device is a terminal.
    fn is_terminal(&self, device: &Self::Terminal) -> bool
        ensures { OnTrue result (was_terminal device.now) };

    /// Locks an open device until it is closed, which the program's death does, too. An error where somebody else has.
    fn lock(&self, device: &Self::Terminal) -> io::Result<()>
        ensures { OnOk result (is_locked device.now) };

    /// Makes all reads and writes of an open device answer at once.
    fn wait_for_nothing(&self, device: &Self::Terminal) -> io::Result<()>
        ensures { OnOk result (never_waits device.now) };
}

impl Devices for HostRuntime {
    type Terminal = File;

    fn is_device(&self, path: &str) -> io::Result<bool> {
        Ok(fs::metadata(self, path)?.file_type().is_char_device())
    }

    fn open(&self, path: &str) -> io::Result<File> {
        File::options().read(true).write(true).open(self, path)
    }

    fn is_terminal(&self, device: &File) -> bool {
        device.is_terminal()
    }

    // The lock is the open file's, so it goes with the process, however that ends.
    fn lock(&self, device: &File) -> io::Result<()> {
        Ok(device.try_lock()?)
    }

    // Std has this for sockets alone, but the system's call is the same for each open file, and what it sets is the
    // file's and not the descriptor's.
    fn wait_for_nothing(&self, device: &File) -> io::Result<()> {
        let twin = OwnedFd::from(device.try_clone()?);
        TcpStream::from(twin).set_nonblocking(true)
    }
}

/// Opens a device for one user alone, whose reads and writes never wait.
///
/// An error where there is none of this path, where it may not be opened, is no terminal, or is in use. Nothing is opened
/// that is no character device.
pub fn open_terminal<D: Devices>(devices: &D, path: &str) -> io::Result<D::Terminal>
    ensures terminal { IfOk result D.was_terminal }
    ensures locked { IfOk result D.is_locked }
    ensures prompt { IfOk result D.never_waits }
{
    is_so(devices.is_device(path)?)?;
    let device = devices.open(path)?;
    is_so(devices.is_terminal(&device))?;
    devices.lock(&device)?;
    devices.wait_for_nothing(&device)?;
    Ok(device)
}

// Whether what a terminal has to be is so: an error where it isn't.
fn is_so(is: bool) -> io::Result<()>
    ensures { IsOk result ↔ IsTrue is }
{
    if is {
        Ok(())
    } else {
        Err(io::Error::from(ErrorKind::Unsupported))
    }
}
