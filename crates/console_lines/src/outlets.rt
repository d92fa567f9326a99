//! What a system has for lines: a network and serial devices.
ghost use Rattle.std.specs.Prelude.{◌*◌, ◌≡◌, [], ◌∷◌, List, Option, None, IfOk, ⊤};
ghost use Rattle.std.specs.Duration.{as_nanos};
ghost use Rattle.host_devices.specs.Told.{Gains};
ghost use Rattle.console_lines.specs.DeviceValue.{fresh_device};
ghost use Rattle.console_lines.specs.Dialling.{LineRequest, Dialled, OpenedDevice, Limited};

use crate::device::Device;
use crate::devices::{Devices, open_terminal};
use crate::receive::TimedStream;
use crate::terminal::Terminal;
use std::io;
use std::net::{Net, OpenStream, TcpStream};
use std::time::{Clock, Duration};

/// A system's network and its serial devices, as far as a line needs them. One list tells what was asked of both.
///
/// A reference to any system that has both is one, and tells nothing of what was asked of it.
pub trait Outlets {
    /// The stream to whoever answers behind a port.
    type Stream: TimedStream + Drop;

    /// What an open device is.
    type Terminal: Terminal + Drop;

    /// What was asked so far, of the network and of the devices, in its order; None where the type doesn't tell.
    ghost asked: { Self → Option (List LineRequest) } = { λ _. None };

    /// Whether an open device is a terminal, locked for one user alone, and never makes him wait, where the type says it.
    ghost is_ready: { Self.Terminal → Type 0 } = { λ _. ⊤ };

    /// Connects to `HOST:PORT`. Where the name has several addresses they are tried in turn.
    fn dial(&mut self, address: &str) -> io::Result<Self::Stream>
        ensures asked { Gains (asked self.old) (asked self.new) (Dialled address.now ∷ []) };

    /// Ends each read of a stream after this time, in milliseconds. No stream takes 0.
    fn limit(&mut self, stream: &Self::Stream, quiet_ms: u32) -> io::Result<()>
        ensures asked { Gains (asked self.old) (asked self.new) (Limited quiet_ms ∷ []) };

    /// Opens the device at a path for one user alone.
    ///
    /// An error where there is none, where it may not be opened, is no terminal, or is in use.
    fn open_device(&mut self, path: &str) -> io::Result<Self::Terminal>
        ensures ready { IfOk result is_ready }
        ensures asked { Gains (asked self.old) (asked self.new) (OpenedDevice path.now ∷ []) };

    /// Ends each read and each write of an open device after this time, in milliseconds by the clock.
    fn limit_device<'a, C: Clock>(
        &mut self,
        terminal: Self::Terminal,
        clock: &'a C,
        quiet_ms: u32,
    ) -> Device<'a, Self::Terminal, C>
        requires ready { is_ready terminal }
        ensures device { result ≡ fresh_device (Self.Terminal.remaining terminal) (Self.Terminal.contents terminal) (Self.Terminal.misses terminal) quiet_ms }
        ensures asked { Gains (asked self.old) (asked self.new) (Limited quiet_ms ∷ []) };
}

impl<S: TimedStream + Drop, F: Net<Stream = S> + Devices> Outlets for &F {
    type Stream = S;

    type Terminal = F::Terminal;

    ghost is_ready = { λ device. F.was_terminal device × F.is_locked device × F.never_waits device };

    fn dial(&mut self, address: &str) -> io::Result<S> {
        TcpStream::connect(*self, address)
    }

    fn limit(&mut self, stream: &S, quiet_ms: u32) -> io::Result<()> {
        stream.set_read_timeout(Some(whole(quiet_ms)))
    }

    fn open_device(&mut self, path: &str) -> io::Result<F::Terminal> {
        open_terminal(*self, path)
    }

    fn limit_device<'a, C: Clock>(
        &mut self,
        terminal: F::Terminal,
        clock: &'a C,
        quiet_ms: u32,
    ) -> Device<'a, F::Terminal, C> {
        Device::new(terminal, clock, quiet_ms)
    }
}

// All of a quiet time in milliseconds.
fn whole(quiet_ms: u32) -> Duration
    ensures { as_nanos result ≡ quiet_ms * 1_000_000 }
{
    Duration::from_millis(u64::from(quiet_ms))
}
