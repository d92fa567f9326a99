//! A terminal as a stream that is read within a time.
ghost use Rattle.std.specs.Prelude.{◌≡◌, ◌+◌, ◌*◌, true, IfErr};
ghost use Rattle.std.specs.Io.{ReadsAtMost, WritesAtMost};
ghost use Rattle.std.specs.Io.KnownBytes.{ReadConsumes, WriteAppends};
ghost use Rattle.std.specs.IoError.{error_kind};
ghost use Rattle.console_lines.specs.Hearing.{ends_waiting};
ghost use Rattle.console_lines.specs.Looking.{StaysRefused, IsSilence, LooksUpTo};

use crate::pause::{in_microseconds, most_looks, pause};
use crate::terminal::{Glance, Terminal};
use std::io;
use std::io::{ErrorKind, Read, Write};
use std::marker::Model;
use std::net::OpenStream;
use std::time::{Clock, Duration};

/// A terminal that is read and written within a quiet time, by a clock.
///
/// Contracts see the bytes that are still to come, those that went out and how many looks were in
/// vain, where the terminal tells them, and the quiet time in milliseconds.
#[derive(Drop)]
pub struct Device<'a, T: Terminal, C: Clock> {
    terminal: T,
    clock: &'a C,
    quiet_ms: u32,
}

impl<'a, T: Terminal, C: Clock> Model for Device<'a, T, C> {
    ghost use Rattle.console_lines.specs.DeviceValue.{DeviceValue, fresh_device};

    ghost Value = { DeviceValue };

    ghost view = { λ d. fresh_device (T.remaining d.terminal) (T.contents d.terminal) (T.misses d.terminal) d.quiet_ms };
}

impl<'a, T: Terminal, C: Clock> Device<'a, T, C> {
    ghost use Rattle.console_lines.specs.DeviceValue.{fresh_device};

    /// A device over a terminal that never waits. The quiet time is in milliseconds.
    pub fn new(terminal: T, clock: &'a C, quiet_ms: u32) -> Device<'a, T, C>
        ensures { result ≡ fresh_device (T.remaining terminal) (T.contents terminal) (T.misses terminal) quiet_ms }
    {
        Device {
            terminal,
            clock,
            quiet_ms,
        }
    }
}

impl<T: Terminal, C: Clock> Read for Device<'_, T, C> {
    ghost remaining = { λ device. device.to_come };

    /// Gives the next byte; none where the terminal is gone.
    ///
    /// WouldBlock is a silence: nothing came for the quiet time. Every other error is that of a look
    /// that failed.
    fn read(&mut self, buf: &mut [u8]) -> io::Result<usize>
        ensures bound { ReadsAtMost result buf.new }
        ensures bytes { ReadConsumes self.old.to_come self.new.to_come result buf.new }
        ensures looks { LooksUpTo self.old.misses self.new.misses (100 * self.old.quiet_ms + 1) }
        ensures silence { IfErr result (λ error. ends_waiting (error_kind error) ≡ true → IsSilence self.old.misses self.new.misses self.old.quiet_ms) }
        ensures same { self.new.quiet_ms ≡ self.old.quiet_ms }
    {
        if buf.is_empty() {
            return Ok(0);
        }
        let quiet_time = in_microseconds(self.quiet_ms);
        let mut passed = 0;
        for _ in 0..most_looks(self.quiet_ms) {
            match self.terminal.look()? {
                Glance::Byte(byte) => {
                    buf[0] = byte;
                    return Ok(1);
                }
                Glance::Gone => return Ok(0),
                Glance::Nothing => {}
            }
            if passed >= quiet_time {
                break;
            }
            passed += pause(self.clock, passed);
        }
        Err(io::Error::from(ErrorKind::WouldBlock))
    }
}

impl<T: Terminal, C: Clock> Write for Device<'_, T, C> {
    ghost contents = { λ device. device.gone_out };

    /// Writes as soon as the terminal takes something.
    ///
    /// TimedOut where it takes nothing for the quiet time: its output is stopped, or what it holds back
    /// is full. Every other error is that of a write that failed.
    fn write(&mut self, buf: &[u8]) -> io::Result<usize>
        ensures bound { WritesAtMost result buf.now }
        ensures bytes { WriteAppends self.old.gone_out self.new.gone_out result buf.now }
        ensures refused { IfErr result (λ error. StaysRefused (error_kind error)) }
        ensures same { self.new.quiet_ms ≡ self.old.quiet_ms }
    {
        let quiet_time = in_microseconds(self.quiet_ms);
        let mut passed = 0;
        for _ in 0..most_looks(self.quiet_ms) {
            match self.terminal.write(buf) {
                Ok(taken) => return Ok(taken),
                Err(error) => match error.kind() {
                    ErrorKind::WouldBlock | ErrorKind::Interrupted => {}
                    _ => return Err(error),
                },
            }
            if passed >= quiet_time {
                break;
            }
            passed += pause(self.clock, passed);
        }
        Err(io::Error::from(ErrorKind::TimedOut))
    }

    fn flush(&mut self) -> io::Result<()> {
        self.terminal.flush()
    }
}

impl<T: Terminal, C: Clock> OpenStream for Device<'_, T, C> {
    // The time within which it is read is its own, and can't be changed or be nothing.
    fn set_read_timeout(&self, time: Option<Duration>) -> io::Result<()> {
        let quiet_time = Duration::from_millis(u64::from(self.quiet_ms));
        if self.quiet_ms > 0 && time == Some(quiet_time) {
            Ok(())
        } else {
            Err(io::Error::from(ErrorKind::InvalidInput))
        }
    }
}
