//! A terminal that answers at once, whether or not there is a byte to read.
ghost use Rattle.std.specs.Prelude.{ℕ, Option, None, IfOk, IfErr, OnErr};
ghost use Rattle.std.specs.Io.KnownBytes.{Keeps};
ghost use Rattle.std.specs.IoError.{error_kind};
ghost use Rattle.console_lines.specs.Hearing.{GoesUpBy};
ghost use Rattle.console_lines.specs.Looking.{IsRealFailure, IsGlance, misses_of};

use std::io;
use std::io::{ErrorKind, IsTerminal, Read, Write};

/// What one look at a terminal finds.
#[derive(Clone, Copy)]
pub enum Glance {
    /// A byte, which is taken.
    Byte(u8),

    /// Nothing: no byte has come yet.
    Nothing,

    /// No terminal any more: its other end was hung up or unplugged.
    Gone,
}

/// A terminal whose reads and writes never wait.
pub trait Terminal: Read + Write {
    /// How many looks were in vain; None where the type doesn't tell.
    ghost misses: { Self → Option ℕ } = { λ _. None };

    /// Looks whether a byte has come, and takes it.
    ///
    /// An error is a read that failed, and then nothing was taken. It is none of those that only say
    /// that nothing has come: WouldBlock, TimedOut and Interrupted.
    fn look(&mut self) -> io::Result<Glance>
        ensures found { IfOk result (IsGlance (Self.remaining self.old) (Self.remaining self.new)) }
        ensures failed { OnErr result (Keeps (Self.remaining self.old) (Self.remaining self.new)) }
        ensures kind { IfErr result (λ error. IsRealFailure (error_kind error)) }
        ensures missed { GoesUpBy (misses self.old) (misses self.new) (misses_of result) };
}

impl<T: Read + Write + IsTerminal> Terminal for T {
    // A read that gives no byte means that nothing has come where the terminal is set so (`min 0 time 0`), and
    // its end where it was hung up; then it is no terminal any more.
    fn look(&mut self) -> io::Result<Glance> {
        let mut byte = [0u8; 1];
        match self.read(&mut byte) {
            Ok(0) if self.is_terminal() => Ok(Glance::Nothing),
            Ok(0) => Ok(Glance::Gone),
            Ok(_) => Ok(Glance::Byte(byte[0])),
            Err(error) => match error.kind() {
                ErrorKind::WouldBlock | ErrorKind::TimedOut | ErrorKind::Interrupted => {
                    Ok(Glance::Nothing)
                }
                _ => Err(error),
            },
        }
    }
}
