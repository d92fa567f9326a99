//! Where faults are said, with no second try where that fails.
ghost use Rattle.std.specs.Prelude.{Some, None, OnOk, OnErr};
ghost use Rattle.std.specs.Io.{WritesAtMost};
ghost use Rattle.std.specs.Io.KnownBytes.{WriteAppends};
ghost use Rattle.endings.specs.FaultOutput.{StandardError, CountsWrite, IsSaidInPart, IsSaidWhole, untold};

use byte_io::WriteFault;
use std::io;
use std::io::{Stderr, Write};

/// What faults are written to: standard error.
pub trait FaultOutput: Write {
    /// What it holds, and how many writes failed, or took nothing of a text, each where the type tells.
    ghost said: { Self → StandardError } = { λ _. untold };

    /// Writes a beginning of the text, as `write` does, and answers how many bytes it took.
    fn put(&mut self, text: &[u8]) -> io::Result<usize>
        ensures bound { WritesAtMost result text.now }
        ensures bytes { WriteAppends (said self.old).text (said self.new).text result text.now }
        ensures counted { CountsWrite (said self.old).failures (said self.new).failures result };
}

impl FaultOutput for Stderr {
    fn put(&mut self, text: &[u8]) -> io::Result<usize> {
        self.write(text)
    }
}

// A text in memory, in which a line is gathered.
impl FaultOutput for Vec<u8> {
    ghost said = { λ text. record { text = Some text.items; failures = None } };

    fn put(&mut self, text: &[u8]) -> io::Result<usize> {
        self.write(text)
    }
}

/// Says a text. At the first write that fails, or takes nothing, it stops.
pub fn say<E: FaultOutput>(err: &mut E, text: &[u8]) -> Result<(), WriteFault>
    ensures ok { OnOk result (IsSaidWhole (E.said err.old) (E.said err.new) text.now) }
    ensures err { OnErr result (IsSaidInPart (E.said err.old) (E.said err.new) text.now) }
{
    let mut left = text;
    while !left.is_empty() {
        match err.put(left) {
            Ok(0) | Err(_) => return Err(WriteFault),
            Ok(count) => left = &left[count..],
        }
    }
    Ok(())
}
