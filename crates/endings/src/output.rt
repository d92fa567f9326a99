//! Outputs that know whether they found their reader gone.
ghost use Rattle.std.specs.Prelude.{◌≡◌, Bool, false};
ghost use Rattle.std.specs.Io.{WritesAtMost};
ghost use Rattle.std.specs.Io.KnownBytes.{Keeps, WriteAppends};
ghost use Rattle.endings.specs.Output.{Notes};

use std::io;
use std::io::{ErrorKind, Write};

/// What reports and help are written to.
pub trait Output: Write {
    /// Whether a write or a flush has found that nobody reads any more.
    ghost unread: { Self → Bool };

    /// Whether a write or a flush has found that nobody reads any more.
    fn is_unread(&self) -> bool
        ensures { result ≡ unread self.now };
}

// A text in memory can always be read.
impl Output for Vec<u8> {
    ghost unread = { λ _. false };

    fn is_unread(&self) -> bool {
        false
    }
}

/// An output that notes the broken pipe: whoever read it has gone.
#[derive(Drop)]
pub struct PipedOutput<W> {
    output: W,
    unread: bool,
}

impl<W> PipedOutput<W> {
    ghost use Rattle.std.specs.Prelude.{◌≡◌, false};

    /// Watches an output, of which nothing is known yet.
    pub fn new(output: W) -> PipedOutput<W>
        ensures output { result.output ≡ output }
        ensures unread { result.unread ≡ false }
    {
        PipedOutput {
            output,
            unread: false,
        }
    }

    // Notes what came of a write or a flush.
    fn note<T>(&mut self, answer: &io::Result<T>)
        ensures same { self.new.output ≡ self.old.output }
        ensures noted { Notes self.old.unread answer.now self.new.unread }
    {
        if let Err(error) = answer {
            if error.kind() == ErrorKind::BrokenPipe {
                self.unread = true;
            }
        }
    }
}

impl<W: Write> Write for PipedOutput<W> {
    ghost contents = { λ piped. W.contents piped.output };

    fn write(&mut self, buf: &[u8]) -> io::Result<usize>
        ensures bound { WritesAtMost result buf.now }
        ensures bytes { WriteAppends (W.contents self.old.output) (W.contents self.new.output) result buf.now }
        ensures noted { Notes self.old.unread result self.new.unread }
    {
        let answer = self.output.write(buf);
        self.note(&answer);
        answer
    }

    fn flush(&mut self) -> io::Result<()>
        ensures bytes { Keeps (W.contents self.old.output) (W.contents self.new.output) }
        ensures noted { Notes self.old.unread result self.new.unread }
    {
        let answer = self.output.flush();
        self.note(&answer);
        answer
    }
}

impl<W: Write> Output for PipedOutput<W> {
    ghost unread = { λ piped. piped.unread };

    fn is_unread(&self) -> bool {
        self.unread
    }
}
