//! An output of faults that fails once, and tells what it took.
ghost use Rattle.std.specs.Prelude.{◌≡◌, Some};
ghost use Rattle.std.specs.Io.{WritesAtMost};
ghost use Rattle.std.specs.Io.KnownBytes.{WriteAppends};

use endings::FaultOutput;
use std::alloc::Global;
use std::io;
use std::io::{ErrorKind, Write};

/// Takes a few bytes of each write, and fails at one of them: once, with the error that a hidden
/// second try would cover up. It counts how often it was asked after that.
#[derive(Drop)]
pub(crate) struct BrokenOutput {
    /// What was written.
    pub(crate) written: Vec<u8>,
    writes: u32,
    fails_at: u32,
    failures: u32,
    later_writes: u32,

    /// How often it took nothing of a fault.
    pub(crate) refused: u64,
}

// How many bytes a write takes.
const TAKEN: usize = 7;

impl BrokenOutput {
    /// Fails at the write of this number, from 1. It has not failed yet.
    pub(crate) fn new(alloc: Global, fails_at: u32) -> BrokenOutput {
        BrokenOutput {
            written: Vec::new(alloc),
            writes: 0,
            fails_at,
            failures: 0,
            later_writes: 0,
            refused: 0,
        }
    }

    /// Whether it failed, and was not asked again.
    pub(crate) fn failed_once(&self) -> bool {
        self.failures == 1 && self.later_writes == 0
    }
}

impl Write for BrokenOutput {
    ghost contents = { λ output. Some output.written.items };

    fn write(&mut self, buf: &[u8]) -> io::Result<usize>
        ensures bound { WritesAtMost result buf.now }
        ensures bytes { WriteAppends (Some self.old.written.items) (Some self.new.written.items) result buf.now }
        ensures same { self.new.refused ≡ self.old.refused }
    {
        self.writes = self.writes.saturating_add(1);
        if self.failures > 0 {
            self.later_writes = self.later_writes.saturating_add(1);
        } else if self.writes == self.fails_at {
            self.failures = 1;
            return Err(io::Error::from(ErrorKind::Interrupted));
        }
        let count = buf.len().min(TAKEN);
        self.written.extend_from_slice(&buf[..count])?;
        Ok(count)
    }

    fn flush(&mut self) -> io::Result<()> {
        Ok(())
    }
}

// As standard error it tells all, so that the clauses of what is said there are no empty ones.
impl FaultOutput for BrokenOutput {
    ghost said = { λ output. record { text = Some output.written.items; failures = Some output.refused } };

    fn put(&mut self, text: &[u8]) -> io::Result<usize> {
        let taken = self.write(text);
        if !matches!(&taken, Ok(1..)) {
            self.refused = self.refused.saturating_add(1);
        }
        taken
    }
}
