//! A stream of which all that has come is read at once.
ghost use Rattle.std.specs.Prelude.{◌≡◌, ◌≤◌, ◌<◌, [], ◌++◌, length, take};
ghost use Rattle.std.specs.Io.{WritesAtMost};
ghost use Rattle.std.specs.Io.KnownBytes.{Keeps, WriteAppends, prepend_known};
ghost use Rattle.console_lines.specs.ReadAhead.{is_over_behind, left_ahead};

use crate::receive::TimedStream;
use std::io;
use std::io::Write;
use std::net::OpenStream;

// How many bytes one read takes at most. No answer of a console has so many.
const MOST: usize = 64;

/// A stream that is read ahead: a read takes as many bytes as have come, and they are given one by one.
///
/// What comes of a socket is for nobody else. Of a device, which somebody else may read next, each read takes one byte.
#[derive(Drop)]
pub(crate) struct ReadAhead<S: TimedStream> {
    pub(crate) stream: S,

    // What was read, so many bytes, of which so many were given.
    pub(crate) bytes: [u8; MOST],
    pub(crate) filled: usize,
    pub(crate) given: usize,

    ghost room: { filled ≤ 64 },
}

impl<S: TimedStream> ReadAhead<S> {
    /// A stream of which nothing was read ahead.
    pub(crate) fn new(stream: S) -> ReadAhead<S>
        ensures stream { result.stream ≡ stream }
        ensures none { left_ahead result.bytes result.given result.filled ≡ [] }
    {
        ReadAhead {
            stream,
            bytes: [0; MOST],
            filled: 0,
            given: 0,
        }
    }

    // Gives the next of what was read ahead, if any is left and there is room for it.
    fn give(&mut self, buf: &mut [u8]) -> usize
        ensures given { left_ahead self.old.bytes self.old.given self.old.filled
            ≡ take result buf.new ++ left_ahead self.new.bytes self.new.given self.new.filled }
        ensures bound { result ≤ length buf.new }
        ensures none { result ≡ 0 → 0 < length buf.new → left_ahead self.old.bytes self.old.given self.old.filled ≡ [] }
        ensures same { self.new.stream ≡ self.old.stream }
    {
        if self.given >= self.filled || buf.is_empty() {
            return 0;
        }
        buf[0] = self.bytes[self.given];
        self.given += 1;
        1
    }
}

impl<S: TimedStream> TimedStream for ReadAhead<S> {
    ghost to_come = { λ it. prepend_known (left_ahead it.bytes it.given it.filled) (S.to_come it.stream) };

    ghost ahead = { λ it. left_ahead it.bytes it.given it.filled };

    ghost silences = { λ it. S.silences it.stream };

    ghost is_over = { λ it. is_over_behind (left_ahead it.bytes it.given it.filled) (S.is_over it.stream) };

    fn read_in_time(&mut self, buf: &mut [u8]) -> io::Result<usize> {
        if self.given < self.filled {
            return Ok(self.give(buf));
        }
        let count = self.stream.read_in_time(&mut self.bytes)?;
        self.filled = count;
        self.given = 0;
        Ok(self.give(buf))
    }
}

impl<S: TimedStream> Write for ReadAhead<S> {
    ghost contents = { λ it. S.contents it.stream };

    fn write(&mut self, buf: &[u8]) -> io::Result<usize>
        ensures bound { WritesAtMost result buf.now }
        ensures bytes { WriteAppends (S.contents self.old.stream) (S.contents self.new.stream) result buf.now }
        ensures ahead { left_ahead self.new.bytes self.new.given self.new.filled ≡ left_ahead self.old.bytes self.old.given self.old.filled }
    {
        self.stream.write(buf)
    }

    fn flush(&mut self) -> io::Result<()>
        ensures bytes { Keeps (S.contents self.old.stream) (S.contents self.new.stream) }
        ensures ahead { left_ahead self.new.bytes self.new.given self.new.filled ≡ left_ahead self.old.bytes self.old.given self.old.filled }
    {
        self.stream.flush()
    }
}

// Its stream was set before.
impl<S: TimedStream> OpenStream for ReadAhead<S> {}
