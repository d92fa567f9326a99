use crate::watched::Watched;
use console_lines::{Device, Outlets};
use std::io;
use std::time::Clock;

// A line knows itself how it failed, so that its stream and its device are not watched.
impl<'c, T: Outlets> Outlets for Watched<'c, T> {
    type Stream = T::Stream;

    type Terminal = T::Terminal;

    ghost asked = { λ watched. T.asked watched.part };

    ghost is_ready = { λ device. T.is_ready device };

    fn dial(&mut self, address: &str) -> io::Result<T::Stream> {
        self.witness.of_opening(self.part.dial(address))
    }

    fn limit(&mut self, stream: &T::Stream, quiet_ms: u32) -> io::Result<()> {
        self.witness.of_call(self.part.limit(stream, quiet_ms))
    }

    fn open_device(&mut self, path: &str) -> io::Result<T::Terminal> {
        self.witness.of_opening(self.part.open_device(path))
    }

    fn limit_device<'a, C: Clock>(
        &mut self,
        terminal: T::Terminal,
        clock: &'a C,
        quiet_ms: u32,
    ) -> Device<'a, T::Terminal, C> {
        self.part.limit_device(terminal, clock, quiet_ms)
    }
}
