//! The line over a TCP connection.
ghost use Rattle.std.specs.Prelude.{◌≡◌, ◌⊎◌, IfOk, IfErr};
ghost use Rattle.host_devices.specs.Told.{Gains};
ghost use Rattle.console_lines.specs.Dialling.{ToPort, asked_for};
ghost use Rattle.console_lines.specs.StreamLine.{IsFreshLine};

use crate::outlets::Outlets;
use crate::receive::TimedStream;
use crate::stream_line::StreamLine;
use host_devices::LineFault;

/// A line over a socket: the console is behind a port of the network.
pub type SocketLine<S> = StreamLine<S>;

impl<S: TimedStream + Drop> StreamLine<S> {
    /// A line over a connection to `HOST:PORT`, which is dialled once. Where the name has several addresses
    /// they are tried in turn.
    ///
    /// `Connect` where none answers or there is none, and `Receive` as in `new`.
    pub fn connect<O: Outlets<Stream = S>>(
        network: &mut O,
        address: &str,
        quiet_ms: u32,
    ) -> Result<StreamLine<S>, LineFault>
        ensures fresh { IfOk result IsFreshLine }
        ensures fault { IfErr result (λ fault. (fault ≡ LineFault.Connect) ⊎ (fault ≡ LineFault.Receive)) }
        ensures asked { Gains (O.asked network.old) (O.asked network.new) (asked_for (ToPort address.now quiet_ms) result) }
    {
        let Ok(stream) = network.dial(address) else {
            return Err(LineFault::Connect);
        };
        match network.limit(&stream, quiet_ms) {
            Ok(()) => Ok(StreamLine::over(stream)),
            Err(_) => Err(LineFault::Receive),
        }
    }
}
