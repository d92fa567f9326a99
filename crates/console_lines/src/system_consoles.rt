//! The consoles of a real system: behind the ports of its network, and at its serial devices.
ghost use Rattle.std.specs.Prelude.{◌≡◌};
ghost use Rattle.console_lines.specs.Path.{has_slash};

use crate::consoles::Consoles;
use crate::device_line::{DeviceLine, open_line};
use crate::dial::Dial;
use crate::outlets::Outlets;
use crate::socket::SocketLine;
use host_core::Heard;
use host_devices::{Line, LineFault};
use std::time::Clock;

/// The consoles of a real system: behind the ports of its network, and at its serial devices.
#[derive(Drop)]
pub struct SystemConsoles<'c, O: Outlets, C: Clock> {
    /// The network and the devices.
    pub outlets: O,

    /// The clock that measures a device's silences.
    pub clock: &'c C,
}

/// The line of a console behind a port, or at a device.
pub enum ConsoleLine<P, D> {
    /// Behind a port of the network.
    Port(P),

    /// At a serial device.
    Device(D),
}

impl<P: Line, D: Line> Line for ConsoleLine<P, D> {
    ghost use Rattle.console_lines.specs.ConsoleLine.{of_line};

    ghost told = { of_line P.told D.told };

    ghost fault_count = { of_line P.fault_count D.fault_count };

    ghost last_fault = { of_line P.last_fault D.last_fault };

    fn send(&mut self, key: u8) -> Result<(), LineFault> {
        match self {
            ConsoleLine::Port(line) => line.send(key),
            ConsoleLine::Device(line) => line.send(key),
        }
    }

    fn hear(&mut self) -> Result<Heard, LineFault> {
        match self {
            ConsoleLine::Port(line) => line.hear(),
            ConsoleLine::Device(line) => line.hear(),
        }
    }

    fn failures(&self) -> u64 {
        match self {
            ConsoleLine::Port(line) => line.failures(),
            ConsoleLine::Device(line) => line.failures(),
        }
    }

    fn failed(&self) -> bool {
        match self {
            ConsoleLine::Port(line) => line.failed(),
            ConsoleLine::Device(line) => line.failed(),
        }
    }
}

impl<'c, O: Outlets, C: Clock> Consoles for SystemConsoles<'c, O, C> {
    type Line = ConsoleLine<SocketLine<O::Stream>, DeviceLine<'c, O::Terminal, C>>;

    ghost asked = { λ consoles. O.asked consoles.outlets };

    fn reach(
        &mut self,
        dial: Dial<'_>,
    ) -> Result<ConsoleLine<SocketLine<O::Stream>, DeviceLine<'c, O::Terminal, C>>, LineFault> {
        let Dial { name, quiet_ms } = dial;
        if is_path(name) {
            match open_line(&mut self.outlets, self.clock, name, quiet_ms) {
                Ok(line) => Ok(ConsoleLine::Device(line)),
                Err(fault) => Err(fault),
            }
        } else {
            match SocketLine::connect(&mut self.outlets, name, quiet_ms) {
                Ok(line) => Ok(ConsoleLine::Port(line)),
                Err(fault) => Err(fault),
            }
        }
    }

    // It is closed.
    fn let_go(&mut self, line: ConsoleLine<SocketLine<O::Stream>, DeviceLine<'c, O::Terminal, C>>) {
        match line {
            ConsoleLine::Port(_line) => {}
            ConsoleLine::Device(_line) => {}
        }
    }
}

/// Whether a name is the path of a device, and not HOST:PORT: whether it has a slash, which none of
/// those has. A device in the working folder is `./ttyUSB0`.
pub fn is_path(name: &str) -> bool
    ensures { result ≡ has_slash name.now }
{
    name.as_bytes().contains(&b'/')
}
