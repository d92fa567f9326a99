//! A line to the console at a serial device.
ghost use Rattle.std.specs.Prelude.{◌≡◌, ◌⊎◌, IfOk, IfErr};
ghost use Rattle.host_devices.specs.Told.{Gains};
ghost use Rattle.console_lines.specs.Dialling.{ToDevice, asked_for};
ghost use Rattle.console_lines.specs.StreamLine.{IsFreshLine};

use crate::device::Device;
use crate::outlets::Outlets;
use crate::stream_line::StreamLine;
use host_devices::LineFault;
use std::time::Clock;

/// A line over a device, with the clock that measures the silences.
pub type DeviceLine<'a, T, C> = StreamLine<Device<'a, T, C>>;

/// Opens the device at a path, once, and makes it a line on which silence for the quiet time, in
/// milliseconds by this clock, is heard as such.
///
/// `Connect` where it can't be opened, is no terminal or is in use, and `Receive` where the quiet time
/// is 0; it is then closed.
pub fn open_line<'a, O: Outlets, C: Clock>(
    devices: &mut O,
    clock: &'a C,
    path: &str,
    quiet_ms: u32,
) -> Result<DeviceLine<'a, O::Terminal, C>, LineFault>
    ensures fresh { IfOk result IsFreshLine }
    ensures fault { IfErr result (λ fault. (fault ≡ LineFault.Connect) ⊎ (fault ≡ LineFault.Receive)) }
    ensures asked { Gains (O.asked devices.old) (O.asked devices.new) (asked_for (ToDevice path.now quiet_ms) result) }
{
    match devices.open_device(path) {
        Ok(terminal) => StreamLine::new(devices.limit_device(terminal, clock, quiet_ms), quiet_ms),
        Err(_) => Err(LineFault::Connect),
    }
}
