//! The lines to a console, how each is reached, and what is heard of it behind a load.
//!
//! Whoever needs a line asks the `Consoles` of a system for it, by a `Dial`: `SystemConsoles` connect to HOST:PORT, or open
//! a serial device, once and by the name that was given, and `is_path` tells which of both a name is. A line that was
//! reached is fresh; it is given back, and what was said on it is told from there on. A `StreamLine` makes of a stream's
//! bytes characters of seven bits and silences; a silence is never made up: a socket's read met its time limit, or each
//! look at a `Device` was in vain, as many as its quiet time has. `listen` copies what is heard to an output, and types
//! nothing.
//!
//! Used by the crates `machine_load`, `machine_look`, `machine_probe` and `requests`.
#![tactic(auto)]

mod consoles;
mod device;
mod device_line;
mod devices;
mod dial;
mod listening;
mod outlets;
mod pause;
mod read_ahead;
mod receive;
mod socket;
mod stream;
mod stream_line;
mod system_consoles;
mod terminal;

pub use consoles::Consoles;
pub use device::Device;
pub use device_line::{DeviceLine, open_line};
pub use devices::{Devices, open_terminal};
pub use dial::Dial;
pub use listening::{listen, silences_within};
pub use outlets::Outlets;
pub use receive::TimedStream;
pub use socket::SocketLine;
pub use stream_line::StreamLine;
pub use system_consoles::{ConsoleLine, SystemConsoles, is_path};
pub use terminal::{Glance, Terminal};
