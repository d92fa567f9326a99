//! A machine in memory, at which every name leads to one console.

use console_lines::{Consoles, Dial};
use honest_line::{Loss, MemoryLine};
use host_devices::LineFault;
use odt_machine::{LARGEST_WORDS, Odt, PLAIN_STYLE};
use std::alloc::Global;

// How much may be said on a line.
const ROOM: u32 = 20_000;

/// One of the names.
pub(crate) const CALLED: Dial<'static> = Dial {
    name: "127.0.0.1:2323",
    quiet_ms: 100,
};

/// A machine in memory, or none.
#[derive(Drop)]
pub(crate) struct MemoryConsoles {
    alloc: Global,

    /// The machine, until a line to it is open.
    odt: Option<Odt>,

    /// What is lost on that line.
    losses: Vec<Loss>,
}

impl MemoryConsoles {
    /// This machine, whose line loses nothing.
    pub(crate) fn new(alloc: Global, odt: Option<Odt>) -> MemoryConsoles {
        MemoryConsoles {
            alloc,
            odt,
            losses: Vec::new(alloc),
        }
    }

    /// The same, whose line loses this.
    pub(crate) fn losing(mut self, losses: Vec<Loss>) -> MemoryConsoles {
        self.losses = losses;
        self
    }
}

impl Consoles for MemoryConsoles {
    type Line = MemoryLine;

    fn reach(&mut self, _dial: Dial<'_>) -> Result<MemoryLine, LineFault> {
        let Some(odt) = self.odt.take() else {
            return Err(LineFault::Connect);
        };
        let losses = std::mem::replace(&mut self.losses, Vec::new(self.alloc));
        match MemoryLine::new(self.alloc, odt, losses, ROOM, None) {
            Ok(line) => Ok(line),
            Err(_) => Err(LineFault::Connect),
        }
    }

    // Its machine goes with it.
    fn let_go(&mut self, _line: MemoryLine) {}
}

/// The largest machine, of zeros, into which nobody has typed; none for want of memory.
pub(crate) fn new_machine(alloc: Global) -> Option<Odt> {
    Odt::new(alloc, LARGEST_WORDS, PLAIN_STYLE).ok()
}
