//! The system in which a request is done.

use console_lines::{Consoles, Devices, SystemConsoles, TimedStream};
use input_files::InputFiles;
use record_file::{Disk, Locks};
use std::marker::Model;
use std::net::Net;
use std::rt::Files;
use std::time::Clock;
use witness::{Watched, Witness};

/// Of which types the parts of a system are.
pub trait Kinds {
    /// The files of tapes, of scripts and of words.
    type Inputs: InputFiles + Drop;

    /// The disk of records and of new tapes.
    type Disk: Disk + Drop;

    /// The consoles that names stand for.
    type Consoles: Consoles + Drop;

    /// The clock.
    type Clock: Clock + Drop;
}

/// A system: all that a request needs beside the standard streams.
///
/// Contracts see what was asked of each part, as far as it tells, and the disk.
#[derive(Drop)]
pub struct System<K: Kinds> {
    /// The files of tapes, of scripts and of words, which are read.
    pub inputs: K::Inputs,

    /// The disk of records and of new tapes.
    pub disk: K::Disk,

    /// The consoles that names stand for.
    pub consoles: K::Consoles,

    /// The clock.
    pub clock: K::Clock,
}

impl<K: Kinds> Model for System<K> {
    ghost use Rattle.requests.specs.Asked.{SystemTold, asked_of, system_told};

    ghost Value = { SystemTold K.Disk };

    ghost view = { λ s. system_told (asked_of (K.Inputs.opened s.inputs) (K.Disk.asked s.disk) (K.Consoles.asked s.consoles) (K.Consoles.lines s.consoles))
        s.disk };
}

impl<K: Kinds> System<K> {
    ghost use Rattle.std.specs.Prelude.{◌≡◌};
    ghost use Rattle.requests.specs.Asked.{asked_of, system_told};

    /// The system of these parts.
    pub fn new(
        inputs: K::Inputs,
        disk: K::Disk,
        consoles: K::Consoles,
        clock: K::Clock,
    ) -> System<K>
        ensures { result ≡ system_told (asked_of (K.Inputs.opened inputs) (K.Disk.asked disk) (K.Consoles.asked consoles) (K.Consoles.lines consoles)) disk }
    {
        System {
            inputs,
            disk,
            consoles,
            clock,
        }
    }
}

/// One value that is every part.
impl<'c, S: TimedStream + Drop, F: Files + Locks + Net<Stream = S> + Devices + Clock> Kinds
    for &'c F {
    type Inputs = &'c F;

    type Disk = &'c F;

    type Consoles = SystemConsoles<'c, &'c F, F>;

    type Clock = &'c F;
}

/// A system of which one value is every part.
pub type SharedSystem<'c, F> = System<&'c F>;

impl<'c, S: TimedStream + Drop, F: Files + Locks + Net<Stream = S> + Devices + Clock> SharedSystem<
    'c,
    F,
> {
    ghost use Rattle.std.specs.Prelude.{◌≡◌};
    ghost use Rattle.requests.specs.Asked.{untold};

    /// All parts of a system, of which none tells what is asked of it.
    pub fn of(system: &'c F) -> SharedSystem<'c, F>
        ensures { result.asked ≡ untold }
    {
        let consoles = SystemConsoles {
            outlets: system,
            clock: system,
        };
        System::new(system, system, consoles, system)
    }
}

/// The same parts, each of which is watched.
impl<'c, S: TimedStream + Drop, F: Files + Locks + Net<Stream = S> + Devices + Clock> Kinds
    for Watched<'c, &'c F> {
    type Inputs = Watched<'c, &'c F>;

    type Disk = Watched<'c, &'c F>;

    type Consoles = SystemConsoles<'c, Watched<'c, &'c F>, F>;

    type Clock = &'c F;
}

/// A system of which one value is every part, and which is watched.
pub type WatchedSystem<'c, F> = System<Watched<'c, &'c F>>;

impl<'c, S: TimedStream + Drop, F: Files + Locks + Net<Stream = S> + Devices + Clock> WatchedSystem<
    'c,
    F,
> {
    ghost use Rattle.std.specs.Prelude.{◌≡◌};
    ghost use Rattle.requests.specs.Asked.{untold};

    /// All parts of a system, of which none tells what is asked of it. How one of them fails is remembered.
    pub fn watching(system: &'c F, witness: &'c Witness) -> WatchedSystem<'c, F>
        ensures { result.asked ≡ untold }
    {
        let consoles = SystemConsoles {
            outlets: Watched::new(system, witness),
            clock: system,
        };
        System::new(
            Watched::new(system, witness),
            Watched::new(system, witness),
            consoles,
            system,
        )
    }
}
