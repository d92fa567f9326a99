//! A system of which each part tells what is asked of it, and what `attempt` promises of one that does.
ghost use Rattle.std.specs.Prelude.{◌≡◌, ℕ, List, []};
ghost use Rattle.requests.specs.Asked.{asked_of, system_told};
ghost use Rattle.requests.specs.Attempt.{IsAttempted};
ghost use Rattle.request_values.specs.Change.{◌⇒◌};
ghost use Rattle.command_tests.specs.ToldSystem.{held_told, moment_told};

use crate::told_consoles::ToldConsoles;
use crate::told_inputs::ToldInputs;
use endings::{Status, Streams};
use request_values::Request;
use requests::{Kinds, System, attempt};
use std::alloc::Global;
use std::io::Stderr;
use std::marker::Model;
use std::process::Abort;
use std::rt::Files;
use std::time::Clock;
use told_calls::ToldDisk;
use witness::Witness;

/// The kinds of its parts.
pub(crate) struct Telling<'a, R: Abort + Files + Clock> {
    rt: &'a R,
}

impl<'a, R: Abort + Files + Clock> Kinds for Telling<'a, R> {
    type Inputs = ToldInputs<'a, R>;

    type Disk = ToldDisk<'a>;

    type Consoles = ToldConsoles<'a, R>;

    type Clock = &'a R;
}

/// Its parts.
#[derive(Drop)]
pub(crate) struct ToldSystem<'a, R: Abort + Files> {
    pub(crate) inputs: ToldInputs<'a, R>,
    pub(crate) disk: ToldDisk<'a>,
    pub(crate) consoles: ToldConsoles<'a, R>,
}

impl<'a, R: Abort + Files> Model for ToldSystem<'a, R> {
    ghost use Rattle.requests.specs.Asked.{SystemAsked};
    ghost use Rattle.told_calls.specs.ToldSteps.{steps_of};
    ghost use Rattle.command_tests.specs.ToldSystem.{asked_told};

    ghost Value = { SystemAsked };

    ghost view = { λ s. asked_told s.inputs.opened.items (steps_of s.disk.asked) s.consoles.asked.items s.consoles.given_back.items };
}

// No terminal looks on.
const NOBODY: Option<&Stderr> = None;

/// What a request left.
#[derive(Drop)]
pub(crate) struct Ended {
    pub(crate) status: Status,
    pub(crate) changed: u32,
    pub(crate) out: Vec<u8>,
    pub(crate) err: Vec<u8>,
}

/// Does a request in it, with this input. What `attempt` promises of a system that tells is so of this one.
pub(crate) fn attempt_told<'a, R: Abort + Files + Clock>(
    rt: &'a R,
    alloc: Global,
    system: ToldSystem<'a, R>,
    request: &Request<'_>,
    input: &[u8],
) -> (ToldSystem<'a, R>, Ended)
    ensures { (rest : List ℕ) × IsAttempted request.now
        (moment_told system.entry (held_told input.now [] []) ⇒ moment_told result.0 (held_told rest result.1.out.items result.1.err.items))
        (record { status = result.1.status; changed = result.1.changed }) }
{
    let ToldSystem {
        inputs,
        disk,
        consoles,
    } = system;
    let system: System<Telling<'a, R>> = System::new(inputs, disk, consoles, rt);
    let mut streams = Streams {
        input,
        out: Vec::new(alloc),
        err: Vec::new(alloc),
    };
    let (system, attempted) = attempt(
        system,
        alloc,
        request,
        &mut streams,
        NOBODY,
        &Witness::new(),
    );
    let ended = Ended {
        status: attempted.status,
        changed: attempted.changed,
        out: streams.out,
        err: streams.err,
    };
    let (inputs, disk, consoles) = parts_of(system);
    let system = ToldSystem {
        inputs,
        disk,
        consoles,
    };
    (system, ended)
}

// The parts of a system that tell.
fn parts_of<K: Kinds>(system: System<K>) -> (K::Inputs, K::Disk, K::Consoles)
    ensures { system ≡ system_told (asked_of (K.Inputs.opened result.0) (K.Disk.asked result.1) (K.Consoles.asked result.2) (K.Consoles.lines result.2)) result.1 }
{
    let System {
        inputs,
        disk,
        consoles,
        ..
    } = system;
    (inputs, disk, consoles)
}
