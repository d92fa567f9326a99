//! Finding out what stands at the other end of a line.
ghost use Rattle.std.specs.Prelude.{◌≡◌, IfOk, IfErr};
ghost use Rattle.console_lines.specs.Console.{console_told};
ghost use Rattle.request_values.specs.Change.{◌⇒◌};
ghost use Rattle.requests.specs.Moment.{call_for, moment};
ghost use Rattle.requests.specs.Probing.{IsConsoleProbed, IsConsoleUnprobed, IsProbeFailure, IsProbeOver};

use crate::ending::after_probe;
use crate::request_fault::RequestFault;
use crate::system::{Kinds, System};
use console_lines::{Consoles, Dial};
use endings::{Failure, FaultOutput, Output, Status, Streams};
use machine_probe::{ProbeOptions, probe};
use request_values::Probe;
use std::alloc::Global;
use std::io::{Read, Write};
use std::time::Clock;
use witness::Witness;

/// Probes a console, in a system, and answers the exit status.
///
/// The report goes to standard output. No file is opened, and nothing is asked of the disk. The witness counts the changed
/// characters.
///
/// `CannotConnect` comes before anything was sent. `LineFailed` comes behind the report. `CannotWrite` is a report
/// that could not be written whole. `NoMemory` comes only where a growth was refused, with nothing reported.
pub(crate) fn probe_console<'a, K: Kinds, R: Read, W: Output, E: FaultOutput>(
    system: &mut System<K>,
    alloc: Global,
    request: Probe<'a>,
    streams: &mut Streams<R, W, E>,
    witness: &Witness,
) -> Result<Status, Failure<'a>>
    ensures ok { IfOk result (IsConsoleProbed request.entry (moment K.Disk.holds system.old streams.old ⇒ moment K.Disk.holds system.new streams.new)) }
    ensures err { IfErr result (IsConsoleUnprobed request.entry (moment K.Disk.holds system.old streams.old ⇒ moment K.Disk.holds system.new streams.new)) }
    ensures quiet { streams.new.err ≡ streams.old.err }
{
    let out = &mut streams.out;
    probe_over(
        alloc,
        request,
        &mut system.consoles,
        out,
        &system.clock,
        witness,
    )
}

// Probes one of these consoles.
fn probe_over<'a, C: Consoles, W: Write, H: Clock>(
    alloc: Global,
    request: Probe<'a>,
    consoles: &mut C,
    out: &mut W,
    clock: &H,
    witness: &Witness,
) -> Result<Status, Failure<'a>>
    ensures ok { IfOk result (IsProbeOver request.entry
        (console_told C.Consoles W.Write (call_for request.entry.look) consoles.old out.old
        ⇒ console_told C.Consoles W.Write (call_for request.entry.look) consoles.new out.new)) }
    ensures err { IfErr result (IsProbeFailure request.entry
        (console_told C.Consoles W.Write (call_for request.entry.look) consoles.old out.old
        ⇒ console_told C.Consoles W.Write (call_for request.entry.look) consoles.new out.new)) }
{
    let look = request.look;
    let options = ProbeOptions {
        address: request.address,
        patience: look.patience,
    };
    let dial = Dial {
        name: look.line,
        quiet_ms: look.quiet_ms,
    };
    match probe(alloc, options, consoles, dial, out, clock, witness) {
        Ok(end) => after_probe(end),
        // There is no file, so that no fault names one.
        Err(fault) => Err(RequestFault::Probe(fault).failure(look.line, look.line)),
    }
}
