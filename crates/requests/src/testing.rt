//! Testing the memory of a real machine.
ghost use Rattle.std.specs.Prelude.{◌≡◌, IfOk, IfErr};
ghost use Rattle.console_lines.specs.Console.{console_told};
ghost use Rattle.request_values.specs.Change.{◌⇒◌};
ghost use Rattle.requests.specs.Moment.{call_for, moment};
ghost use Rattle.machine_memory.specs.Options.{IsAsked};
ghost use Rattle.requests.specs.Testing.{AreWordsTested, AreWordsUntested, IsTestFailure, IsTestOver, test_options};

use crate::ending::after_test;
use crate::request_fault::RequestFault;
use crate::system::{Kinds, System};
use crate::test_line::TestLine;
use crate::watch::Watch;
use console_lines::{Consoles, Dial};
use endings::{Failure, FaultOutput, Output, Status, Streams};
use machine_memory::{MemoryOptions, test_memory};
use progress_display::KeptIn;
use request_values::MemoryTest;
use std::alloc::Global;
use std::io::{Print, Read, Write};
use std::time::Clock;
use witness::Witness;

/// Tests the memory of a real machine, in a system, and answers the exit status.
///
/// The report goes to standard output. No file is opened, and nothing is asked of the disk. A terminal, where there
/// is one, shows how far the test is, and which word holds another number than it did.
///
/// `CannotConnect` comes before anything was sent. `LineFailed` comes behind the report. `CannotWrite` is a report
/// that could not be written whole. `NoMemory` comes only where a growth was refused, with nothing reported.
pub(crate) fn test_words<'a, K: Kinds, R: Read, W: Output, E: FaultOutput, T: Print>(
    system: &mut System<K>,
    alloc: Global,
    request: MemoryTest<'a>,
    streams: &mut Streams<R, W, E>,
    terminal: Option<&T>,
    witness: &Witness,
) -> Result<Status, Failure<'a>>
    ensures ok { IfOk result (AreWordsTested request.entry (moment K.Disk.holds system.old streams.old ⇒ moment K.Disk.holds system.new streams.new)) }
    ensures err { IfErr result (AreWordsUntested request.entry (moment K.Disk.holds system.old streams.old ⇒ moment K.Disk.holds system.new streams.new)) }
    ensures quiet { streams.new.err ≡ streams.old.err }
{
    test_over(
        alloc,
        request,
        &mut system.consoles,
        &mut streams.out,
        &system.clock,
        terminal,
        witness,
    )
}

// Tests it over the line of one of these consoles.
fn test_over<'a, C: Consoles, W: Write, H: Clock, T: Print>(
    alloc: Global,
    request: MemoryTest<'a>,
    consoles: &mut C,
    out: &mut W,
    clock: &H,
    terminal: Option<&T>,
    witness: &Witness,
) -> Result<Status, Failure<'a>>
    ensures ok { IfOk result (IsTestOver request.entry
        (console_told C.Consoles W.Write (call_for request.entry.look) consoles.old out.old
        ⇒ console_told C.Consoles W.Write (call_for request.entry.look) consoles.new out.new)) }
    ensures err { IfErr result (IsTestFailure request.entry
        (console_told C.Consoles W.Write (call_for request.entry.look) consoles.old out.old
        ⇒ console_told C.Consoles W.Write (call_for request.entry.look) consoles.new out.new)) }
{
    let look = request.look;
    let dial = Dial {
        name: look.line,
        quiet_ms: look.quiet_ms,
    };
    let shown = TestLine::new(Watch::new(clock, terminal, KeptIn::Nothing, witness));
    let tested = test_memory(alloc, test_options(&request), consoles, dial, out, &shown);
    shown.advise(tested);
    match tested {
        Ok(end) => after_test(end),
        // There is no file, so that no fault names one.
        Err(fault) => Err(RequestFault::Probe(fault).failure(look.line, look.line)),
    }
}

// Which words are to be tested, and how.
fn test_options(request: &MemoryTest<'_>) -> MemoryOptions
    ensures value { result ≡ test_options request.now }
    ensures asked { IsAsked result }
{
    MemoryOptions {
        from: request.range.from(),
        to: request.range.to(),
        every: request.every,
        patience: request.look.patience,
    }
}
