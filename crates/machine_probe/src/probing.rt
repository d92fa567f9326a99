//! The command `probe`.
ghost use Rattle.std.specs.Prelude.{◌≡◌, [], IfErr, IfOk, OnErr, OnOk};
ghost use Rattle.host_devices.specs.Devices.{line_told};
ghost use Rattle.host_devices.specs.Told.{Gains};
ghost use Rattle.console_lines.specs.Dialling.{asked_once};
ghost use Rattle.tape_values.specs.Told.{IsAsTold};
ghost use Rattle.reading_core.specs.Addresses.{IsAddress};
ghost use Rattle.console_lines.specs.Console.{console_told};
ghost use Rattle.console_lines.specs.Path.{call_of};
ghost use Rattle.machine_probe.specs.Follow.{IsBrokenOff};
ghost use Rattle.machine_probe.specs.Probe.{IsReport, IsProbeReported, OverLine};
ghost use Rattle.machine_probe.specs.ProbeFault.{way_told, IsProbeFault, IsUnreported};
ghost use Rattle.machine_probe.specs.Rooms.{AreLookers};
ghost use Rattle.machine_probe.specs.Runs.{OnLine};
ghost use Rattle.request_values.specs.Change.{◌⇒◌};

use crate::noted_line::{FirstTold, NotedLine};
use crate::probe_fault::ProbeFault;
use crate::probe_options::ProbeOptions;
use crate::runs::{Lookers, make_runs};
use byte_io::write_and_flush;
use console_lines::{Consoles, Dial};
use host_devices::{Line, Onlooker};
use probe_report::{ProbeEnd, Report, push_report};
use std::alloc::{AllocError, Global};
use std::io::Write;
use std::marker::Brand;
use std::time::Clock;

/// Tries whether a console forgets digits at an illegal key, and reports what it found: whether a prompt
/// was heard, the console's style, whether it keeps small letters, whether it forgets, where memory ends,
/// how fast it goes, how many characters came changed in its looks, of which the onlooker is told, and how the probe ended.
///
/// The word at the address is looked at, tried and looked at again, also where the trial gave up. Where
/// the second look reads a number that the typed digits make, the old one is put back; where it reads the
/// same and the trial came to its end, the end of memory is searched; where it reads yet another, nothing
/// more is typed. Each run has at most 10,000 turns, and 100 more for each mishap of the patience.
///
/// `Connect` comes before anything was sent. `WriteOutput` is a report that could not be written whole.
/// `Memory` comes only where a growth was refused, with nothing reported: before a digit was typed, or
/// behind a second look that read the same number.
pub fn probe<C: Consoles, W: Write, T: Clock, O: Onlooker>(
    alloc: Global,
    options: ProbeOptions,
    consoles: &mut C,
    dial: Dial<'_>,
    out: &mut W,
    clock: &T,
    onlooker: &O,
) -> Result<ProbeEnd, ProbeFault>
    requires { IsAddress options.address }
    ensures ok { IfOk result (IsProbeReported (OverLine C.Line.Line) options
        (console_told C.Consoles W.Write (call_of dial.entry) consoles.old out.old
        ⇒ console_told C.Consoles W.Write (call_of dial.entry) consoles.new out.new)) }
    ensures err { IfErr result (IsProbeFault (OverLine C.Line.Line) options
        (console_told C.Consoles W.Write (call_of dial.entry) consoles.old out.old
        ⇒ console_told C.Consoles W.Write (call_of dial.entry) consoles.new out.new)) }
{
    let mut report = Report::new();
    let end = gather(alloc, options, consoles, dial, clock, onlooker, &mut report)?;
    write_and_flush(out, &report)?;
    Ok(end)
}

// Reaches the console, makes the probe, and puts its report into an empty text. Everything that fails
// here comes before anything was reported.
fn gather<C: Consoles, T: Clock, O: Onlooker>(
    alloc: Global,
    options: ProbeOptions,
    consoles: &mut C,
    dial: Dial<'_>,
    clock: &T,
    onlooker: &O,
    report: &mut Report,
) -> Result<ProbeEnd, ProbeFault>
    requires address { IsAddress options.address }
    requires empty { report.old.items ≡ [] }
    ensures report { IfOk result (λ end. OverLine C.Line.Line (C.lines consoles.old ⇒ C.lines consoles.new)
        (λ line. IsReport options line report.new.items end)) }
    ensures asked { OnOk result (Gains (C.asked consoles.old) (C.asked consoles.new) (asked_once (call_of dial.entry))) }
    ensures fault { IfErr result (IsUnreported (OverLine C.Line.Line) options
        (way_told C.Consoles (call_of dial.entry) consoles.old ⇒ way_told C.Consoles (call_of dial.entry) consoles.new)) }
{
    let lookers = Lookers::new(alloc, options)?;
    let line = consoles.reach(dial)?;
    let (outcome, line) = report_noted::<C::Line, T, O, Brand>(
        alloc, lookers, options, line, clock, onlooker, report,
    );
    consoles.let_go(line);
    match outcome {
        Ok(end) => Ok(end),
        Err(_) => Err(ProbeFault::Memory),
    }
}

// Makes the runs of a probe over a fresh line, which comes back, and puts their report into an empty text. `E` names what the
// line told at first.
fn report_noted<L: Line, T: Clock, O: Onlooker, E: FirstTold>(
    alloc: Global,
    lookers: Lookers,
    options: ProbeOptions,
    line: L,
    clock: &T,
    onlooker: &O,
    report: &mut Report,
) -> (Result<ProbeEnd, AllocError>, L)
    requires address { IsAddress options.address }
    requires lookers { AreLookers options lookers }
    requires opening { L.told line ≡ E.told }
    requires fresh { IsAsTold (L.told line) [] }
    requires empty { report.old.items ≡ [] }
    ensures report { IfOk result.0 (IsReport options (line_told L.Line line ⇒ line_told L.Line result.1) report.new.items) }
    ensures wanting { OnErr result.0 (OnLine (IsBrokenOff options) (L.told line) (L.told result.1)) }
{
    let mut noted: NotedLine<'_, L, T, E> = NotedLine::new(line, clock);
    let outcome = report_runs(alloc, lookers, options, &mut noted, onlooker, report);
    (outcome, noted.into_line())
}

// Makes the runs of a probe over a line that notes them, and puts their report into an empty text.
fn report_runs<L: Line, T: Clock, O: Onlooker, E: FirstTold>(
    alloc: Global,
    lookers: Lookers,
    options: ProbeOptions,
    line: &mut NotedLine<'_, L, T, E>,
    onlooker: &O,
    report: &mut Report,
) -> Result<ProbeEnd, AllocError>
    requires address { IsAddress options.address }
    requires lookers { AreLookers options lookers }
    requires opening { L.told line.old ≡ E.told }
    requires fresh { IsAsTold (L.told line.old) [] }
    requires empty { report.old.items ≡ [] }
    ensures report { IfOk result (IsReport options (line_told L.Line line.old ⇒ line_told L.Line line.new) report.new.items) }
    ensures wanting { OnErr result (OnLine (IsBrokenOff options) (L.told line.old) (L.told line.new)) }
{
    let findings = make_runs(alloc, lookers, options, line, onlooker)?;
    Ok(push_report(report, &findings, line.notes(), line.pace()))
}
