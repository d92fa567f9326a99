//! The command `memory`.
ghost use Rattle.std.specs.Prelude.{◌≡◌, [], IfErr, IfOk, OnErr, OnOk};
ghost use Rattle.host_devices.specs.Told.{Gains};
ghost use Rattle.console_lines.specs.Dialling.{asked_once};
ghost use Rattle.console_lines.specs.Console.{console_told};
ghost use Rattle.console_lines.specs.Path.{call_of};
ghost use Rattle.request_values.specs.Change.{◌⇒◌};
ghost use Rattle.machine_probe.specs.Probe.{OverLine, said_on};
ghost use Rattle.machine_probe.specs.ProbeFault.{way_told};
ghost use Rattle.memory_report.specs.Report.{memory_text};
ghost use Rattle.machine_memory.specs.Ending.{end_at, found_at, memory_end};
ghost use Rattle.machine_memory.specs.MemoryFault.{IsMemoryFault, IsUnreported};
ghost use Rattle.machine_memory.specs.Options.{IsAsked};
ghost use Rattle.machine_memory.specs.Tested.{IsMemoryTested, IsReport};

use crate::course::{Course, Place};
use crate::memory_end::{MemoryEnd, memory_end};
use crate::memory_options::MemoryOptions;
use crate::steps::make_steps;
use byte_io::write_and_flush;
use console_lines::{Consoles, Dial};
use engine::Cut;
use host_devices::Onlooker;
use machine_probe::ProbeFault;
use memory_engine::WordWatch;
use memory_report::{Findings, Report, TestEnd, push_report};
use std::alloc::Global;
use std::io::Write;

/// Tests memory over a console's line, and reports what it found: a picture of the board, the words that do not hold, and how
/// the test ended.
///
/// First the console is tried at the first word, as `probe` does; where it stores digits at an illegal key nothing is tested.
/// Then every so manieth word is read twice, turned over and put back. Where nothing answers the test goes on at the next bank
/// of 4,096 words. Where each word of the range was tested, its bus is tested at the first word that holds: four numbers are
/// deposited there, one after another, and while it holds the last the words that are one address line away are looked at.
/// Then it gets its old number again.
///
/// `Connect` comes before anything was sent. `WriteOutput` is a report that could not be written whole. `Memory` comes only
/// where a growth was refused, with nothing reported.
pub fn test_memory<C: Consoles, W: Write, O: Onlooker + WordWatch>(
    alloc: Global,
    options: MemoryOptions,
    consoles: &mut C,
    dial: Dial<'_>,
    out: &mut W,
    onlooker: &O,
) -> Result<MemoryEnd, ProbeFault>
    requires { IsAsked options }
    ensures ok { IfOk result (IsMemoryTested (OverLine C.Line.Line) options
        (console_told C.Consoles W.Write (call_of dial.entry) consoles.old out.old
        ⇒ console_told C.Consoles W.Write (call_of dial.entry) consoles.new out.new)) }
    ensures err { IfErr result (IsMemoryFault (OverLine C.Line.Line) options
        (console_told C.Consoles W.Write (call_of dial.entry) consoles.old out.old
        ⇒ console_told C.Consoles W.Write (call_of dial.entry) consoles.new out.new)) }
{
    let mut report = Report::new();
    let end = gather(alloc, options, consoles, dial, onlooker, &mut report)?;
    write_and_flush(out, &report)?;
    Ok(end)
}

// Reaches the console, makes the test, and puts its report into an empty text. Everything that fails here comes before
// anything was reported.
fn gather<C: Consoles, O: Onlooker + WordWatch>(
    alloc: Global,
    options: MemoryOptions,
    consoles: &mut C,
    dial: Dial<'_>,
    onlooker: &O,
    report: &mut Report,
) -> Result<MemoryEnd, ProbeFault>
    requires asked { IsAsked options }
    requires empty { report.old.items ≡ [] }
    ensures report { IfOk result (λ end. OverLine C.Line.Line (C.lines consoles.old ⇒ C.lines consoles.new)
        (λ line. IsReport options (said_on line) report.new.items end)) }
    ensures asked { OnOk result (Gains (C.asked consoles.old) (C.asked consoles.new) (asked_once (call_of dial.entry))) }
    ensures fault { IfErr result (IsUnreported (OverLine C.Line.Line) options
        (way_told C.Consoles (call_of dial.entry) consoles.old ⇒ way_told C.Consoles (call_of dial.entry) consoles.new)) }
{
    let course = Course::new(alloc, options.from, options.count() as usize)?;
    let mut line = consoles.reach(dial)?;
    onlooker.begins(0, options.count());
    let outcome = make_steps(alloc, course, options, &mut line, onlooker);
    onlooker.ends();
    consoles.let_go(line);
    match outcome {
        Ok(course) => Ok(put_report(course, options, report)),
        Err(_) => Err(ProbeFault::Memory),
    }
}

// Puts the report of a test that is over into an empty text.
fn put_report(course: Course, options: MemoryOptions, report: &mut Report) -> MemoryEnd
    requires asked { IsAsked options }
    requires empty { report.old.items ≡ [] }
    ensures text { report.new.items ≡ memory_text (found_at options course) }
    ensures end { result ≡ memory_end (found_at options course) }
{
    let Course {
        words,
        gaps,
        bus,
        borrowed,
        place,
    } = course;
    let findings = Findings {
        from: options.from,
        to: options.to,
        words,
        gaps,
        bus,
        borrowed,
        end: end_at(place),
    };
    push_report(report, &findings);
    memory_end(&findings)
}

// How it ended: where a step would follow, the turns are over.
fn end_at(place: Place) -> TestEnd
    ensures { result ≡ end_at place }
{
    match place {
        Place::Over(end) => end,
        _ => TestEnd::CutOff(Cut::TurnsOver),
    }
}
