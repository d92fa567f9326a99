//! Comparing what memory holds with the words of a plan, each difference shown as soon as it was read.
ghost use Rattle.std.specs.Prelude.{◌≡◌, [], IfErr, IfOk, OnOk};
ghost use Rattle.std.specs.Io.KnownBytes.{Appends};
ghost use Rattle.console_lines.specs.Console.{console_told};
ghost use Rattle.console_lines.specs.Path.{call_of};
ghost use Rattle.host_devices.specs.Devices.{line_told};
ghost use Rattle.host_devices.specs.Turns.{most_turns};
ghost use Rattle.reading_core.specs.Invariant.{IsReader};
ghost use Rattle.reading_core.specs.Reader.{ended};
ghost use Rattle.looking_engine.specs.Inquired.{IsInquired, inquiry};
ghost use Rattle.request_values.specs.Change.{◌⇒◌};
ghost use Rattle.machine_look.specs.Look.{AsksOnce, IsLook};
ghost use Rattle.machine_look.specs.LookFault.{IsCompareFault};
ghost use Rattle.machine_look.specs.Shown.{Shows};
ghost use Rattle.machine_look.specs.VerifyReport.{difference_lines};

use crate::differences::Differences;
use crate::look_fault::LookFault;
use console_lines::{Consoles, Dial};
use engine::{Cut, lead};
use host_devices::{Line, MOST_TURNS, Onlooker};
use looking_engine::{Reading, stop_from};
use reading_core::{End, ReadingCore};
use std::io::Write;
use tape_image::Word;

/// Reaches the console, where there are words to read, reads them, and writes a line for each that differs as
/// soon as it was read.
///
/// `Connect` comes where the console can't be reached, and nothing was sent; `WriteOutput` where a line can't be
/// written whole, and then nothing more is read or sent.
pub(crate) fn compare_over<C: Consoles, W: Write, O: Onlooker>(
    core: ReadingCore,
    words: &[Word],
    consoles: &mut C,
    dial: Dial<'_>,
    out: &mut W,
    onlooker: &O,
) -> Result<(ReadingCore, Result<End, Cut>), LookFault>
    requires { core.values ≡ [] }
    ensures look { IfOk result (λ looked. IsLook (core ⇒ looked.0) looked.1 (C.lines consoles.old ⇒ C.lines consoles.new)) }
    ensures asked { OnOk result (AsksOnce (ended core.phase) (call_of dial.entry) (C.asked consoles.old) (C.asked consoles.new)) }
    ensures shown { IfOk result (λ looked. Appends (W.contents out.old) (W.contents out.new) (difference_lines words.now looked.0.values)) }
    ensures fault { IfErr result (IsCompareFault words.now core
        (console_told C.Consoles W.Write (call_of dial.entry) consoles.old out.old
        ⇒ console_told C.Consoles W.Write (call_of dial.entry) consoles.new out.new)) }
{
    if let Some(end) = core.end() {
        return Ok((core, Ok(end)));
    }
    let mut line = consoles.reach(dial)?;
    onlooker.begins(0, core.addresses().len() as u32);
    let (core, stop) = compare(core, words, &mut line, out, onlooker);
    onlooker.ends();
    consoles.let_go(line);
    match stop {
        Some(stop) => Ok((core, stop)),
        None => Err(LookFault::WriteOutput),
    }
}

// Lends the core to the line for at most 10,000,000 turns, and shows each difference as soon as its word was read;
// no stop is answered where one can't be shown. An onlooker is told of each step.
fn compare<L: Line, W: Write, O: Onlooker>(
    core: ReadingCore,
    words: &[Word],
    line: &mut L,
    out: &mut W,
    onlooker: &O,
) -> (ReadingCore, Option<Result<End, Cut>>)
    requires fresh { core.values ≡ [] }
    requires kept { IsReader core }
    ensures inquired { IsInquired most_turns (inquiry core result.0 result.1) (line_told L.Line line.old) (line_told L.Line line.new) }
    ensures shown { Shows result.1 (W.contents out.old) (W.contents out.new) (difference_lines words.now result.0.values) }
{
    let mut differences = Differences::new(words, out, onlooker);
    read_and_show(core, line, &mut differences, onlooker)
}

// The same, where they are shown by this keeper.
fn read_and_show<L: Line, W: Write, O: Onlooker>(
    core: ReadingCore,
    line: &mut L,
    differences: &mut Differences<'_, W, O>,
    onlooker: &O,
) -> (ReadingCore, Option<Result<End, Cut>>)
    requires fresh { core.values ≡ [] }
    requires kept { IsReader core }
    ensures inquired { IsInquired most_turns (inquiry core result.0 result.1) (line_told L.Line line.old) (line_told L.Line line.new) }
    ensures shown { Shows result.1 (W.contents differences.old.out.now) (W.contents differences.new.out.now)
        (difference_lines differences.old.words.now result.0.values) }
    ensures same_reference { differences.new.out.ghost_name ≡ differences.old.out.ghost_name }
{
    let mut host = Reading { core };
    let stop = lead(&mut host, line, differences, MOST_TURNS, onlooker);
    (host.core, stop_from(stop))
}
