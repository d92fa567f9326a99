//! The command `dialogue`: a load into a simulated machine, shown as it goes.
ghost use Rattle.std.specs.Prelude.{◌≡◌, ◌<◌, ◌++◌, List, map, OnOk, OnErr, IfOk, IfErr};
ghost use Rattle.std.specs.Io.KnownBytes.{Appends};
ghost use Rattle.byte_io.specs.Output.{WritesPrefix};
ghost use Rattle.request_values.specs.Change.{◌⇒◌};
ghost use Rattle.input_files.specs.Tapes.{BlamesNoTape, OfTaken, TakeAtMost};
ghost use Rattle.host_core.specs.Core.{ended};
ghost use Rattle.line_world.specs.declared.event.Event.{Event};
ghost use Rattle.line_world.specs.World.{happens, first_event, work_left, IsCleanRun};
ghost use Rattle.tape_commands.specs.Report.{report};
ghost use Rattle.tape_commands.specs.Dialogue.{IsDialogue, IsDialogueFault, IsReportFault, Talks, IsTalkFault, staged};
ghost use Rattle.tape_commands.specs.KeyLines.{Answered, Gathers, Notes, answered_in, answered_keys, key_text};
ghost use Rattle.std.specs.Mem.{FitsInMemory};
ghost use Rattle.input_files.specs.Intake.{intake};
ghost use Rattle.input_files.specs.Taking.{OfTakenInputs};
ghost use Rattle.tape_commands.specs.Showing.{AreShown, AreUnshown, IsShowingFailure, IsShownTo};

use crate::key_line::KeyLine;
use crate::output::flushed;
use crate::report::put_report;
use crate::worlds::{open_world, zeroed};
use byte_io::write_whole;
use endings::{CommandFault, Failure, FaultOutput, Output, STANDARD_INPUT, Status, Streams};
use host_core::{End, PLAIN_PATIENCE};
use input_files::{InputFiles, Tapes, take, take_tapes};
use line_world::World;
use odt_machine::Style;
use request_values::{Console, Stage};
use std::alloc::Global;
use std::io::{Read, Write};
use tape_image::{Plan, Start};

/// Loads tapes, one from each input, as one into a zeroed machine on a line that loses nothing, and
/// prints what is typed and answered as it goes, and at the end the report. The program begins where
/// `start` says. Answers how the load ended.
///
/// `Tape` is the refusal of an input, `ReadTape` a failed read, by the input's number from 1, and
/// `TooLarge` a machine of more than 28,672 words: these come in this order, before the first byte of
/// output. `Write` is a failed write. `Memory` comes only where a growth was refused, perhaps after
/// some of the text was written.
pub fn dialogue_to<R: Read, W: Write>(
    alloc: Global,
    tapes: &mut [R],
    words: u16,
    style: Style,
    start: Start,
    out: &mut W,
) -> Result<End, CommandFault>
    ensures ok { IfOk result (IsDialogue (map R.remaining tapes.old ⇒ map R.remaining tapes.new) (staged words style start)
        (W.contents out.old ⇒ W.contents out.new)) }
    ensures err { IfErr result (IsDialogueFault (map R.remaining tapes.old ⇒ map R.remaining tapes.new) (staged words style start)
        (W.contents out.old ⇒ W.contents out.new)) }
    ensures at_most { TakeAtMost (map R.remaining tapes.old) (map R.remaining tapes.new) }
{
    let taken = take_tapes(alloc, tapes)?;
    let console = Console { words, style };
    write_dialogue(alloc, &taken, Stage { console, start }, out)
}

/// Loads tapes that were taken, and prints what `dialogue_to` prints, with its faults but for those of a tape.
pub(crate) fn write_dialogue<W: Write>(
    alloc: Global,
    taken: &Tapes,
    stage: Stage,
    out: &mut W,
) -> Result<End, CommandFault>
    ensures ok { IfOk result (λ end. OfTaken taken.now (λ inputs inputs'. IsDialogue (inputs ⇒ inputs') stage (W.contents out.old ⇒ W.contents out.new) end)) }
    ensures err { IfErr result (λ fault. OfTaken taken.now (λ inputs inputs'. IsDialogueFault (inputs ⇒ inputs') stage
        (W.contents out.old ⇒ W.contents out.new) fault)) }
    ensures blames { IfErr result BlamesNoTape }
{
    let Stage { console, start } = stage;
    let odt = zeroed(alloc, console.words, console.style)?;
    let plan = Plan::of_all(alloc, &taken.tapes)?;
    let mut world = open_world(plan.starting(start), odt, PLAIN_PATIENCE, &[]);
    let end = talk(alloc, &mut world, out)?;
    write_report(alloc, &world, out)?;
    Ok(end)
}

// The report of a world, gathered and then written whole.
fn write_report<W: Write>(alloc: Global, world: &World, out: &mut W) -> Result<(), CommandFault>
    ensures ok { OnOk result (Appends (W.contents out.old) (W.contents out.new) (report world.now)) }
    ensures err { IfErr result (IsReportFault (W.contents out.old) (W.contents out.new) (report world.now)) }
{
    let mut text = Vec::new(alloc);
    put_report(&mut text, world)?;
    write_whole(out, &text)?;
    Ok(())
}

// A clean line up to the first end, each line of keys written when it is over.
fn talk<W: Write>(alloc: Global, world: &mut World, out: &mut W) -> Result<End, CommandFault>
    ensures ok { IfOk result (λ end. Talks (world.old ⇒ world.new) end (W.contents out.old ⇒ W.contents out.new)) }
    ensures front { OnErr result ((events : List Event) → IsCleanRun world.old events →
        WritesPrefix (W.contents out.old) (W.contents out.new) (key_text (answered_keys world.old events))) }
    ensures err { IfErr result IsTalkFault }
{
    let mut under_way = KeyLine::new(alloc);
    loop {
        if let Some(end) = world.core().end() {
            under_way.finish(out)?;
            return Ok(end);
        }
        turn(world, &mut under_way, out)?;
    }
}

// The next event of a clean line. Where the machine takes a key, the key and its answer are noted.
fn turn<W: Write>(
    world: &mut World,
    under_way: &mut KeyLine,
    out: &mut W,
) -> Result<(), CommandFault>
    ensures world { world.new ≡ happens world.old (first_event world.old) }
    ensures ok { OnOk result ((gathered : List Answered) → Gathers gathered under_way.old →
        Notes gathered (answered_in world.old (first_event world.old)) under_way.new (W.contents out.old ⇒ W.contents out.new)) }
    ensures work { ended world.old.core.phase ≡ None → work_left world.new < work_left world.old }
    ensures front { OnErr result ((gathered : List Answered) → Gathers gathered under_way.old → (more : List Answered) →
        WritesPrefix (W.contents out.old) (W.contents out.new) (key_text (gathered ++ (answered_in world.old (first_event world.old) ++ more)))) }
    ensures err { IfErr result IsTalkFault }
{
    let event = world.next_event();
    let key = world.down().first().copied();
    let waiting = world.up().len();
    world.apply(event);
    let Some(key) = key else {
        return Ok(());
    };
    match world.up().get(waiting..) {
        Some(answer) => under_way.note(key, answer, out),
        None => Ok(()),
    }
}

/// Shows the load of tapes on a stage: of standard input's tape, where `-` is their only name, else of
/// those in the files.
pub(crate) fn show_dialogue<'a, F: InputFiles, R: Read, W: Output, E: FaultOutput>(
    inputs: &mut F,
    alloc: Global,
    names: &[&'a str],
    stage: Stage,
    streams: &mut Streams<R, W, E>,
) -> Result<Status, Failure<'a>>
    requires { FitsInMemory R.row }
    ensures ok { IfOk result (AreShown names.now stage (intake (F.opened inputs.old) streams.old ⇒ intake (F.opened inputs.new) streams.new)) }
    ensures err { IfErr result (AreUnshown names.now stage (intake (F.opened inputs.old) streams.old ⇒ intake (F.opened inputs.new) streams.new)) }
    ensures quiet { streams.new.err ≡ streams.old.err }
{
    let taken = take(inputs, alloc, names, streams)?;
    show(alloc, &taken, stage, &mut streams.out)
}

// Shows the load of tapes that were taken.
fn show<W: Write>(
    alloc: Global,
    taken: &Tapes,
    stage: Stage,
    out: &mut W,
) -> Result<Status, Failure<'static>>
    ensures ok { IfOk result (λ status. OfTakenInputs taken.now (λ inputs. IsShownTo stage inputs (W.contents out.old ⇒ W.contents out.new) status)) }
    ensures err { IfErr result (λ failure. OfTakenInputs taken.now (λ inputs.
        IsShowingFailure stage inputs (W.contents out.old ⇒ W.contents out.new) failure)) }
{
    match write_dialogue(alloc, taken, stage, out) {
        Ok(end) => flushed(out, Status::of_end(end)),
        Err(fault) => Err(Failure::of(fault, &[], STANDARD_INPUT)),
    }
}
