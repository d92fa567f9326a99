//! The command `rehearse`: a script of losses, played over a simulated machine.
ghost use Rattle.std.specs.Prelude.{◌<◌, ◌≤◌, ◌+◌, replicate, map, OnOk, IfOk, IfErr, List, ℕ, ◌≡◌};
ghost use Rattle.std.specs.Io.KnownBytes.{Appends};
ghost use Rattle.odt_machine.specs.Machine.{largest_words};
ghost use Rattle.loss_scripts.specs.Script.{script_limit};
ghost use Rattle.byte_io.specs.Input.{TakesAtMost};
ghost use Rattle.tape_commands.specs.Rehearsal.{IsRehearsal, IsRehearsed, IsRehearseFault, IsScriptInput, IsScriptInputFault, IsPlayFault};
ghost use Rattle.request_values.specs.Change.{◌⇒◌};
ghost use Rattle.input_files.specs.Tapes.{BlamesNoTape, OfTaken, TakeAtMost};
ghost use Rattle.std.specs.Mem.{FitsInMemory};
ghost use Rattle.input_files.specs.Intake.{intake};
ghost use Rattle.input_files.specs.Taking.{OfTakenInputs};
ghost use Rattle.tape_commands.specs.Rehearsing.{AreRehearsed, AreUnrehearsed, IsRehearsalFailure, IsRehearsedInto};

use crate::output::flushed;
use crate::play::play;
use crate::report::put_report;
use crate::worlds::{open_world, store_words, zeroed};
use byte_io::{InputFault, read_up_to, write_whole};
use endings::{CommandFault, Failure, FaultOutput, Output, Status, Streams};
use input_files::{InputFiles, Tapes, take_tapes, take_with_script};
use loss_scripts::{SCRIPT_LIMIT, Script, ScriptFault, read_script};
use request_values::Rehearsal;
use std::alloc::Global;
use std::io::{Read, Write};
use tape_image::Plan;
use tape_values::Tape;

/// Rehearses a script with tapes, one from each input, as one: opens the world that they set up, lets
/// the script's lines happen, and prints the lines that were not possible and then the report.
///
/// The tapes are taken first, in order, then the script, of which at most 1,048,577 bytes are taken.
/// `Tape` is the refusal of an input for a tape, by its number from 1. `Script` is that of the script: 0
/// where it is too long, the first line that is wrong, or where all lines are in order that of the first
/// word that does not lie in memory. `ReadTape`, by the input's number, and `ReadScript` are failed
/// reads. All these come before the first byte of output;
/// `Write` is a failed write. `Memory` comes only where a growth was refused.
pub fn rehearse_to<R: Read, S: Read, W: Write>(
    alloc: Global,
    tapes: &mut [R],
    script: &mut S,
    out: &mut W,
) -> Result<(), CommandFault>
    ensures ok { OnOk result ((text : List ℕ) × IsRehearsed (map R.remaining tapes.old ⇒ map R.remaining tapes.new) (S.remaining script.old) text ×
        Appends (W.contents out.old) (W.contents out.new) text) }
    ensures err { IfErr result (IsRehearseFault (map R.remaining tapes.old ⇒ map R.remaining tapes.new)
        (S.remaining script.old) (W.contents out.old ⇒ W.contents out.new)) }
    ensures taken { TakesAtMost (S.remaining script.old) (S.remaining script.new) (script_limit + 1) }
    ensures at_most { TakeAtMost (map R.remaining tapes.old) (map R.remaining tapes.new) }
{
    let taken = take_tapes(alloc, tapes)?;
    write_rehearsal(alloc, &taken, script, out)
}

/// Rehearses with tapes that were taken, and prints what `rehearse_to` prints, with its faults but for those of a tape.
pub(crate) fn write_rehearsal<S: Read, W: Write>(
    alloc: Global,
    taken: &Tapes,
    script: &mut S,
    out: &mut W,
) -> Result<(), CommandFault>
    ensures ok { OnOk result ((text : List ℕ) × OfTaken taken.now (λ inputs inputs'. IsRehearsed (inputs ⇒ inputs') (S.remaining script.old) text)
        × Appends (W.contents out.old) (W.contents out.new) text) }
    ensures err { IfErr result (λ fault. OfTaken taken.now (λ inputs inputs'. IsRehearseFault (inputs ⇒ inputs')
        (S.remaining script.old) (W.contents out.old ⇒ W.contents out.new) fault)) }
    ensures blames { IfErr result BlamesNoTape }
    ensures taken { TakesAtMost (S.remaining script.old) (S.remaining script.new) (script_limit + 1) }
{
    let script = take_script(alloc, script)?;
    let text = rehearsal(alloc, &taken.tapes, &script)?;
    write_whole(out, &text)?;
    Ok(())
}

// The script that an input is.
fn take_script<S: Read>(alloc: Global, input: &mut S) -> Result<Script, CommandFault>
    ensures ok { IfOk result (IsScriptInput (S.remaining input.old)) }
    ensures size { IfOk result (λ script. script.words ≤ largest_words) }
    ensures err { IfErr result (IsScriptInputFault (S.remaining input.old)) }
    ensures taken { TakesAtMost (S.remaining input.old) (S.remaining input.new) (script_limit + 1) }
{
    let text = match read_up_to(alloc, input, SCRIPT_LIMIT + 1) {
        Ok(bytes) => bytes,
        Err(InputFault::Read) => return Err(CommandFault::ReadScript),
        Err(InputFault::Memory) => return Err(CommandFault::Memory),
    };
    match read_script(alloc, &text) {
        Ok(script) => Ok(script),
        Err(ScriptFault::Refused(line)) => Err(CommandFault::Script(line)),
        Err(ScriptFault::Memory) => Err(CommandFault::Memory),
    }
}

// What is printed of a rehearsal.
fn rehearsal(alloc: Global, tapes: &[Tape], script: &Script) -> Result<Vec<u8>, CommandFault>
    requires size { script.now.words ≤ largest_words }
    ensures ok { IfOk result (λ text. IsRehearsal tapes.now script.now text.items) }
    ensures err { IfErr result (IsPlayFault (replicate script.now.words 0) script.now.puts.items) }
{
    let mut odt = zeroed(alloc, script.words, script.style)?;
    if let Err(line) = store_words(&mut odt, &script.puts) {
        return Err(CommandFault::Script(line));
    }
    let plan = Plan::of_all(alloc, tapes)?;
    let mut world = open_world(plan, odt, script.patience, script.waiting.as_slice());
    let mut text = Vec::new(alloc);
    play(&mut world, &script.steps, &mut text)?;
    put_report(&mut text, &world)?;
    Ok(text)
}

/// Rehearses the load of tapes by a script: of standard input's tape, where `-` is their only name, else
/// of those in the files.
pub(crate) fn rehearse<'a, F: InputFiles, R: Read, W: Output, E: FaultOutput>(
    inputs: &mut F,
    alloc: Global,
    rehearsal: &Rehearsal<'a>,
    streams: &mut Streams<R, W, E>,
) -> Result<Status, Failure<'a>>
    requires { FitsInMemory R.row }
    ensures ok { IfOk result (AreRehearsed rehearsal.now (intake (F.opened inputs.old) streams.old) (intake (F.opened inputs.new) streams.new)) }
    ensures err { IfErr result (AreUnrehearsed rehearsal.now (intake (F.opened inputs.old) streams.old) (intake (F.opened inputs.new) streams.new)) }
    ensures quiet { streams.new.err ≡ streams.old.err }
{
    let (taken, mut script) = take_with_script(inputs, alloc, rehearsal, streams)?;
    print_rehearsal(
        alloc,
        &taken,
        rehearsal.script,
        &mut script,
        &mut streams.out,
    )
}

// Prints the rehearsal of tapes that were taken, by a script in a file of this name.
fn print_rehearsal<'a, S: Read, W: Write>(
    alloc: Global,
    taken: &Tapes,
    name: &'a str,
    script: &mut S,
    out: &mut W,
) -> Result<Status, Failure<'a>>
    ensures ok { IfOk result (λ status. OfTakenInputs taken.now (λ inputs.
        IsRehearsedInto (S.remaining script.old) inputs (W.contents out.old) (W.contents out.new)) × (status ≡ Status.Done)) }
    ensures err { IfErr result (λ failure. OfTakenInputs taken.now (λ inputs.
        IsRehearsalFailure name.now (S.remaining script.old) inputs (W.contents out.old ⇒ W.contents out.new) failure)) }
{
    match write_rehearsal(alloc, taken, script, out) {
        Ok(()) => flushed(out, Status::Done),
        Err(fault) => Err(Failure::of(fault, &[], name)),
    }
}
