//! The command `check`: what tapes hold.
ghost use Rattle.std.specs.Prelude.{◌≡◌, List, false, length, map, OnOk, IfOk, IfErr};
ghost use Rattle.request_values.specs.Change.{◌⇒◌};
ghost use Rattle.input_files.specs.Tapes.{BlamesNoTape, OfTaken, TakeAtMost, TapeText};
ghost use Rattle.tape_image.specs.Plan.{IsPlan, plan_of_all};
ghost use Rattle.tape_commands.specs.CheckText.{AreTexts, IsChecked, IsCheckText};
ghost use Rattle.tape_commands.specs.CheckFault.{IsCheckFault};
ghost use Rattle.std.specs.Mem.{FitsInMemory};
ghost use Rattle.input_files.specs.Intake.{intake};
ghost use Rattle.input_files.specs.Taking.{OfTakenInputs};
ghost use Rattle.tape_commands.specs.Checking.{AreChecked, AreUnchecked, IsCheckedTo, IsCheckFailure, IsInputChecked, IsInputUnchecked};

use crate::block_list::block_list;
use crate::check_text::check_text;
use crate::output::flushed;
use byte_io::write_whole;
use endings::{CommandFault, Failure, FaultOutput, Output, STANDARD_INPUT, Status, Streams};
use input_files::{InputFiles, Tapes, take, take_input, take_tapes};
use request_values::CheckOptions;
use std::alloc::{AllocError, Global};
use std::io::{Read, Write};
use tape_image::Plan;

// The usual text alone.
const USUAL: CheckOptions = CheckOptions { blocks: false };

/// Checks tapes, one from each input, and prints of each its blocks, its start and whether it is
/// canonical, and then the words of the image that they make together.
///
/// The inputs are read in order, and of each at most 1,048,577 bytes are taken. `Tape` is the refusal
/// of an input and `ReadTape` a failed read, by the input's number from 1: the first decides, later
/// inputs are not read, and nothing is written. `Write` is a failed write. Neither is tried again.
/// `Memory` comes only where a growth was refused.
pub fn check_to<R: Read, W: Write>(
    alloc: Global,
    tapes: &mut [R],
    out: &mut W,
) -> Result<(), CommandFault>
    ensures ok { OnOk result (IsChecked false (map R.remaining tapes.old ⇒ map R.remaining tapes.new) (W.contents out.old ⇒ W.contents out.new)) }
    ensures err { IfErr result (IsCheckFault false (map R.remaining tapes.old ⇒ map R.remaining tapes.new) (W.contents out.old ⇒ W.contents out.new)) }
    ensures at_most { TakeAtMost (map R.remaining tapes.old) (map R.remaining tapes.new) }
{
    let taken = take_tapes(alloc, tapes)?;
    write_check(alloc, &taken, USUAL, out)
}

/// Prints of tapes that were taken what `check_to` prints, with a list of their blocks before it where that is asked
/// for. `Write` is a failed write, `Memory` a growth that was refused, before anything is written.
pub(crate) fn write_check<W: Write>(
    alloc: Global,
    taken: &Tapes,
    options: CheckOptions,
    out: &mut W,
) -> Result<(), CommandFault>
    requires { length taken.now.layouts.items ≡ length taken.now.tapes.items }
    ensures ok { OnOk result (OfTaken taken.now (λ inputs inputs'. IsChecked options.blocks (inputs ⇒ inputs') (W.contents out.old ⇒ W.contents out.new))) }
    ensures err { IfErr result (λ fault. OfTaken taken.now (λ inputs inputs'. IsCheckFault options.blocks (inputs ⇒ inputs')
        (W.contents out.old ⇒ W.contents out.new) fault)) }
    ensures blames { IfErr result BlamesNoTape }
{
    let plan = Plan::of_all(alloc, &taken.tapes)?;
    let report = report(alloc, taken, &plan, options)?;
    write_whole(out, &report)?;
    Ok(())
}

// What is printed of tapes, which make this plan together.
fn report(
    alloc: Global,
    taken: &Tapes,
    plan: &Plan,
    options: CheckOptions,
) -> Result<Vec<u8>, AllocError>
    requires layouts { length taken.now.layouts.items ≡ length taken.now.tapes.items }
    requires plan { plan.now ≡ plan_of_all taken.now.tapes.items }
    requires sound { IsPlan plan.now }
    ensures { IfOk result (λ report. (texts : List TapeText) → AreTexts taken.now.tapes.items taken.now.layouts.items texts →
        IsCheckText options.blocks texts report.items) }
{
    let usual = check_text(alloc, taken, plan)?;
    if !options.blocks {
        return Ok(usual);
    }
    let mut report = block_list(alloc, taken, plan)?;
    report.extend_from_slice(&usual)?;
    Ok(report)
}

/// Checks tapes: standard input's, where `-` is their only name, else those in the files.
pub(crate) fn check_tapes<'a, F: InputFiles, R: Read, W: Output, E: FaultOutput>(
    inputs: &mut F,
    alloc: Global,
    names: &[&'a str],
    options: CheckOptions,
    streams: &mut Streams<R, W, E>,
) -> Result<Status, Failure<'a>>
    requires { FitsInMemory R.row }
    ensures ok { IfOk result (AreChecked names.now options (intake (F.opened inputs.old) streams.old ⇒ intake (F.opened inputs.new) streams.new)) }
    ensures err { IfErr result (AreUnchecked names.now options (intake (F.opened inputs.old) streams.old ⇒ intake (F.opened inputs.new) streams.new)) }
    ensures quiet { streams.new.err ≡ streams.old.err }
{
    let taken = take(inputs, alloc, names, streams)?;
    print_check(alloc, &taken, options, &mut streams.out)
}

/// Checks the tape on standard input.
pub(crate) fn check_input<R: Read, W: Output, E: FaultOutput>(
    alloc: Global,
    streams: &mut Streams<R, W, E>,
) -> Result<Status, Failure<'static>>
    requires { FitsInMemory R.row }
    ensures ok { IfOk result (IsInputChecked streams.old streams.new) }
    ensures err { IfErr result (IsInputUnchecked streams.old streams.new) }
    ensures quiet { streams.new.err ≡ streams.old.err }
{
    let taken = take_input(alloc, &mut streams.input)?;
    print_check(alloc, &taken, USUAL, &mut streams.out)
}

// Prints what tapes hold that were taken.
fn print_check<W: Write>(
    alloc: Global,
    taken: &Tapes,
    options: CheckOptions,
    out: &mut W,
) -> Result<Status, Failure<'static>>
    requires { length taken.now.layouts.items ≡ length taken.now.tapes.items }
    ensures ok { IfOk result (λ status. OfTakenInputs taken.now (λ inputs. IsCheckedTo options.blocks inputs
        (W.contents out.old ⇒ W.contents out.new) status)) }
    ensures err { IfErr result (λ failure. OfTakenInputs taken.now (λ inputs. IsCheckFailure options.blocks inputs
        (W.contents out.old ⇒ W.contents out.new) failure)) }
{
    match write_check(alloc, taken, options, out) {
        Ok(()) => flushed(out, Status::Done),
        Err(fault) => Err(Failure::of(fault, &[], STANDARD_INPUT)),
    }
}
