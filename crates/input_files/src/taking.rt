//! Taking the tapes that names stand for.
ghost use Rattle.std.specs.Prelude.{◌≡◌, ◌∷◌, [], IfOk, IfErr, length};
ghost use Rattle.std.specs.Mem.{FitsInMemory};
ghost use Rattle.input_files.specs.Inputs.{inputs_of, only_input, AreOpened, OfTapes};
ghost use Rattle.input_files.specs.Intake.{intake};
ghost use Rattle.input_files.specs.Source.{source_remaining};
ghost use Rattle.input_files.specs.Taking.{AreTakenOf, AreUntaken, FailsToTake};
ghost use Rattle.input_files.specs.Taking.{AreNotRehearsed, FailsToTakeFiles, FailsToTakeInput, OfRehearsed, OfScripted};

use crate::names::{is_input, is_lone_input, joined};
use crate::opening::{open, open_all, open_with_script};
use crate::source::{Role, Source};
use crate::system::InputFiles;
use crate::tapes::{Tapes, take_tapes};
use endings::{Failure, FaultOutput, Output, STANDARD_INPUT, Streams};
use request_values::Rehearsal;
use std::alloc::Global;
use std::io::Read;
use std::slice;

/// Takes the tapes of these names: standard input's, where `-` is the only one, else those in the files, which are
/// all opened before any is read. Nothing is written.
///
/// `CannotRead` names what can't be opened or read, `TapeRefused` and `OneTapeRefused` are a tape's fault. `NoMemory`
/// comes only where a growth was refused.
pub fn take<'a, F: InputFiles, R: Read, W: Output, E: FaultOutput>(
    files: &mut F,
    alloc: Global,
    names: &[&'a str],
    streams: &mut Streams<R, W, E>,
) -> Result<Tapes, Failure<'a>>
    requires { FitsInMemory R.row }
    ensures ok { IfOk result (λ taken.
        OfTapes names.now (intake (F.opened files.old) streams.old) (intake (F.opened files.new) streams.new) (AreTakenOf taken)) }
    ensures err { IfErr result (AreUntaken names.now (intake (F.opened files.old) streams.old) (intake (F.opened files.new) streams.new)) }
    ensures each { IfOk result (λ taken. length taken.layouts.items ≡ length taken.tapes.items) }
    ensures same_out { streams.new.out ≡ streams.old.out }
    ensures quiet { streams.new.err ≡ streams.old.err }
{
    if is_input(names) {
        take_input(alloc, &mut streams.input)
    } else {
        let mut opened = open_all(files, alloc, names)?;
        take_named(alloc, names, &mut opened)
    }
}

/// Takes the tape on standard input.
pub fn take_input<R: Read>(alloc: Global, input: &mut R) -> Result<Tapes, Failure<'static>>
    requires { FitsInMemory R.row }
    ensures ok { IfOk result (λ taken. AreTakenOf taken (only_input (R.remaining input.old) (R.remaining input.new))) }
    ensures err { IfErr result (FailsToTake (only_input (R.remaining input.old) (R.remaining input.new))) }
    ensures each { IfOk result (λ taken. length taken.layouts.items ≡ length taken.tapes.items) }
{
    take_named(alloc, &[], slice::from_mut(input))
}

/// Takes the tapes of a rehearsal, and answers them with the file of its script: all that it names are opened before any
/// tape is read, the script behind the first tape. With the tape on standard input the script alone is opened.
///
/// The faults are those of `take`; the script is not read yet.
pub fn take_with_script<'a, F: InputFiles, R: Read, W: Output, E: FaultOutput>(
    files: &mut F,
    alloc: Global,
    rehearsal: &Rehearsal<'a>,
    streams: &mut Streams<R, W, E>,
) -> Result<(Tapes, Source<F::File>), Failure<'a>>
    requires { FitsInMemory R.row }
    ensures ok { IfOk result (λ taken. OfRehearsed rehearsal.now
        (intake (F.opened files.old) streams.old) (intake (F.opened files.new) streams.new)
        (λ script inputs. AreTakenOf taken.0 inputs × (source_remaining F.File.remaining taken.1 ≡ script))) }
    ensures err { IfErr result (AreNotRehearsed rehearsal.now
        (intake (F.opened files.old) streams.old) (intake (F.opened files.new) streams.new)) }
    ensures same_out { streams.new.out ≡ streams.old.out }
    ensures quiet { streams.new.err ≡ streams.old.err }
{
    if is_lone_input(rehearsal.tape, &rehearsal.more) {
        take_input_with_script(files, alloc, rehearsal.script, streams)
    } else {
        take_files_with_script(files, alloc, rehearsal)
    }
}

// Opens a script, and takes the tape on standard input.
fn take_input_with_script<'a, F: InputFiles, R: Read, W: Output, E: FaultOutput>(
    files: &mut F,
    alloc: Global,
    script: &'a str,
    streams: &mut Streams<R, W, E>,
) -> Result<(Tapes, Source<F::File>), Failure<'a>>
    requires { FitsInMemory R.row }
    ensures ok { IfOk result (λ taken. AreOpened (script.entry ∷ []) (source_remaining F.File.remaining taken.1 ∷ []) (F.opened files.old) (F.opened files.new)
        × AreTakenOf taken.0 (only_input streams.old.input streams.new.input)) }
    ensures err { IfErr result (FailsToTakeInput script.entry (intake (F.opened files.old) streams.old) (intake (F.opened files.new) streams.new)) }
    ensures same_out { streams.new.out ≡ streams.old.out }
    ensures quiet { streams.new.err ≡ streams.old.err }
{
    let script_file = open(files, alloc, script)?;
    let taken = take_input(alloc, &mut streams.input)?;
    Ok((taken, Source::Open(Role::Script, script_file)))
}

// Opens the files of a rehearsal, in the order of their names, and takes the tapes.
fn take_files_with_script<'a, F: InputFiles>(
    files: &mut F,
    alloc: Global,
    rehearsal: &Rehearsal<'a>,
) -> Result<(Tapes, Source<F::File>), Failure<'a>>
    ensures ok { IfOk result (λ taken. OfScripted rehearsal.now (F.opened files.old) (F.opened files.new)
        (λ script inputs. AreTakenOf taken.0 inputs × (source_remaining F.File.remaining taken.1 ≡ script))) }
    ensures err { IfErr result (FailsToTakeFiles rehearsal.now (F.opened files.old) (F.opened files.new)) }
{
    let more = rehearsal.more.as_slice();
    let (mut tapes, script_file) = open_with_script(
        files,
        alloc,
        rehearsal.tape,
        rehearsal.script,
        more,
    )?;
    let Ok(names) = joined(alloc, rehearsal.tape, more) else {
        return Err(Failure::NoMemory);
    };
    let taken = take_named(alloc, &names, &mut tapes)?;
    Ok((taken, script_file))
}

// Takes tapes of inputs that faults call by these names.
fn take_named<'a, R: Read>(
    alloc: Global,
    names: &[&'a str],
    inputs: &mut [R],
) -> Result<Tapes, Failure<'a>>
    ensures ok { IfOk result (λ taken. AreTakenOf taken (inputs_of names.now R.remaining inputs.old inputs.new)) }
    ensures err { IfErr result (FailsToTake (inputs_of names.now R.remaining inputs.old inputs.new)) }
    ensures each { IfOk result (λ taken. length taken.layouts.items ≡ length taken.tapes.items) }
{
    match take_tapes(alloc, inputs) {
        Ok(taken) => Ok(taken),
        Err(fault) => Err(Failure::of(fault, names, STANDARD_INPUT)),
    }
}
