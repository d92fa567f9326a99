//! Doing a request that is about tapes, and does nothing but print.
ghost use Rattle.std.specs.Prelude.{◌≡◌, IfOk, IfErr};
ghost use Rattle.std.specs.Mem.{FitsInMemory};
ghost use Rattle.input_files.specs.Intake.{intake};
ghost use Rattle.tape_commands.specs.Printing.{AreNamesOf, IsPrinted, IsUnprinted};

use crate::check::{check_input, check_tapes};
use crate::dialogue::show_dialogue;
use crate::rehearse::rehearse;
use crate::type_keys::type_input;
use endings::{Failure, FaultOutput, Output, Status, Streams};
use input_files::InputFiles;
use request_values::{PrintRequest, Rehearsal};
use std::alloc::Global;
use std::io::Read;

/// What a request that does nothing but print has names of.
pub enum InputNames<'r, 'a> {
    /// Of nothing: it reads standard input.
    Nothing,

    /// Of tapes.
    Tapes(&'r [&'a str]),

    /// Of tapes and a script.
    Scripted(&'r Rehearsal<'a>),
}

/// What a request that does nothing but print names.
pub fn names_of<'r, 'a>(request: &'r PrintRequest<'a>) -> InputNames<'r, 'a>
    ensures { AreNamesOf request.now result }
{
    match request {
        PrintRequest::CheckInput | PrintRequest::Type(_) => InputNames::Nothing,
        PrintRequest::Check(tapes, _) | PrintRequest::Dialogue(tapes, _) => {
            InputNames::Tapes(tapes)
        }
        PrintRequest::Rehearse(rehearsal) => InputNames::Scripted(rehearsal),
    }
}

/// Does a request that does nothing but print, with these files, and answers the exit status.
///
/// The answer goes to standard output, which is flushed. All files are opened before any is read.
///
/// `CannotRead` names a file that can't be opened or read, `TapeRefused` and `OneTapeRefused` are a tape's fault,
/// `ScriptRefused` a script's. `TooLarge` is a simulated machine of more than 28,672 words. `CannotWrite` is an
/// answer that could not be written whole. `NoMemory` comes only where a growth was refused.
///
/// What is asked of the caller is only that a value of the input's type fits into memory, as each type of a
/// program does.
pub fn print_answer<'a, F: InputFiles, R: Read, W: Output, E: FaultOutput>(
    inputs: &mut F,
    alloc: Global,
    request: &PrintRequest<'a>,
    streams: &mut Streams<R, W, E>,
) -> Result<Status, Failure<'a>>
    requires { FitsInMemory R.row }
    ensures ok { IfOk result (IsPrinted request.now (intake (F.opened inputs.old) streams.old) (intake (F.opened inputs.new) streams.new)) }
    ensures err { IfErr result (IsUnprinted request.now (intake (F.opened inputs.old) streams.old) (intake (F.opened inputs.new) streams.new)) }
    ensures quiet { streams.new.err ≡ streams.old.err }
{
    match request {
        PrintRequest::CheckInput => check_input(alloc, streams),
        PrintRequest::Check(names, options) => check_tapes(inputs, alloc, names, *options, streams),
        PrintRequest::Dialogue(names, stage) => show_dialogue(
            inputs, alloc, names, *stage, streams,
        ),
        PrintRequest::Rehearse(rehearsal) => rehearse(inputs, alloc, rehearsal, streams),
        PrintRequest::Type(console) => type_input(alloc, *console, streams),
    }
}
