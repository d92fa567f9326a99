//! The line of a failure on standard error.
//!
//! It is gathered first and written in one write, so that nothing else can stand in its midst.
ghost use Rattle.std.specs.Prelude.{◌≡◌, OnOk, OnErr};
ghost use Rattle.endings.specs.FaultOutput.{IsSaidInPart, IsSaidWhole};
ghost use Rattle.endings.specs.Failure.{status_of, failure_end, failure_name, fault_line, misplaced_end, shown_name, stale_names};
ghost use Rattle.endings.specs.Failure.{is_unheard, IsPrinted, IsPrintedUnless};

use crate::failure::Failure;
use crate::fault_output::{FaultOutput, say};
use crate::line_words::line_words;
use crate::output::Output;
use crate::place::Place;
use crate::shown::shown_character;
use crate::status::Status;
use byte_io::{WriteFault, push_bytes};
use std::alloc::Global;

/// Prints the line of a failure, in one write, and answers the status that says so.
///
/// In a name a control character is shown by its escape, and an empty name by two quotes. A line that
/// there is no memory for is written in pieces. What can't be written is not printed.
pub fn print_failure<E: FaultOutput>(alloc: Global, failure: Failure<'_>, err: &mut E) -> Status
    ensures status { result ≡ status_of failure.entry }
    ensures printed { IsPrinted (E.said err.old) (E.said err.new) failure.entry }
{
    let _ = write_at_once(alloc, failure, err);
    failure.status()
}

/// Prints that an output can't be written, unless nobody reads it any more: whoever left doesn't wait for
/// the rest. The status says so in either case.
pub(crate) fn print_unwritten<W: Output, E: FaultOutput>(
    alloc: Global,
    out: &W,
    err: &mut E,
) -> Status
    ensures status { result ≡ Status.DeviceFailed }
    ensures printed { IsPrintedUnless (W.unread out.now) (E.said err.old) (E.said err.new) Failure.CannotWrite }
{
    if out.is_unread() {
        Status::DeviceFailed
    } else {
        print_failure(alloc, Failure::CannotWrite, err)
    }
}

/// Prints a failure of what does nothing but print, or of what does more. That the output can't be written is
/// not printed of the former where nobody reads any more.
pub(crate) fn print_unless_unheard<W: Output, E: FaultOutput>(
    alloc: Global,
    only_prints: bool,
    failure: Failure<'_>,
    out: &W,
    err: &mut E,
) -> Status
    ensures status { result ≡ status_of failure.entry }
    ensures printed { IsPrintedUnless (is_unheard only_prints (W.unread out.now) failure.entry) (E.said err.old) (E.said err.new) failure.entry }
{
    match failure {
        Failure::CannotWrite if only_prints => print_unwritten(alloc, out, err),
        _ => print_failure(alloc, failure, err),
    }
}

/// Writes a failure's line, in one write where there is memory to gather it in. The line that says there
/// is none needs none.
pub(crate) fn write_at_once<E: FaultOutput>(
    alloc: Global,
    failure: Failure<'_>,
    err: &mut E,
) -> Result<(), WriteFault>
    ensures ok { OnOk result (IsSaidWhole (E.said err.old) (E.said err.new) (fault_line failure.entry)) }
    ensures err { OnErr result (IsSaidInPart (E.said err.old) (E.said err.new) (fault_line failure.entry)) }
{
    if let Failure::NoMemory = failure {
        let mut line = line_words(failure);
        push_bytes(&mut line, b"\n");
        return say(err, &line);
    }
    let mut gathered = Vec::new(alloc);
    match write_line(&mut gathered, failure) {
        Ok(()) => say(err, &gathered),
        Err(_) => write_line(err, failure),
    }
}

// Writes a failure's line in pieces. At the first write that fails it stops.
fn write_line<E: FaultOutput>(err: &mut E, failure: Failure<'_>) -> Result<(), WriteFault>
    ensures ok { OnOk result (IsSaidWhole (E.said err.old) (E.said err.new) (fault_line failure.entry)) }
    ensures err { OnErr result (IsSaidInPart (E.said err.old) (E.said err.new) (fault_line failure.entry)) }
{
    say(err, &line_words(failure))?;
    write_shown_name(err, failure)?;
    say(err, line_end(failure))
}

// What a failure's line says behind its name, and the line's end.
fn line_end(failure: Failure<'_>) -> &'static [u8]
    ensures { result.now ≡ failure_end failure.entry }
{
    match failure {
        Failure::FileIsThere(_) => b" is there already\n",
        Failure::PartIsThere(_) => b".part is there already\n",
        Failure::PartNotOfSave(_) => b".part is not of this save\n",
        Failure::PartStale(_) => b".part to begin again\n",
        Failure::Misplaced(_, place) => misplaced_end(place),
        Failure::StartInDoubt(_) => {
            b"\nldaodt: the start may have gone out: look at the machine first\n"
        }
        _ => b"\n",
    }
}

// What is told of a name that can't be what its place asks for, and the line's end.
fn misplaced_end(place: Place) -> &'static [u8]
    ensures { result.now ≡ misplaced_end place }
{
    match place {
        Place::LineOfLoad => b" is no serial device: load TAPE LINE [MORE]..\n",
        Place::LineOfVerify => b" is no serial device: verify TAPE LINE [MORE]..\n",
        Place::LineOfSave => b" is no serial device: save FILE LINE FROM TO\n",
        Place::LineOfProbe => b" is no serial device: probe LINE\n",
        Place::LineOfMemory => b" is no serial device: memory LINE [FROM] [TO]\n",
        Place::Tape => b" is a terminal, no tape\n",
        Place::Script => b" is a terminal, no script\n",
        Place::Words => b" is a terminal, no words\n",
        Place::Record => b" is a terminal, no record\n",
    }
}

// Writes the name in a failure's line, where it has one.
fn write_shown_name<E: FaultOutput>(err: &mut E, failure: Failure<'_>) -> Result<(), WriteFault>
    ensures ok { OnOk result (IsSaidWhole (E.said err.old) (E.said err.new) (failure_name failure.entry)) }
    ensures err { OnErr result (IsSaidInPart (E.said err.old) (E.said err.new) (failure_name failure.entry)) }
{
    match failure {
        Failure::CannotRead(name)
        | Failure::CannotWriteFile(name)
        | Failure::FileIsThere(name)
        | Failure::PartIsThere(name)
        | Failure::PartNotOfSave(name)
        | Failure::RecordInUse(name)
        | Failure::Misplaced(name, _)
        | Failure::CannotConnect(name) => write_name(err, name),
        Failure::PartStale(name) => write_twice(err, name),
        _ => Ok(()),
    }
}

// Writes a name, that its part says something, and the name again, to be removed.
fn write_twice<E: FaultOutput>(err: &mut E, name: &str) -> Result<(), WriteFault>
    ensures ok { OnOk result (IsSaidWhole (E.said err.old) (E.said err.new) (stale_names name.now)) }
    ensures err { OnErr result (IsSaidInPart (E.said err.old) (E.said err.new) (stale_names name.now)) }
{
    write_name(err, name)?;
    say(err, b".part says: remove ")?;
    write_name(err, name)
}

/// Writes a name as a fault shows it, in pieces.
pub fn write_name<E: FaultOutput>(err: &mut E, name: &str) -> Result<(), WriteFault>
    ensures ok { OnOk result (IsSaidWhole (E.said err.old) (E.said err.new) (shown_name name.now)) }
    ensures err { OnErr result (IsSaidInPart (E.said err.old) (E.said err.new) (shown_name name.now)) }
{
    if name.is_empty() {
        return say(err, b"''");
    }
    for character in name.chars() {
        let piece = shown_character(character);
        say(err, piece.as_bytes())?;
    }
    Ok(())
}
