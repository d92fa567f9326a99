//! Saving what a real machine holds.
ghost use Rattle.std.specs.Prelude.{◌≡◌, IfOk, IfErr};
ghost use Rattle.console_lines.specs.Console.{console_told};
ghost use Rattle.machine_look.specs.Save.{save_told};
ghost use Rattle.request_values.specs.Change.{◌⇒◌};
ghost use Rattle.requests.specs.Moment.{call_for, moment};
ghost use Rattle.requests.specs.Saving.{AreWordsSaved, AreWordsUnsaved, IsSaveFailure, IsSaveOver};

use crate::ending::after_save;
use crate::request_fault::RequestFault;
use crate::system::{Kinds, System};
use crate::watch::Watch;
use advice::advise_save;
use console_lines::{Consoles, Dial};
use endings::{Failure, FaultOutput, Output, Status, Streams};
use machine_look::{SaveOptions, save};
use progress_display::KeptIn;
use request_values::Save;
use std::alloc::Global;
use std::io::{Print, Read, Write};
use std::time::Clock;
use tape_shelf::{NewFile, Shelf};
use witness::Witness;

/// Saves words of a real machine as a tape in a new file, in a system that comes back, and answers the exit
/// status.
///
/// The report goes to standard output, and no input is opened. A terminal, where there is one, shows how far the
/// save is.
///
/// `FileIsThere` and `CannotWriteFile` come before the console is reached, or where a block can't be added, or the
/// tape not be put there at the end; `PartIsThere` and `PartNotOfSave` before the console is reached, with what is beside the file as it was;
/// `CannotConnect` before anything was sent. `PartStale` comes behind the report, with what is beside the file as it
/// was; `LineFailed` too, with the blocks that were read by then beside the file, if any were. `CannotWrite` is a report
/// that could not be written whole; the tape is where it belongs. `NoMemory` comes only where a growth was refused,
/// with no tape put there and nothing reported.
pub(crate) fn save_words<'a, K: Kinds, R: Read, W: Output, E: FaultOutput, T: Print>(
    system: System<K>,
    alloc: Global,
    request: Save<'a>,
    streams: &mut Streams<R, W, E>,
    terminal: Option<&T>,
    witness: &Witness,
) -> (System<K>, Result<Status, Failure<'a>>)
    ensures ok { IfOk result.1 (AreWordsSaved request.entry (moment K.Disk.holds system streams.old ⇒ moment K.Disk.holds result.0 streams.new)) }
    ensures err { IfErr result.1 (AreWordsUnsaved request.entry (moment K.Disk.holds system streams.old ⇒ moment K.Disk.holds result.0 streams.new)) }
    ensures quiet { streams.new.err ≡ streams.old.err }
{
    let System {
        inputs,
        disk,
        mut consoles,
        clock,
    } = system;
    let shown = Watch::new(&clock, terminal, KeptIn::Part, witness);
    let mut shelf = NewFile::new(disk, request.file);
    let out = &mut streams.out;
    let outcome = save_on(alloc, request, &mut shelf, &mut consoles, out, &shown);
    let system = System::new(inputs, shelf.close(), consoles, clock);
    (system, outcome)
}

// Saves them on a shelf, over the line of one of these consoles.
fn save_on<'a, S: Shelf, C: Consoles, W: Write, H: Clock, T: Print>(
    alloc: Global,
    request: Save<'a>,
    shelf: &mut S,
    consoles: &mut C,
    out: &mut W,
    watch: &Watch<'_, H, T>,
) -> Result<Status, Failure<'a>>
    ensures ok { IfOk result (IsSaveOver request.entry
        (save_told (S.told shelf.old) (console_told C.Consoles W.Write (call_for request.entry.look) consoles.old out.old)
        ⇒ save_told (S.told shelf.new) (console_told C.Consoles W.Write (call_for request.entry.look) consoles.new out.new))) }
    ensures err { IfErr result (IsSaveFailure request.entry
        (save_told (S.told shelf.old) (console_told C.Consoles W.Write (call_for request.entry.look) consoles.old out.old)
        ⇒ save_told (S.told shelf.new) (console_told C.Consoles W.Write (call_for request.entry.look) consoles.new out.new))) }
{
    let look = request.look;
    let options = SaveOptions {
        range: request.range,
        start: request.start,
        patience: look.patience,
        care: look.care,
    };
    let dial = Dial {
        name: look.line,
        quiet_ms: look.quiet_ms,
    };
    let saved = save(alloc, options, shelf, consoles, dial, out, watch);
    advise_save(watch.progress(), saved);
    match saved {
        Ok(end) => after_save(end, request.file),
        Err(fault) => Err(RequestFault::Look(fault).failure(look.line, request.file)),
    }
}
