//! The command `save`: what memory holds, as a tape.
ghost use Rattle.std.specs.Prelude.{◌≡◌, ◌*◌, ◌+◌, ◌++◌, ◌<◌, ◌≤◌, List, ℕ, length, IfErr, IfOk, OnOk};
ghost use Rattle.tape_values.specs.Block.{top};
ghost use Rattle.console_lines.specs.Console.{console_told};
ghost use Rattle.console_lines.specs.Path.{call_of};
ghost use Rattle.machine_look.specs.Course.{HasRoomForCounts, IsTapeClosed, IsUnclosed, closing_text, counts_of, end_of};
ghost use Rattle.tape_shelf.specs.FoundPart.{FillBlocks};
ghost use Rattle.machine_look.specs.LookFault.{IsKeepFault, IsSaveFault, TakesUpNothing};
ghost use Rattle.machine_look.specs.Save.{IsSavedAndReported, TakesUp, has_all, save_told};
ghost use Rattle.tape_shelf.specs.SavedSteps.{closes, full};
ghost use Rattle.tape_shelf.specs.SavedTape.{last_text};
ghost use Rattle.tape_shelf.specs.Shelf.{ShelfStep};
ghost use Rattle.tape_shelf.specs.ShelfAt.{HasDoneThere, shelf_at};
ghost use Rattle.tape_shelf.specs.ShelfTold.{AreDone, HasDone};

use crate::hosts::Hosts;
use crate::look_fault::LookFault;
use crate::reading_blocks::{Course, read_over};
use crate::save_end::SaveEnd;
use crate::save_report::{SaveCounts, held_end, save_end, save_report};
use crate::trust::are_trusted;
use byte_io::write_and_flush;
use console_lines::{Consoles, Dial};
use engine::Cut;
use host_devices::Onlooker;
use reading_core::{Care, End};
use request_values::AddressRange;
use std::alloc::Global;
use std::io::Write;
use tape_shelf::{Shelf, ShelfFault, last_text, tape_room, words_of};

/// What is to be saved, and how.
#[derive(Clone, Copy)]
pub struct SaveOptions {
    /// The words that are read.
    pub range: AddressRange,

    /// The start address of the tape; an odd one starts nothing.
    pub start: u16,

    /// How many mishaps the host survives.
    pub patience: u32,

    /// How often each word is looked at.
    pub care: Care,
}

/// Reads the words of a range, changes none, adds each block of the tape of what was read to the shelf as soon
/// as its last word was read, and reports how far that came and how it ended.
///
/// The room of the whole tape is taken there before the console is reached, so that want of it is told with
/// nothing typed. Where an earlier save of the same words left blocks there, samples of their words are looked at
/// first: where they stand, these blocks are added once more, and the words behind them are read; where one does
/// not, or the looks do not come to their end, no word counts as read, and the shelf is as it was. The tape is
/// closed, and has its place there, where it is all that can be had, every word or each below the end of memory, and
/// may be believed: with less care than `Twice` it may not where a character came that no loss explains. Else the
/// blocks stay on the shelf, and a later save of the same words goes on behind them.
///
/// `IsThere`, `PartIsThere`, `NotOfSave` and `WriteTape` come before the console is reached; `IsThere` and `WriteTape` also
/// where the tape can't have its place at the end, and `WriteTape` where a block can't be added: then the blocks
/// that were added stay on the shelf. `Connect` comes before anything was sent. `WriteOutput` is a report that
/// could not be written whole; the tape is where it belongs. `Memory` comes only where a growth was refused, for
/// the host or for the shelf, before the console is reached.
pub fn save<S: Shelf, C: Consoles, W: Write, O: Onlooker>(
    alloc: Global,
    options: SaveOptions,
    shelf: &mut S,
    consoles: &mut C,
    dial: Dial<'_>,
    out: &mut W,
    onlooker: &O,
) -> Result<SaveEnd, LookFault>
    ensures ok { IfOk result (IsSavedAndReported options
        (save_told (S.told shelf.old) (console_told C.Consoles W.Write (call_of dial.entry) consoles.old out.old))
        (save_told (S.told shelf.new) (console_told C.Consoles W.Write (call_of dial.entry) consoles.new out.new))) }
    ensures err { IfErr result (IsSaveFault options
        (save_told (S.told shelf.old) (console_told C.Consoles W.Write (call_of dial.entry) consoles.old out.old))
        (save_told (S.told shelf.new) (console_told C.Consoles W.Write (call_of dial.entry) consoles.new out.new))) }
{
    let found = take_up(alloc, options.range, shelf)?;
    let hosts = Hosts::new(alloc, options, &found)?;
    let course = read_over(options, hosts, &found, shelf, consoles, dial, onlooker)?;
    let (counts, end) = conclude(options, &found, course, shelf)?;
    write_and_flush(out, &save_report(counts, end))?;
    Ok(end)
}

// Takes room for the tape of a range; where what an earlier save left is there, goes on with that. What is found
// there is answered.
fn take_up<S: Shelf>(
    alloc: Global,
    range: AddressRange,
    shelf: &mut S,
) -> Result<Vec<u16>, ShelfFault>
    ensures found { IfOk result (λ found. FillBlocks range found.items) }
    ensures taken { IfOk result (λ found. (taking : List ShelfStep) × TakesUp range (S.told shelf.old).left found.items taking
        × (folder : List ℕ) × S.is_opened_as shelf.new folder × AreDone folder taking (S.told shelf.old) (S.told shelf.new)) }
    ensures failed { IfErr result (λ fault. (steps : List ShelfStep) × TakesUpNothing range (S.told shelf.old).left fault steps × HasDone steps (S.told shelf.old) (S.told shelf.new)) }
{
    match shelf.reserve(alloc, tape_room(range)) {
        Ok(()) => Ok(Vec::new(alloc)),
        Err(ShelfFault::PartIsThere) => shelf.resume(alloc, range),
        Err(fault) => Err(fault),
    }
}

// What a course comes to, once its tape is closed, where that is all that can be had.
fn conclude<S: Shelf>(
    options: SaveOptions,
    found: &[u16],
    course: Course,
    shelf: &mut S,
) -> Result<(SaveCounts, SaveEnd), LookFault>
    requires whole { length found.now ≡ 256 * full found.now }
    requires room { HasRoomForCounts options found.now course }
    ensures counted { IfOk result (λ done. done.0 ≡ counts_of (record { options = options; found = found.now }) course) }
    ensures ended { IfOk result (λ done. done.1 ≡ end_of options.care course) }
    ensures closed { OnOk result (IsTapeClosed (record { options = options; found = found.now }) course
        (shelf_at S.Shelf shelf.old) (shelf_at S.Shelf shelf.new)) }
    ensures fits { options.start < 65536 }
    ensures fault { IfErr result (IsUnclosed (closing_text (record { options = options; found = found.now }) course)
        (shelf_at S.Shelf shelf.old) (shelf_at S.Shelf shelf.new)) }
{
    let words = words_of(options.range);
    match course {
        Course::HeldUp(looked) => {
            let counts = SaveCounts {
                sent: looked.reader.sent_count(),
                spent: looked.reader.spent(),
                read: 0,
                words,
            };
            Ok((counts, held_end(looked.finding, looked.stop)))
        }
        Course::Read(looks, core, stop) => {
            let numbers = core.values();
            let trusted = are_trusted(options.care, &looks, &core);
            if has_all(stop, trusted) {
                close(options, found, numbers, shelf)?;
            }
            let counts = SaveCounts {
                sent: looks.sent_count() + core.sent_count(),
                spent: looks.spent() + core.spent(),
                read: found.len() + numbers.len(),
                words,
            };
            Ok((counts, save_end(stop, trusted)))
        }
    }
}

// Whether a reading that stopped so has all that can be had, and may be believed.
fn has_all(stop: Result<End, Cut>, trusted: bool) -> bool
    ensures { result ≡ has_all stop trusted }
{
    match stop {
        Ok(End::Complete | End::NoWord(_)) => trusted,
        Ok(End::GaveUp) | Err(_) => false,
    }
}

// Adds the last text of the tape of the numbers that were found and of those that were read behind them, if there
// are any.
fn close<S: Shelf>(
    options: SaveOptions,
    found: &[u16],
    numbers: &[u16],
    shelf: &mut S,
) -> Result<(), LookFault>
    requires whole { length found.now ≡ 256 * full found.now }
    requires below { options.range.from + 2 * (length found.now + length numbers.now) ≤ top }
    ensures ok { OnOk result (HasDoneThere (closes options.range.from (found.now ++ numbers.now) options.start)
        (shelf_at S.Shelf shelf.old) (shelf_at S.Shelf shelf.new)) }
    ensures fits { options.start < 65536 }
    ensures fault { IfErr result (IsKeepFault (last_text options.range.from (found.now ++ numbers.now) options.start)
        (shelf_at S.Shelf shelf.old) (shelf_at S.Shelf shelf.new)) }
{
    if found.len() + numbers.len() == 0 {
        return Ok(());
    }
    let from = options.range.from() + 2 * found.len() as u16;
    shelf.put(&last_text(from, numbers, options.start))?;
    Ok(())
}
