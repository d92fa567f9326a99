//! Saves of a machine in memory, with the tape on a disk that tells what it was asked.
ghost use Rattle.std.specs.Prelude.{OnErr, OnOk, option_map};
ghost use Rattle.tape_shelf.specs.ShelfDisk.{room_of};
ghost use Rattle.told_calls.specs.ToldSteps.{steps_of, written_to};
ghost use Rattle.load_tests.specs.Told.{shelf_told, IsTapeNotPut, IsTapePut};

use crate::memory_consoles::{CALLED, MemoryConsoles};
use host_devices::Unwatched;
use machine_look::{LookFault, SaveEnd, SaveOptions, save};
use std::alloc::Global;
use std::io::Write;
use tape_shelf::NewFile;
use told_calls::ToldDisk;

/// Saves words of a machine in memory. What `save` promises of the disk on which its tape goes, is so of this
/// one, which tells.
pub(crate) fn save_on_disk<W: Write>(
    alloc: Global,
    options: SaveOptions,
    shelf: &mut NewFile<'_, ToldDisk<'_>>,
    consoles: &mut MemoryConsoles,
    out: &mut W,
) -> Result<SaveEnd, LookFault>
    ensures disk { OnOk result (IsTapePut options
        (shelf_told (steps_of shelf.old.disk.asked) shelf.old.name.now (option_map (room_of written_to) shelf.old.part))
        (shelf_told (steps_of shelf.new.disk.asked) shelf.new.name.now (option_map (room_of written_to) shelf.new.part))) }
    ensures disk_in_vain { OnErr result (IsTapeNotPut
        (shelf_told (steps_of shelf.old.disk.asked) shelf.old.name.now (option_map (room_of written_to) shelf.old.part))
        (shelf_told (steps_of shelf.new.disk.asked) shelf.new.name.now (option_map (room_of written_to) shelf.new.part))) }
{
    save(alloc, options, shelf, consoles, CALLED, out, &Unwatched)
}
