//! The file beside a tape that an earlier save left, and that another one goes on with.
ghost use Rattle.std.specs.Prelude.{◌≡◌, ◌∷◌, ◌++◌, List, ℕ, Some, [], IfErr, IfOk, IfSome, OnErr, OnOk, OnSome, false};
ghost use Rattle.std.specs.String.{string_bytes};
ghost use Rattle.host_devices.specs.Told.{HasAsked};
ghost use Rattle.record_file.specs.DiskStep.{Did, FindFile, FindSoleFile, Hold, HoldStill, Open, SyncFolder};
ghost use Rattle.record_file.specs.Folder.{IsFolderOf};
ghost use Rattle.record_file.specs.declared.disk.Access.TheVariants.{ReadOnly, ReadWrite};
ghost use Rattle.tape_shelf.specs.FoundPart.{AreFoundInPart, FillBlocks, IsRefusedPart};
ghost use Rattle.tape_shelf.specs.ShelfDisk.{InFolder, IsUntaken, part_name, resuming, taking_left};

use crate::found_part::{Found, found_in};
use crate::new_file::{PART, Part};
use crate::saved_tape::tape_room;
use crate::shelf::ShelfFault;
use byte_io::InputFault;
use record_file::{Access, Disk, folder_of, take_up_to};
use request_values::AddressRange;
use std::alloc::Global;

/// Takes up the file beside the one of a name, which an earlier save of these words left, and answers the
/// numbers that are found in it. No file is changed. Its name is on the disk then, which the save that made it may not have
/// come to: `Write` where that can't be.
pub(crate) fn take_left<D: Disk>(
    disk: &mut D,
    alloc: Global,
    name: &str,
    range: AddressRange,
) -> Result<(Part<D::File>, Vec<u16>), ShelfFault>
    ensures named { IfOk result (λ left. string_bytes left.0.name ≡ part_name name.now) }
    ensures new { IfOk result (λ left. left.0.length ≡ 0) }
    ensures kept { IfOk result (λ left. left.0.kept ≡ false → left.1.items ≡ []) }
    ensures found { IfOk result (λ left. FillBlocks range left.1.items) }
    ensures left { IfOk result (λ left. IfSome (D.holds disk.old (part_name name.now)) (λ text. AreFoundInPart range text left.1.items)) }
    ensures fresh { IfOk result (λ left. OnSome (D.asked disk.new) (D.File.contents left.0.file ≡ Some [])) }
    ensures untouched { IfOk result (λ left. OnSome (D.asked disk.new) (D.File.contents left.0.held ≡ Some [])) }
    ensures asked { IfOk result (λ left. (folder : List ℕ) × D.is_opened_as left.0.folder folder × IsFolderOf name.now folder
        × HasAsked (D.asked disk.old) (D.asked disk.new)
        (λ steps. steps ≡ resuming folder (part_name name.now) (D.File.contents left.0.held))) }
    ensures refused { IfErr result (IsRefusedPart range (D.holds disk.old (part_name name.now))) }
    ensures failed { IfErr result (λ fault. HasAsked (D.asked disk.old) (D.asked disk.new) (InFolder name.now (IsUntaken (part_name name.now)) fault)) }
{
    let Ok(folder) = disk.open(Access::ReadOnly, folder_of(name)) else {
        return Err(ShelfFault::Write);
    };
    let Ok(own) = format!(in alloc; "{name}{PART}") else {
        return Err(ShelfFault::Memory);
    };
    match take_named(disk, alloc, own.as_str(), range) {
        Ok((held, file, found)) => {
            if disk.sync_folder(&folder).is_err() {
                return Err(ShelfFault::Write);
            }
            let Found { numbers, kept } = found;
            let part = Part {
                name: own,
                file,
                held,
                folder,
                length: 0,
                kept,
            };
            Ok((part, numbers))
        }
        Err(fault) => Err(fault),
    }
}

// The same of a file of this name: it is held, and opened once more, and this was found in it.
fn take_named<D: Disk>(
    disk: &mut D,
    alloc: Global,
    name: &str,
    range: AddressRange,
) -> Result<(D::File, D::File, Found), ShelfFault>
    ensures kept { IfOk result (λ left. left.2.kept ≡ false → left.2.numbers.items ≡ []) }
    ensures found { IfOk result (λ left. FillBlocks range left.2.numbers.items) }
    ensures left { IfOk result (λ left. IfSome (D.holds disk.old name.now) (λ text. AreFoundInPart range text left.2.numbers.items)) }
    ensures fresh { IfOk result (λ left. OnSome (D.asked disk.new) (D.File.contents left.1 ≡ Some [])) }
    ensures untouched { IfOk result (λ left. OnSome (D.asked disk.new) (D.File.contents left.0 ≡ Some [])) }
    ensures asked { IfOk result (λ left. HasAsked (D.asked disk.old) (D.asked disk.new) (λ steps. steps ≡ taking_left name.now (D.File.contents left.0))) }
    ensures refused { IfErr result (IsRefusedPart range (D.holds disk.old name.now)) }
    ensures failed { IfErr result (λ fault. HasAsked (D.asked disk.old) (D.asked disk.new) (IsUntaken name.now fault)) }
{
    let held = match hold_left(disk, name) {
        Ok(held) => held,
        Err(fault) => return Err(fault),
    };
    let found = match read_left(disk, alloc, name, range) {
        Ok(found) => found,
        Err(fault) => return Err(fault),
    };
    match open_left(disk, name, &held) {
        Ok(file) => Ok((held, file, found)),
        Err(fault) => Err(fault),
    }
}

// Opens and holds a file, where it is a plain one without another name.
fn hold_left<D: Disk>(disk: &mut D, name: &str) -> Result<D::File, ShelfFault>
    ensures untouched { IfOk result (λ file. OnSome (D.asked disk.new) (D.File.contents file ≡ Some [])) }
    ensures asked { OnOk result (HasAsked (D.asked disk.old) (D.asked disk.new) (λ steps. steps ≡
        Did (FindSoleFile name.now) ∷ Did (Open ReadWrite name.now) ∷ Did (Hold name.now) ∷ [])) }
    ensures kept { HoldStill (D.holds disk.old) (D.holds disk.new) }
    ensures refused { IfErr result (λ fault. fault ≡ ShelfFault.PartIsThere) }
    ensures failed { OnErr result (HasAsked (D.asked disk.old) (D.asked disk.new) (IsUntaken name.now ShelfFault.PartIsThere)) }
{
    if !disk.is_sole_file(name) {
        return Err(ShelfFault::PartIsThere);
    }
    match disk.open(Access::ReadWrite, name) {
        Ok(file) => {
            if disk.hold(&file) {
                Ok(file)
            } else {
                Err(ShelfFault::PartIsThere)
            }
        }
        Err(_) => Err(ShelfFault::PartIsThere),
    }
}

// Reads a file, of its own opening, so that nothing is known to be written to the others.
fn read_left<D: Disk>(
    disk: &mut D,
    alloc: Global,
    name: &str,
    range: AddressRange,
) -> Result<Found, ShelfFault>
    ensures kept { IfOk result (λ found. found.kept ≡ false → found.numbers.items ≡ []) }
    ensures found { IfOk result (λ found. FillBlocks range found.numbers.items) }
    ensures left { IfOk result (λ found. IfSome (D.holds disk.old name.now) (λ text. AreFoundInPart range text found.numbers.items)) }
    ensures asked { OnOk result (HasAsked (D.asked disk.old) (D.asked disk.new) (λ steps. steps ≡ Did (Open ReadOnly name.now) ∷ [])) }
    ensures refused { IfErr result (IsRefusedPart range (D.holds disk.old name.now)) }
    ensures soon { IfErr result (λ fault. fault ≡ ShelfFault.Write → ⊥) }
    ensures failed { IfErr result (λ fault. HasAsked (D.asked disk.old) (D.asked disk.new) (IsUntaken name.now fault)) }
{
    let Ok(mut file) = disk.open(Access::ReadOnly, name) else {
        return Err(ShelfFault::PartIsThere);
    };
    let text = match take_up_to(alloc, &mut file, tape_room(range) + 1) {
        Ok(text) => text,
        Err(InputFault::Read) => return Err(ShelfFault::PartIsThere),
        Err(InputFault::Memory) => return Err(ShelfFault::Memory),
    };
    match found_in(alloc, range, &text) {
        Ok(Some(found)) => Ok(found),
        Ok(None) => Err(ShelfFault::NotOfSave),
        Err(_) => Err(ShelfFault::Memory),
    }
}

// Opens a file once more, to be written from its front on, where the one that is held still has its name.
fn open_left<D: Disk>(disk: &mut D, name: &str, held: &D::File) -> Result<D::File, ShelfFault>
    ensures fresh { IfOk result (λ file. OnSome (D.asked disk.new) (D.File.contents file ≡ Some [])) }
    ensures asked { OnOk result (HasAsked (D.asked disk.old) (D.asked disk.new) (λ steps. steps ≡
        Did (Open ReadWrite name.now) ∷ Did (FindFile name.now (D.File.contents held.now)) ∷ [])) }
    ensures refused { IfErr result (λ fault. fault ≡ ShelfFault.PartIsThere) }
    ensures failed { OnErr result (HasAsked (D.asked disk.old) (D.asked disk.new) (IsUntaken name.now ShelfFault.PartIsThere)) }
{
    match disk.open(Access::ReadWrite, name) {
        Ok(file) => {
            if disk.has_name(name, held) {
                Ok(file)
            } else {
                Err(ShelfFault::PartIsThere)
            }
        }
        Err(_) => Err(ShelfFault::PartIsThere),
    }
}
