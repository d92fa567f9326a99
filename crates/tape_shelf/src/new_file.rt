//! The file of a saved tape, which comes to its name whole and replaces nothing.
ghost use Rattle.std.specs.Prelude.{◌≡◌, ◌+◌, ◌∷◌, List, ℕ, Option, None, Some, [], IfErr, IfOk, IfSome, MatchOption, OnErr, OnOk, OnSome, length, option_map};
ghost use Rattle.std.specs.Prelude.{◌↔◌, IsTrue, false, replicate, true, ⊤};
ghost use Rattle.std.specs.Bool.{OnFalse, OnTrue};
ghost use Rattle.std.specs.Io.KnownBytes.{Appends};
ghost use Rattle.std.specs.String.{string_bytes};
ghost use Rattle.host_devices.specs.Failures.{fault_of};
ghost use Rattle.host_devices.specs.Told.{HasAsked};
ghost use Rattle.record_file.specs.DiskStep.{AreAside, Did, Failed, Hold, HoldStill, LeaveAllBut, Link, Open, SyncFile, SyncFolder};
ghost use Rattle.record_file.specs.DiskStep.{held_behind};
ghost use Rattle.record_file.specs.Folder.{IsFolderOf};
ghost use Rattle.tape_shelf.specs.Shelf.{IsPutFault};
ghost use Rattle.tape_shelf.specs.ShelfDisk.{part_name, making, room_of, syncing, IsNoFileName, IsSearch};
ghost use Rattle.tape_shelf.specs.ShelfDisk.{Place, IsAdding, IsClosed, IsGone, IsNamed, IsNaming, IsPut, IsTakenBack, IsUnmade, InFolder};

use crate::left_part::take_left;
use crate::shelf::{Shelf, ShelfFault};
use byte_io::write_and_flush;
use record_file::{Access, Disk, folder_of};
use request_values::AddressRange;
use std::alloc::Global;
use std::io::ErrorKind;

/// What the name of the file that holds the blocks of a tape has more than the tape's, while a save is on its
/// way.
pub(crate) const PART: &str = ".part";

/// A file that is not there yet, for the tape of a save.
///
/// The tape is written to a file beside it, `PART`, which is made before anything is read, held, and filled
/// with as many bytes 00 as the tape may have, so that a full disk is told then. Each block that is added is on
/// the disk, and from then on that file stays, whatever comes, until it is given the tape's name, whole, and
/// only where nothing has that. One that is there before is left as it is, or gone on with, where an earlier save of
/// the same words left it.
pub struct NewFile<'a, D: Disk> {
    disk: D,
    name: &'a str,
    part: Option<Part<D::File>>,
}

/// The file beside the one of a name.
#[derive(Drop)]
pub(crate) struct Part<T: Drop> {
    /// Its own name.
    pub(crate) name: String,

    /// The file, through which its blocks are written.
    pub(crate) file: T,

    /// The same once more, through which it was filled and is held.
    pub(crate) held: T,

    /// The folder of both names.
    pub(crate) folder: T,

    /// How many bytes were written to it.
    pub(crate) length: u64,

    /// Whether it stays: there is a block in it.
    pub(crate) kept: bool,
}

impl<'a, D: Disk> NewFile<'a, D> {
    /// The file of this name.
    pub fn new(disk: D, name: &'a str) -> NewFile<'a, D>
        ensures disk { result.disk ≡ disk }
        ensures name { result.name.now ≡ name.now }
        ensures room { result.part ≡ None }
    {
        NewFile {
            disk,
            name,
            part: None,
        }
    }

    /// Lets the file go, and gives the disk back. The file beside stays, where there is a block in it.
    pub fn close(self) -> D
        ensures asked { HasAsked (D.asked self.entry.disk) (D.asked result) (IsClosed (option_map (room_of D.File.contents) self.entry.part)) }
    {
        let NewFile {
            mut disk,
            name: _name,
            part,
        } = self;
        if let Some(part) = part {
            leave(&mut disk, &part);
        }
        disk
    }
}

impl<D: Disk> Shelf for NewFile<'_, D> {
    ghost use Rattle.tape_shelf.specs.ShelfTold.{ShelfTold};

    ghost told = { λ shelf. record {
      steps = None;
      disk = Some (record {
        asked = D.asked shelf.disk;
        name = shelf.name.now;
        room = option_map (room_of D.File.contents) shelf.part;
      });
      left = D.holds shelf.disk (part_name shelf.name.now);
    } };

    ghost is_opened_as = { λ shelf folder. IfSome shelf.part (λ files. D.is_opened_as files.folder folder) };

    // `PartIsThere` also comes where another save writes the tape of this name.
    fn reserve(&mut self, alloc: Global, length: usize) -> Result<(), ShelfFault> {
        find_free(&mut self.disk, self.name)?;
        self.part = Some(make_part(&mut self.disk, alloc, self.name, length)?);
        Ok(())
    }

    fn resume(&mut self, alloc: Global, range: AddressRange) -> Result<Vec<u16>, ShelfFault> {
        match take_left(&mut self.disk, alloc, self.name, range) {
            Ok((part, numbers)) => {
                self.part = Some(part);
                Ok(numbers)
            }
            Err(fault) => Err(fault),
        }
    }

    fn add(&mut self, text: &[u8]) -> Result<(), ShelfFault> {
        let Some(mut part) = self.part.take() else {
            return Err(ShelfFault::Write);
        };
        let added = add_to(&mut self.disk, &mut part, text);
        self.part = Some(part);
        added
    }

    fn put(&mut self, text: &[u8]) -> Result<(), ShelfFault> {
        match self.part.take() {
            Some(part) => put_into(&mut self.disk, part, self.name, text),
            None => Err(ShelfFault::Write),
        }
    }
}

// Opens the folder of a name, which nothing has, and makes the file beside, and takes the room of so many
// bytes with it.
fn make_part<D: Disk>(
    disk: &mut D,
    alloc: Global,
    name: &str,
    length: usize,
) -> Result<Part<D::File>, ShelfFault>
    ensures named { IfOk result (λ part. string_bytes part.name ≡ part_name name.now) }
    ensures new { IfOk result (λ part. (part.length ≡ 0) × (part.kept ≡ false)) }
    ensures fresh { IfOk result (λ part. OnSome (D.asked disk.new) (D.File.contents part.file ≡ Some [])) }
    ensures filled { IfOk result (λ part. OnSome (D.asked disk.new) (D.File.contents part.held ≡ Some (replicate length 0))) }
    ensures asked { IfOk result (λ part. (folder : List ℕ) × D.is_opened_as part.folder folder × IsFolderOf name.now folder
        × HasAsked (D.asked disk.old) (D.asked disk.new)
        (λ steps. steps ≡ Did (Open Access.ReadOnly folder) ∷ making (part_name name.now) folder (D.File.contents part.held))) }
    ensures left { IfErr result (λ fault. fault ≡ ShelfFault.PartIsThere → HoldStill (D.holds disk.old) (D.holds disk.new)) }
    ensures failed { IfErr result (λ fault. HasAsked (D.asked disk.old) (D.asked disk.new) (InFolder name.now (IsUnmade (part_name name.now)) fault)) }
{
    let Ok(folder) = disk.open(Access::ReadOnly, folder_of(name)) else {
        return Err(ShelfFault::Write);
    };
    let Ok(own) = format!(in alloc; "{name}{PART}") else {
        return Err(ShelfFault::Memory);
    };
    let Ok(zeros) = vec![in alloc; 0u8; length] else {
        return Err(ShelfFault::Memory);
    };
    match make_filled(disk, own.as_str(), &folder, &zeros) {
        Ok((held, file)) => Ok(Part {
            name: own,
            file,
            held,
            folder,
            length: 0,
            kept: false,
        }),
        Err(fault) => Err(fault),
    }
}

// Makes a file, holds it, takes room by filling it, and opens it once more, to be written from its front on.
// One that can't be filled goes, and one whose name somebody has taken is left to him. The fault is `PartIsThere`
// or `Write`.
fn make_filled<D: Disk>(
    disk: &mut D,
    name: &str,
    folder: &D::File,
    zeros: &[u8],
) -> Result<(D::File, D::File), ShelfFault>
    ensures filled { IfOk result (λ files. (dir : List ℕ) → D.is_opened_as folder.now dir
        → OnSome (D.asked disk.new) (D.File.contents files.0 ≡ Some zeros.now)) }
    ensures fresh { IfOk result (λ files. OnSome (D.asked disk.new) (D.File.contents files.1 ≡ Some [])) }
    ensures made { IfOk result (λ files. (dir : List ℕ) → D.is_opened_as folder.now dir
        → HasAsked (D.asked disk.old) (D.asked disk.new) (λ steps. steps ≡ making name.now dir (D.File.contents files.0))) }
    ensures left { IfErr result (λ fault. fault ≡ ShelfFault.PartIsThere → HoldStill (D.holds disk.old) (D.holds disk.new)) }
    ensures not_made { IfErr result (λ fault. (dir : List ℕ) → D.is_opened_as folder.now dir
        → HasAsked (D.asked disk.old) (D.asked disk.new) (IsUnmade name.now fault)) }
{
    match make_held(disk, name) {
        Ok(mut held) => match take_room(disk, name, folder, &mut held, zeros) {
            Some(file) => {
                if disk.has_name(name, &held) {
                    Ok((held, file))
                } else {
                    Err(ShelfFault::Write)
                }
            }
            None => {
                let_go(disk, name, &held);
                Err(ShelfFault::Write)
            }
        },
        Err(fault) => Err(fault),
    }
}

// Fills a file that was made under a name with these bytes, brings it and its name to the disk, and opens it
// once more. None where that can't be.
fn take_room<D: Disk>(
    disk: &mut D,
    name: &str,
    folder: &D::File,
    held: &mut D::File,
    zeros: &[u8],
) -> Option<D::File>
    ensures filled { OnSome result (Appends (D.File.contents held.old) (D.File.contents held.new) zeros.now) }
    ensures fresh { IfSome result (λ file. OnSome (D.asked disk.new) (D.File.contents file ≡ Some [])) }
    ensures asked { (dir : List ℕ) → D.is_opened_as folder.now dir → IfSome result (λ _. HasAsked (D.asked disk.old) (D.asked disk.new) (λ steps.
        steps ≡ Did (SyncFile (D.File.contents held.new)) ∷ Did (SyncFolder dir) ∷ Did (Open Access.ReadWrite name.now) ∷ [])) }
    ensures failed { (dir : List ℕ) → D.is_opened_as folder.now dir → MatchOption result
        (HasAsked (D.asked disk.old) (D.asked disk.new) (λ steps. LeaveAllBut name.now true steps × (held_behind true steps ≡ true))) (λ _. ⊤) }
{
    if write_and_flush(held, zeros).is_err() {
        return None;
    }
    if disk.sync_file(held).is_err() {
        return None;
    }
    if disk.sync_folder(folder).is_err() {
        return None;
    }
    match disk.open(Access::ReadWrite, name) {
        Ok(file) => Some(file),
        Err(_) => None,
    }
}

// Makes a file, and holds it. The fault is `PartIsThere` where one of its name is there, and `Write` where it
// can't be made, or somebody else holds it.
fn make_held<D: Disk>(disk: &mut D, name: &str) -> Result<D::File, ShelfFault>
    ensures fresh { IfOk result (λ file. OnSome (D.asked disk.new) (D.File.contents file ≡ Some [])) }
    ensures asked { OnOk result (HasAsked (D.asked disk.old) (D.asked disk.new) (λ steps. steps ≡ Did (Open Access.New name.now) ∷ Did (Hold name.now) ∷ [])) }
    ensures failed { IfErr result (λ fault. HasAsked (D.asked disk.old) (D.asked disk.new) (IsUnmade name.now fault)) }
    ensures left { HoldStill (D.holds disk.old) (D.holds disk.new) }
{
    match disk.open(Access::New, name) {
        Ok(file) => {
            if disk.hold(&file) {
                Ok(file)
            } else {
                Err(ShelfFault::Write)
            }
        }
        Err(error) if error.kind() == ErrorKind::AlreadyExists => Err(ShelfFault::PartIsThere),
        Err(_) => Err(ShelfFault::Write),
    }
}

// Writes a text to the file beside, behind what was written there before, and brings it to the disk. Once it
// was written there is a block in it.
fn add_to<D: Disk>(disk: &mut D, beside: &mut Part<D::File>, text: &[u8]) -> Result<(), ShelfFault>
    ensures fault { IfErr result (λ fault. fault ≡ ShelfFault.Write) }
    ensures folder { beside.new.folder ≡ beside.old.folder }
    ensures added { OnOk result (HasAsked (D.asked disk.old) (D.asked disk.new)
        (IsAdding text.now true (Some (room_of D.File.contents beside.old)) (Some (room_of D.File.contents beside.new)))) }
    ensures not_added { OnErr result (HasAsked (D.asked disk.old) (D.asked disk.new)
        (IsAdding text.now false (Some (room_of D.File.contents beside.old)) (Some (room_of D.File.contents beside.new)))) }
{
    let Some(length) = beside.length.checked_add(text.len() as u64) else {
        return Err(ShelfFault::Write);
    };
    if write_and_flush(&mut beside.file, text).is_err() {
        return Err(ShelfFault::Write);
    }
    beside.kept = true;
    beside.length = length;
    if disk.sync_file(&beside.file).is_err() {
        return Err(ShelfFault::Write);
    }
    Ok(())
}

// Writes the last text of a tape to the file beside, and gives that a name that nothing has, in place of its
// own.
fn put_into<D: Disk>(
    disk: &mut D,
    mut part: Part<D::File>,
    name: &str,
    text: &[u8],
) -> Result<(), ShelfFault>
    ensures fault { IfErr result IsPutFault }
    ensures asked { (folder : List ℕ) → D.is_opened_as part.folder folder
        → HasAsked (D.asked disk.old) (D.asked disk.new)
        (IsPut (record { folder = folder; name = name.now }) text.now (Some (room_of D.File.contents part)) (fault_of result)) }
{
    let Some(length) = part.length.checked_add(text.len() as u64) else {
        leave(disk, &part);
        return Err(ShelfFault::Write);
    };
    if write_and_flush(&mut part.file, text).is_err() {
        leave(disk, &part);
        return Err(ShelfFault::Write);
    }
    part.length = length;
    name_written(disk, &part, name)
}

// Brings the file beside to the disk, and then gives it its name, and takes its own away once the folder is on the
// disk, too. Where that fails the new name goes.
fn name_written<D: Disk>(disk: &mut D, part: &Part<D::File>, name: &str) -> Result<(), ShelfFault>
    ensures fault { IfErr result IsPutFault }
    ensures asked { (folder : List ℕ) → D.is_opened_as part.now.folder folder
        → HasAsked (D.asked disk.old) (D.asked disk.new)
        (IsNamed (record { folder = folder; name = name.now }) (room_of D.File.contents part.now) (fault_of result)) }
{
    if !is_on_disk(disk, part) {
        return Err(ShelfFault::Write);
    }
    match give_name(disk, part.name.as_str(), &part.file, name) {
        Ok(()) => {}
        Err(fault) => return Err(fault),
    }
    match disk.sync_folder(&part.folder) {
        Ok(()) => {
            let_go(disk, part.name.as_str(), &part.file);
            Ok(())
        }
        Err(_) => {
            take_back(disk, part.name.as_str(), &part.file, name);
            Err(ShelfFault::Write)
        }
    }
}

// Cuts the file beside behind what was written to it, and brings it to the disk. False where that fails, or
// somebody has taken its name.
fn is_on_disk<D: Disk>(disk: &mut D, part: &Part<D::File>) -> bool
    ensures asked { OnTrue result (HasAsked (D.asked disk.old) (D.asked disk.new) (λ steps. steps ≡ syncing (room_of D.File.contents part.now))) }
    ensures failed { (place : Place) → OnFalse result
        (HasAsked (D.asked disk.old) (D.asked disk.new) (IsNamed place (room_of D.File.contents part.now) (Some ShelfFault.Write))) }
{
    if disk.cut(&part.file, part.length).is_err() {
        return false;
    }
    if disk.sync_file(&part.file).is_err() {
        return false;
    }
    disk.has_name(part.name.as_str(), &part.file)
}

// Takes the new name away from a file, which has its own again. No byte of it is lost.
fn take_back<D: Disk>(disk: &mut D, own: &str, file: &D::File, name: &str)
    ensures asked { HasAsked (D.asked disk.old) (D.asked disk.new) (IsTakenBack own.now name.now (D.File.contents file.now)) }
{
    if disk.has_name(own, file) {
        let_go(disk, name, file);
    } else {
        let _ = disk.rename(file, name, own);
    }
}

// Gives a file another name, which nothing has. Where the file system knows no second names, it is looked
// for right before.
fn give_name<D: Disk>(disk: &mut D, own: &str, file: &D::File, name: &str) -> Result<(), ShelfFault>
    ensures fault { IfErr result IsPutFault }
    ensures asked { HasAsked (D.asked disk.old) (D.asked disk.new) (IsNaming own.now name.now (fault_of result)) }
{
    match disk.link(own, name) {
        Ok(()) => Ok(()),
        Err(error) if error.kind() == ErrorKind::AlreadyExists => Err(ShelfFault::IsThere),
        Err(_) => rename_to_free(disk, own, file, name),
    }
}

// Renames a file, once nothing was found to have the name.
fn rename_to_free<D: Disk>(
    disk: &mut D,
    own: &str,
    file: &D::File,
    name: &str,
) -> Result<(), ShelfFault>
    ensures fault { IfErr result IsPutFault }
    ensures asked { HasAsked (D.asked disk.old) (D.asked disk.new)
        (λ steps. IsNaming own.now name.now (fault_of result) (Failed (Link own.now name.now) ∷ steps)) }
{
    match find_free(disk, name) {
        Ok(()) => match disk.rename(file, own, name) {
            Ok(()) => Ok(()),
            Err(_) => Err(ShelfFault::Write),
        },
        Err(fault) => Err(fault),
    }
}

// Lets the file beside go. It stays, where there is a block in it.
fn leave<D: Disk>(disk: &mut D, part: &Part<D::File>)
    ensures asked { HasAsked (D.asked disk.old) (D.asked disk.new) (IsClosed (Some (room_of D.File.contents part.now))) }
{
    if !part.kept {
        let_go(disk, part.name.as_str(), &part.file);
    }
}

// Takes a name away, where this very file has it.
fn let_go<D: Disk>(disk: &mut D, name: &str, file: &D::File)
    ensures asked { HasAsked (D.asked disk.old) (D.asked disk.new) (IsGone name.now (D.File.contents file.now)) }
{
    if disk.has_name(name, file) {
        let _ = disk.remove(name);
    }
}

// Looks whether nothing has this name, not even a link that leads nowhere. The fault is `IsThere` where
// something has it, and `Write` where nothing can have it or that can't be found out.
fn find_free<D: Disk>(disk: &mut D, name: &str) -> Result<(), ShelfFault>
    ensures fault { IfErr result IsPutFault }
    ensures asked { HasAsked (D.asked disk.old) (D.asked disk.new) (IsSearch name.now (fault_of result)) }
    ensures left { HoldStill (D.holds disk.old) (D.holds disk.new) }
{
    if names_no_file(name) {
        return Err(ShelfFault::Write);
    }
    match disk.look_at_name(name) {
        Ok(_) => Err(ShelfFault::IsThere),
        Err(error) if error.kind() == ErrorKind::NotFound => Ok(()),
        Err(_) => Err(ShelfFault::Write),
    }
}

// Whether no file can have this name: it is empty, or a folder's.
fn names_no_file(name: &str) -> bool
    ensures { IsTrue result ↔ IsNoFileName name.now }
{
    name.is_empty() || name.ends_with('/')
}
