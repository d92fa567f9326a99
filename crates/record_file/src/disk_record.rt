//! A record that is begun anew: the old one is replaced whole, or written over where it is.
ghost use Rattle.std.specs.Prelude.{◌≡◌, [], ◌∷◌, ◌++◌, false, true, length, List, ℕ, None, Option, Some, IfOk, IfErr, IfSome, OnErr, OnOk, OnSome};
ghost use Rattle.std.specs.Prelude.{is_ok, is_some};
ghost use Rattle.std.specs.Io.KnownBytes.{Appends};
ghost use Rattle.host_devices.specs.declared.fault.KeepFault.TheVariants as keep;
ghost use Rattle.load_record.specs.declared.version.Version.TheVariants.{Second};
ghost use Rattle.load_record.specs.Keeper.{Lasts};
ghost use Rattle.load_record.specs.RecordText.{record_text};
ghost use Rattle.record_file.specs.Beginning.{course, new_name, IsAllWritten, IsBeside, IsFileCut, IsMadeReady, IsWrittenOver, IsNotWrittenOver, Replaces};
ghost use Rattle.record_file.specs.DiskRecord.{HasBegun};
ghost use Rattle.record_file.specs.DiskStep.{DiskStep, AreAside, Did, FindSoleFile, HasFailed, Look};
ghost use Rattle.record_file.specs.Folder.{IsFolderOf};
ghost use Rattle.host_devices.specs.Told.{HasAsked};
ghost use Rattle.record_file.specs.InPlace.{ChangesNoByte, HasRead, MayBeWrittenOver};
ghost use Rattle.record_file.specs.RecordFault.{IsUnbegun};
ghost use Rattle.record_file.specs.Known.{kind_of};

use crate::beside::{BESIDE, folder_of, make_new};
use crate::disk::{Access, Disk};
use crate::disk_file::DiskFile;
use crate::durable::DurableWriter;
use crate::held_file::{HeldFile, is_named, let_go};
use crate::in_place::begun_in_memory;
use crate::made::Made;
use crate::record_fault::RecordFault;
use host_devices::KeepFault;
use load_record::FileKeep;
use std::alloc::Global;
use std::io::ErrorKind;
use tape_image::Plan;

/// A record on the disk: what its keeper has flushed survives a loss of power.
pub type DiskRecord<F> = FileKeep<DurableWriter<F>>;

/// Begins a record anew, with the first verified words of a plan, in the place of a file that is held.
///
/// The new record is written to a file beside it, held, synced, and renamed over it; so whatever happens
/// meanwhile, its name leads to the old record or to the new one, and to one that this load holds. None
/// where that can't be done: no file can be made there or be renamed, its folder can't be opened, or the
/// file has a second name, is behind a link or is a device, which a rename would not reach.
///
/// The fault is `Write`, where the new record can't be written, or `Memory`.
pub(crate) fn begin_beside<D: Disk>(
    disk: &mut D,
    name: &str,
    held: &mut HeldFile<D::File>,
    alloc: Global,
    plan: &Plan,
    verified: u32,
) -> Result<Option<DiskRecord<D::File>>, RecordFault>
    ensures begun { IfOk result (λ kept. IfSome kept (HasBegun D.File.contents plan.now verified)) }
    ensures fault { IfErr result IsUnbegun }
    ensures device { held.new.device ≡ held.old.device }
    ensures standing { held.new.standing ≡ held.old.standing }
    ensures old_record { held.new.file ≡ held.old.file }
    ensures asked { HasAsked (D.asked disk.old) (D.asked disk.new)
        (IsBeside name.now (record_text Second plan.now verified false) held.old.made (course is_some result) held.new.made) }
{
    // A rename does not reach what a link leads to, and leaves the old record under another name.
    if !disk.is_sole_file(name) {
        return Ok(None);
    }
    let text = format!(in alloc; "{name}{BESIDE}")?;
    let beside = text.as_str();
    let Ok(folder) = disk.open(Access::ReadOnly, folder_of(name)) else {
        return Ok(None);
    };
    let Some(mut file) = make_beside(disk, beside)? else {
        return Ok(None);
    };
    permit_as(&mut file, &held.file);
    match begun(file, plan, verified) {
        Ok(keeper) => {
            let new = &keeper.writer().file;
            let replaced = replace(disk, name, held, beside, new, &folder)?;
            Ok(replaced.then_some(keeper))
        }
        Err(fault) => {
            let _ = disk.remove(beside);
            Err(RecordFault::from(fault))
        }
    }
}

// Renames the new record over the old one, and brings that to the disk. False where it can't be renamed.
// From the rename on the old file stays, also where this load made it.
fn replace<D: Disk>(
    disk: &mut D,
    name: &str,
    held: &mut HeldFile<D::File>,
    beside: &str,
    new: &D::File,
    folder: &D::File,
) -> Result<bool, RecordFault>
    requires { beside.now ≡ new_name name.now }
    ensures fault { IfErr result IsUnbegun }
    ensures device { held.new.device ≡ held.old.device }
    ensures standing { held.new.standing ≡ held.old.standing }
    ensures old_record { held.new.file ≡ held.old.file }
    ensures asked { (dir text : List ℕ) → D.is_opened_as folder.now dir → IsFolderOf name.now dir
        → OnSome (D.asked disk.old) (Lasts (D.File.on_disk new.now) (Some text))
        → HasAsked (D.asked disk.old) (D.asked disk.new) (Replaces name.now text held.old.made (course (λ is. is) result) held.new.made) }
{
    if !is_named(disk, name, held) {
        let _ = disk.remove(beside);
        return Err(RecordFault::Write);
    }
    if disk.rename(new, beside, name).is_err() {
        let _ = disk.remove(beside);
        return Ok(false);
    }
    held.made = Made::Before;
    match disk.sync_folder(folder) {
        Ok(()) => Ok(true),
        Err(_) => Err(RecordFault::Write),
    }
}

/// Begins a record anew, with the first verified words of a plan, in the file that is held.
///
/// No byte that stands there becomes another one, and what it has more is cut off last; so whatever happens
/// meanwhile, the file is the old record or the new one, or, where it was no more than a front of that, a front
/// of it. The fault is `Write`, also where a byte would be another one, as in a record of version 1, and where
/// the name leads to the held file no more, or `Memory`.
pub(crate) fn begin_in_place<D: Disk>(
    disk: &mut D,
    name: &str,
    mut held: HeldFile<D::File>,
    alloc: Global,
    plan: &Plan,
    verified: u32,
) -> Result<DiskRecord<D::File>, RecordFault>
    ensures begun { IfOk result (HasBegun D.File.contents plan.now verified) }
    ensures over { OnOk result (MayBeWrittenOver (record_text Second plan.now verified false) held) }
    ensures fault { IfErr result IsUnbegun }
    ensures asked { OnOk result (HasAsked (D.asked disk.old) (D.asked disk.new)
        (IsWrittenOver name.now held.made (D.File.written held.file) (record_text Second plan.now verified false) held.device)) }
    ensures failed { IfErr result (λ _. HasAsked (D.asked disk.old) (D.asked disk.new)
        (IsNotWrittenOver name.now held.made (D.File.written held.file) (record_text Second plan.now verified false))) }
{
    let size = match make_ready(disk, name, alloc, plan, verified, &mut held) {
        Ok(size) => size,
        Err(fault) => {
            let_go(disk, name, held);
            return Err(fault);
        }
    };
    let device = held.device;
    let keeper = begun(held.file, plan, verified)?;
    if device {
        return Ok(keeper);
    }
    cut_behind(disk, keeper.writer(), size)?;
    Ok(keeper)
}

// Goes back to its beginning, where the new record may be written there, brings to the disk that it stands in its folder,
// and finds that its name still leads to it: what is written to a file that somebody has removed meanwhile is lost. Answers
// how many bytes it will have, which of a device is no matter.
fn make_ready<D: Disk>(
    disk: &mut D,
    name: &str,
    alloc: Global,
    plan: &Plan,
    verified: u32,
    held: &mut HeldFile<D::File>,
) -> Result<u64, RecordFault>
    ensures size { IfOk result (λ size. held.old.device ≡ false → size ≡ length (record_text Second plan.now verified false)) }
    ensures front { OnOk result (held.old.device ≡ false → D.File.written held.old.file ≡ Some [] → D.File.contents held.new.file ≡ Some []) }
    ensures over { OnOk result (MayBeWrittenOver (record_text Second plan.now verified false) held.old) }
    ensures fault { IfErr result IsUnbegun }
    ensures made { held.new.made ≡ held.old.made }
    ensures device { held.new.device ≡ held.old.device }
    ensures asked { IfOk result (λ _. HasAsked (D.asked disk.old) (D.asked disk.new) (IsMadeReady name.now held.old.made held.old.device)) }
    ensures failed { IfErr result (λ _. HasAsked (D.asked disk.old) (D.asked disk.new) (AreAside (new_name name.now) false)) }
{
    if held.device {
        return Ok(0);
    }
    let size = rewind(alloc, plan, verified, held)?;
    sync_place(disk, name, alloc, held.made)?;
    if is_named(disk, name, held) {
        Ok(size)
    } else {
        Err(RecordFault::Write)
    }
}

// Goes back to a file's beginning, where the record of a plan's first words may be written over what stands there, and
// answers how many bytes that has.
fn rewind<T: DiskFile>(
    alloc: Global,
    plan: &Plan,
    verified: u32,
    held: &mut HeldFile<T>,
) -> Result<u64, RecordFault>
    ensures size { IfOk result (λ size. size ≡ length (record_text Second plan.now verified false)) }
    ensures front { OnOk result (T.written held.old.file ≡ Some [] → T.contents held.new.file ≡ Some []) }
    ensures over { OnOk result (HasRead (ChangesNoByte (record_text Second plan.now verified false)) held.old) }
    ensures kind { kind_of held.new ≡ kind_of held.old }
    ensures fault { IfErr result IsUnbegun }
{
    let keeper = begun_in_memory(alloc, plan, verified)?;
    let text = keeper.writer();
    if held.rewind_for(text) {
        Ok(text.len() as u64)
    } else {
        Err(RecordFault::Write)
    }
}

// Brings to the disk that a file stands in its folder: whoever made it may have died before that was.
fn sync_place<D: Disk>(
    disk: &mut D,
    name: &str,
    alloc: Global,
    made: Made,
) -> Result<(), RecordFault>
    ensures fault { IfErr result IsUnbegun }
    ensures asked { OnOk result (HasAsked (D.asked disk.old) (D.asked disk.new) (λ steps.
        IsMadeReady name.now made false (steps ++ Did (Look name.now) ∷ []) × AreAside (new_name name.now) false steps)) }
    ensures failed { IfErr result (λ _. HasAsked (D.asked disk.old) (D.asked disk.new) (AreAside (new_name name.now) false)) }
{
    let Ok(target) = disk.resolve(alloc, name) else {
        return Err(RecordFault::Write);
    };
    let Ok(folder) = disk.open(Access::ReadOnly, folder_of(target.as_str())) else {
        return without_folder(made);
    };
    match disk.sync_folder(&folder) {
        Ok(()) => Ok(()),
        Err(_) => Err(RecordFault::Write),
    }
}

// What comes of a file whose folder can't be opened: one that this load did not make is written all the same.
fn without_folder(made: Made) -> Result<(), RecordFault>
    ensures fault { IfErr result IsUnbegun }
    ensures done { OnOk result (made ≡ Made.Before) }
{
    match made {
        Made::Before => Ok(()),
        Made::Here | Made::BehindLink => Err(RecordFault::Write),
    }
}

// Makes a file beside the record, and holds it. None where none can be made there, or somebody holds one
// of that name.
fn make_beside<D: Disk>(disk: &mut D, name: &str) -> Result<Option<D::File>, RecordFault>
    ensures fault { IfErr result IsUnbegun }
    ensures fresh { IfOk result (λ made. IfSome made (λ file. OnSome (D.asked disk.new) (D.File.contents file ≡ Some []))) }
    ensures asked { IfOk result (λ made. HasAsked (D.asked disk.old) (D.asked disk.new) (AreAside name.now (is_some made))) }
    ensures stopped { OnErr result (HasAsked (D.asked disk.old) (D.asked disk.new) (AreAside name.now false)) }
    ensures failed { IfOk result (λ made. made ≡ None → HasAsked (D.asked disk.old) (D.asked disk.new) (λ steps. AreAside name.now false steps × HasFailed steps)) }
{
    match make_new(disk, name) {
        Ok(file) => {
            if disk.hold(&file) {
                Ok(Some(file))
            } else {
                Ok(None)
            }
        }
        Err(error) if error.kind() == ErrorKind::StorageFull => Err(RecordFault::Write),
        Err(_) => Ok(None),
    }
}

// Lets others read and write a file as they may another one, where that can be.
fn permit_as<T: DiskFile>(file: &mut T, other: &T)
    ensures same { T.contents file.new ≡ T.contents file.old }
{
    if let Ok(metadata) = other.metadata() {
        let _ = file.set_permissions(metadata.permissions());
    }
}

fn begun<T: DiskFile>(file: T, plan: &Plan, verified: u32) -> Result<DiskRecord<T>, KeepFault>
    ensures written { IfOk result (λ keeper. Appends (T.contents file) keeper.text (record_text Second plan.now verified false)) }
    ensures begun { IfOk result (HasBegun T.contents plan.now verified) }
    ensures fault { IfErr result (λ fault. fault ≡ keep.Write) }
{
    let mut keeper = FileKeep::new(DurableWriter::new(file));
    keeper.begin(plan, verified)?;
    Ok(keeper)
}

// Cuts off what stands behind the first bytes of what was written, so many, and brings that to the disk.
fn cut_behind<D: Disk>(
    disk: &mut D,
    writer: &DurableWriter<D::File>,
    size: u64,
) -> Result<(), RecordFault>
    ensures fault { IfErr result IsUnbegun }
    ensures asked { (before : Option (List ℕ)) (text : List ℕ) → IsAllWritten before text (D.File.contents writer.now.file) → size ≡ length text
        → HasAsked (D.asked disk.old) (D.asked disk.new) (IsFileCut before text (is_ok result)) }
{
    if disk.cut(&writer.file, size).is_err() {
        return Err(RecordFault::Write);
    }
    match disk.sync_file(&writer.file) {
        Ok(()) => Ok(()),
        Err(_) => Err(RecordFault::Write),
    }
}
