//! The file of a record, which one load at a time holds.
ghost use Rattle.std.specs.Prelude.{◌≡◌, OnErr, ◌∷◌, [], IfErr, IfOk, IfSome, IsSome, OnSome, None, Some, option_map, false};
ghost use Rattle.std.specs.Io.KnownBytes.{Keeps};
ghost use Rattle.std.specs.Bool.{OnTrue};
ghost use Rattle.record_file.specs.Beginning.{IsLetGo};
ghost use Rattle.host_devices.specs.Told.{HasAsked, Tells};
ghost use Rattle.record_file.specs.DiskStep.{Did, Failed, HoldStill, IsSeen, Look, LookAtName, Open};
ghost use Rattle.record_file.specs.Holding.{IsOpened, hold_steps, IsHeld, IsTry, IsHolding};
ghost use Rattle.record_file.specs.Known.{kind_of};
ghost use Rattle.byte_io.specs.Input.{IsTaken};
ghost use Rattle.record_file.specs.InPlace.{ChangesNoByte, HasRead};
ghost use Rattle.record_file.specs.Reading.{IsWayFound, kind_after};
ghost use Rattle.record_file.specs.RecordFault.{IsUnread};

use crate::disk::{Access, Disk};
use crate::disk_file::{DiskFile, take_up_to};
use crate::file_id::FileId;
use crate::in_place::changes_no_byte;
use crate::made::Made;
use crate::old_record::Writable;
use crate::record_fault::RecordFault;
use load_record::RECORD_LIMIT;
use std::alloc::Global;
use std::fs::Metadata;
use std::io::ErrorKind;
use std::os::unix::fs::FileTypeExt;

// How often a file is opened again that somebody replaces between its opening and its lock.
const ATTEMPTS: u32 = 8;

/// A file that was opened and is not held yet.
#[derive(Drop)]
pub(crate) struct Opened<T: Drop> {
    file: T,
    made: Made,
    writable: bool,
}

/// Why a try holds no file.
pub(crate) enum NotHeld {
    /// Somebody made, removed or replaced the file at the same time.
    Changed,

    /// It is not there, and can't be made.
    Nothing,

    /// It can't be read, or is neither a plain file nor a character device.
    Read,

    /// Somebody else holds it.
    InUse,
}

/// The file of a record, which is held until this value goes: no other load can hold it.
#[derive(Drop)]
pub(crate) struct HeldFile<T: Drop> {
    pub(crate) file: T,
    id: FileId,

    /// Whether it is a device, which has no length and nothing to go back to.
    pub(crate) device: bool,

    /// What stood in it when it was read, once it was.
    standing: Option<Vec<u8>>,

    /// Whether this load made it.
    pub(crate) made: Made,

    /// Whether it may be written.
    writable: bool,
}

impl<T: DiskFile> HeldFile<T> {
    /// All that it holds, or so much that it is too long for a record.
    ///
    /// `Read` comes where reading fails, `Memory` where a growth is refused.
    pub(crate) fn read(&mut self, alloc: Global) -> Result<Vec<u8>, RecordFault>
        ensures fault { IfErr result IsUnread }
        ensures kind { IfOk result (λ text. kind_of self.new ≡ kind_after text.items (kind_of self.old)) }
        ensures standing { IfOk result (λ text. HasRead (λ standing. standing ≡ text.items) self.new) }
        ensures same { OnErr result (kind_of self.new ≡ kind_of self.old) }
        ensures text { IfOk result (λ text. IsTaken (T.unread self.old.file) (T.unread self.new.file) 1048577 text.items) }
        ensures untouched { T.written self.new.file ≡ T.written self.old.file }
    {
        let text = take_up_to(alloc, &mut self.file, RECORD_LIMIT + 1)?;
        let mut standing = Vec::new(alloc);
        standing.extend_from_slice(&text)?;
        self.standing = Some(standing);
        // Another load may have written to it between its making and its lock.
        if !text.is_empty() {
            self.made = Made::Before;
        }
        Ok(text)
    }

    /// Goes back to the beginning, to write this text there. Where a byte that stands there would become
    /// another one it is not written: halfway it would be neither the old record nor the new one.
    pub(crate) fn rewind_for(&mut self, text: &[u8]) -> bool
        ensures kind { kind_of self.new ≡ kind_of self.old }
        ensures agrees { OnTrue result (HasRead (ChangesNoByte text.now) self.old) }
        ensures front { OnTrue result (T.written self.old.file ≡ Some [] → T.contents self.new.file ≡ Some []) }
    {
        let agrees = match &self.standing {
            Some(standing) => changes_no_byte(text, standing),
            None => false,
        };
        if !agrees {
            return false;
        }
        match self.file.go_back() {
            Ok(()) => true,
            Err(_) => false,
        }
    }
}

/// Opens and holds the file of this name, which is made where there is none. None where it is not there
/// and can't be made.
///
/// `Read` comes where it can't be read, or is neither a plain file nor a character device, and `InUse`
/// where somebody else holds it.
pub(crate) fn hold<D: Disk>(
    disk: &mut D,
    name: &str,
) -> Result<Option<HeldFile<D::File>>, RecordFault>
    ensures fault { IfErr result IsUnread }
    ensures text { IfOk result (λ found. IfSome found (λ held. Keeps (D.holds disk.old name.now) (D.File.unread held.file))) }
    ensures plain { IfOk result (λ found. IsSome (D.holds disk.old name.now) → IfSome found (λ held. held.device ≡ false)) }
    ensures untouched { IfOk result (λ found. IfSome found (λ held. OnSome (D.asked disk.new) (D.File.written held.file ≡ Some []))) }
    ensures asked { IfOk result (λ found. HasAsked (D.asked disk.old) (D.asked disk.new) (IsHolding name.now (option_map kind_of found))) }
    ensures failed { OnErr result (HasAsked (D.asked disk.old) (D.asked disk.new) (IsHolding name.now None)) }
{
    for _ in 0..ATTEMPTS {
        match try_hold(disk, name) {
            Ok(held) => return Ok(Some(held)),
            Err(NotHeld::Changed) => {}
            Err(NotHeld::Nothing) => return Ok(None),
            Err(NotHeld::Read) => return Err(RecordFault::Read),
            Err(NotHeld::InUse) => return Err(RecordFault::InUse),
        }
    }
    Err(RecordFault::InUse)
}

// Tries once to open and hold the file of this name.
fn try_hold<D: Disk>(disk: &mut D, name: &str) -> Result<HeldFile<D::File>, NotHeld>
    ensures text { IfOk result (λ held. Keeps (D.holds disk.old name.now) (D.File.unread held.file)) }
    ensures plain { IfOk result (λ held. IsSome (D.holds disk.old name.now) → held.device ≡ false) }
    ensures untouched { IfOk result (λ held. OnSome (D.asked disk.new) (D.File.written held.file ≡ Some [])) }
    ensures kept { HoldStill (D.holds disk.old) (D.holds disk.new) }
    ensures asked { IfOk result (λ held. HasAsked (D.asked disk.old) (D.asked disk.new) (IsTry name.now (Some (kind_of held)))) }
    ensures failed { OnErr result (HasAsked (D.asked disk.old) (D.asked disk.new) (IsTry name.now None)) }
{
    match open(disk, name) {
        Ok(opened) => hold_opened(disk, name, opened),
        Err(reason) => Err(reason),
    }
}

// Holds a file that was opened. It has changed where its name leads to another file by now, whose load may
// have ended between the opening and the lock. It is looked at again, since somebody may have put a pipe in its
// place right before it was opened.
fn hold_opened<D: Disk>(
    disk: &mut D,
    name: &str,
    opened: Opened<D::File>,
) -> Result<HeldFile<D::File>, NotHeld>
    requires { D.is_opened_as opened.file name.now }
    ensures made { IfOk result (λ held. held.made ≡ opened.made) }
    ensures same { IfOk result (λ held. held.file ≡ opened.file) }
    ensures plain { IfOk result (λ held. IsSome (D.File.unread opened.file) → held.device ≡ false) }
    ensures kept { HoldStill (D.holds disk.old) (D.holds disk.new) }
    ensures asked { IfOk result (λ held. HasAsked (D.asked disk.old) (D.asked disk.new) (IsHeld name.now (Some held.device))) }
    ensures failed { OnErr result (HasAsked (D.asked disk.old) (D.asked disk.new) (IsHeld name.now None)) }
{
    let metadata = match opened.file.metadata() {
        Ok(metadata) if can_be_read(&metadata) => metadata,
        _ => return Err(NotHeld::Read),
    };
    // What can be read to its end and is no plain file is one.
    let device = !metadata.is_file();
    if !is_free(disk, name, &opened.file, device) {
        return Err(NotHeld::InUse);
    }
    let id = FileId::from(&metadata);
    match disk.look(name) {
        Ok(named) if FileId::from(&named) == id => Ok(HeldFile {
            file: opened.file,
            id,
            device,
            standing: None,
            made: opened.made,
            writable: opened.writable,
        }),
        _ => Err(NotHeld::Changed),
    }
}

// Holds an open file, but for a device, which nobody holds. False where somebody else holds it.
fn is_free<D: Disk>(disk: &mut D, name: &str, file: &D::File, device: bool) -> bool
    requires { D.is_opened_as file.now name.now }
    ensures asked { Tells (D.asked disk.old) (D.asked disk.new) (hold_steps name.now device result) }
    ensures kept { HoldStill (D.holds disk.old) (D.holds disk.new) }
{
    if device {
        return true;
    }
    disk.hold(file)
}

/// Whether a name leads to a file that is held.
pub(crate) fn is_named<D: Disk>(disk: &mut D, name: &str, held: &HeldFile<D::File>) -> bool
    ensures asked { HasAsked (D.asked disk.old) (D.asked disk.new) (IsSeen (Look name.now) result) }
{
    match disk.look(name) {
        Ok(metadata) => FileId::from(&metadata) == held.id,
        Err(_) => false,
    }
}

/// How a record may be begun anew over a file that is held. A rename does not reach what a link leads to, and
/// leaves the old record under another name; a device is written where it is, whatever was read of it.
pub(crate) fn way_over<D: Disk>(disk: &mut D, name: &str, held: &HeldFile<D::File>) -> Writable
    ensures asked { HasAsked (D.asked disk.old) (D.asked disk.new) (IsWayFound name.now held.now.device result) }
{
    if !held.writable {
        return Writable::No;
    }
    if held.device {
        return Writable::Anew;
    }
    if disk.is_sole_file(name) {
        Writable::Anew
    } else {
        Writable::InPlace
    }
}

/// Lets a file go. One that this load made under this very name, and to which nothing was written, goes
/// with it, while it is held. One that was made where a link leads to stays, empty.
pub(crate) fn let_go<D: Disk>(disk: &mut D, name: &str, held: HeldFile<D::File>)
    ensures asked { HasAsked (D.asked disk.old) (D.asked disk.new) (IsLetGo name.now held.made) }
{
    match held.made {
        Made::Here => {
            if is_named(disk, name, &held) {
                let _ = disk.remove(name);
            }
        }
        Made::Before | Made::BehindLink => {}
    }
}

// Whether a file can be read to its end: it is a plain file or a character device. A pipe would wait for its writer.
fn can_be_read(metadata: &Metadata) -> bool {
    metadata.is_file() || metadata.file_type().is_char_device()
}

// Opens the file of this name, or makes it where there is none. Nothing that can't be read to its end is opened.
fn open<D: Disk>(disk: &mut D, name: &str) -> Result<Opened<D::File>, NotHeld>
    ensures asked { IfOk result (λ opened. HasAsked (D.asked disk.old) (D.asked disk.new) (IsOpened name.now (Some opened.made))) }
    ensures named { IfOk result (λ opened. D.is_opened_as opened.file name.now) }
    ensures text { IfOk result (λ opened. Keeps (D.holds disk.old name.now) (D.File.unread opened.file)) }
    ensures untouched { IfOk result (λ opened. OnSome (D.asked disk.new) (D.File.written opened.file ≡ Some [])) }
    ensures kept { HoldStill (D.holds disk.old) (D.holds disk.new) }
    ensures failed { OnErr result (HasAsked (D.asked disk.old) (D.asked disk.new) (IsOpened name.now None)) }
{
    match disk.look(name) {
        Ok(metadata) if can_be_read(&metadata) => open_found(disk, name),
        Err(error) if error.kind() == ErrorKind::NotFound => make(disk, name),
        _ => Err(NotHeld::Read),
    }
}

// Opens a file that was there a moment ago, to be written if it may be.
fn open_found<D: Disk>(disk: &mut D, name: &str) -> Result<Opened<D::File>, NotHeld>
    ensures asked { IfOk result (λ opened. HasAsked (D.asked disk.old) (D.asked disk.new)
        (λ steps. IsOpened name.now (Some opened.made) (Did (Look name.now) ∷ steps))) }
    ensures named { IfOk result (λ opened. D.is_opened_as opened.file name.now) }
    ensures text { IfOk result (λ opened. Keeps (D.holds disk.old name.now) (D.File.unread opened.file)) }
    ensures untouched { IfOk result (λ opened. OnSome (D.asked disk.new) (D.File.written opened.file ≡ Some [])) }
    ensures kept { HoldStill (D.holds disk.old) (D.holds disk.new) }
    ensures failed { OnErr result (HasAsked (D.asked disk.old) (D.asked disk.new) (λ steps. IsOpened name.now None (Did (Look name.now) ∷ steps))) }
{
    if let Ok(file) = disk.open(Access::ReadWrite, name) {
        return Ok(Opened {
            file,
            made: Made::Before,
            writable: true,
        });
    }
    match disk.open(Access::ReadOnly, name) {
        Ok(file) => Ok(Opened {
            file,
            made: Made::Before,
            writable: false,
        }),
        Err(error) if error.kind() == ErrorKind::NotFound => Err(NotHeld::Changed),
        Err(_) => Err(NotHeld::Read),
    }
}

// Makes a file, also where a link leads to, if it can be made.
fn make<D: Disk>(disk: &mut D, name: &str) -> Result<Opened<D::File>, NotHeld>
    ensures asked { IfOk result (λ opened. HasAsked (D.asked disk.old) (D.asked disk.new)
        (λ steps. IsOpened name.now (Some opened.made) (Failed (Look name.now) ∷ steps))) }
    ensures named { IfOk result (λ opened. D.is_opened_as opened.file name.now) }
    ensures text { IfOk result (λ opened. Keeps (D.holds disk.old name.now) (D.File.unread opened.file)) }
    ensures untouched { IfOk result (λ opened. OnSome (D.asked disk.new) (D.File.written opened.file ≡ Some [])) }
    ensures kept { HoldStill (D.holds disk.old) (D.holds disk.new) }
    ensures failed { OnErr result (HasAsked (D.asked disk.old) (D.asked disk.new) (λ steps. IsOpened name.now None (Failed (Look name.now) ∷ steps))) }
{
    match disk.open(Access::New, name) {
        Ok(file) => Ok(Opened {
            file,
            made: Made::Here,
            writable: true,
        }),
        Err(error) if error.kind() == ErrorKind::AlreadyExists => make_behind_link(disk, name),
        Err(_) => Err(NotHeld::Nothing),
    }
}

// Makes the file that a link leads to. Where the name is no link, somebody has made the file just now.
fn make_behind_link<D: Disk>(disk: &mut D, name: &str) -> Result<Opened<D::File>, NotHeld>
    ensures asked { IfOk result (λ opened. HasAsked (D.asked disk.old) (D.asked disk.new)
        (λ steps. IsOpened name.now (Some opened.made) (Failed (Look name.now) ∷ Failed (Open Access.New name.now) ∷ steps))) }
    ensures named { IfOk result (λ opened. D.is_opened_as opened.file name.now) }
    ensures text { IfOk result (λ opened. Keeps (D.holds disk.old name.now) (D.File.unread opened.file)) }
    ensures untouched { IfOk result (λ opened. OnSome (D.asked disk.new) (D.File.written opened.file ≡ Some [])) }
    ensures kept { HoldStill (D.holds disk.old) (D.holds disk.new) }
    ensures failed { OnErr result (HasAsked (D.asked disk.old) (D.asked disk.new)
        (λ steps. IsOpened name.now None (Failed (Look name.now) ∷ Failed (Open Access.New name.now) ∷ steps))) }
{
    if !is_link(disk, name) {
        return Err(NotHeld::Changed);
    }
    match disk.open(Access::Created, name) {
        Ok(file) => Ok(Opened {
            file,
            made: Made::BehindLink,
            writable: true,
        }),
        Err(_) => Err(NotHeld::Nothing),
    }
}

fn is_link<D: Disk>(disk: &mut D, name: &str) -> bool
    ensures asked { HasAsked (D.asked disk.old) (D.asked disk.new) (IsSeen (LookAtName name.now) result) }
    ensures kept { HoldStill (D.holds disk.old) (D.holds disk.new) }
{
    match disk.look_at_name(name) {
        Ok(metadata) => metadata.is_symlink(),
        Err(_) => false,
    }
}
