//! Where files are: what is asked of the system for a record, and for the tape of a save.
ghost use Rattle.std.specs.Prelude.{◌≡◌, [], ◌∷◌, ℕ, List, Option, None, IfOk, OnSome, ⊤};
ghost use Rattle.std.specs.Io.KnownBytes.{Keeps};
ghost use Rattle.record_file.specs.DiskStep.{Look, LookAtName, FindSoleFile, FindFile, Open, Hold, Link, Rename, Remove, SyncFolder, Cut, SyncFile};
ghost use Rattle.host_devices.specs.Told.{Tells};
ghost use Rattle.record_file.specs.DiskStep.{DiskStep, HoldStill, answered, resolved, step_by};

use crate::disk_file::{DiskFile, SystemFile};
use crate::file_id::{found_same, found_sole};
use crate::locks::Locks;
use crate::synced::synced;
use std::alloc::Global;
use std::fs::{File, Metadata, OpenFile, OpenOptions};
use std::path::PathBuf;
use std::{fs, io};

/// How a file is opened.
#[derive(Clone, Copy)]
pub enum Access {
    /// To be read.
    ReadOnly,

    /// To be read and written.
    ReadWrite,

    /// The same, and it is made, where nothing has its name.
    New,

    /// The same, and it is made where it is not there, also where a link leads to.
    Created,
}

impl Access {
    ghost use Rattle.std.specs.Prelude.{◌≡◌};
    ghost use Rattle.record_file.specs.Access.{options_of};

    // The options of the system.
    fn options(self) -> OpenOptions
        ensures { result ≡ options_of self }
    {
        let mut options = File::options();
        options.read(true);
        match self {
            Access::ReadOnly => {}
            Access::ReadWrite => {
                options.write(true);
            }
            Access::New => {
                options.write(true).create_new(true);
            }
            Access::Created => {
                options.write(true).create(true);
            }
        }
        options
    }
}

/// A system of files, as far as a record and the tape of a save need it.
///
/// A reference to any system that locks files is one, and tells nothing of what was asked of it.
pub trait Disk {
    /// An open file.
    type File: DiskFile;

    /// What was asked so far, in its order, with whether it went well; None where the type doesn't tell, or
    /// does so no longer.
    ghost asked: { Self → Option (List DiskStep) } = { λ _. None };

    /// Whether a file was opened under a name, and nothing was done with it since.
    ghost is_opened_as: { Self.File → List ℕ → Type 0 } = { λ _ _. ⊤ };

    /// What the plain file that a name leads to holds, as far as the type tells.
    ghost holds: { Self → List ℕ → Option (List ℕ) } = { λ _ _. None };

    /// What a name leads to.
    fn look(&mut self, name: &str) -> io::Result<Metadata>
        ensures asked { Tells (asked self.old) (asked self.new) (answered (Look name.now) result ∷ []) }
        ensures kept { HoldStill (holds self.old) (holds self.new) };

    /// What stands under the name itself, which may be a link.
    fn look_at_name(&mut self, name: &str) -> io::Result<Metadata>
        ensures asked { Tells (asked self.old) (asked self.new) (answered (LookAtName name.now) result ∷ []) }
        ensures kept { HoldStill (holds self.old) (holds self.new) };

    /// Whether a plain file stands under the name itself, which has no other name.
    fn is_sole_file(&mut self, name: &str) -> bool
        ensures asked { Tells (asked self.old) (asked self.new) (step_by (FindSoleFile name.now) result ∷ []) }
        ensures kept { HoldStill (holds self.old) (holds self.new) };

    /// Whether an open file stands under the name itself.
    fn has_name(&mut self, name: &str, file: &Self::File) -> bool
        ensures asked { Tells (asked self.old) (asked self.new) (step_by (FindFile name.now (Self.File.contents file.now)) result ∷ []) };

    /// The name without links to which this one leads.
    fn resolve(&mut self, alloc: Global, name: &str) -> io::Result<PathBuf<Global>>
        ensures asked { Tells (asked self.old) (asked self.new) (resolved name.now result ∷ []) };

    /// Opens a file, at its front; one that is there stays as it is. One of a disk that tells what it was
    /// asked tells what is written to it from there on.
    fn open(&mut self, access: Access, name: &str) -> io::Result<Self::File>
        ensures asked { Tells (asked self.old) (asked self.new) (answered (Open access name.now) result ∷ []) }
        ensures opened { IfOk result (λ file. is_opened_as file name.now) }
        ensures fresh { IfOk result (λ file. OnSome (asked self.new) (Self.File.contents file ≡ Some [])) }
        ensures untouched { IfOk result (λ file. OnSome (asked self.new) (Self.File.written file ≡ Some [])) }
        ensures text { IfOk result (λ file. Keeps (holds self.old name.now) (Self.File.unread file)) }
        ensures kept { HoldStill (holds self.old) (holds self.new) };

    /// Holds an open file until it is closed, which the program's death does, too. False where somebody
    /// else holds it. Where the file system knows no locks nobody can hold it, and it counts as held.
    fn hold(&mut self, file: &Self::File) -> bool
        ensures asked { (name : List ℕ) → is_opened_as file.now name → Tells (asked self.old) (asked self.new) (step_by (Hold name) result ∷ []) }
        ensures kept { HoldStill (holds self.old) (holds self.new) };

    /// Gives a file a second name, which nothing has.
    fn link(&mut self, from: &str, to: &str) -> io::Result<()>
        ensures asked { Tells (asked self.old) (asked self.new) (answered (Link from.now to.now) result ∷ []) };

    /// Gives an open file another name in place of the one that it has, whatever has it: which of its bytes are on the
    /// disk is told with it.
    fn rename(&mut self, file: &Self::File, from: &str, to: &str) -> io::Result<()>
        ensures asked { Tells (asked self.old) (asked self.new) (answered (Rename from.now to.now (Self.File.on_disk file.now)) result ∷ []) };

    /// Takes a name away.
    fn remove(&mut self, name: &str) -> io::Result<()>
        ensures asked { Tells (asked self.old) (asked self.new) (answered (Remove name.now) result ∷ []) };

    /// Brings to the disk which files are in an open folder. One that has no disk behind it counts as synced.
    fn sync_folder(&mut self, folder: &Self::File) -> io::Result<()>
        ensures asked { (name : List ℕ) → is_opened_as folder.now name → Tells (asked self.old) (asked self.new) (answered (SyncFolder name) result ∷ []) };

    /// Cuts off what stands in a file behind this length, in bytes.
    fn cut(&mut self, file: &Self::File, length: u64) -> io::Result<()>
        ensures asked { Tells (asked self.old) (asked self.new) (answered (Cut (Self.File.contents file.now) length) result ∷ []) };

    /// Brings a file to the disk. One that has no disk behind it counts as synced.
    fn sync_file(&mut self, file: &Self::File) -> io::Result<()>
        ensures asked { Tells (asked self.old) (asked self.new) (answered (SyncFile (Self.File.contents file.now)) result ∷ []) };
}

impl<F: Locks> Disk for &F {
    type File = SystemFile<F::File>;

    fn look(&mut self, name: &str) -> io::Result<Metadata> {
        fs::metadata(*self, name)
    }

    fn look_at_name(&mut self, name: &str) -> io::Result<Metadata> {
        fs::symlink_metadata(*self, name)
    }

    fn is_sole_file(&mut self, name: &str) -> bool {
        found_sole(&fs::symlink_metadata(*self, name))
    }

    fn has_name(&mut self, name: &str, file: &SystemFile<F::File>) -> bool {
        found_same(&fs::symlink_metadata(*self, name), &file.metadata())
    }

    fn resolve(&mut self, alloc: Global, name: &str) -> io::Result<PathBuf<Global>> {
        self.canonicalize(alloc, name)
    }

    fn open(&mut self, access: Access, name: &str) -> io::Result<SystemFile<F::File>> {
        match access.options().open(*self, name) {
            Ok(file) => Ok(SystemFile { file }),
            Err(error) => Err(error),
        }
    }

    fn hold(&mut self, file: &SystemFile<F::File>) -> bool {
        Locks::hold(*self, &file.file)
    }

    fn link(&mut self, from: &str, to: &str) -> io::Result<()> {
        fs::hard_link(*self, from, to)
    }

    fn rename(&mut self, _file: &SystemFile<F::File>, from: &str, to: &str) -> io::Result<()> {
        fs::rename(*self, from, to)
    }

    fn remove(&mut self, name: &str) -> io::Result<()> {
        fs::remove_file(*self, name)
    }

    fn sync_folder(&mut self, folder: &SystemFile<F::File>) -> io::Result<()> {
        synced(folder.file.sync_all())
    }

    fn cut(&mut self, file: &SystemFile<F::File>, length: u64) -> io::Result<()> {
        file.file.set_len(length)
    }

    fn sync_file(&mut self, file: &SystemFile<F::File>) -> io::Result<()> {
        synced(file.file.sync_all())
    }
}
