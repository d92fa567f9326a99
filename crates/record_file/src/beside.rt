//! A file beside another, which comes to that one's name once it is written.
ghost use Rattle.std.specs.Prelude.{◌≡◌, [], false, IfErr, IfOk, OnSome, Some};
ghost use Rattle.host_devices.specs.Told.{HasAsked};
ghost use Rattle.record_file.specs.DiskStep.{AreAside, HasFailed};
ghost use Rattle.record_file.specs.Folder.{IsFolderOf};

use crate::disk::{Access, Disk};
use std::io;
use std::io::ErrorKind;

/// What the name of a file beside another has more than that one's.
pub const BESIDE: &str = ".ldaodt-new";

/// The folder in which a file of this name is.
pub fn folder_of(name: &str) -> &str
    ensures { IsFolderOf name.now result.now }
{
    match name.rsplit_once('/') {
        None => ".",
        Some((folder, _)) if folder.is_empty() => "/",
        Some((folder, _)) => folder,
    }
}

/// Makes a file that is not there. One of its name that a program left which was killed goes before.
pub fn make_new<D: Disk>(disk: &mut D, name: &str) -> io::Result<D::File>
    ensures named { IfOk result (λ file. D.is_opened_as file name.now) }
    ensures fresh { IfOk result (λ file. OnSome (D.asked disk.new) (D.File.contents file ≡ Some [])) }
    ensures asked { HasAsked (D.asked disk.old) (D.asked disk.new) (AreAside name.now false) }
    ensures failed { IfErr result (λ _. HasAsked (D.asked disk.old) (D.asked disk.new) (λ steps. AreAside name.now false steps × HasFailed steps)) }
{
    match disk.open(Access::New, name) {
        Err(error) if error.kind() == ErrorKind::AlreadyExists => make_again(disk, name, error),
        made => made,
    }
}

// Makes a file in the place of one that was left. Where it was not left, it stays, and the error is the
// given one.
fn make_again<D: Disk>(disk: &mut D, name: &str, error: io::Error) -> io::Result<D::File>
    ensures named { IfOk result (λ file. D.is_opened_as file name.now) }
    ensures fresh { IfOk result (λ file. OnSome (D.asked disk.new) (D.File.contents file ≡ Some [])) }
    ensures asked { HasAsked (D.asked disk.old) (D.asked disk.new) (AreAside name.now false) }
{
    if !is_left(disk, name) {
        return Err(error);
    }
    let _ = disk.remove(name);
    disk.open(Access::New, name)
}

// Whether a file was left by a program that is over: nobody holds it.
fn is_left<D: Disk>(disk: &mut D, name: &str) -> bool
    ensures asked { HasAsked (D.asked disk.old) (D.asked disk.new) (AreAside name.now result) }
{
    match disk.look_at_name(name) {
        Ok(metadata) if metadata.is_file() => match disk.open(Access::ReadOnly, name) {
            Ok(file) => disk.hold(&file),
            Err(_) => false,
        },
        _ => false,
    }
}
