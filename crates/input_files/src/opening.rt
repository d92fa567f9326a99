//! Opening files in the order of their names.
ghost use Rattle.std.specs.Prelude.{◌≡◌, ◌+◌, ◌++◌, ◌∷◌, [], length, map, Some, false, is_ok, IfOk, IfErr, OnOk, OnErr};
ghost use Rattle.std.specs.Bool.{OnTrue};
ghost use Rattle.std.specs.Io.Buffered.{reader_remaining};
ghost use Rattle.std.specs.Io.KnownBytes.{Keeps};
ghost use Rattle.std.specs.List.{AllZip};
ghost use Rattle.host_devices.specs.Told.{HasAsked, Tells};
ghost use Rattle.input_files.specs.Opening.{NotOpened, IsTried, AreTried, AreAdded, IsUnbuffered, given_by};
ghost use Rattle.input_files.specs.Source.{source_remaining};
ghost use Rattle.input_files.specs.Taking.{behind_first};

use crate::source::{Role, Source};
use crate::system::InputFiles;
use endings::Failure;
use std::alloc::{AllocError, Global};
use std::io;
use std::io::{BufReader, Read};

// Linux's numbers of these two errors, ENFILE and EMFILE.
const SYSTEM_HAS_TOO_MANY: i32 = 23;

const PROCESS_HAS_TOO_MANY: i32 = 24;

/// Opens a file. It is read ahead, which nobody sees: no one else reads what this program has opened.
///
/// `CannotRead` names it where it can't be opened; `NoMemory` comes only where a growth was refused.
pub fn open<'a, F: InputFiles>(
    rt: &mut F,
    alloc: Global,
    name: &'a str,
) -> Result<BufReader<F::File>, Failure<'a>>
    ensures ok { IfOk result (λ file. HasAsked (F.opened rt.old) (F.opened rt.new)
        (AreAdded (name.entry ∷ []) [] (reader_remaining F.File.remaining file ∷ []))) }
    ensures err { IfErr result (λ failure. HasAsked (F.opened rt.old) (F.opened rt.new) (AreTried (name.entry ∷ []) (Some failure))) }
{
    buffered(alloc, name, rt.open_input(name))
}

/// Opens files of tapes in the order of their names. `CannotRead` has the first that can't be opened.
pub(crate) fn open_all<'a, F: InputFiles>(
    rt: &mut F,
    alloc: Global,
    names: &[&'a str],
) -> Result<Vec<Source<F::File>>, Failure<'a>>
    ensures count { IfOk result (λ files. length files.items ≡ length names.now) }
    ensures ok { IfOk result (λ files. HasAsked (F.opened rt.old) (F.opened rt.new)
        (AreAdded names.now [] (map (source_remaining F.File.remaining) files.items))) }
    ensures err { IfErr result (λ failure. HasAsked (F.opened rt.old) (F.opened rt.new) (AreTried names.now (Some failure))) }
{
    let mut files = Vec::new(alloc);
    open_more(rt, alloc, names, Role::Tape, &mut files)?;
    Ok(files)
}

/// Opens files of tapes and, behind the first of them, that of a script; this is answered apart.
pub(crate) fn open_with_script<'a, F: InputFiles>(
    rt: &mut F,
    alloc: Global,
    tape: &'a str,
    script: &'a str,
    more: &[&'a str],
) -> Result<(Vec<Source<F::File>>, Source<F::File>), Failure<'a>>
    ensures ok { IfOk result (λ files. HasAsked (F.opened rt.old) (F.opened rt.new) (AreAdded (tape.entry ∷ script.entry ∷ more.now) []
        (behind_first (source_remaining F.File.remaining files.1) (map (source_remaining F.File.remaining) files.0.items)))) }
    ensures err { IfErr result (λ failure. HasAsked (F.opened rt.old) (F.opened rt.new) (AreTried (tape.entry ∷ script.entry ∷ more.now) (Some failure))) }
{
    let mut tapes = open_all(rt, alloc, &[tape])?;
    open_more(rt, alloc, &[script], Role::Script, &mut tapes)?;
    open_more(rt, alloc, more, Role::Tape, &mut tapes)?;
    let script_file = tapes.remove(1);
    Ok((tapes, script_file))
}

// Opens further files, in the order of their names.
fn open_more<'a, F: InputFiles>(
    rt: &mut F,
    alloc: Global,
    names: &[&'a str],
    role: Role,
    files: &mut Vec<Source<F::File>>,
) -> Result<(), Failure<'a>>
    ensures count { OnOk result (length files.new.items ≡ length files.old.items + length names.now) }
    ensures ok { OnOk result (HasAsked (F.opened rt.old) (F.opened rt.new)
        (AreAdded names.now (map (source_remaining F.File.remaining) files.old.items) (map (source_remaining F.File.remaining) files.new.items))) }
    ensures err { IfErr result (λ failure. HasAsked (F.opened rt.old) (F.opened rt.new) (AreTried names.now (Some failure))) }
{
    for name in names {
        let file = open_beside(rt, alloc, name, files)?;
        if files.push(Source::Open(role, file)).is_err() {
            return Err(Failure::NoMemory);
        }
    }
    Ok(())
}

// Opens a file beside others.
fn open_beside<'a, F: InputFiles>(
    rt: &mut F,
    alloc: Global,
    name: &'a str,
    others: &mut [Source<F::File>],
) -> Result<BufReader<F::File>, Failure<'a>>
    ensures ok { IfOk result (λ file. HasAsked (F.opened rt.old) (F.opened rt.new)
        (AreAdded (name.entry ∷ []) (map (source_remaining F.File.remaining) others.old)
        (map (source_remaining F.File.remaining) others.new ++ reader_remaining F.File.remaining file ∷ []))) }
    ensures err { IfErr result (λ failure. HasAsked (F.opened rt.old) (F.opened rt.new) (AreTried (name.entry ∷ []) (Some failure))) }
{
    match opened_beside(rt, alloc, name, others) {
        Ok(opened) => buffered(alloc, name, opened),
        Err(_) => Err(Failure::NoMemory),
    }
}

// What comes of opening a file beside others. Where the system has no descriptor left, these are read ahead and
// closed, and the file is opened then.
fn opened_beside<F: InputFiles>(
    rt: &mut F,
    alloc: Global,
    name: &str,
    others: &mut [Source<F::File>],
) -> Result<io::Result<F::File>, AllocError>
    ensures tried { IfOk result (λ opened. HasAsked (F.opened rt.old) (F.opened rt.new) (λ steps.
        IsTried name.now (given_by F.File.remaining opened) steps
        × AllZip Keeps (map (source_remaining F.File.remaining) others.old) (map (source_remaining F.File.remaining) others.new))) }
    ensures starved { OnErr result (Tells (F.opened rt.old) (F.opened rt.new) (NotOpened name.now ∷ [])) }
{
    let opened = rt.open_input(name);
    if !lacks_descriptor(&opened) {
        return Ok(opened);
    }
    read_all_ahead(alloc, others)?;
    Ok(rt.open_input(name))
}

// Puts a buffer before a file, if it was opened by this name.
fn buffered<'a, T: Read + Drop>(
    alloc: Global,
    name: &'a str,
    opened: io::Result<T>,
) -> Result<BufReader<T>, Failure<'a>>
    ensures ok { IfOk result (λ reader. given_by T.remaining opened ≡ Some (reader_remaining T.remaining reader)) }
    ensures err { IfErr result (IsUnbuffered name.entry (is_ok opened)) }
{
    let Ok(file) = opened else {
        return Err(Failure::CannotRead(name));
    };
    match BufReader::new(alloc, file) {
        Ok(reader) => Ok(reader),
        Err(_) => Err(Failure::NoMemory),
    }
}

// Whether a file was not opened since this process, or the whole system, has no descriptor left.
fn lacks_descriptor<T>(opened: &io::Result<T>) -> bool
    ensures { OnTrue result (is_ok opened.now ≡ false) }
{
    match opened {
        Ok(_) => false,
        Err(error) => matches!(
            error.raw_os_error(),
            Some(SYSTEM_HAS_TOO_MANY | PROCESS_HAS_TOO_MANY)
        ),
    }
}

// Reads files ahead and closes them.
fn read_all_ahead<F: Read + Drop>(alloc: Global, files: &mut [Source<F>]) -> Result<(), AllocError>
    ensures { OnOk result (AllZip Keeps (map (source_remaining F.remaining) files.old) (map (source_remaining F.remaining) files.new)) }
{
    for place in 0..files.len() {
        files[place].read_ahead(alloc)?;
    }
    Ok(())
}
