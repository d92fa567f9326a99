//! Making a tape of octal words.
ghost use Rattle.std.specs.Prelude.{◌≡◌, ◌∷◌, [], length, OnOk, IfOk, IfErr};
ghost use Rattle.tape_shelf.specs.Shelf.{Put, Reserve};
ghost use Rattle.tape_shelf.specs.ShelfDisk.{part_name};
ghost use Rattle.tape_shelf.specs.ShelfTold.{HasDone};
ghost use Rattle.request_values.specs.Change.{◌⇒◌};
ghost use Rattle.requests.specs.Making.{AreWordsMade, AreWordsUnmade};
ghost use Rattle.requests.specs.Making.{IsNotPutOn, IsNotPutWhole, IsPutOn};
ghost use Rattle.requests.specs.Moment.{moment};
ghost use Rattle.requests.specs.Saving.{new_shelf};

use crate::request_fault::RequestFault;
use crate::system::{Kinds, System};
use endings::{Failure, FaultOutput, Output, Status, Streams};
use record_file::Disk;
use request_values::Make;
use std::alloc::Global;
use std::io::Read;
use tape_commands::tape_of_words;
use tape_shelf::{NewFile, Shelf, ShelfFault};

/// Makes a tape of octal words in a new file, in a system that comes back, and answers the exit status.
///
/// Nothing is printed, and no console is asked for. The disk is asked once the bytes of the tape are there, so where the
/// words are refused nothing is asked of it, and what is told then is that.
///
/// `CannotRead` names the words' file, or standard input, `WordsRefused` has the first line that is wrong. `FileIsThere`,
/// `PartIsThere` and `CannotWriteFile` name the new file, which is then as it was. `NoMemory` comes only where a growth
/// was refused, with no tape put there.
pub(crate) fn make_words<'a, K: Kinds, R: Read, W: Output, E: FaultOutput>(
    system: System<K>,
    alloc: Global,
    make: Make<'a>,
    streams: &mut Streams<R, W, E>,
) -> (System<K>, Result<Status, Failure<'a>>)
    ensures ok { IfOk result.1 (AreWordsMade make.entry (moment K.Disk.holds system streams.old ⇒ moment K.Disk.holds result.0 streams.new)) }
    ensures err { IfErr result.1 (AreWordsUnmade make.entry (moment K.Disk.holds system streams.old ⇒ moment K.Disk.holds result.0 streams.new)) }
    ensures quiet { streams.new.err ≡ streams.old.err }
{
    let System {
        mut inputs,
        disk,
        consoles,
        clock,
    } = system;
    match tape_of_words(&mut inputs, alloc, make, streams) {
        Ok(text) => {
            let (disk, put) = put_on(disk, alloc, make.file, &text);
            let system = System::new(inputs, disk, consoles, clock);
            (system, put)
        }
        Err(failure) => {
            let system = System::new(inputs, disk, consoles, clock);
            (system, Err(failure))
        }
    }
}

// Puts a whole tape into a new file on a disk, which comes back.
fn put_on<'a, D: Disk + Drop>(
    disk: D,
    alloc: Global,
    file: &'a str,
    text: &[u8],
) -> (D, Result<Status, Failure<'a>>)
    ensures ok { IfOk result.1 (IsPutOn file.entry text.now (new_shelf file.entry (D.asked disk) (D.holds disk (part_name file.now))) (D.asked result.0)) }
    ensures err { IfErr result.1
        (IsNotPutOn file.entry text.now (new_shelf file.entry (D.asked disk) (D.holds disk (part_name file.now))) (D.asked result.0)) }
{
    let mut shelf = NewFile::new(disk, file);
    let put = put_whole(alloc, text, &mut shelf);
    let disk = shelf.close();
    match put {
        Ok(()) => (disk, Ok(Status::Done)),
        Err(fault) => {
            // There is no console, so that no fault names one.
            let failure = RequestFault::Shelf(fault).failure(file, file);
            (disk, Err(failure))
        }
    }
}

// Takes the room of a whole tape, and puts it there.
fn put_whole<S: Shelf>(alloc: Global, text: &[u8], shelf: &mut S) -> Result<(), ShelfFault>
    ensures ok { OnOk result (HasDone (Reserve (length text.now) ∷ Put text.now ∷ []) (S.told shelf.old) (S.told shelf.new)) }
    ensures err { IfErr result (λ fault. IsNotPutWhole text.now fault (S.told shelf.old) (S.told shelf.new)) }
{
    match shelf.reserve(alloc, text.len()) {
        Ok(()) => shelf.put(text),
        Err(fault) => Err(fault),
    }
}
