//! A shelf in memory that tells what is done on it.
ghost use Rattle.std.specs.Prelude.{◌≡◌, ◌∷◌, [], ◌++◌, OnOk, map};
ghost use Rattle.load_tests.specs.Told.{IsTapePut};
ghost use Rattle.load_tests.specs.ToldShelf.{noted, step_of};

use crate::memory_consoles::{CALLED, MemoryConsoles};
use crate::shelf_note::ShelfNote;
use host_devices::Unwatched;
use machine_look::{LookFault, SaveEnd, SaveOptions, save};
use request_values::AddressRange;
use std::alloc::Global;
use std::io::Write;
use std::process::Abort;
use tape_shelf::{Shelf, ShelfFault};

/// A shelf with room for every tape, and no part of one. Where there is no memory for one note more the process ends,
/// since a list that lacks one would be wrong.
#[derive(Drop)]
pub(crate) struct ToldShelf<'a, R: Abort> {
    rt: &'a R,
    alloc: Global,
    pub(crate) notes: Vec<ShelfNote>,
}

impl<'a, R: Abort> ToldShelf<'a, R> {
    /// A shelf on which nothing was done yet.
    pub(crate) fn new(rt: &'a R, alloc: Global) -> ToldShelf<'a, R> {
        ToldShelf {
            rt,
            alloc,
            notes: Vec::new(alloc),
        }
    }

    // A text, to be told.
    fn copy(&self, text: &[u8]) -> Vec<u8>
        ensures { result.items ≡ text.now }
    {
        Vec::from_slice(self.alloc, text).expect(self.rt, "no memory")
    }

    // Puts a note behind the list.
    fn tell(&mut self, note: ShelfNote)
        ensures { map step_of self.new.notes.items ≡ map step_of self.old.notes.items ++ step_of note ∷ [] }
    {
        self.notes.push(note).expect(self.rt, "no memory");
    }
}

impl<'a, R: Abort> Shelf for ToldShelf<'a, R> {
    ghost told = { λ shelf. noted shelf.notes.items };

    fn reserve(&mut self, _alloc: Global, length: usize) -> Result<(), ShelfFault> {
        self.tell(ShelfNote::Reserved(length));
        Ok(())
    }

    fn resume(&mut self, _alloc: Global, _range: AddressRange) -> Result<Vec<u16>, ShelfFault> {
        self.tell(ShelfNote::NotResumed);
        Err(ShelfFault::PartIsThere)
    }

    fn add(&mut self, text: &[u8]) -> Result<(), ShelfFault> {
        let text = self.copy(text);
        self.tell(ShelfNote::Added(text));
        Ok(())
    }

    fn put(&mut self, text: &[u8]) -> Result<(), ShelfFault> {
        let text = self.copy(text);
        self.tell(ShelfNote::Put(text));
        Ok(())
    }
}

/// Saves words of a machine in memory. What `save` promises of the steps that are done on its shelf, is so of this one,
/// which tells.
pub(crate) fn save_on_shelf<R: Abort, W: Write>(
    alloc: Global,
    options: SaveOptions,
    shelf: &mut ToldShelf<'_, R>,
    consoles: &mut MemoryConsoles,
    out: &mut W,
) -> Result<SaveEnd, LookFault>
    ensures { OnOk result (IsTapePut options (noted shelf.old.notes.items) (noted shelf.new.notes.items)) }
{
    save(alloc, options, shelf, consoles, CALLED, out, &Unwatched)
}
