ghost use Rattle.std.specs.Prelude.{◌≡◌, ◌+◌, ◌*◌, ◌≤◌, [], None, length, OnErr, OnOk};
ghost use Rattle.tape_values.specs.Block.{top};
ghost use Rattle.machine_look.specs.Adding.{AddsAll, AddsNoNumber, AddsNumber, HasAdded, blocks_at};
ghost use Rattle.tape_shelf.specs.ShelfAt.{shelf_at};

use crate::failures::Failures;
use arrayvec::ArrayVec;
use engine::Keep;
use host_devices::KeepFault;
use tape_shelf::{BLOCK_WORDS, Shelf, block_text};

// How many bytes a block has, and where the last one may begin.
const BLOCK_BYTES: u16 = 512;

const LAST_BEGINNING: u16 = 0o157000;

/// Puts each block of the numbers that it is given on a shelf, as soon as it is full.
#[derive(Drop)]
pub(crate) struct Blocks<'a, S> {
    pub(crate) shelf: &'a mut S,

    // Where the block under way begins, and its numbers so far.
    pub(crate) from: u16,
    pub(crate) numbers: ArrayVec<u16, BLOCK_WORDS>,
    failures: Failures,
}

impl<'a, S: Shelf> Blocks<'a, S> {
    /// Before the first number, which stands in memory at this address.
    pub(crate) fn new(from: u16, shelf: &'a mut S) -> Blocks<'a, S>
        ensures from { result.from ≡ from }
        ensures empty { result.numbers.items ≡ [] }
        ensures shelf { result.shelf.now ≡ shelf.old }
        ensures same_reference { result.shelf.ghost_name ≡ shelf.entry.ghost_name }
    {
        Blocks {
            shelf,
            from,
            numbers: ArrayVec::new(),
            failures: Failures::NONE,
        }
    }

    /// Keeps the numbers that were found, up to one whose block can't be added.
    pub(crate) fn keep_found(&mut self, found: &[u16]) -> Result<(), KeepFault>
        requires empty { self.old.numbers.items ≡ [] }
        requires below { self.old.from + 2 * length found.now ≤ top }
        ensures added { OnOk result (HasAdded self.old.from found.now (shelf_at S.Shelf self.old.shelf.now)
            (blocks_at self.new.from self.new.numbers.items (shelf_at S.Shelf self.new.shelf.now) self.new.shelf.ghost_name)) }
        ensures not_added { OnErr result (AddsAll None self.old.from found.now
            (shelf_at S.Shelf self.old.shelf.now) (shelf_at S.Shelf self.new.shelf.now)) }
        ensures same_reference { self.new.shelf.ghost_name ≡ self.old.shelf.ghost_name }
    {
        for number in found {
            if let Err(fault) = self.add_number(*number) {
                return Err(fault);
            }
        }
        Ok(())
    }

    // One number more, and the block that it fills. `Full` comes past the top of memory.
    fn add_number(&mut self, number: u16) -> Result<(), KeepFault>
        ensures added { OnOk result (AddsNumber
            (blocks_at self.old.from self.old.numbers.items (shelf_at S.Shelf self.old.shelf.now) self.old.shelf.ghost_name) number
            (blocks_at self.new.from self.new.numbers.items (shelf_at S.Shelf self.new.shelf.now) self.new.shelf.ghost_name)) }
        ensures not_added { OnErr result (AddsNoNumber
            (blocks_at self.old.from self.old.numbers.items (shelf_at S.Shelf self.old.shelf.now) self.old.shelf.ghost_name) number
            (blocks_at self.new.from self.new.numbers.items (shelf_at S.Shelf self.new.shelf.now) self.new.shelf.ghost_name)) }
        ensures same_failures { self.new.failures ≡ self.old.failures }
    {
        if self.numbers.is_full() {
            return Err(KeepFault::Full);
        }
        self.numbers.push(number);
        if !self.numbers.is_full() {
            return Ok(());
        }
        if self.from > LAST_BEGINNING {
            return Err(KeepFault::Full);
        }
        let text = block_text(self.from, &self.numbers, 0);
        self.from += BLOCK_BYTES;
        self.numbers.clear();
        match self.shelf.add(&text) {
            Ok(()) => Ok(()),
            Err(_) => Err(KeepFault::Write),
        }
    }
}

impl<S: Shelf> Keep<u16> for Blocks<'_, S> {
    ghost use Rattle.machine_look.specs.Adding.{AddsNoNumber, AddsNumber, blocks_at};
    ghost use Rattle.tape_shelf.specs.ShelfAt.{shelf_at};

    ghost keeps = { λ old number new. AddsNumber
        (blocks_at old.from old.numbers.items (shelf_at S.Shelf old.shelf.now) old.shelf.ghost_name) number
        (blocks_at new.from new.numbers.items (shelf_at S.Shelf new.shelf.now) new.shelf.ghost_name) };

    ghost fails = { λ old number new. AddsNoNumber
        (blocks_at old.from old.numbers.items (shelf_at S.Shelf old.shelf.now) old.shelf.ghost_name) number
        (blocks_at new.from new.numbers.items (shelf_at S.Shelf new.shelf.now) new.shelf.ghost_name) };

    ghost fault_count = { λ blocks. blocks.failures.count };

    ghost last_fault = { λ blocks. blocks.failures.last };

    fn keep(&mut self, number: u16) -> Result<(), KeepFault> {
        let added = self.add_number(number);
        self.failures = self.failures.behind(added);
        added
    }
}
