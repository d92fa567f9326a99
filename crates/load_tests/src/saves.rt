//! A save of one word, on a shelf that tells what is done on it.

use crate::memory_consoles::{MemoryConsoles, new_machine};
use crate::shelf_note::ShelfNote;
use crate::told_shelf::{ToldShelf, save_on_shelf};
use machine_look::{SaveEnd, SaveOptions};
use reading_core::Care;
use request_values::AddressRange;
use std::alloc::Global;
use std::process::Abort;

// Where the word is that is saved, and which it is.
const ADDRESS: u16 = 0o001000;

const WORD: u16 = 0o011064;

/// The tape of that word, which starts there.
pub(crate) const TAPE: [u8; 16] = [
    0x01, 0x00, 0x08, 0x00, 0x00, 0x02, 0x34, 0x12, 0xAF, 0x01, 0x00, 0x06, 0x00, 0x00, 0x02, 0xF7,
];

/// The word is saved, with its start, of a machine that has it; none where there was no memory.
pub(crate) fn one_word(alloc: Global) -> Option<(SaveOptions, MemoryConsoles)> {
    let options = SaveOptions {
        range: AddressRange::new(ADDRESS, ADDRESS)?,
        start: ADDRESS,
        patience: 8,
        care: Care::Twice,
    };
    let mut odt = new_machine(alloc)?;
    odt.put(ADDRESS, WORD);
    Some((options, MemoryConsoles::new(alloc, Some(odt))))
}

// Whether a save of it takes room for the whole tape, and then puts that.
fn is_put<R: Abort>(shelf: &mut ToldShelf<'_, R>, alloc: Global) -> Option<bool> {
    let (options, mut consoles) = one_word(alloc)?;
    let mut report = Vec::new(alloc);
    let end = save_on_shelf(alloc, options, shelf, &mut consoles, &mut report);
    let is_saved = matches!(end, Ok(SaveEnd::Saved));
    match shelf.notes.as_slice() {
        [ShelfNote::Reserved(16), ShelfNote::Put(text)] => {
            Some(is_saved && text.as_slice() == TAPE.as_slice())
        }
        _ => None,
    }
}

#[test]
fn room_for_a_tape_is_taken_before_it_is_put(rt: HostRuntime) {
    let mut shelf = ToldShelf::new(&rt, rt.alloc());
    assert!(rt; is_put(&mut shelf, rt.alloc()) == Some(true));
}
