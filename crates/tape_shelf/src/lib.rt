//! The place where a new tape goes, and the file that is such a place.
//!
//! A tape is put on a `Shelf` block by block: room for all of it is taken first, a block is on the disk once it
//! was added, and the tape has its place whole, in place of nothing. `NewFile` is the shelf of a real system: its
//! blocks stand in `FILE.part`, which gets the name FILE with the last of them; an earlier one that did not come
//! so far is found again and gone on with, if it is of the same words. Where the disk tells what was asked of it, or
//! what its files hold (`Disk` of `record_file`), the contracts say that, step by step, and what is found there.
//! `block_text` and `last_text` are the texts of the tape of numbers.
//!
//! `machine_look` saves on it, and `requests` puts a tape there that it made; their tests stand in `load_tests`,
//! `record_tests` and `command_tests`.
#![tactic(auto)]

mod found_part;
mod left_part;
mod new_file;
mod saved_tape;
mod shelf;

pub use new_file::NewFile;
pub use saved_tape::{BLOCK_WORDS, block_text, last_text, tape_room, words_of};
pub use shelf::{Shelf, ShelfFault};
