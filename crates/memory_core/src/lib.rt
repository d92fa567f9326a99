//! What a host decides that tests memory: which character to type next to see whether words hold what they are given.
//!
//! `MemoryCore` turns over the words at a list of addresses, one after another: it reads a word twice, deposits the
//! complement of what it held, reads it, puts back what it held, and reads it again. Nothing is deposited before two looks
//! read alike. It is told what was heard, a character or that nothing came, and answers the character to send: a digit,
//! `/`, CR or `Z`, never `G`. What it read of each word it keeps, right or wrong: a word that won't hold is no mishap.
//!
//! The contract of `step` is the table of the phases. What a word held is kept from the moment it was read twice until it is
//! read again there, whatever is heard. A life sends at most the testing bound. `memory_law` shows what this means for a
//! machine.
#![tactic(auto)]

mod life;
mod memory;
mod phase;
mod seen;
mod stage;
mod table;
mod turn;

pub use memory::MemoryCore;
pub use phase::{End, Phase, Visit};
pub use seen::{Readings, Seen};
pub use stage::{Borrowed, Stage};
