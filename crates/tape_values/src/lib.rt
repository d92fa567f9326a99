//! A tape as a value: its blocks, in their order, and its start.
//!
//! A block is an address and the bytes to be stored from there on, and each ends at or below 160000
//! (octal), where memory ends. `Tape::new` is the test which blocks make a tape, and says of others why
//! they make none; `Tape::written_length` says how long the plain text of a tape is.
//!
//! `tape_blocks` reads a text as a tape and writes a tape as one, `tape_image` makes words of the blocks.
#![tactic(auto)]

mod block;
mod memory;
mod tape;

pub use block::{Block, FRAME, TOP, low_bytes_first};
pub use memory::{Memory, OUT_OF_MEMORY};
pub use tape::{BadTape, TAPE_LIMIT, Tape};
