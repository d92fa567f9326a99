//! Reads and writes absolute loader tapes (.LDA), as the RT-11 Software Support Manual lays them
//! out. A tape is a row of blocks, and bytes 00 may stand before and between them:
//!
//!     01 00             mark
//!     low high          count of the bytes from the 01 to the last data byte
//!     low high          address of the first data byte
//!     data bytes        count - 6 of them
//!     checksum          makes the sum of the whole block 0 modulo 256
//!
//! A block of count 6 is the transfer block: it ends the tape, and its address starts the program.
//!
//! The contract: `read_tape` answers a tape exactly where one begins the input, and else the one
//! fault of the input, at its place; `TapeReader` answers the same of any pieces, and `read_from` of
//! an input, of which it takes the tape alone; `read_with_layout` tells, too, where each block began;
//! `write_tape` gives the plain text, which reads as the same tape.
//! What a tape is, as a value, stands in `tape_values`, and is passed on here; `input_files` reads the tapes of
//! the commands.
#![tactic(auto)]

mod checksum;
mod fault;
mod head;
mod input;
mod law;
mod layout;
mod partial_tape;
mod reader;
mod reader_state;
mod writer;

pub use fault::{Fault, FaultText, REFUSED_AT, ReadError, TAPE, Why};
pub use input::{FromError, read_from, read_with_layout};
pub use law::{one_reading, one_tape};
pub use layout::Layout;
pub use reader::{Fed, TapeReader, read_tape};
pub use tape_values::{BadTape, Block, Memory, OUT_OF_MEMORY, TOP, Tape};
pub use writer::{push_block, write_tape};
