//! Bytes in and out: an input's first bytes, a text written whole, numbers in texts.
//!
//! `read_up_to` takes the first bytes of an input and no others, `write_whole` writes a text or says
//! that something of it is missing, `write_and_flush` flushes it too, and none asks a device again
//! that has failed. `put_decimal` and `put_octal` put numbers at the end of a text that is gathered;
//! `push_decimal`, `push_octal` and their like put things into room that was made before, and can't fail.
//!
//! `endings`, `input_files` and the crates of the commands stand on it, and `load_record`, which writes its lines whole.
#![tactic(auto)]

mod input;
mod output;
mod room;
mod text;

pub use input::{InputFault, read_up_to};
pub use output::{WriteFault, write_and_flush, write_whole};
pub use room::{push_bytes, push_decimal, push_octal};
pub use text::{put_decimal, put_octal};
