//! The image of an absolute loader tape, as the words that a host types into a machine.
//!
//! A `Plan` is made of a tape, or of several as one. It shows the image (which byte the tape leaves at which
//! address), the words of the image, each with a mask for the bytes that are the tape's, and the program's start,
//! which `starting` may replace. `merge` lays a word over an old one, `stands` says whether it is there already.
//!
//! The contract: the words are those of the image, for each even address with a byte at it or after it, and
//! merging them into any memory, in any order, lays the image over that memory and changes no other byte.
//! `host_core` types the words, `line_world` shows that they are safe, and `tape_commands` lists them.
#![tactic(auto)]

mod page;
mod pages;
mod plan;
mod start;
mod word;

pub use plan::Plan;
pub use start::Start;
pub use word::{BOTH_BYTES, HIGH_BYTE, LOW_BYTE, Word, merge, stands};
