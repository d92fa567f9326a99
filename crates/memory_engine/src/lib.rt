//! The host that tests memory, as the one engine leads it.
//!
//! `put_to_test` lends a testing core to a line. Its contract says that nothing is said but the core's keys, each right behind
//! what was heard, whatever the line and the peer; and that over an honest line each word that counts as tested held what it
//! was given, and memory is what it was but for the word under way, whose number is known. A `WordWatch` is told of that word
//! before the first digit is typed into it. Used by `machine_memory`.
#![tactic(auto)]

mod leading;
mod testing;
mod word_watch;

pub use leading::put_to_test;
pub use memory_core::Borrowed;
pub use testing::{Asked, Testing};
pub use word_watch::{Telling, WordWatch};
