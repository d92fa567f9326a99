//! The stub of a fast load: a program of 63 words that takes an image's bytes from the console, and
//! sends each back as memory then holds it.
//!
//! `stub_words` makes its words, beside their listing; `stub_size` says how many they are, `stub_fits`
//! where a stub may lie. Six functions do nothing; their contracts are the laws. A processor that has
//! these words does what the stub does as the host knows it (`Filling`), as a host sees it at the other
//! end of a line; it acts within 33 instructions, and a silence leaves nothing inside. It writes no
//! byte outside its stretches, and never goes astray. Which stub stands at an address is one function.
//!
//! Used by `exchange_law`, which says what a host sees of it.
#![tactic(auto)]

mod law;
mod place;
mod words;

pub use law::{
    a_stub_runs, stubs_are_found, stubs_are_seen_so, stubs_do_as_told, stubs_keep_up, stubs_rest,
};
pub use place::stub_fits;
pub use words::{stub_size, stub_words};
