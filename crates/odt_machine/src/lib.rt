//! A simulated LSI-11 console: the machine's memory and its console ODT, key by key, after the console
//! ODT chapter of DEC's Microcomputer Processor Handbook.
//!
//! `Odt::take` is one typed key: it changes the mode, stores a word where a carriage return ends a deposit, and
//! answers what the console prints. Its contract is the key table of `specs/KeyTable.antt`, and above it the laws
//! that a reader would ask for: memory changes only where typed digits are closed by a return, and only that
//! word; an illegal key stores nothing; a running machine answers nothing; an answer has nine characters at most.
//!
//! Contracts see a machine as its style, its memory as a list of words, and its mode. Only `Odt::new` takes
//! memory. Used by `line_world`, `honest_line` and the commands.

#![tactic(auto)]

mod answer;
mod character;
mod key;
mod machine;
mod mode;
mod style;

pub use answer::Answer;
pub use character::{CARRIAGE_RETURN, LINE_FEED, SPACE};
pub use machine::{LARGEST_WORDS, Odt, OdtError};
pub use mode::Mode;
pub use style::{LARGEST_STYLE, PLAIN_STYLE, Style};
