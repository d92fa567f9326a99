//! Octal text of a word: the six digits that a console of a PDP-11 prints and reads.
//!
//! `oct6` writes a word as six octal digits, `read_oct6` reads them back, `Octal` shows them where a
//! text is formatted, and `with_digit` is one step of typing a number: the digit joins at the right and what passes sixteen bits falls off.
//! The contracts give each answer exactly: a word has one octal text, and a text is read only
//! where it is the text of a word. Nothing here takes memory.
//!
//! Used by the simulated console, the host that types into it, and the program's texts.

#![tactic(auto)]

mod digit;
mod text;

pub use digit::with_digit;
pub use text::{Octal, oct6, read_oct6};
