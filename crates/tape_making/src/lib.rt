//! A tape of octal words: what each line of their text says, what all of them leave in memory, and the tape
//! of that.
//!
//!     001000 012700 000377      an address, and the words from there on
//!     001000/012700             as ODT shows a word
//!     ; a remark                behind `;` or `#`
//!
//! `read_words` lays the words of a text on a `Sheet`, a byte for each address of memory, or answers the
//! first line that is wrong, by its number, and why. A text says one thing alone (`one_reading`).
//! `make_tape` takes such words of an input and gives the bytes of a tape: the plain text, in rising
//! blocks of 512 bytes at most, with a start. Of the tape is promised that it has each word where the text
//! says it and no other byte, so that `check` lists these words.
#![tactic(auto)]

mod law;
mod line;
mod making;
mod number;
mod refusal;
mod sheet;
mod tape;
mod text;

pub use law::one_reading;
pub use making::{MakeFault, make_tape};
pub use refusal::{REFUSED_WORDS, Refusal, WordsFault, WordsWhy};
pub use sheet::Sheet;
pub use text::{WORDS_LIMIT, read_words};
