//! The report of a memory test: a picture of the board, the words that do not hold, what was found of
//! the bus, and how the test ended.
//!
//! A row of the picture is a bank of 4,096 words, a column a bit of a word, which is a chip of a board. What stands there is
//! a verdict of all tested words of the bank. The bits of a word are all good exactly where it held what it was given
//! (`dots_mean_that_it_holds`). `push_report` puts the whole text, which its contract gives as a function of what was read.
//! No memory is taken. Used by `machine_memory`.
#![tactic(auto)]

mod bad_words;
mod bank;
mod bus_text;
mod end_text;
mod findings;
mod picture;
mod report;
mod test_end;
mod verdict;

pub use findings::{Bus, Findings, Word};
pub use report::{Report, push_report};
pub use test_end::TestEnd;
pub use verdict::{Verdict, dots_mean_that_it_holds};
