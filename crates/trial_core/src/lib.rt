//! What a host decides that tries whether a console forgets digits: which character to type next.
//!
//! `Trial` opens one word, types three digits into it and then `Z`, an illegal key: a console that
//! forgets them leaves the word as it was. Of the keys that ODT knows it types digits and `/` alone, so
//! no CR, which stores, and no `G`, which starts a program. On its way it notes the console's style, and
//! whether a small letter that it types last, at the prompt, comes back as it is.
//!
//! The contract of `step` is the table of the phases. Which digits are typed depends on what the word
//! holds: they tell a console that stores them from one that forgets. `looking_law` shows what this
//! means for a machine, `looking_engine` lends the trial to a line, and `machine_probe` looks before and
//! behind it.
#![tactic(auto)]

mod digits;
mod habit;
mod letter;
mod phase;
mod style;
mod table;
mod trial;
mod turn;

pub use digits::digits_for;
pub use habit::{Habit, Seen};
pub use letter::SmallLetters;
pub use phase::{End, Phase};
pub use trial::{Trial, TrialStep};
